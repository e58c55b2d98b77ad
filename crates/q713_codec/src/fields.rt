//! The fields of a message in the values of its parts.
ghost use Rattle.std.specs.Prelude.{◌≡◌, ◌+◌, ◌<◌, [], length, slice_index_or};
ghost use Rattle.std.specs.Option.{option_map};
ghost use Rattle.q713_shape.specs.Parts.{slices, optional_slices};
ghost use Rattle.q713_codec.specs.Messages.{reference_at, two_at, protocol_class, one_octet, four_octets};

use relay_base::Ref24;

/// The reference at a place of the fixed part, with its least significant octet first (Q.713, 3.2 and 3.3).
pub fn reference(fixed: &[u8], place: usize) -> Ref24
    requires { place + 2 < length fixed.now }
    ensures { result ≡ reference_at place fixed.now }
{
    let low = u32::from(fixed[place]);
    let middle = u32::from(fixed[place + 1]);
    let high = u32::from(fixed[place + 2]);
    Ref24::new(low + 256 * middle + 65_536 * high).unwrap()
}

/// The two octets at a place of the fixed part.
pub fn pair(fixed: &[u8], place: usize) -> [u8; 2]
    requires { place + 1 < length fixed.now }
    ensures { result ≡ two_at place fixed.now }
{
    [fixed[place], fixed[place + 1]]
}

/// The protocol class, 0 to 15, in its octet (Q.713, 3.6).
pub fn protocol_class(octet: u8) -> u8
    ensures { result ≡ protocol_class octet }
{
    octet % 16
}

/// The variable parameter at a place.
pub fn variable<'a>(vars: &[&'a [u8]; 3], place: usize) -> &'a [u8]
    requires { place < 3 }
    ensures { result.now ≡ slice_index_or (slices vars.now) place [] }
{
    vars[place]
}

/// The optional parameter at a place.
pub fn optional<'a>(options: &[Option<&'a [u8]>; 5], place: usize) -> Option<&'a [u8]>
    requires { place < 5 }
    ensures { let value = slice_index_or (optional_slices options.now) place None
        in option_map (λ v. v.now) result ≡ value }
{
    options[place]
}

/// The optional parameter of one octet at a place.
pub fn octet(options: &[Option<&[u8]>; 5], place: usize) -> Option<u8>
    requires { place < 5 }
    ensures { result ≡ one_octet (slice_index_or (optional_slices options.now) place None) }
{
    one(optional(options, place))
}

fn one(value: Option<&[u8]>) -> Option<u8>
    ensures { result ≡ one_octet (option_map (λ v. v.now) value.entry) }
{
    match value {
        Some([octet]) => Some(*octet),
        _ => None,
    }
}

/// The optional parameter of four octets at a place.
pub fn four(options: &[Option<&[u8]>; 5], place: usize) -> Option<[u8; 4]>
    requires { place < 5 }
    ensures { result ≡ four_octets (slice_index_or (optional_slices options.now) place None) }
{
    array_of(optional(options, place))
}

fn array_of(value: Option<&[u8]>) -> Option<[u8; 4]>
    ensures { result ≡ four_octets (option_map (λ v. v.now) value.entry) }
{
    match value {
        Some([a, b, c, d]) => Some([*a, *b, *c, *d]),
        _ => None,
    }
}
