//! The fields of a message as the octets of its parts.
ghost use Rattle.std.specs.Prelude.{◌≡◌, ◌<◌};
ghost use Rattle.std.specs.Option.{option_map};
ghost use Rattle.q713_codec.specs.Messages.{in_one, octets3};

use relay_base::limits::REFERENCES;
use relay_base::{Octets, Ref24};
use std::slice;

/// The octets of a reference, the least significant one first: of a local reference (Q.713, 3.2 and 3.3), and of that of segments
/// (Q.713, 3.17).
pub fn octets3(reference: Ref24) -> [u8; 3]
    ensures value { result ≡ octets3 reference }
    ensures range { reference < REFERENCES }
{
    let number = reference.number();
    [
        (number % 256) as u8,
        (number / 256 % 256) as u8,
        (number / 65_536 % 256) as u8,
    ]
}

/// The octets of an optional parameter of one octet.
pub fn octet(value: &Option<u8>) -> Option<&[u8]>
    ensures { option_map (λ v. v.now) result ≡ in_one value.now }
{
    match value {
        Some(octet) => Some(slice::from_ref(octet)),
        None => None,
    }
}

/// The octets of an optional parameter of four octets.
pub fn four(value: &Option<[u8; 4]>) -> Option<&[u8]>
    ensures { option_map (λ v. v.now) result ≡ value.now }
{
    match value {
        Some(octets) => Some(octets),
        None => None,
    }
}

/// The octets of an optional address or data.
pub fn octets(value: &Option<Octets>) -> Option<&[u8]>
    ensures { option_map (λ v. v.now) result ≡ value.now }
{
    match value {
        Some(octets) => Some(octets.as_slice()),
        None => None,
    }
}
