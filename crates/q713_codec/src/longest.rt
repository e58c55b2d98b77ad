//! The longest message that isn't LUDT or LUDTS.
ghost use Rattle.std.specs.Prelude.{◌≡◌};
ghost use Rattle.q713_codec.specs.Longest.{is_too_long};

/// The most octets of a message that isn't LUDT or LUDTS.
pub const LONGEST: usize = 268;

/// Whether octets are longer than a message may be that isn't LUDT or LUDTS.
pub fn is_too_long(bytes: &[u8]) -> bool
    ensures { result ≡ is_too_long bytes.now }
{
    bytes.len() > LONGEST && !(bytes[0] == 0x13 || bytes[0] == 0x14)
}
