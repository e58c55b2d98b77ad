//! Whole lines.
ghost use Rattle.std.specs.Prelude.{◌<◌, ◌^◌, length};

/// Octets that end with a line or with the input, fewer than are counted in 32 bits.
#[derive(Drop)]
pub struct WholeLines<'a> {
    pub octets: &'a [u8],
    ghost few: { length octets.now < 2 ^ 32 },
}
