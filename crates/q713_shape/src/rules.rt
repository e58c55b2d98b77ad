//! What the rules of a message type say of its parameters.
ghost use Rattle.std.specs.Prelude.{◌≡◌};
ghost use Rattle.q713_shape.specs.Format.{is_length_of, is_long, option_count};
ghost use Rattle.q713_shape.specs.Rules.{names_of};

use relay_base::limits::LONGEST_PARAMETER;

/// A variable parameter: its name, and the least and the greatest number of its octets. The length of a parameter that
/// may have more than 255 octets has two octets, the least significant first, and every other length has one (Q.713, 2.3).
#[derive(Clone, Copy)]
pub struct VarRule {
    pub name: u8,
    pub least: u16,
    pub most: u16,
}

impl VarRule {
    /// Whether the parameter's length has two octets.
    pub fn is_long(&self) -> bool
        ensures { result ≡ is_long self.now }
    {
        usize::from(self.most) > LONGEST_PARAMETER
    }

    /// Whether the parameter may have this many octets.
    pub fn allows(&self, len: usize) -> bool
        ensures { result ≡ is_length_of self.now len }
    {
        usize::from(self.least) <= len && len <= usize::from(self.most)
    }
}

/// Whether a message type has an optional part, and the names that it may have, in the order of writing.
#[derive(Clone, Copy)]
pub enum OptionRule {
    Absent,
    Names(&'static [u8]),
}

impl OptionRule {
    /// How many pointers the optional part has: one, where there is such a part.
    pub fn count(&self) -> usize
        ensures { result ≡ option_count (names_of self.now) }
    {
        match self {
            OptionRule::Absent => 0,
            OptionRule::Names(_) => 1,
        }
    }
}
