//! Numbers of a stated range. A clause sees each as its number.
ghost use Rattle.std.specs.Prelude.{◌≡◌, ℕ, ◌<◌, SomeIff};

use crate::limits::{DIGIT_VALUES, LINK_SELECTIONS, POINT_CODES, REFERENCES, SUBSYSTEM_NUMBERS};
use std::marker::Model;

/// A number below a limit.
#[derive(Clone, Copy, Debug, PartialEq, Eq)]
pub struct Below<const LIMIT: u32> {
    number: u32,
}

impl<const LIMIT: u32> Model for Below<LIMIT> {
    ghost Value = { ℕ };

    ghost view = { λ b. b.number };

    ghost invariant = { λ b. b.number < LIMIT };

    ghost inverse = { λ n. record { number = n } };
}

impl<const LIMIT: u32> Below<LIMIT> {
    /// None exactly where the number isn't below the limit.
    pub fn new(number: u32) -> Option<Below<LIMIT>>
        ensures { SomeIff result (number < LIMIT) number }
    {
        if number < LIMIT {
            Some(Below { number })
        } else {
            None
        }
    }

    pub fn number(self) -> u32
        ensures value { result ≡ self.entry }
        ensures range { self.entry < LIMIT }
    {
        self.number
    }
}

/// A point code, of 14 bits.
pub type Pc = Below<POINT_CODES>;

/// A local reference, of 24 bits.
pub type Ref24 = Below<REFERENCES>;

/// A signalling link selection, of 4 bits.
pub type Sls = Below<LINK_SELECTIONS>;

/// A subsystem number, of 8 bits.
pub type Ssn = Below<SUBSYSTEM_NUMBERS>;

/// A digit of a global title, of 4 bits.
pub type Digit = Below<DIGIT_VALUES>;

impl From<u8> for Below<SUBSYSTEM_NUMBERS> {
    ghost from_gives = { λ n s. s ≡ n };

    fn from(number: u8) -> Below<SUBSYSTEM_NUMBERS> {
        Below {
            number: u32::from(number),
        }
    }
}
