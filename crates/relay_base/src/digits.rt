//! The digits of a global title.
ghost use Rattle.std.specs.Prelude.{◌≡◌, ◌<◌, ◌≤◌, ◌==◌, [], ◌∷◌, ◌++◌, length, All, nat_eq};
ghost use Rattle.std.specs.List.{starts_with};

use crate::limits::{DIGIT_VALUES, MOST_DIGITS};
use crate::numbers::Digit;
use std::marker::Model;

/// At most 24 digits, kept in place. A clause sees their list.
#[derive(Clone, Copy, PartialEq, Eq)]
pub struct Digits {
    digits: [u8; MOST_DIGITS],
    count: usize,
}

impl Model for Digits {
    ghost use Rattle.std.specs.Prelude.{ℕ, List, length, take};
    ghost use Rattle.relay_base.specs.Inner.Filling.{IsFilled, padded, padded-take, length-filled};

    ghost Value = { List ℕ };

    ghost view = { λ d. take d.count d.digits };

    ghost invariant = { λ d. IsFilled d.digits d.count };

    ghost inverse = { λ l. record { digits = padded l; count = length l } };

    ghost inverse_ok = { λ d h i. record {
      digits = padded-take d.digits d.count h i;
      count = length-filled d.digits d.count h i;
    } };
}

impl Digits {
    /// No digits.
    pub fn new() -> Digits
        ensures { result ≡ [] }
    {
        Digits {
            digits: [0; MOST_DIGITS],
            count: 0,
        }
    }

    /// Puts a digit at the end.
    pub fn push(&mut self, digit: Digit)
        requires { length self.old < MOST_DIGITS }
        ensures { self.new ≡ self.old ++ digit ∷ [] }
    {
        self.digits[self.count] = digit.number() as u8;
        self.count += 1;
    }

    pub fn as_slice(&self) -> &[u8]
        ensures value { result.now ≡ self.now }
        ensures small { All (λ d. d < DIGIT_VALUES) result.now }
        ensures few { length result.now ≤ MOST_DIGITS }
    {
        &self.digits[..self.count]
    }

    pub fn len(&self) -> usize
        ensures value { result ≡ length self.now }
        ensures few { length self.now ≤ MOST_DIGITS }
    {
        self.count
    }

    pub fn is_empty(&self) -> bool
        ensures { result ≡ (length self.now == 0) }
    {
        self.count == 0
    }

    /// Whether these digits begin with the prefix.
    pub fn starts_with(&self, prefix: &Digits) -> bool
        ensures { result ≡ starts_with nat_eq self.now prefix.now }
    {
        self.as_slice().starts_with(prefix.as_slice())
    }
}
