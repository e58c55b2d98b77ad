//! Whole numbers of any size.
ghost use Rattle.std.specs.Prelude.{◌≡◌, ◌+◌, string_bytes, IfOk, OnOk, OnErr};
ghost use Rattle.capture_generator.specs.Counts.{whole};
ghost use Rattle.capture_generator.specs.Inner.Digits.{one_greater, carried};

use relay_base::Memory;
use std::alloc::{AllocError, Global};
use std::marker::Model;

/// A whole number of any size, which counts. A clause sees it as the number.
#[derive(Drop)]
pub struct Count {
    /// Its decimal digits, from the least on. 0 has none.
    digits: Vec<u8>,
}

impl Model for Count {
    ghost use Rattle.std.specs.Prelude.{ℕ};
    ghost use Rattle.capture_generator.specs.Inner.Digits.{number_of, AreDigits};

    ghost Value = { ℕ };

    ghost view = { λ c. number_of c.digits.items };

    ghost invariant = { λ c. AreDigits c.digits.items };
}

/// Makes the number one greater that the digits write, from the least on. Whether a digit 1 is still to be put at the top.
fn carries(digits: &mut [u8]) -> bool
    ensures { carried result digits.new ≡ one_greater digits.old }
{
    for digit in digits.iter_mut() {
        if *digit < 9 {
            *digit += 1;
            return false;
        }
        *digit = 0;
    }
    true
}

impl Count {
    /// Nothing is counted yet.
    pub fn new(alloc: Global) -> Count
        ensures { result ≡ 0 }
    {
        Count {
            digits: Vec::new(alloc),
        }
    }

    /// Counts one more.
    pub fn add_one(&mut self) -> Result<(), Memory>
        ensures ok { OnOk result (self.new ≡ self.old + 1) }
        ensures err { OnErr result (self.new ≡ self.old) }
    {
        self.digits.reserve(1)?;
        if carries(self.digits.as_mut_slice()) {
            self.digits.push_reserved(1);
        }
        Ok(())
    }

    /// The number in decimal digits.
    pub fn text(&self, alloc: Global) -> Result<String, AllocError>
        ensures { IfOk result (λ t. string_bytes t ≡ whole self.now) }
    {
        if self.digits.is_empty() {
            return String::from_str(alloc, "0");
        }
        let mut text = String::new(alloc);
        for digit in self.digits.iter().rev() {
            write!(text, "{digit}")?;
        }
        Ok(text)
    }
}
