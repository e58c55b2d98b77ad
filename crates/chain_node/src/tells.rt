//! What users are told.
ghost use Rattle.std.specs.Prelude.{◌≡◌, ◌++◌, [], length, take, OnOk, OnErr};

use relay_base::{Memory, Tell};
use std::alloc::Global;
use std::marker::Model;

/// What users are told, each with the number of its node.
#[derive(Drop)]
pub struct TellList {
    tells: Vec<(u8, Tell)>,
}

impl Model for TellList {
    ghost use Rattle.std.specs.Prelude.{ℕ, List};
    ghost use Rattle.relay_base.specs.declared.words.Tell.{Tell};

    ghost Value = { List (ℕ × Tell) };

    ghost view = { λ l. l.tells.items };
}

impl TellList {
    /// Nothing.
    pub fn new(alloc: Global) -> TellList
        ensures { result ≡ [] }
    {
        TellList {
            tells: Vec::new(alloc),
        }
    }

    pub fn as_slice(&self) -> &[(u8, Tell)]
        ensures { result.now ≡ self.now }
    {
        self.tells.as_slice()
    }

    pub fn len(&self) -> usize
        ensures { result ≡ length self.now }
    {
        self.tells.len()
    }

    /// Puts more at the end.
    pub(crate) fn append(&mut self, mut more: Vec<(u8, Tell)>) -> Result<(), Memory>
        ensures ok { OnOk result (self.new ≡ self.old ++ more.items) }
        ensures err { OnErr result (self.new ≡ self.old) }
    {
        self.tells.append(&mut more)?;
        Ok(())
    }

    /// Keeps so many.
    pub(crate) fn truncate(&mut self, count: usize)
        ensures { self.new ≡ take count self.old }
    {
        self.tells.truncate(count);
    }
}
