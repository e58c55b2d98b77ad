//! The two ends of a connection.
ghost use Rattle.std.specs.Prelude.{◌≡◌, ◌<◌, ℕ, Some, IfOk};
ghost use Rattle.section_model.specs.Ends.{Connection};
ghost use Rattle.section_model.specs.Step.{names};
ghost use Rattle.section_coupling.specs.Duos.{end_named, end_numbered};
ghost use Rattle.section_coupling.specs.Views.{connection_at};

use crate::side::Side;
use relay_base::{Memory, Ref24};
use std::alloc::Global;

/// One of the two ends of a connection.
#[derive(Clone, Copy)]
pub enum EndName {
    This,
    That,
}

impl EndName {
    /// The end of a number, 0 or 1.
    pub fn numbered(side: u8) -> EndName
        requires { side < 2 }
        ensures { (c : Connection) → end_named result c ≡ end_numbered side c }
    {
        if side == 0 {
            EndName::This
        } else {
            EndName::That
        }
    }
}

/// A connection.
pub struct Pair {
    pub this: Side,
    pub that: Side,
}

impl Drop for Pair {
    fn drop(self) {
        let Self {
            this: _this,
            that: _that,
        } = self;
    }
}

impl Pair {
    /// An equal connection.
    pub fn copy(&self, alloc: Global) -> Result<Pair, Memory>
        ensures { IfOk result (λ copy. copy ≡ self.now) }
    {
        Ok(Pair {
            this: self.this.copy(alloc)?,
            that: self.that.copy(alloc)?,
        })
    }

    /// Whether a reference is that of a section of it which isn't gone.
    pub fn has(&self, reference: Ref24) -> bool
        ensures { (now : ℕ) → result ≡ names (Some reference) (connection_at now self.now) }
    {
        self.this.is_named(reference) || self.that.is_named(reference)
    }
}
