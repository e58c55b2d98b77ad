//! The local references that the connections of a node took.
ghost use Rattle.std.specs.Prelude.{◌≡◌, ◌≤◌, ◌+◌, ◌||◌, ℕ, [], false, OnOk};
ghost use Rattle.chain_step.specs.Fresh.{is_among};
ghost use Rattle.chain_node.specs.Inner.Taking.{is_it, had};

use relay_base::{Memory, Ref24};
use std::alloc::Global;
use std::collections::HashSet;
use std::marker::Model;

/// The local references that the connections of a node took, and whether one was taken twice.
#[derive(Drop)]
pub struct References {
    taken: HashSet<u32>,
    twice: bool,
}

impl Model for References {
    ghost use Rattle.std.specs.HashSet.{spare};
    ghost use Rattle.chain_node.specs.Inner.Taking.{ReferencesState};

    ghost Value = { ReferencesState };

    ghost view = { λ r.
        record { taken = r.taken.keys; twice = r.twice; room = spare r.taken } };
}

impl References {
    /// None was taken.
    pub fn new(alloc: Global) -> References
        ensures taken { result.taken ≡ [] }
        ensures twice { result.twice ≡ false }
    {
        References {
            taken: HashSet::new(alloc),
            twice: false,
        }
    }

    /// Whether one was taken twice.
    pub fn is_twice(&self) -> bool
        ensures { result ≡ self.now.twice }
    {
        self.twice
    }

    /// Takes memory for so many.
    pub fn reserve(&mut self, count: usize) -> Result<(), Memory>
        ensures taken { (r : ℕ) → is_among r self.new.taken ≡ is_among r self.old.taken }
        ensures twice { self.new.twice ≡ self.old.twice }
        ensures room { OnOk result (count ≤ self.new.room) }
    {
        self.taken.reserve(count)?;
        Ok(())
    }

    /// An end takes a reference, if it does.
    pub fn take(&mut self, mine: Option<Ref24>)
        requires room { 1 ≤ self.old.room }
        ensures taken { (r : ℕ) →
            is_among r self.new.taken ≡ (is_it mine r || is_among r self.old.taken) }
        ensures twice { self.new.twice ≡ (self.old.twice || had mine self.old.taken) }
        ensures room { self.old.room ≤ self.new.room + 1 }
    {
        if let Some(mine) = mine {
            let Ok(is_new) = self.taken.insert(mine.number()) else {
                unreachable!()
            };
            self.twice = self.twice || !is_new;
        }
    }
}
