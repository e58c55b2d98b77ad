//! The index of the local references of a lane (Q.714, 3.3.2).
ghost use Rattle.std.specs.Prelude.{◌≡◌, ◌<◌, ◌+◌, replicate, None, Some, IfOk};
ghost use Rattle.section_model.specs.References.{slot_of};
ghost use Rattle.relay_base.specs.declared.limits.TheConstants.{SLOTS};
ghost use Rattle.conn_journal.specs.Inner.Uses.{owner_at};
ghost use Rattle.conn_journal.specs.Inner.Changes.{owned};

use relay_base::limits::{MOST_LANES, SLOTS};
use relay_base::{Memory, Ref24};
use std::alloc::Global;
use std::marker::Model;

/// How many slots a lane has, with slot 0, which no end takes.
const SLOT_COUNT: usize = SLOTS as usize + 1;

/// For each slot the number of the connection an end of which has it, if one does.
#[derive(Drop)]
pub struct Index {
    owners: Vec<Option<usize>>,
}

impl Model for Index {
    ghost use Rattle.std.specs.Prelude.{◌≡◌, ◌+◌, ℕ, List, length, Option};
    ghost use Rattle.relay_base.specs.declared.limits.TheConstants.{SLOTS};

    ghost Value = { List (Option ℕ) };

    ghost view = { λ i. i.owners.items };

    ghost invariant = { λ i. length i.owners.items ≡ SLOTS + 1 };
}

/// The slot of a local reference, whatever its generation.
fn slot_of(reference: Ref24) -> usize
    ensures value { result ≡ slot_of reference }
    ensures within { result < SLOTS + 1 }
{
    (reference.number() / u32::from(MOST_LANES)) as usize % SLOT_COUNT
}

impl Index {
    /// No end has a reference.
    pub fn new(alloc: Global) -> Result<Index, Memory>
        ensures { IfOk result (λ index. index ≡ replicate (SLOTS + 1) None) }
    {
        let mut owners = Vec::new(alloc);
        owners.resize(SLOT_COUNT, None)?;
        Ok(Index { owners })
    }

    /// The number of the connection an end of which has the slot of a reference.
    pub fn owner(&self, mine: Ref24) -> Option<usize>
        ensures { result ≡ owner_at self.now (slot_of mine) }
    {
        self.owners[slot_of(mine)]
    }

    /// An end of the connection of this number takes a reference, if it is one, or it gives it up and nobody has it.
    pub fn note(&mut self, mine: Option<Ref24>, number: Option<usize>)
        ensures { self.new ≡ owned mine number self.old }
    {
        if let Some(mine) = mine {
            self.owners[slot_of(mine)] = number;
        }
    }
}
