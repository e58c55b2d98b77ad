//! Lists of changes.
ghost use Rattle.std.specs.Prelude.{◌≡◌, [], ◌∷◌, ◌++◌, length, OnOk, OnErr};
ghost use lib.Pointwise.{pointwise};
ghost use Rattle.std.specs.Cmp.Lexicographic.{lists_per, lists_equiv};

use crate::change::Change;
use relay_base::Memory;
use std::alloc::Global;
use std::marker::Model;
use std::slice;

/// The changes of a list: an only one is kept in place, as most groups have one.
#[derive(Clone, Drop)]
enum Items {
    One(Change),
    Many(Vec<Change>),
}

/// Changes, in order, which a clause sees as the plain list of them.
#[derive(Clone)]
pub struct ChangeList {
    items: Items,
    alloc: Global,
}

impl Drop for ChangeList {
    fn drop(self) {
        let Self {
            items: _items,
            alloc: _,
        } = self;
    }
}

impl Model for ChangeList {
    ghost use Rattle.std.specs.Prelude.{List};
    ghost use Rattle.plant_core.specs.declared.change.Change.{Change as ChangeType};
    ghost use Rattle.plant_core.specs.Inner.Listed.{listed};

    ghost Value = { List ChangeType };

    ghost view = { λ l. listed l.items };
}

impl ChangeList {
    /// No changes.
    pub fn new(alloc: Global) -> ChangeList
        ensures { result ≡ [] }
    {
        ChangeList {
            items: Items::Many(Vec::new(alloc)),
            alloc,
        }
    }

    /// One change.
    pub fn of(alloc: Global, change: Change) -> ChangeList
        ensures { result ≡ change ∷ [] }
    {
        ChangeList {
            items: Items::One(change),
            alloc,
        }
    }

    /// Puts a change at the end.
    pub fn push(&mut self, change: Change) -> Result<(), Memory>
        ensures ok { OnOk result (self.new ≡ self.old ++ change ∷ []) }
        ensures err { OnErr result (self.new ≡ self.old) }
    {
        match &mut self.items {
            Items::Many(changes) if changes.is_empty() => self.items = Items::One(change),
            Items::Many(changes) => changes.push(change)?,
            Items::One(first) => {
                self.items = Items::Many(Vec::from_slice(self.alloc, &[*first, change])?);
            }
        }
        Ok(())
    }

    pub fn as_slice(&self) -> &[Change]
        ensures { result.now ≡ self.now }
    {
        match &self.items {
            Items::One(change) => slice::from_ref(change),
            Items::Many(changes) => changes.as_slice(),
        }
    }

    pub fn len(&self) -> usize
        ensures { result ≡ length self.now }
    {
        self.as_slice().len()
    }
}

impl PartialEq for ChangeList {
    ghost use Rattle.plant_core.specs.contracts.change.ChangePartialEq.TheImpl.{ghosts};
    ghost use Rattle.plant_core.specs.contracts.change.ChangePartialEq.TheImpl.Laws.{laws-law};

    ghost eq = { pointwise ghosts.eq };

    ghost laws = { lists_per laws-law };

    fn eq(&self, other: &ChangeList) -> bool {
        self.as_slice() == other.as_slice()
    }
}

impl Eq for ChangeList {
    ghost use Rattle.plant_core.specs.contracts.change.ChangeEq.TheImpl.Laws.{laws-law};

    ghost laws = { lists_equiv laws-law };
}
