//! Lists, which a clause sees as such.
ghost use Rattle.std.specs.Prelude.{◌≡◌, ◌==◌, ◌<◌, ◌+◌, List, [], ◌∷◌, ◌++◌, length, take, IfOk, IfSome, IfNone, OnOk, OnErr};
ghost use lib.Pointwise.{pointwise};
ghost use Rattle.std.specs.Cmp.Lexicographic.{lists_per, lists_equiv};

use crate::errors::Memory;
use crate::numbers::{Pc, Ssn};
use crate::words::{Event, Output, Stamp};
use std::alloc::Global;
use std::marker::Model;

/// A list that a clause sees as the plain list of its items.
#[derive(Clone, Debug)]
pub struct PlainList<T> {
    items: Vec<T>,
}

impl<T: Drop> Drop for PlainList<T> {
    fn drop(self) {
        let Self { items: _items } = self;
    }
}

impl<T> Model for PlainList<T> {
    ghost Value = { List T };

    ghost view = { λ o. o.items.items };
}

impl<T> PlainList<T> {
    /// The empty list.
    pub fn new(alloc: Global) -> PlainList<T>
        ensures { result ≡ [] }
    {
        PlainList {
            items: Vec::new(alloc),
        }
    }

    /// Puts an item at the end.
    pub fn push(&mut self, item: T) -> Result<(), Memory>
    where
        T: Drop,
        ensures ok { OnOk result (self.new ≡ self.old ++ item ∷ []) }
        ensures err { OnErr result (self.new ≡ self.old) }
    {
        if self.items.capacity() == 0 {
            // most lists of what comes of an event have one item
            self.items.reserve_exact(1)?;
        }
        self.items.push(item)?;
        Ok(())
    }

    /// Puts the items of another list at the end.
    pub fn append(&mut self, more: PlainList<T>) -> Result<(), Memory>
    where
        T: Drop,
        ensures ok { OnOk result (self.new ≡ self.old ++ more) }
        ensures err { OnErr result (self.new ≡ self.old) }
    {
        if self.items.is_empty() {
            *self = more;
            return Ok(());
        }
        let mut added = more.into_vec();
        self.items.append(&mut added)?;
        Ok(())
    }

    /// Takes the last item away.
    pub fn pop(&mut self) -> Option<T>
        ensures last { IfSome result (λ item. self.old ≡ self.new ++ item ∷ []) }
        ensures empty { IfNone result ((self.old ≡ []) × (self.new ≡ [])) }
    {
        self.items.pop()
    }

    pub fn as_slice(&self) -> &[T]
        ensures { result.now ≡ self.now }
    {
        self.items.as_slice()
    }

    pub fn len(&self) -> usize
        ensures { result ≡ length self.now }
    {
        self.items.len()
    }

    pub fn is_empty(&self) -> bool
        ensures { result ≡ (length self.now == 0) }
    {
        self.items.is_empty()
    }

    pub fn into_vec(self) -> Vec<T>
        ensures { result.items ≡ self }
    {
        let PlainList { items } = self;
        items
    }
}

impl<T: Copy> PlainList<T> {
    /// A copy of the items.
    pub fn from_slice(alloc: Global, items: &[T]) -> Result<PlainList<T>, Memory>
        ensures { IfOk result (λ l. l ≡ items.now) }
    {
        Ok(PlainList {
            items: Vec::from_slice(alloc, items)?,
        })
    }

    /// Puts a copy of the items at the end.
    pub fn extend(&mut self, items: &[T]) -> Result<(), Memory>
        ensures ok { OnOk result (self.new ≡ self.old ++ items.now) }
        ensures err { OnErr result (self.new ≡ self.old) }
    {
        self.items.extend_from_slice(items)?;
        Ok(())
    }
}

impl<T> From<Vec<T>> for PlainList<T> {
    ghost from_gives = { λ v l. l ≡ v.items };

    fn from(items: Vec<T>) -> PlainList<T> {
        PlainList { items }
    }
}

impl<T: PartialEq> PartialEq for PlainList<T> {
    ghost eq = { λ x y. pointwise T.eq x y };

    ghost laws = { lists_per T.laws };

    fn eq(&self, other: &PlainList<T>) -> bool {
        self.as_slice() == other.as_slice()
    }
}

impl<T: Eq> Eq for PlainList<T> {
    ghost laws = { lists_equiv T.Eq.laws };
}

/// What a step gives, in order.
pub type Outs = PlainList<Output>;

/// Subsystem numbers.
pub type SsnList = PlainList<Ssn>;

/// Point codes.
pub type PcList = PlainList<Pc>;

/// Events with their stamps.
pub type StampedList = PlainList<(Stamp, Event)>;
