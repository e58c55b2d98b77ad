//! The connections of a lane, by their numbers in its journal.
ghost use Rattle.std.specs.Prelude.{◌≡◌, ◌≤◌, ◌+◌, ◌++◌, ◌∷◌, [], ℕ, Some, None, true, is_some, length, get_or, slice_set, OnOk};
ghost use Rattle.std.specs.Option.{option_map};

use crate::placed::Placed;
use conn_journal::Kept;
use relay_base::Memory;
use slab::Slab;
use std::alloc::Global;
use std::collections::HashMap;
use std::marker::Model;

/// The connections that aren't over, each in a place of its own, which is given to another once it is over; and how many were opened.
pub struct Connections {
    placed: Slab<Placed>,
    /// The place of each, by its number.
    places: HashMap<usize, usize>,
    opened: usize,
}

impl Drop for Connections {
    fn drop(self) {
        let Self {
            placed: _placed,
            places: _places,
            opened: _,
        } = self;
    }
}

impl Model for Connections {
    ghost use Rattle.std.specs.Prelude.{◌-◌, min, nat_eq};
    ghost use Rattle.slab.specs.Slab.{get as placed_at, slab_len};
    ghost use Rattle.std.specs.HashMap.{get as place_at, spare};
    ghost use Rattle.conn_lane.specs.Inner.Placing.{ConnectionsState, kept_in, ArePlaced};

    ghost Value = { ConnectionsState };

    ghost view = { λ c. record {
      kept = kept_in (placed_at c.placed) (place_at nat_eq c.places) c.opened;
      room = min (c.placed.capacity - slab_len c.placed) (spare c.places);
    } };

    ghost invariant = { λ c. ArePlaced (placed_at c.placed) (place_at nat_eq c.places) c.opened };
}

impl Connections {
    /// None was opened.
    pub fn new(alloc: Global) -> Connections
        ensures { result.kept ≡ [] }
    {
        Connections {
            placed: Slab::new(alloc),
            places: HashMap::new(alloc),
            opened: 0,
        }
    }

    /// How many were opened.
    pub fn opened(&self) -> usize
        ensures { result ≡ length self.now.kept }
    {
        self.opened
    }

    /// The connection of this number, unless it is over.
    pub fn get(&self, number: usize) -> Option<&Kept>
        ensures { option_map (λ k. k.now) result ≡ get_or self.now.kept number None }
    {
        let place = *self.places.get(&number)?;
        let placed = self.placed.get(place)?;
        Some(&placed.one)
    }

    /// Takes memory for one more.
    pub fn reserve(&mut self) -> Result<(), Memory>
        ensures kept { self.new.kept ≡ self.old.kept }
        ensures room { OnOk result (1 ≤ self.new.room) }
    {
        self.placed.reserve(1)?;
        self.places.reserve(1)?;
        Ok(())
    }

    /// The next one is opened. There is room for it.
    pub fn open(&mut self, one: Kept)
        requires room { 1 ≤ self.old.room }
        requires opened { length self.old.kept ≤ 4_294_967_295 }
        ensures { self.new.kept ≡ self.old.kept ++ Some one ∷ [] }
    {
        let number = self.opened;
        let place = self.placed.insert_reserved(Placed { number, one });
        let _known = self.places.insert(number, place);
        self.opened += 1;
    }

    /// The connection of this number as it is next, None once it is over. It wasn't over before.
    pub fn put(&mut self, number: usize, one: Option<Kept>)
        requires { is_some (get_or self.old.kept number None) ≡ true }
        ensures { self.new.kept ≡ slice_set self.old.kept number one }
    {
        let Some(place) = self.places.get(&number).copied() else {
            return;
        };
        self.placed.remove(place);
        match one {
            Some(one) => {
                // It is put into the place that it leaves.
                self.placed.insert_reserved(Placed { number, one });
            }
            None => {
                self.places.remove(&number);
            }
        }
    }
}
