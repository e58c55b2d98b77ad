//! Connections in a list.
ghost use Rattle.std.specs.Prelude.{◌≡◌, ◌<◌, length, slice_set};

use crate::soonest::{is_due, soonest_of};
use conn_journal::{Kept, Next, Store};
use relay_base::Memory;
use std::alloc::Global;
use std::marker::Model;
use std::mem;

/// How many ticks a lane has taken, and its connections by their numbers, each until it is over.
#[derive(Drop)]
pub struct ListedConnections {
    taken: u64,
    kept: Vec<Option<Kept>>,
    /// The lane's tick at which each wakes first. A tick goes through these numbers alone.
    soonest: Vec<u64>,
}

impl Model for ListedConnections {
    ghost use Rattle.std.specs.Prelude.{◌-◌, length, min};
    ghost use Rattle.std.specs.Vec.{vec_capacity};
    ghost use Rattle.lane_replays.specs.Inner.Soonest.{ListedState, AreListed};

    ghost Value = { ListedState };

    ghost view = { λ l. record {
      taken = l.taken;
      kept = l.kept.items;
      soonest = l.soonest.items;
      room = min
          (vec_capacity l.kept - length l.kept.items)
          (vec_capacity l.soonest - length l.soonest.items);
    } };

    ghost invariant = { λ l. AreListed l.kept.items l.soonest.items };
}

impl ListedConnections {
    /// The connection of this number as it is next, None once it is over.
    fn set(&mut self, number: usize, one: Option<Kept>)
        requires { number < length self.old.kept }
        ensures taken { self.new.taken ≡ self.old.taken }
        ensures kept { self.new.kept ≡ slice_set self.old.kept number one }
    {
        self.soonest[number] = soonest_of(one.as_ref());
        let _before = mem::replace(&mut self.kept[number], one);
    }
}

impl Store for ListedConnections {
    ghost use Rattle.std.specs.Prelude.{◌≤◌};
    ghost use Rattle.lane_replays.specs.Inner.Soonest.{wakes};

    ghost taken = { λ l. l.taken };

    ghost kept = { λ l. l.kept };

    ghost due = { λ l number. wakes l.taken l.soonest number };

    ghost has_room = { λ l count. 1 ≤ l.room };

    fn new(alloc: Global) -> ListedConnections {
        ListedConnections {
            taken: 0,
            kept: Vec::new(alloc),
            soonest: Vec::new(alloc),
        }
    }

    fn taken(&self) -> u64 {
        self.taken
    }

    fn opened(&self) -> usize {
        self.kept.len()
    }

    fn get(&self, number: usize) -> Option<&Kept> {
        self.kept.get(number)?.as_ref()
    }

    fn due(&self, alloc: Global) -> Result<Vec<usize>, Memory> {
        let mut numbers = Vec::new(alloc);
        for number in 0..self.soonest.len() {
            if is_due(self.soonest[number], self.taken) {
                numbers.push(number)?;
            }
        }
        Ok(numbers)
    }

    fn reserve(&mut self, _count: usize) -> Result<(), Memory> {
        self.kept.reserve(1)?;
        self.soonest.reserve(1)?;
        Ok(())
    }

    fn open(&mut self, one: Kept) {
        self.soonest.push_reserved(soonest_of(Some(&one)));
        self.kept.push_reserved(Some(one));
    }

    fn put(&mut self, number: usize, one: Option<Kept>) {
        self.set(number, one);
    }

    fn advance(&mut self, nexts: Vec<Next>) {
        self.taken += 1;
        for next in nexts {
            let Next {
                number,
                one,
                this: _,
                that: _,
            } = next;
            self.set(number, one);
        }
    }
}
