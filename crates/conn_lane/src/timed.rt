//! The connections of a lane with the wheel of their timers.
ghost use Rattle.std.specs.Prelude.{◌≡◌, ◌≤◌, ◌+◌, ◌*◌, ◌++◌, ◌∷◌, [], ℕ, Some, None, true, length, is_some, get_or, slice_set};
ghost use Rattle.section_coupling.specs.declared.duo.TheConstants.{TIMERS};
ghost use Rattle.conn_lane.specs.Inner.Timed.{AreLeft, SetsTimers};

use crate::connections::Connections;
use crate::waking::{due, follow, reserve};
use conn_journal::{Kept, Next, Store};
use relay_base::Memory;
use std::alloc::Global;
use std::marker::Model;
use timer_wheel::Wheel;

/// How many ticks a lane has taken; its connections that aren't over; and the wheel, which has the running timers of each.
pub struct TimedConnections {
    taken: u64,
    kept: Connections,
    wheel: Wheel,
}

impl Drop for TimedConnections {
    fn drop(self) {
        let Self {
            taken: _,
            kept: _kept,
            wheel: _wheel,
        } = self;
    }
}

impl Model for TimedConnections {
    ghost use Rattle.conn_lane.specs.Inner.Timed.{TimedState, IsTimed};

    ghost Value = { TimedState };

    ghost view = { λ t. record { taken = t.taken; connections = t.kept; wheel = t.wheel } };

    ghost invariant = { λ t. IsTimed t.taken t.kept.kept t.wheel.armed };
}

/// A connection as it is next, None once it is over, with its timers. It wasn't over before.
fn put(kept: &mut Connections, wheel: &mut Wheel, taken: u64, number: usize, one: Option<Kept>)
    requires number { number ≤ 4_294_967_295 }
    requires alive { is_some (get_or kept.old.kept number None) ≡ true }
    requires left { let before = get_or kept.old.kept number None in
        AreLeft taken number before wheel.old.armed }
    requires room { length wheel.old.armed + TIMERS ≤ wheel.old.room }
    ensures kept { kept.new.kept ≡ slice_set kept.old.kept number one }
    ensures set { SetsTimers taken number one wheel.old.armed wheel.new.armed }
    ensures room { wheel.new.room ≡ wheel.old.room }
{
    let before = kept.get(number);
    follow(wheel, number, before, one.as_ref(), taken);
    kept.put(number, one);
}

impl Store for TimedConnections {
    ghost use Rattle.std.specs.Prelude.{◌≤◌, ◌+◌, ◌*◌, length};
    ghost use Rattle.section_coupling.specs.declared.duo.TheConstants.{TIMERS};
    ghost use Rattle.timer_wheel.specs.Timers.{due_now};
    ghost use Rattle.conn_lane.specs.Inner.Wheels.{is_due};

    ghost taken = { λ t. t.taken };

    ghost kept = { λ t. t.connections.kept };

    ghost due = { λ t number. is_due number (due_now t.wheel.armed) };

    ghost has_room = { λ t count. (1 ≤ t.connections.room)
        × (length t.wheel.armed + TIMERS * count ≤ t.wheel.room) };

    fn new(alloc: Global) -> TimedConnections {
        TimedConnections {
            taken: 0,
            kept: Connections::new(alloc),
            wheel: Wheel::new(alloc),
        }
    }

    fn taken(&self) -> u64 {
        self.taken
    }

    fn opened(&self) -> usize {
        self.kept.opened()
    }

    fn get(&self, number: usize) -> Option<&Kept> {
        self.kept.get(number)
    }

    fn due(&self, alloc: Global) -> Result<Vec<usize>, Memory> {
        due(alloc, &self.wheel)
    }

    fn reserve(&mut self, count: usize) -> Result<(), Memory> {
        reserve(&mut self.wheel, count)?;
        self.kept.reserve()
    }

    fn open(&mut self, one: Kept) {
        let number = self.kept.opened();
        follow(&mut self.wheel, number, None, Some(&one), self.taken);
        self.kept.open(one);
    }

    fn put(&mut self, number: usize, one: Option<Kept>) {
        put(&mut self.kept, &mut self.wheel, self.taken, number, one);
    }

    fn advance(&mut self, nexts: Vec<Next>) {
        self.taken += 1;
        self.wheel.advance();
        for next in nexts {
            let Next {
                number,
                one,
                this: _,
                that: _,
            } = next;
            put(&mut self.kept, &mut self.wheel, self.taken, number, one);
        }
    }
}
