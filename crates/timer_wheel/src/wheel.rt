//! The wheel of timers: a treap, whose ranks are scattered numbers of the timers. Nodes are made beforehand, and `arm` takes one. It goes down to the
//! place of the timer's rank and changes nothing beside its way; so does `cancel`. The cost of both is logarithmic in the timers that run only as chance
//! has it: no clause speaks of the tree's depth, and timers whose ranks fall badly make it deeper. So is that of `due` and `advance` for each timer that is
//! due; where none is, it is constant: where each timer fires is held as a tick that is counted from one beginning, so that a tick changes no timer that
//! stays. Once in 2^63 ticks the count begins anew.
ghost use Rattle.std.specs.Prelude.{◌≡◌, ◌<◌, ◌≤◌, ◌+◌, ◌^◌, [], length, map, max, vec_len, IfOk, OnOk, OnErr};
ghost use Rattle.std.specs.Vec.{vec_capacity};
ghost use Rattle.timer_wheel.specs.Timers.{Armed, timer_of, others, with_armed, with_timer, with_interval, due_now, after_tick, after_tick_again, IsRising, AreRunning};
ghost use Rattle.timer_wheel.specs.Inner.Tree.{alarms};
ghost use Rattle.timer_wheel.specs.Inner.Turning.{armed_at, IsTurned};

use crate::due::{Alarm, Due};
use crate::tree::{Node, Tree, list_due, rank, recount, start_again, with, without, without_due};
use relay_base::Memory;
use std::alloc::Global;
use std::marker::Model;

/// After so many ticks the count of them begins anew.
const LAST: u64 = 1 << 63;

/// The running timers of a lane's connections.
pub struct Wheel {
    tree: Tree,
    /// The nodes of no timer. All nodes together are as many as the timers that there is room for.
    spare: Vec<Box<Node>>,
    alloc: Global,
    room: usize,
    /// The ticks that were taken since the count began.
    passed: u64,
}

impl Drop for Wheel {
    fn drop(self) {
        let Self {
            tree: _tree,
            spare: _spare,
            alloc: _,
            room: _,
            passed: _,
        } = self;
    }
}

impl Model for Wheel {
    ghost use Rattle.std.specs.Prelude.{◌≡◌, ◌+◌, ◌≤◌, ◌^◌, length, vec_len};
    ghost use Rattle.std.specs.Vec.{vec_capacity};
    ghost use Rattle.timer_wheel.specs.Timers.{Timers};
    ghost use Rattle.timer_wheel.specs.Inner.Tree.{alarms};
    ghost use Rattle.timer_wheel.specs.Inner.Turning.{armed_at, IsTurned};

    ghost Value = { Timers };

    ghost view = { λ w. record { armed = armed_at w.passed (alarms w.tree); room = w.room } };

    ghost invariant = { λ w.
        IsTurned w.passed w.tree × (vec_len w.spare + length (alarms w.tree) ≡ w.room)
        × (w.room ≤ vec_capacity w.spare) × (w.passed ≤ 2 ^ 63) };
}

impl Wheel {
    /// No timer runs, and there is room for none.
    pub fn new(alloc: Global) -> Wheel
        ensures { result ≡ record { armed = []; room = 0 } }
    {
        Wheel {
            tree: Tree::Leaf,
            spare: Vec::new(alloc),
            alloc,
            room: 0,
            passed: 0,
        }
    }

    /// Takes memory for so many running timers in all.
    pub fn reserve(&mut self, timers: u32) -> Result<(), Memory>
        ensures ok { OnOk result (self.new ≡ record self.old { room = max self.old.room timers }) }
        ensures err { OnErr result (self.new ≡ self.old) }
    {
        self.reserve_all(timers as usize)
    }

    /// Takes memory for so many running timers in all.
    fn reserve_all(&mut self, timers: usize) -> Result<(), Memory>
        ensures ok { OnOk result (self.new ≡ record self.old { room = max self.old.room timers }) }
        ensures err { OnErr result (self.new ≡ self.old) }
    {
        if timers <= self.room {
            return Ok(());
        }
        let before = self.spare.len();
        self.spare.reserve(timers)?;
        match grow(self.alloc, &mut self.spare, timers - self.room) {
            Ok(()) => {
                self.room = timers;
                Ok(())
            }
            Err(memory) => {
                self.spare.truncate(before);
                Err(memory)
            }
        }
    }

    /// How many timers run.
    pub fn running(&self) -> usize
        ensures { result ≡ length self.now.armed }
    {
        self.room - self.spare.len()
    }

    /// Takes memory for so many timers beside those that run. No memory has room for more than a `usize` counts.
    pub fn reserve_more(&mut self, more: usize) -> Result<(), Memory>
        ensures ok { let timers = length self.old.armed + more in
            OnOk result (self.new ≡ record self.old { room = max self.old.room timers }) }
        ensures err { OnErr result (self.new ≡ self.old) }
    {
        let timers = self.running().checked_add(more).ok_or(Memory)?;
        self.reserve_all(timers)
    }

    /// Stops a timer, if it runs.
    pub fn cancel(&mut self, conn: u32, timer: u8)
        ensures { self.new ≡ record self.old { armed = others (timer_of conn timer) self.old.armed } }
    {
        let (tree, _) = without(self.tree.take(), Due { conn, timer }, &mut self.spare);
        self.tree = tree;
    }

    /// Starts a timer, in the place of an earlier start.
    fn start(&mut self, due: Due, ticks: u32, interval: u32)
        requires ticks { 1 ≤ ticks }
        requires room { length (others due self.old.armed) < self.old.room }
        ensures { let armed : Armed = record { due = due; ticks = ticks; interval = interval }
            in self.new ≡ record self.old { armed = with_armed armed self.old.armed } }
    {
        let alarm = Alarm {
            due,
            tick: self.passed + u64::from(ticks),
            interval,
        };
        let (tree, _) = with(self.tree.take(), alarm, rank(due), &mut self.spare);
        self.tree = tree;
    }

    /// Starts a timer for so many ticks, in the place of an earlier start. There is room for it beside the others.
    pub fn arm(&mut self, conn: u32, timer: u8, ticks: u32)
        requires ticks { 1 ≤ ticks }
        requires room { length (others (timer_of conn timer) self.old.armed) < self.old.room }
        ensures { let due = timer_of conn timer
            in self.new ≡ record self.old { armed = with_timer due ticks self.old.armed } }
    {
        self.start(Due { conn, timer }, ticks, ticks);
    }

    /// Starts a timer for the ticks of an interval, but for one where they are none, in the place of an earlier start. There is room for it.
    pub fn arm_interval(&mut self, conn: u32, timer: u8, interval: u32)
        requires room { length (others (timer_of conn timer) self.old.armed) < self.old.room }
        ensures { let due = timer_of conn timer
            in self.new ≡ record self.old { armed = with_interval due interval self.old.armed } }
    {
        self.start(Due { conn, timer }, interval.max(1), interval);
    }

    /// The timers that the next tick makes due, by rising connection and timer.
    pub fn due(&self, alloc: Global) -> Result<Vec<Due>, Memory>
        ensures value { IfOk result (λ due. due.items ≡ due_now self.now.armed) }
        ensures rising { IsRising self.now.armed }
        ensures running { AreRunning self.now.armed }
    {
        let mut list = Vec::new(alloc);
        list_due(&self.tree, self.passed + 1, &mut list)?;
        Ok(list)
    }

    /// Takes a tick, and drops the timers that it makes due.
    pub fn advance(&mut self)
        ensures { self.new ≡ record self.old { armed = after_tick self.old.armed } }
    {
        self.passed = counted_anew(&mut self.tree, self.passed) + 1;
        self.tree = without_due(self.tree.take(), self.passed, &mut self.spare);
    }

    /// Takes a tick, and starts the timers that it makes due again, with twice their intervals, but no more than the most.
    pub fn advance_again(&mut self, most: u32)
        ensures value { self.new ≡ record self.old { armed = map (after_tick_again most) self.old.armed } }
        ensures running { AreRunning self.old.armed }
    {
        self.passed = counted_anew(&mut self.tree, self.passed) + 1;
        start_again(&mut self.tree, self.passed, most);
    }
}

/// Makes so many more nodes.
fn grow(alloc: Global, spare: &mut Vec<Box<Node>>, more: usize) -> Result<(), Memory>
    requires room { vec_len spare.old + more ≤ vec_capacity spare.old }
    ensures ok { OnOk result (vec_len spare.new ≡ vec_len spare.old + more) }
    ensures longer { vec_len spare.old ≤ vec_len spare.new }
    ensures capacity { vec_capacity spare.new ≡ vec_capacity spare.old }
{
    for _ in 0..more {
        spare.push_reserved(Box::new(alloc, Node::spare())?);
    }
    Ok(())
}

/// The ticks that were taken since the count began. Where they are too many, it begins anew.
fn counted_anew(tree: &mut Tree, passed: u64) -> u64
    requires turned { IsTurned passed tree.old }
    requires within { passed ≤ 2 ^ 63 }
    ensures same { armed_at result (alarms tree.new) ≡ armed_at passed (alarms tree.old) }
    ensures turned { IsTurned result tree.new }
    ensures count { length (alarms tree.new) ≡ length (alarms tree.old) }
    ensures below { result < 2 ^ 63 }
{
    if passed < LAST {
        return passed;
    }
    recount(tree, passed);
    0
}
