//! The messages that wait from a node to a neighbour.
ghost use Rattle.std.specs.Prelude.{◌≡◌, ◌≤◌, ◌+◌, ◌++◌, [], drop, length, slice_get, option_map, OnOk};

use mark::Mark;
use relay_base::{Event, Memory};
use std::alloc::Global;
use std::collections::VecDeque;
use std::marker::Model;

/// The messages that wait from a node to a neighbour, each as the event by which it arrives there. A clause sees how many were given, too.
#[derive(Drop)]
pub struct Queue {
    waiting: VecDeque<Event>,
    given: Mark<usize>,
}

impl Model for Queue {
    ghost use Rattle.std.specs.Prelude.{◌-◌};
    ghost use Rattle.std.specs.VecDeque.{deque_len, deque_capacity};
    ghost use Rattle.chain_node.specs.Inner.Queues.{QueueState};

    ghost Value = { QueueState };

    ghost view = { λ q. record {
      waiting = q.waiting.items;
      given = q.given.value;
      room = deque_capacity q.waiting - deque_len q.waiting;
    } };
}

/// No message was given yet.
fn none_given() -> Mark<usize>
    ensures { result.value ≡ 0 }
{
    Mark::after(&0u8)
}

impl Queue {
    /// No message was ever put.
    pub fn new(alloc: Global) -> Queue
        ensures waiting { result.waiting ≡ [] }
        ensures given { result.given ≡ 0 }
    {
        Queue {
            waiting: VecDeque::new(alloc),
            given: none_given(),
        }
    }

    /// How many messages wait.
    pub fn len(&self) -> usize
        ensures { result ≡ length self.now.waiting }
    {
        self.waiting.len()
    }

    /// The message that waits first.
    pub fn first(&self) -> Option<&Event>
        ensures { option_map (λ e. e.now) result ≡ slice_get self.now.waiting 0 }
    {
        self.waiting.front()
    }

    /// One message more was given.
    fn one_more(&self) -> Mark<usize>
        ensures { result.value ≡ self.now.given + 1 }
    {
        Mark::after(self)
    }

    /// The message that waits first is given.
    pub fn give(&mut self)
        ensures waiting { self.new.waiting ≡ drop 1 self.old.waiting }
        ensures given { self.new.given ≡ self.old.given + 1 }
    {
        let given = self.one_more();
        let _given = self.waiting.pop_front();
        self.given = given;
    }

    /// Takes memory for so many messages.
    pub fn reserve(&mut self, count: usize) -> Result<(), Memory>
        ensures waiting { self.new.waiting ≡ self.old.waiting }
        ensures given { self.new.given ≡ self.old.given }
        ensures room { OnOk result (count ≤ self.new.room) }
    {
        self.waiting.reserve(count)?;
        Ok(())
    }

    /// Puts messages at the end, for which there is room.
    pub fn append(&mut self, mut more: VecDeque<Event>)
        requires room { length more.items ≤ self.old.room }
        ensures waiting { self.new.waiting ≡ self.old.waiting ++ more.items }
        ensures given { self.new.given ≡ self.old.given }
    {
        let Ok(()) = self.waiting.append(&mut more) else {
            unreachable!()
        };
    }
}
