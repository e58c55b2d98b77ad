//! What a node keeps beside its lane.
ghost use Rattle.std.specs.Prelude.{◌≡◌, ◌≤◌, ◌++◌, ℕ, List, [], false, length, OnOk};
ghost use Rattle.chain_step.specs.Fresh.{listed};
ghost use Rattle.chain_node.specs.Inner.Queues.{HasMore};
ghost use Rattle.chain_node.specs.Inner.Taking.{AreTaken};
ghost use Rattle.chain_node.specs.Inner.Coming.{IsSameKept, HasRoom};

use crate::mail::Mail;
use crate::queue::Queue;
use crate::references::References;
use relay_base::{Event, Memory, Ref24};
use std::alloc::Global;
use std::collections::VecDeque;

/// The messages that wait to the next node and to the one before, and the local references that the node's connections took.
#[derive(Drop)]
pub struct Kept {
    pub ahead: Queue,
    pub back: Queue,
    pub references: References,
}

impl Kept {
    /// No message was put, and no reference taken.
    pub fn new(alloc: Global) -> Kept
        ensures ahead { (result.ahead.waiting ≡ []) × (result.ahead.given ≡ 0) }
        ensures back { (result.back.waiting ≡ []) × (result.back.given ≡ 0) }
        ensures references { (result.references.taken ≡ []) × (result.references.twice ≡ false) }
    {
        Kept {
            ahead: Queue::new(alloc),
            back: Queue::new(alloc),
            references: References::new(alloc),
        }
    }

    /// Takes memory for what comes of an event.
    pub fn make_room(&mut self, mail: &Mail) -> Result<(), Memory>
        ensures kept { IsSameKept self.old self.new }
        ensures room { OnOk result (HasRoom mail.now self.new) }
    {
        self.ahead.reserve(mail.ahead.len())?;
        self.back.reserve(mail.back.len())?;
        self.references.reserve(2)
    }

    /// Puts the messages of an event, and the references that the ends take of a connection which it opens. There is room for all of them.
    pub fn put(
        &mut self,
        ahead: VecDeque<Event>,
        back: VecDeque<Event>,
        this: Option<Ref24>,
        that: Option<Ref24>,
    )
        requires ahead { length ahead.items ≤ self.old.ahead.room }
        requires back { length back.items ≤ self.old.back.room }
        requires both { 2 ≤ self.old.references.room }
        ensures ahead { HasMore ahead.items self.old.ahead self.new.ahead }
        ensures back { HasMore back.items self.old.back self.new.back }
        ensures references { (taken : List ℕ) →
            AreTaken self.old.references taken →
            AreTaken self.new.references ((taken ++ listed this) ++ listed that) }
    {
        self.ahead.append(ahead);
        self.back.append(back);
        self.references.take(this);
        self.references.take(that);
    }
}
