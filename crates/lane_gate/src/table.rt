//! The gate's table: word 0 is the turn, slot 0 has the lane, and each seat knows what its callers have delivered.
ghost use Rattle.lane_gate.specs.Inner.Views.{front_view, rear_view, joined_view, spent_view};

use crate::lane::LaneState;
use atomic_table::{Join, Play, Split, TableRule};
use std::collections::LinkedList;
use std::marker::{Brand, PhantomData};
use std::snapshot::Snapshot;

/// What a seat knows. No value of it is made.
pub struct View {
    /// The callers to which the seat belongs, each with the number of events that it has delivered.
    pub counts: LinkedList<(u64, u64)>,
    /// How often the turn was tried.
    pub tries: u64,
    /// What the last try found in word 0.
    pub saw: u64,
    /// In mid-call: how many events of each caller the lane had taken when it was taken out.
    pub noted: Option<LinkedList<u64>>,
}

/// What the table is told when it is made.
pub struct Opening<L> {
    pub lane: Snapshot<L>,
    pub callers: u8,
}

impl<L> Drop for Opening<L> {
    fn drop(self) {
        let Self {
            lane: _,
            callers: _,
        } = self;
    }
}

/// The rule of the table. Word 0 is 0, or 1 more than the number of the caller in mid-call.
pub struct Turns<L> {
    lane: PhantomData<L>,
}

impl<L: LaneState> TableRule<Option<L>, View, Opening<L>> for Turns<L> {
    ghost use Rattle.lane_gate.specs.Inner.Rule.{IsKept, whole_view};

    ghost holds = { IsKept L.plan L.taken };

    ghost first = { whole_view };
}

/// What is known of each lane that is taken out of one table, and how many callers the table has. A call picks both.
pub trait Known<L> {
    ghost use Rattle.std.specs.Prelude.{ℕ};

    ghost known: { L → Type 0 };

    ghost callers: { ℕ };
}

impl<L> Known<L> for Brand {
    ghost use Rattle.lane_gate.specs.declared.gate.TheConstants.{MOST_CALLERS};

    ghost known = { λ _. Unit {0} };

    ghost callers = { MOST_CALLERS };
}

/// The turn is tried.
pub(crate) struct Enter<L, K> {
    lane: PhantomData<(L, K)>,
}

impl<L: LaneState, K: Known<L>> Play<Option<L>, View> for Enter<L, K> {
    ghost use Rattle.lane_gate.specs.Inner.Rule.{Enters};

    ghost then = { Enters L.taken K.known K.callers };
}

/// The lane goes home with one event more.
pub(crate) struct Finish;

impl<L> Play<Option<L>, View> for Finish {
    ghost use Rattle.lane_gate.specs.Inner.Rule.{Finishes};

    ghost then = { Finishes };
}

/// The lane goes home as it was.
pub(crate) struct Abandon;

impl<L> Play<Option<L>, View> for Abandon {
    ghost use Rattle.lane_gate.specs.Inner.Rule.{Abandons};

    ghost then = { Abandons };
}

/// The first caller gets a seat of its own.
pub(crate) struct FirstAlone;

impl Split<View> for FirstAlone {
    ghost left = { front_view };

    ghost right = { rear_view };
}

/// A seat takes in another one's callers.
pub(crate) struct Together;

impl Join<View> for Together {
    ghost both = { joined_view };

    ghost spent = { spent_view };
}
