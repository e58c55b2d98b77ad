//! A thread for each link.
ghost use Rattle.std.specs.Prelude.{◌<◌, ◌≤◌, length, map, All, IfOk};
ghost use Rattle.right_book.specs.Lanes.{LanesFrom};
ghost use Rattle.lane_gate.specs.declared.gate.TheConstants.{MOST_CALLERS};
ghost use Rattle.block_threads.specs.Items.{Beside};
ghost use Rattle.link_threads.specs.Links.{IsStamped};
ghost use Rattle.link_threads.specs.Gates.{HasTaken, IsAtOpening};

use crate::arrivals::Arrivals;
use crate::closing::close_all;
use crate::dealing::open;
use crate::feeders::feed;
use crate::lane_name::Named;
use lane_gate::LaneState;
use relay_base::{Memory, Pace};
use std::alloc::Global;
use std::sync::Wait;
use std::thread::Threads;

/// Lanes take what comes on the links: a feeder for each link, in a thread of its own where events come on several, delivers the events of its link in their
/// order to the lanes in which they are placed, and all are joined. Where one of them meets want of memory, so does this.
pub fn take_events<
    R: Threads + Wait + Sync,
    P: Pace,
    L: LaneState + Named + Send,
    A: Arrivals<L::Event> + Send,
>(rt: &R, alloc: Global, links: Vec<A>, lanes: Vec<L>, pace: &P) -> Result<Vec<L>, Memory>
where
    L::Event: Send,
    requires some { 0 < length links.items }
    requires few { length links.items ≤ MOST_CALLERS }
    requires stamped { LanesFrom IsStamped 0 (map A.left links.items) }
    requires lanes { All (IsAtOpening L.plan L.taken L.name_of (map A.left links.items)) lanes.items }
    ensures { IfOk result (λ v. Beside (HasTaken L.plan L.taken) lanes.items v.items) }
{
    let (doors, hands) = open(alloc, links.as_slice(), lanes)?;
    let hands = feed(rt, alloc, doors.as_slice(), links, hands, pace)?;
    close_all(alloc, doors, hands)
}
