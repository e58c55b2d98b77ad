//! Lanes are taken out of their gates.
ghost use Rattle.std.specs.Prelude.{IfOk};
ghost use Rattle.lane_gate.specs.Gates.{origin_of};
ghost use Rattle.block_threads.specs.Items.{Beside};
ghost use Rattle.link_threads.specs.Gates.{AreUsedUp, HasTaken, HaveUsed};

use crate::dealing::take_back;
use crate::door::Door;
use lane_gate::{Gate, LaneState, Pass, PassList};
use relay_base::Memory;
use std::alloc::Global;

/// The lane of a gate through whose passes all events went.
fn close_one<L: LaneState>(gate: Gate<L>, passes: PassList) -> L
    requires { AreUsedUp L.plan gate passes }
    ensures { HasTaken L.plan L.taken (origin_of gate) result }
{
    gate.close(passes)
}

/// The lanes of gates through whose passes all events went.
pub fn close_all<L: LaneState>(
    alloc: Global,
    doors: Vec<Door<L>>,
    hands: Vec<Vec<Pass>>,
) -> Result<Vec<L>, Memory>
    requires { HaveUsed L.plan doors.items hands.items }
    ensures { IfOk result (λ v.
        Beside (λ door. HasTaken L.plan L.taken (origin_of door.gate)) doors.items v.items) }
{
    let mut doors = doors;
    let mut hands = hands;
    let mut lanes = Vec::new(alloc);
    while let Some(door) = doors.pop() {
        let passes = take_back(alloc, hands.as_mut_slice())?;
        let lane = close_one(door.gate, passes);
        lanes.insert(0, lane)?;
    }
    Ok(lanes)
}
