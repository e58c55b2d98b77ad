//! A phase.
ghost use Rattle.std.specs.Prelude.{IfOk, OnOk};
ghost use Rattle.scmg.specs.Control.{IsControlJournal};
ghost use Rattle.capture_form.specs.Events.{phase_events};
ghost use Rattle.lane_seats.specs.Plans.{IsPhase};
ghost use Rattle.node_engine.specs.Running.{CanTake, Went, ServesNext};

use crate::copies::phase_copy;
use crate::node::{Node, control_alone};
use crate::phase_lanes::{closed_lanes, opened_lanes};
use capture_form::Phase;
use lane_turns::take_phase;
use node_head::Head;
use relay_base::{Memory, Pace};
use std::alloc::Global;
use std::mem;
use std::sync::Wait;
use std::thread::Threads;

/// The lanes of a node, once they have taken the events of a phase.
fn after_phase<R: Threads + Wait + Sync, P: Pace>(
    rt: &R,
    alloc: Global,
    head: &Head,
    phase: Phase,
    node: Node,
    pace: &P,
) -> Result<Node, Memory>
    requires able { CanTake head.now (phase_events phase) node }
    requires phase { IsPhase head.now phase }
    ensures went { IfOk result (Went head.now phase node) }
    ensures legal { IsControlJournal node.control.head node.control.start node.control.journal }
{
    let (control, lanes) = opened_lanes(rt, alloc, node)?;
    let (control, lanes) = take_phase(rt, alloc, head, phase, control, lanes, pace)?;
    closed_lanes(alloc, control, lanes)
}

/// The lanes take the events of a phase, which move into them: each link's in their order, delivered in a thread of its own, and in each lane in whatever order the links meet.
///
/// Where the journals had the events of the phases before this one, each with the routing that it asks, they have those of this phase too.
/// After want of memory nothing is said of the node.
pub fn run_phase_owned<R: Threads + Wait + Sync, P: Pace>(
    rt: &R,
    alloc: Global,
    head: &Head,
    phase: Phase,
    node: &mut Node,
    pace: &P,
) -> Result<(), Memory>
    requires able { CanTake head.now (phase_events phase) node.old }
    requires phase { IsPhase head.now phase }
    ensures went { OnOk result (Went head.now phase node.old node.new) }
    ensures served { OnOk result (ServesNext head.now phase node.old node.new) }
{
    let spare = control_alone(alloc, head)?;
    let lanes = mem::replace(node, spare);
    *node = after_phase(rt, alloc, head, phase, lanes, pace)?;
    Ok(())
}

/// The lanes take a copy of the events of a phase, as they take those of `run_phase_owned`. After want of memory nothing is said of the node.
pub fn run_phase<R: Threads + Wait + Sync, P: Pace>(
    rt: &R,
    alloc: Global,
    head: &Head,
    phase: &Phase,
    node: &mut Node,
    pace: &P,
) -> Result<(), Memory>
    requires able { CanTake head.now (phase_events phase.now) node.old }
    requires phase { IsPhase head.now phase.now }
    ensures went { OnOk result (Went head.now phase.now node.old node.new) }
    ensures served { OnOk result (ServesNext head.now phase.now node.old node.new) }
{
    let phase = phase_copy(alloc, phase)?;
    run_phase_owned(rt, alloc, head, phase, node, pace)
}
