//! The lanes of a phase take its events.
ghost use Rattle.std.specs.Prelude.{length, All, IfOk};
ghost use Rattle.node_head.specs.Ranges.{IsHead};
ghost use Rattle.capture_form.specs.Events.{phase_events};
ghost use Rattle.lane_seats.specs.Controls.{IsOpen};
ghost use Rattle.lane_seats.specs.Plans.{IsPhase};
ghost use Rattle.link_threads.specs.Gates.{HasTaken, IsAtOpening};
ghost use Rattle.block_threads.specs.Items.{Beside};
ghost use Rattle.link_threads.specs.Phases.{links_of};
ghost use Rattle.lane_turns.specs.Phases.{GoesOn, HasRoomFor};
ghost use Rattle.lane_turns.specs.Turns.{plan_of, taken_of};

use crate::phase_lanes::PhaseLanes;
use crate::turn::LaneTurn;
use capture_form::Phase;
use link_threads::{phase_links, take_events};
use node_head::Head;
use relay_base::{Memory, Pace};
use scmg::ControlLane;
use std::alloc::Global;
use std::sync::Wait;
use std::thread::Threads;

/// A row of lanes takes the events of a phase: a feeder for each link, in a thread of its own, delivers the events of its link in their order, and all are
/// joined.
fn take_row<'p, 'r, R: Threads + Wait + Sync, P: Pace>(
    rt: &'r R,
    alloc: Global,
    head: &'p Head,
    phase: Phase,
    turns: Vec<LaneTurn<'p, 'r, R>>,
    pace: &P,
) -> Result<Vec<LaneTurn<'p, 'r, R>>, Memory>
    requires stated { IsHead head.now }
    requires phase { IsPhase head.now phase }
    requires lanes { let links = links_of head.now phase in
        All (IsAtOpening plan_of taken_of (λ t. t.opening.name) links) turns.items }
    ensures { IfOk result (λ v. Beside (HasTaken plan_of taken_of) turns.entry.items v.items) }
{
    let links = phase_links(alloc, head, phase)?;
    take_events(rt, alloc, links, turns, pace)
}

/// The lanes take the events of a phase, which move into them. Where one of the feeders meets want of memory, so does this.
pub fn take_phase<'r, R: Threads + Wait + Sync, P: Pace>(
    rt: &'r R,
    alloc: Global,
    head: &Head,
    phase: Phase,
    control: ControlLane,
    lanes: PhaseLanes<'r, R>,
    pace: &P,
) -> Result<(ControlLane, PhaseLanes<'r, R>), Memory>
    requires stated { IsHead head.now }
    requires phase { IsPhase head.now phase }
    requires room { HasRoomFor (length (phase_events phase)) control lanes }
    requires open { IsOpen lanes.publisher control }
    ensures { IfOk result (λ t. GoesOn head.now phase control lanes.entry t.0 t.1) }
{
    let turns = lanes.into_turns(alloc, head, &phase, control)?;
    let turns = take_row(rt, alloc, head, phase, turns, pace)?;
    PhaseLanes::from_turns(alloc, turns)
}
