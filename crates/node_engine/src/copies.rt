//! Copies of what is lent to a run.
ghost use Rattle.std.specs.Prelude.{◌≡◌, IfOk};

use capture_form::{Phase, PhaseList, StampedControlList};
use link_threads::event_copy;
use plant_core::ControlEvent;
use relay_base::{Memory, Stamp};
use std::alloc::Global;

/// A copy of the events of a link.
fn events_copy(
    alloc: Global,
    events: &[(Stamp, ControlEvent)],
) -> Result<StampedControlList, Memory>
    ensures { IfOk result (λ copy. copy ≡ events.now) }
{
    let mut copy = Vec::with_capacity(alloc, events.len())?;
    for (stamp, event) in events {
        copy.push((*stamp, event_copy(event)?))?;
    }
    Ok(StampedControlList::from(copy))
}

/// A copy of a phase.
pub fn phase_copy(alloc: Global, phase: &Phase) -> Result<Phase, Memory>
    ensures { IfOk result (λ copy. copy ≡ phase.now) }
{
    let mut copy = Vec::with_capacity(alloc, phase.len())?;
    for events in phase.as_slice() {
        copy.push(events_copy(alloc, events.as_slice())?)?;
    }
    Ok(Phase::from(copy))
}

/// A copy of phases.
pub fn phases_copy(alloc: Global, phases: &PhaseList) -> Result<PhaseList, Memory>
    ensures { IfOk result (λ copy. copy ≡ phases.now) }
{
    let mut copy = Vec::with_capacity(alloc, phases.len())?;
    for phase in phases.as_slice() {
        copy.push(phase_copy(alloc, phase)?)?;
    }
    Ok(PhaseList::from(copy))
}
