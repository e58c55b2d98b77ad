//! The phases of a stream's events.
ghost use Rattle.std.specs.Prelude.{◌≡◌, IfOk};
ghost use Rattle.m3ua_capture.specs.Streams.{plain, phases_of};

use capture_form::{Phase, PhaseList, StampedControlList};
use plant_core::ControlEvent;
use relay_base::{Memory, StampedList};
use std::alloc::Global;

/// The events as a capture has them.
fn plain(alloc: Global, events: StampedList) -> Result<StampedControlList, Memory>
    ensures { IfOk result (λ list. list ≡ plain events) }
{
    let mut list = StampedControlList::new(alloc);
    for (stamp, event) in events.into_vec() {
        list.push((stamp, ControlEvent::Plain(event)))?;
    }
    Ok(list)
}

/// One phase, in which the events are those of link 1; without events there is none.
pub fn phases_of(alloc: Global, events: StampedList) -> Result<PhaseList, Memory>
    ensures { IfOk result (λ phases. phases ≡ phases_of (plain events)) }
{
    let mut phases = PhaseList::new(alloc);
    if events.is_empty() {
        return Ok(phases);
    }
    let mut phase = Phase::new(alloc);
    phase.push(StampedControlList::new(alloc))?;
    phase.push(plain(alloc, events)?)?;
    phases.push(phase)?;
    Ok(phases)
}
