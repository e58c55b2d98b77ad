//! The links of a phase.
ghost use Rattle.std.specs.Prelude.{◌≡◌, IfOk};
ghost use Rattle.node_head.specs.Ranges.{IsHead};
ghost use Rattle.link_threads.specs.Phases.{arrivals_of, links_of};

use crate::arrivals::{Arrival, Arrivals};
use capture_form::{Phase, StampedControlList, place};
use node_head::Head;
use plant_core::ControlEvent;
use relay_base::{Memory, Stamp};
use std::alloc::Global;
use std::marker::Model;
use std::vec::IntoIter;

/// What is left to come on a link of a phase, with the head by which its events are placed. A clause sees what is left.
#[derive(Drop)]
pub struct PhaseLink<'p> {
    head: &'p Head,
    events: IntoIter<(Stamp, ControlEvent), Global>,
}

impl<'p> Model for PhaseLink<'p> {
    ghost use Rattle.plant_core.specs.declared.entry.ControlEvent.{ControlEvent};
    ghost use Rattle.node_head.specs.Ranges.{IsHead};
    ghost use Rattle.link_threads.specs.Links.{Link};
    ghost use Rattle.link_threads.specs.Phases.{arrivals_of};

    ghost Value = { Link ControlEvent };

    ghost view = { λ p. arrivals_of p.head.now p.events.rest.items };

    ghost invariant = { λ p. IsHead p.head.now };
}

impl<'p> PhaseLink<'p> {
    fn new(head: &'p Head, events: StampedControlList) -> PhaseLink<'p>
        requires { IsHead head.now }
        ensures { result ≡ arrivals_of head.now events }
    {
        PhaseLink {
            head,
            events: events.into_vec().into_iter(),
        }
    }
}

/// A copy of an event of a phase.
pub fn event_copy(event: &ControlEvent) -> Result<ControlEvent, Memory>
    ensures { IfOk result (λ copy. copy ≡ event.now) }
{
    Ok(event.clone()?)
}

impl<'p> Arrivals<ControlEvent> for PhaseLink<'p> {
    ghost left = { λ link. link };

    fn len(&self) -> usize {
        self.events.len()
    }

    fn next(&mut self) -> Option<Arrival<ControlEvent>> {
        let (stamp, event) = self.events.next()?;
        let place = place(self.head, &event);
        Some(Arrival {
            place,
            stamp,
            event,
        })
    }

    fn copy(&self, event: &ControlEvent) -> Result<ControlEvent, Memory> {
        event_copy(event)
    }
}

/// The links of a phase, from 0, and on each of them all that comes in the phase.
pub fn phase_links<'p>(
    alloc: Global,
    head: &'p Head,
    phase: Phase,
) -> Result<Vec<PhaseLink<'p>>, Memory>
    requires { IsHead head.now }
    ensures { IfOk result (λ v. v.items ≡ links_of head.now phase) }
{
    let lists = phase.into_vec();
    let mut links = Vec::with_capacity(alloc, lists.len())?;
    for events in lists {
        links.push_reserved(PhaseLink::new(head, events));
    }
    Ok(links)
}
