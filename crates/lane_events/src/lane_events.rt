//! The events of a lane, by phase and link, and how many of them it has taken.
ghost use Rattle.std.specs.Prelude.{◌≡◌, [], ◌∷◌, ◌++◌, map, IfOk, IfSome, OnOk, option_map};
ghost use Rattle.std.specs.List.{list_all};
ghost use Rattle.journal_finding.specs.Entries.{is_same_stamp};
ghost use Rattle.lane_events.specs.Placing.{kept, pending_of};
ghost use Rattle.lane_events.specs.Pending.{next_of, one_taken, next_on, taken_on, next_in, taken_in, is_done};

use crate::placing::{Lane, PlacedLink, PlacedPhase, PlacedPhases};
use capture_form::LanePlace;
use plant_core::ControlEvent;
use relay_base::{Memory, Stamp};
use std::alloc::Global;
use std::marker::Model;

/// The events of a link in a phase that a lane takes, in their order.
#[derive(Drop)]
pub struct LinkEvents<'a> {
    events: Vec<&'a (Stamp, ControlEvent)>,
    /// How many of them were taken.
    taken: usize,
}

impl<'a> Model for LinkEvents<'a> {
    ghost use Rattle.std.specs.Prelude.{map};
    ghost use Rattle.lane_events.specs.Pending.{Pending};

    ghost Value = { Pending };

    ghost view = { λ l. record { events = map (λ e. e.now) l.events.items; taken = l.taken } };
}

fn is_same(one: Stamp, other: Stamp) -> bool
    ensures { result ≡ is_same_stamp one other }
{
    one.phase == other.phase && one.link == other.link && one.line == other.line
}

/// Puts an event at the end, where the lane takes those of its place.
fn put_event<'a>(
    events: &mut Vec<&'a (Stamp, ControlEvent)>,
    lane: Lane,
    place: LanePlace,
    event: &'a (Stamp, ControlEvent),
) -> Result<(), Memory>
    ensures { let seen = map (λ e. e.now) events.new.items in
        let before = map (λ e. e.now) events.old.items
        in OnOk result (seen ≡ before ++ kept lane ((place, event.now) ∷ [])) }
{
    if lane.has(place) {
        events.push(event)?;
    }
    Ok(())
}

impl<'a> LinkEvents<'a> {
    /// Those of a link that a lane takes.
    fn new(alloc: Global, lane: Lane, placed: &PlacedLink<'a>) -> Result<LinkEvents<'a>, Memory>
        ensures { IfOk result (λ l. l ≡ pending_of lane placed.now) }
    {
        let mut events = Vec::new(alloc);
        for (place, event) in &placed.events {
            put_event(&mut events, lane, *place, event)?;
        }
        Ok(LinkEvents { events, taken: 0 })
    }

    /// Takes the next event, where it has this stamp.
    fn take(&mut self, stamp: Stamp) -> Option<&'a ControlEvent>
        ensures next { option_map (λ e. e.now) result ≡ next_of stamp self.old }
        ensures taken { IfSome result (λ e. self.new ≡ one_taken self.old) }
    {
        if self.taken >= self.events.len() {
            return None;
        }
        let (found, event) = self.events[self.taken];
        if !is_same(stamp, *found) {
            return None;
        }
        self.taken += 1;
        Some(event)
    }

    /// Whether all were taken.
    fn is_done(&self) -> bool
        ensures { result ≡ is_done self.now }
    {
        self.taken == self.events.len()
    }
}

/// Those of the links of a phase that a lane takes.
fn events_of<'a>(
    alloc: Global,
    lane: Lane,
    placed: &PlacedPhase<'a>,
) -> Result<Vec<LinkEvents<'a>>, Memory>
    ensures { IfOk result (λ v. v.items ≡ map (pending_of lane) placed.now) }
{
    let mut links = Vec::new(alloc);
    for link in placed.as_slice() {
        links.push(LinkEvents::new(alloc, lane, link)?)?;
    }
    Ok(links)
}

/// Takes the next event of a link of these, where it has this stamp.
fn take_on<'a>(links: &mut Vec<LinkEvents<'a>>, stamp: Stamp) -> Option<&'a ControlEvent>
    ensures next { option_map (λ e. e.now) result ≡ next_on stamp links.old.items }
    ensures taken { IfSome result (λ e. links.new.items ≡ taken_on stamp links.old.items) }
{
    let link = usize::from(stamp.link);
    if link >= links.len() {
        return None;
    }
    links[link].take(stamp)
}

/// Whether all events of these links were taken.
fn are_done(links: &[LinkEvents<'_>]) -> bool
    ensures { result ≡ list_all is_done links.now }
{
    links.iter().all(|link| link.is_done())
}

/// Whether all events of these phases were taken.
fn are_all_done(phases: &[Vec<LinkEvents<'_>>]) -> bool
    ensures { result ≡ list_all (λ links. list_all is_done links.items) phases.now }
{
    phases.iter().all(|links| are_done(links.as_slice()))
}

/// The events of a lane.
#[derive(Drop)]
pub struct LaneEvents<'a> {
    phases: Vec<Vec<LinkEvents<'a>>>,
    /// The phase of the last event that was taken; 0 before the first.
    reached: u32,
}

impl<'a> Model for LaneEvents<'a> {
    ghost use Rattle.std.specs.Prelude.{map};
    ghost use Rattle.lane_events.specs.Pending.{Waiting};

    ghost Value = { Waiting };

    ghost view = { λ l.
        record { phases = map (λ links. links.items) l.phases.items; reached = l.reached } };
}

impl<'a> LaneEvents<'a> {
    /// Those that a lane takes, before the first.
    pub fn new(
        alloc: Global,
        lane: Lane,
        placed: &PlacedPhases<'a>,
    ) -> Result<LaneEvents<'a>, Memory>
        ensures { IfOk result (λ l.
            l ≡ record { phases = map (map (pending_of lane)) placed.now; reached = 0 }) }
    {
        let mut phases = Vec::new(alloc);
        for phase in placed.as_slice() {
            phases.push(events_of(alloc, lane, phase)?)?;
        }
        Ok(LaneEvents { phases, reached: 0 })
    }

    /// Takes the event with this stamp, where it is the next one of its phase and link, and none of a later phase was taken.
    pub fn take(&mut self, stamp: Stamp) -> Option<&'a ControlEvent>
        ensures next { option_map (λ e. e.now) result ≡ next_in self.old stamp }
        ensures taken { IfSome result (λ e. self.new ≡ taken_in self.old stamp) }
    {
        if stamp.phase == 0 || stamp.phase < self.reached {
            return None;
        }
        let at = stamp.phase as usize - 1;
        if at >= self.phases.len() {
            return None;
        }
        let event = take_on(&mut self.phases[at], stamp)?;
        self.reached = stamp.phase;
        Some(event)
    }

    /// Whether all events were taken.
    pub fn all_taken(&self) -> bool
        ensures { result ≡ list_all (list_all is_done) self.now.phases }
    {
        are_all_done(self.phases.as_slice())
    }
}
