//! The lanes in which the events of a capture are placed.
ghost use Rattle.std.specs.Prelude.{◌≡◌, map, IfOk};
ghost use Rattle.node_head.specs.Ranges.{IsHead};
ghost use Rattle.lane_events.specs.Placing.{with_place, all_placed, is_in};

use capture_form::{LanePlace, Phase, PhaseList, place};
use node_head::Head;
use plant_core::ControlEvent;
use relay_base::{Memory, PlainList, Stamp};
use std::alloc::Global;
use std::marker::Model;

/// A lane: the control lane, or the connection lane or data lane of a number, from 0.
#[derive(Clone, Copy)]
pub enum Lane {
    Control,
    Conn(u8),
    Data(u8),
}

impl Lane {
    /// Whether an event of this place stands in the lane.
    pub fn has(self, place: LanePlace) -> bool
        ensures { result ≡ is_in self place }
    {
        match (self, place) {
            (_, LanePlace::All) | (Lane::Control, LanePlace::Control) => true,
            (Lane::Conn(number), LanePlace::Conn(lane)) => lane == number,
            (Lane::Data(number), LanePlace::Unit(lane)) => lane == number,
            _ => false,
        }
    }
}

/// The events of a link in a phase, each with its place.
#[derive(Drop)]
pub struct PlacedLink<'a> {
    pub(crate) events: Vec<(LanePlace, &'a (Stamp, ControlEvent))>,
}

impl<'a> Model for PlacedLink<'a> {
    ghost use Rattle.std.specs.Prelude.{List, map};
    ghost use Rattle.relay_base.specs.declared.words.Stamp.{Stamp};
    ghost use Rattle.plant_core.specs.declared.entry.ControlEvent.{ControlEvent};
    ghost use Rattle.capture_form.specs.declared.lane_place.LanePlace.{LanePlace};

    ghost Value = { List (LanePlace × (Stamp × ControlEvent)) };

    ghost view = { λ l. map (λ e. (e.0, e.1.now)) l.events.items };
}

/// Those of the links of a phase, from 0.
pub type PlacedPhase<'a> = PlainList<PlacedLink<'a>>;

/// Those of phases, from 1.
pub type PlacedPhases<'a> = PlainList<PlacedPhase<'a>>;

fn place_link<'a>(
    alloc: Global,
    head: &Head,
    events: &'a [(Stamp, ControlEvent)],
) -> Result<PlacedLink<'a>, Memory>
    requires { IsHead head.now }
    ensures { IfOk result (λ l. l ≡ map (with_place head.now) events.now) }
{
    let mut placed = Vec::new(alloc);
    for event in events {
        placed.push((place(head, &event.1), event))?;
    }
    Ok(PlacedLink { events: placed })
}

fn place_phase<'a>(alloc: Global, head: &Head, phase: &'a Phase) -> Result<PlacedPhase<'a>, Memory>
    requires { IsHead head.now }
    ensures { IfOk result (λ p. p ≡ map (map (with_place head.now)) phase.now) }
{
    let mut placed = PlainList::new(alloc);
    for link in phase.as_slice() {
        placed.push(place_link(alloc, head, link.as_slice())?)?;
    }
    Ok(placed)
}

/// The events of phases, each with its place.
pub fn place_all<'a>(
    alloc: Global,
    head: &Head,
    phases: &'a PhaseList,
) -> Result<PlacedPhases<'a>, Memory>
    requires { IsHead head.now }
    ensures { IfOk result (λ p. p ≡ all_placed head.now phases.now) }
{
    let mut placed = PlainList::new(alloc);
    for phase in phases.as_slice() {
        placed.push(place_phase(alloc, head, phase)?)?;
    }
    Ok(placed)
}
