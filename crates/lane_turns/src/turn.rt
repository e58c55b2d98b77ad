//! A lane in its gate.
ghost use Rattle.std.specs.Prelude.{◌≡◌, length};
ghost use Rattle.capture_form.specs.Events.{phase_events};
ghost use Rattle.lane_turns.specs.Turns.{HasRoom, IsNamed, IsTurn, opened_turn};

use crate::phase_lane::{LaneView, PhaseLane};
use capture_form::Phase;
use lane_gate::LaneState;
use link_threads::{LaneName, Named, event_copy};
use mark::Mark;
use node_head::Head;
use plant_core::ControlEvent;
use relay_base::{Memory, Stamp};
use std::marker::Model;
use std::sync::Wait;

/// A lane, with the phase whose events it takes.
pub struct LaneTurn<'p, 'r, R: Wait> {
    head: &'p Head,
    /// The phase, which clauses alone read.
    phase: Mark<Phase>,
    name: LaneName,
    /// The lane as it was at the opening, which clauses alone read.
    first: Mark<LaneView>,
    lane: PhaseLane<'r, R>,
}

impl<'p, 'r, R: Wait> Drop for LaneTurn<'p, 'r, R> {
    fn drop(self) {
        let Self {
            head: _,
            phase: _phase,
            name: _,
            first: _first,
            lane: _lane,
        } = self;
    }
}

impl<'p, 'r, R: Wait> Model for LaneTurn<'p, 'r, R> {
    ghost use Rattle.lane_turns.specs.Turns.{TurnState, IsTurn, turn_of};

    ghost Value = { TurnState };

    ghost view = { λ t. turn_of t.head.now t.phase.value t.name t.first.value t.lane };

    ghost invariant = { λ t. IsTurn (turn_of t.head.now t.phase.value t.name t.first.value t.lane) };
}

/// A mark of a phase.
fn mark_of(phase: &Phase) -> Mark<Phase>
    ensures { result.value ≡ phase.now }
{
    Mark::after(phase)
}

/// A mark of a lane that a proof chooses by the lane that is seen.
fn mark_by<'r, R: Wait>(lane: &PhaseLane<'r, R>) -> Mark<LaneView>
    ghost v: { LaneView }
    ensures { result.value ≡ v }
{
    let _ = lane;
    Mark::after(&0u8)
}

impl<'p, 'r, R: Wait> LaneTurn<'p, 'r, R> {
    /// The lane of a name, before the first event of the phase.
    pub fn new(
        head: &'p Head,
        phase: &Phase,
        name: LaneName,
        lane: PhaseLane<'r, R>,
    ) -> LaneTurn<'p, 'r, R>
        requires named { IsNamed name lane }
        requires room { HasRoom (length (phase_events phase.now)) lane }
        ensures { result ≡ opened_turn head.now phase.now name lane.entry }
    {
        let first = mark_by(&lane);
        LaneTurn {
            head,
            phase: mark_of(phase),
            name,
            first,
            lane,
        }
    }

    /// The lane, with what its type kept.
    pub fn into_lane(self) -> PhaseLane<'r, R>
        ensures lane { result ≡ self.entry.lane }
        ensures turn { IsTurn self.entry }
    {
        let Self {
            head: _,
            phase: _,
            name: _,
            first: _,
            lane,
        } = self;
        lane
    }
}

impl<'p, 'r, R: Wait> LaneState for LaneTurn<'p, 'r, R> {
    ghost use Rattle.lane_turns.specs.Turns.{Opening, plan_of, taken_of};

    type Event = ControlEvent;

    ghost Base = { Opening };

    ghost plan = { plan_of };

    ghost taken = { taken_of };

    fn take_turn(&mut self, stamp: Stamp, event: &ControlEvent) -> Result<(), Memory> {
        let copy = event_copy(event)?;
        self.take_owned(stamp, copy)
    }

    fn take_owned(&mut self, stamp: Stamp, event: ControlEvent) -> Result<(), Memory> {
        self.lane.step(stamp, event)
    }
}

impl<'p, 'r, R: Wait> Named for LaneTurn<'p, 'r, R> {
    ghost name_of = { λ t. t.opening.name };

    fn name(&self) -> LaneName {
        self.name
    }
}
