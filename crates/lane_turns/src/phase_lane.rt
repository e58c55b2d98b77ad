//! A lane of a phase takes an event.
ghost use Rattle.std.specs.Prelude.{◌≡◌, option_to_list, OnOk, OnErr};
ghost use Rattle.plant_core.specs.declared.entry.ControlEvent.TheVariants.{Plain};
ghost use Rattle.lane_turns.specs.LaneStates.{Control, Conn, Data};
ghost use Rattle.lane_turns.specs.Turns.{CanTake, IsPlain, TakesEvent, IsAsBefore};
ghost use Rattle.lane_turns.specs.Rows.{IsControl, IsSeated, conn_of, data_of};

use crate::conn_seat::conn_takes;
use crate::lane_kind::LaneKind;
use conn_lane::ConnLane;
use data_lane::DataLane;
use lane_seats::{ControlSeat, Seat, unit_takes};
use plant_core::ControlEvent;
use relay_base::{Event, Memory, Stamp};
use std::marker::Model;
use std::sync::Wait;

/// A lane of a phase.
pub struct PhaseLane<'r, R: Wait> {
    kind: LaneKind<'r, R>,
}

impl<'r, R: Wait> Drop for PhaseLane<'r, R> {
    fn drop(self) {
        let Self { kind: _kind } = self;
    }
}

impl<'r, R: Wait> Model for PhaseLane<'r, R> {
    ghost use Rattle.lane_turns.specs.LaneStates.{PhaseLane as PhaseLaneState};
    ghost use Rattle.lane_turns.specs.Shown.{shown};

    ghost Value = { PhaseLaneState };

    ghost view = { λ l. shown l.kind };
}

/// What clauses see of a lane. No value of it is made: it stands for the type of its values in clauses.
pub struct LaneView;

impl Model for LaneView {
    ghost use Rattle.lane_turns.specs.LaneStates.{PhaseLane as PhaseLaneState, no_lane};

    ghost Value = { PhaseLaneState };

    ghost view = { λ _. no_lane };
}

/// The event of another lane than the control lane.
fn plain(event: ControlEvent) -> Event
    requires { IsPlain event }
    ensures { event ≡ Plain result }
{
    let ControlEvent::Plain(event) = event else {
        unreachable!()
    };
    event
}

impl<'r, R: Wait> PhaseLane<'r, R> {
    pub fn control(seat: ControlSeat<'r, R>) -> PhaseLane<'r, R>
        ensures { result ≡ Control seat.entry }
    {
        PhaseLane {
            kind: LaneKind::Control(seat),
        }
    }

    pub fn conn(seat: Seat<'r, R, ConnLane>) -> PhaseLane<'r, R>
        ensures { result ≡ Conn seat.entry }
    {
        PhaseLane {
            kind: LaneKind::Conn(seat),
        }
    }

    pub fn data(seat: Seat<'r, R, DataLane>) -> PhaseLane<'r, R>
        ensures { result ≡ Data seat.entry }
    {
        PhaseLane {
            kind: LaneKind::Data(seat),
        }
    }

    /// Takes an event that is placed in the lane. After want of memory the lane is as before, but that it may have looked.
    pub fn step(&mut self, stamp: Stamp, event: ControlEvent) -> Result<(), Memory>
        requires { CanTake event self.old }
        ensures ok { OnOk result (TakesEvent stamp event self.old self.new) }
        ensures err { OnErr result (IsAsBefore self.old self.new) }
    {
        match &mut self.kind {
            LaneKind::Control(seat) => seat.step(stamp, event),
            LaneKind::Conn(seat) => conn_takes(seat, stamp, plain(event)),
            LaneKind::Data(seat) => unit_takes(seat, stamp, plain(event)),
        }
    }

    /// The control lane, with its publisher.
    pub fn into_control(self) -> ControlSeat<'r, R>
        requires { IsControl self }
        ensures { self.entry ≡ Control result }
    {
        let Self { kind } = self;
        let LaneKind::Control(seat) = kind else {
            unreachable!()
        };
        seat
    }

    /// A connection lane or a data lane at its place, by its kind.
    pub fn by_kind(self) -> (Option<Seat<'r, R, ConnLane>>, Option<Seat<'r, R, DataLane>>)
        requires { IsSeated self }
        ensures conn { option_to_list result.0 ≡ conn_of self.entry }
        ensures unit { option_to_list result.1 ≡ data_of self.entry }
    {
        let Self { kind } = self;
        match kind {
            LaneKind::Control(_) => unreachable!(),
            LaneKind::Conn(seat) => (Some(seat), None),
            LaneKind::Data(seat) => (None, Some(seat)),
        }
    }
}
