//! The kinds of lanes that have places.
use crate::phase_lane::PhaseLane;
use conn_lane::ConnLane;
use data_lane::DataLane;
use lane_seats::Seat;
use link_threads::LaneName;
use std::sync::Wait;

/// Lanes of one kind, numbered from 0, each at its place.
pub trait SeatedKind: Drop {
    ghost use Rattle.std.specs.Prelude.{◌≡◌, ℕ};
    ghost use Rattle.link_threads.specs.declared.lane_name.LaneName.{LaneName};
    ghost use Rattle.lane_turns.specs.LaneStates.{PhaseLane};
    ghost use Rattle.lane_seats.specs.Seats.{SeatState};
    ghost use Rattle.lane_turns.specs.Turns.{IsNamed};

    ghost name_of: { ℕ → LaneName };

    ghost lane_of: { SeatState Self → PhaseLane };

    /// The name of the lane of a number.
    fn name(number: usize) -> LaneName
        ensures { result ≡ name_of number };

    /// A lane at its place, as one of the lanes of a phase.
    fn lane<'r, R: Wait>(seat: Seat<'r, R, Self>) -> PhaseLane<'r, R>
        ensures { result ≡ lane_of seat.entry };

    ghost named: { (number : ℕ) (s : SeatState Self) → IsNamed (name_of number) (lane_of s) };
}

impl SeatedKind for ConnLane {
    ghost use Rattle.link_threads.specs.declared.lane_name.LaneName.TheVariants.{Conn as ConnName};
    ghost use Rattle.std.specs.Prelude.{◌≡◌};
    ghost use Rattle.lane_turns.specs.LaneStates.{Conn};

    ghost name_of = { ConnName };

    ghost lane_of = { Conn };

    ghost named = { λ number s. tt };

    fn name(number: usize) -> LaneName {
        LaneName::Conn(number)
    }

    fn lane<'r, R: Wait>(seat: Seat<'r, R, ConnLane>) -> PhaseLane<'r, R>
        ensures { result ≡ Conn seat.entry }
    {
        PhaseLane::conn(seat)
    }
}

impl SeatedKind for DataLane {
    ghost use Rattle.link_threads.specs.declared.lane_name.LaneName.TheVariants.{Data as DataName};
    ghost use Rattle.std.specs.Prelude.{◌≡◌};
    ghost use Rattle.lane_turns.specs.LaneStates.{Data};

    ghost name_of = { DataName };

    ghost lane_of = { Data };

    ghost named = { λ number s. tt };

    fn name(number: usize) -> LaneName {
        LaneName::Data(number)
    }

    fn lane<'r, R: Wait>(seat: Seat<'r, R, DataLane>) -> PhaseLane<'r, R>
        ensures { result ≡ Data seat.entry }
    {
        PhaseLane::data(seat)
    }
}
