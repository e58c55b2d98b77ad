//! A connection lane at its place takes an event.
ghost use Rattle.std.specs.Prelude.{◌<◌, ◌^◌, length, OnOk, OnErr};
ghost use Rattle.lane_seats.specs.Seats.{HasLooked, Takes, conn_seat};
ghost use Rattle.lane_turns.specs.ConnSeats.{conn_seated};

use conn_lane::ConnLane;
use core::mem::replace_with;
use lane_seats::Seat;
use relay_base::{Event, Memory, Stamp};
use std::sync::Wait;

/// A connection lane takes an event by one look.
fn conn_looks<'r, R: Wait>(
    seat: Seat<'r, R, ConnLane>,
    stamp: Stamp,
    event: Event,
) -> (Seat<'r, R, ConnLane>, Result<(), Memory>)
    requires { length seat.lane.journal < 2 ^ 32 }
    ensures ok { let old = conn_seated seat.entry in let new = conn_seated result.0 in
        OnOk result.1 (Takes conn_seat stamp event old new) }
    ensures err { OnErr result.1 (HasLooked seat.entry result.0) }
{
    let (mut lane, place) = seat.parted();
    let looking = place.look();
    let taken = lane.step_owned(looking.plant(), stamp, event);
    let place = looking.leave();
    (Seat::joined(lane, place), taken)
}

/// The same, in place.
pub fn conn_takes<R: Wait>(
    seat: &mut Seat<'_, R, ConnLane>,
    stamp: Stamp,
    event: Event,
) -> Result<(), Memory>
    requires { length seat.old.lane.journal < 2 ^ 32 }
    ensures ok { let old = conn_seated seat.old in let new = conn_seated seat.new in
        OnOk result (Takes conn_seat stamp event old new) }
    ensures err { OnErr result (HasLooked seat.old seat.new) }
{
    replace_with(seat, (stamp, event), |seat, (stamp, event)| {
        conn_looks(seat, stamp, event)
    })
}
