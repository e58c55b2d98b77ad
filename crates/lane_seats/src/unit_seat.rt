//! A data lane at its place takes an event.
ghost use Rattle.std.specs.Prelude.{OnOk, OnErr};
ghost use Rattle.lane_seats.specs.Seats.{HasLooked, Takes, data_seat, data_seated};

use crate::seat::Seat;
use core::mem::replace_with;
use data_lane::DataLane;
use relay_base::{Event, Memory, Stamp};
use std::sync::Wait;

/// A data lane takes an event by one look.
fn unit_looks<'r, R: Wait>(
    seat: Seat<'r, R, DataLane>,
    stamp: Stamp,
    event: Event,
) -> (Seat<'r, R, DataLane>, Result<(), Memory>)
    ensures ok { let old = data_seated seat.entry in let new = data_seated result.0 in
        OnOk result.1 (Takes data_seat stamp event old new) }
    ensures err { OnErr result.1 (HasLooked seat.entry result.0) }
{
    let (mut lane, place) = seat.parted();
    let looking = place.look();
    let taken = lane.step_owned(looking.plant(), stamp, event);
    let place = looking.leave();
    (Seat::joined(lane, place), taken)
}

/// The same, in place.
pub fn unit_takes<R: Wait>(
    seat: &mut Seat<'_, R, DataLane>,
    stamp: Stamp,
    event: Event,
) -> Result<(), Memory>
    ensures ok { let old = data_seated seat.old in let new = data_seated seat.new in
        OnOk result (Takes data_seat stamp event old new) }
    ensures err { OnErr result (HasLooked seat.old seat.new) }
{
    replace_with(seat, (stamp, event), |seat, (stamp, event)| {
        unit_looks(seat, stamp, event)
    })
}
