//! The events of a link are delivered.
ghost use Rattle.std.specs.Prelude.{◌<◌, [], ◌∷◌, length, OnOk, IfSome, IfNone};
ghost use Rattle.block_threads.specs.Items.{Beside};
ghost use Rattle.link_threads.specs.Links.{IsStamped};
ghost use Rattle.link_threads.specs.Gates.{HasFed, IsFedBelow, IsForNone, IsLastFor};

use crate::arrivals::{Arrival, Arrivals};
use crate::door::Door;
use capture_form::LanePlace;
use lane_gate::{LaneState, Pass};
use relay_base::{Memory, Pace};
use std::sync::Wait;

/// The last lane in which a place is, if there is one.
pub fn last_for<L: LaneState>(doors: &[Door<L>], place: LanePlace) -> Option<usize>
    ensures some { IfSome result (IsLastFor place doors.now) }
    ensures none { IfNone result (IsForNone place doors.now) }
{
    doors.iter().rposition(|door| door.name.has(place))
}

/// A copy of an event goes to a lane, where it is placed there.
fn deliver_copy<R: Wait, L: LaneState, A: Arrivals<L::Event>>(
    rt: &R,
    door: &Door<L>,
    link: &A,
    arrival: &Arrival<L::Event>,
    pass: &mut Pass,
) -> Result<(), Memory>
    requires { let number = arrival.now.stamp.link in
        HasFed L.plan number (arrival.now ∷ A.left link.now) door.now pass.old }
    ensures { let number = arrival.now.stamp.link in
        OnOk result (HasFed L.plan number (A.left link.now) door.now pass.new) }
{
    if !door.name.has(arrival.place) {
        return Ok(());
    }
    let copy = link.copy(&arrival.event)?;
    door.gate.deliver(rt, pass, arrival.stamp, copy)
}

/// Copies of an event go to those of the lanes before this one in which it is placed.
fn deliver_copies<R: Wait, L: LaneState, A: Arrivals<L::Event>>(
    rt: &R,
    doors: &[Door<L>],
    link: &A,
    last: usize,
    arrival: &Arrival<L::Event>,
    passes: &mut [Pass],
) -> Result<(), Memory>
    requires last { last < length doors.now }
    requires ready { let number = arrival.now.stamp.link in
        Beside (HasFed L.plan number (arrival.now ∷ A.left link.now)) doors.now passes.old }
    ensures { let left = A.left link.now in
        OnOk result (IsFedBelow L.plan arrival.now left last doors.now passes.new) }
{
    for lane in 0..last {
        deliver_copy(rt, &doors[lane], link, arrival, &mut passes[lane])?;
    }
    Ok(())
}

/// An event goes to the lanes in which it is placed: itself to the last one, and copies to the others.
pub fn deliver_each<R: Wait, L: LaneState, A: Arrivals<L::Event>>(
    rt: &R,
    doors: &[Door<L>],
    link: &A,
    arrival: Arrival<L::Event>,
    passes: &mut [Pass],
) -> Result<(), Memory>
    requires { let number = arrival.stamp.link in
        Beside (HasFed L.plan number (arrival ∷ A.left link.now)) doors.now passes.old }
    ensures { let number = arrival.stamp.link in
        OnOk result (Beside (HasFed L.plan number (A.left link.now)) doors.now passes.new) }
{
    let Some(last) = last_for(doors, arrival.place) else {
        return Ok(());
    };
    deliver_copies(rt, doors, link, last, &arrival, passes)?;
    let Arrival {
        place: _,
        stamp,
        event,
    } = arrival;
    doors[last]
        .gate
        .deliver(rt, &mut passes[last], stamp, event)
}

/// The events that are left of a link are delivered in their order.
pub fn serve<R: Wait, P: Pace, L: LaneState, A: Arrivals<L::Event>>(
    rt: &R,
    pace: &P,
    doors: &[Door<L>],
    number: u8,
    link: &mut A,
    passes: &mut [Pass],
) -> Result<(), Memory>
    requires stamped { IsStamped number (A.left link.old) }
    requires ready { Beside (HasFed L.plan number (A.left link.old)) doors.now passes.old }
    ensures { OnOk result (Beside (HasFed L.plan number []) doors.now passes.new) }
{
    while let Some(arrival) = link.next() {
        let line = arrival.stamp.line;
        pace.before(number, line);
        deliver_each(rt, doors, link, arrival, passes)?;
        pace.after(number, line);
    }
    Ok(())
}
