//! The events of a link are delivered in runs: units of one lane wait for each other, so that links which run side by side seldom meet at a lane.
ghost use Rattle.std.specs.Prelude.{◌≡◌, [], ◌∷◌, length, map, All, IfOk, IfSome, OnOk};
ghost use Rattle.block_threads.specs.Items.{Beside};
ghost use Rattle.link_threads.specs.Links.{IsStamped, Link};
ghost use Rattle.link_threads.specs.Gates.{HasFed, HasFedBut, HaveFedBut, IsFirstFor, IsOnlyFor, NoneWaits};

use crate::arrivals::{Arrival, Arrivals};
use crate::door::Door;
use crate::feed::{deliver_each, last_for};
use capture_form::LanePlace;
use lane_gate::{LaneState, Pass};
use relay_base::{Memory, Pace, Stamp};
use std::alloc::Global;
use std::collections::VecDeque;
use std::sync::Wait;

/// How many units of a lane wait before they are delivered.
const RUN: usize = 128;

/// The first lane in which a place is, if there is one.
fn first_for<L: LaneState>(doors: &[Door<L>], place: LanePlace) -> Option<usize>
    ensures { IfSome result (IsFirstFor place doors.now) }
{
    doors.iter().position(|door| door.name.has(place))
}

/// The lane for which an event may wait. A unit may, where no other lane takes it: only its own lane knows in which order it came.
fn lane_of_unit<L: LaneState>(doors: &[Door<L>], place: LanePlace) -> Option<usize>
    ensures { IfSome result (IsOnlyFor place doors.now) }
{
    let LanePlace::Unit(_) = place else {
        return None;
    };
    let first = first_for(doors, place)?;
    let last = last_for(doors, place)?;
    if first == last { Some(last) } else { None }
}

/// No units, for so many lanes.
fn no_units<E: Drop>(alloc: Global, count: usize) -> Result<Vec<VecDeque<Arrival<E>>>, Memory>
    ensures count { IfOk result (λ v. length v.items ≡ count) }
    ensures empty { IfOk result (λ v. All (λ u. u.items ≡ []) v.items) }
{
    let mut waiting = Vec::with_capacity(alloc, count)?;
    for _ in 0..count {
        waiting.push_reserved(VecDeque::new(alloc));
    }
    Ok(waiting)
}

/// The first of the units that wait for a lane goes to it.
fn deliver_first<R: Wait, P: Pace, L: LaneState>(
    rt: &R,
    pace: &P,
    door: &Door<L>,
    number: u8,
    unit: Arrival<L::Event>,
    pass: &mut Pass,
) -> Result<(), Memory>
    requires { (units : Link L.Event) × (left : Link L.Event)
        × HasFedBut L.plan number (unit ∷ units) left door.now pass.old }
    ensures { (units left : Link L.Event) →
        HasFedBut L.plan number (unit ∷ units) left door.now pass.old →
        OnOk result (HasFedBut L.plan number units left door.now pass.new) }
{
    let Arrival {
        place: _,
        stamp,
        event,
    } = unit;
    pace.before(number, stamp.line);
    door.gate.deliver(rt, pass, stamp, event)?;
    pace.after(number, stamp.line);
    Ok(())
}

/// The units that wait for a lane go to it.
fn empty<R: Wait, P: Pace, L: LaneState>(
    rt: &R,
    pace: &P,
    door: &Door<L>,
    number: u8,
    units: &mut VecDeque<Arrival<L::Event>>,
    pass: &mut Pass,
) -> Result<(), Memory>
    requires { (left : Link L.Event) ×
        HasFedBut L.plan number units.old.items left door.now pass.old }
    ensures none { OnOk result (units.new.items ≡ []) }
    ensures fed { (left : Link L.Event) →
        HasFedBut L.plan number units.old.items left door.now pass.old →
        OnOk result (HasFedBut L.plan number [] left door.now pass.new) }
{
    while let Some(unit) = units.pop_front() {
        deliver_first(rt, pace, door, number, unit, pass)?;
    }
    Ok(())
}

/// All units that wait go to their lanes.
fn empty_all<R: Wait, P: Pace, L: LaneState>(
    rt: &R,
    pace: &P,
    doors: &[Door<L>],
    number: u8,
    waiting: &mut [VecDeque<Arrival<L::Event>>],
    passes: &mut [Pass],
) -> Result<(), Memory>
    requires { (left : Link L.Event) ×
        HaveFedBut L.plan number left doors.now (map (λ u. u.items) waiting.old) passes.old }
    ensures none { OnOk result (NoneWaits (map (λ u. u.items) waiting.new)) }
    ensures fed { (left : Link L.Event) →
        HaveFedBut L.plan number left doors.now (map (λ u. u.items) waiting.old) passes.old →
        OnOk result (HaveFedBut L.plan number left doors.now (map (λ u. u.items) waiting.new) passes.new) }
{
    for lane in 0..doors.len() {
        empty(
            rt,
            pace,
            &doors[lane],
            number,
            &mut waiting[lane],
            &mut passes[lane],
        )?;
    }
    Ok(())
}

/// A unit waits for its lane, and where there are as many as a run has, they go to it.
fn let_wait<R: Wait, P: Pace, L: LaneState>(
    rt: &R,
    pace: &P,
    doors: &[Door<L>],
    unit: Arrival<L::Event>,
    lane: usize,
    waiting: &mut [VecDeque<Arrival<L::Event>>],
    passes: &mut [Pass],
) -> Result<(), Memory>
    requires lane { IsOnlyFor unit.place doors.now lane }
    requires fed { let number = unit.stamp.link in (left : Link L.Event) ×
        HaveFedBut L.plan number (unit ∷ left) doors.now (map (λ u. u.items) waiting.old) passes.old }
    ensures { let number = unit.stamp.link in (left : Link L.Event) →
        HaveFedBut L.plan number (unit ∷ left) doors.now (map (λ u. u.items) waiting.old) passes.old →
        OnOk result (HaveFedBut L.plan number left doors.now (map (λ u. u.items) waiting.new) passes.new) }
{
    let number = unit.stamp.link;
    waiting[lane].push_back(unit)?;
    if waiting[lane].len() >= RUN {
        empty(
            rt,
            pace,
            &doors[lane],
            number,
            &mut waiting[lane],
            &mut passes[lane],
        )?;
    }
    Ok(())
}

/// An event goes to its lanes behind the units that wait.
fn deliver_behind<R: Wait, P: Pace, L: LaneState, A: Arrivals<L::Event>>(
    rt: &R,
    pace: &P,
    doors: &[Door<L>],
    link: &A,
    arrival: Arrival<L::Event>,
    waiting: &mut [VecDeque<Arrival<L::Event>>],
    passes: &mut [Pass],
) -> Result<(), Memory>
    requires { let number = arrival.stamp.link in
        HaveFedBut L.plan number (arrival ∷ A.left link.now) doors.now (map (λ u. u.items) waiting.old) passes.old }
    ensures { let number = arrival.stamp.link in
        OnOk result (HaveFedBut L.plan number (A.left link.now) doors.now (map (λ u. u.items) waiting.new) passes.new) }
{
    let Stamp {
        link: number,
        line,
        ..
    } = arrival.stamp;
    empty_all(rt, pace, doors, number, waiting, passes)?;
    pace.before(number, line);
    deliver_each(rt, doors, link, arrival, passes)?;
    pace.after(number, line);
    Ok(())
}

/// The events that are left of a link are delivered, those of each lane in their order. A unit may wait while others of its link go to other lanes; anything
/// else goes behind all that came before it.
pub fn serve_in_runs<R: Wait, P: Pace, L: LaneState, A: Arrivals<L::Event>>(
    rt: &R,
    alloc: Global,
    pace: &P,
    doors: &[Door<L>],
    number: u8,
    link: &mut A,
    passes: &mut [Pass],
) -> Result<(), Memory>
    requires stamped { IsStamped number (A.left link.old) }
    requires ready { Beside (HasFed L.plan number (A.left link.old)) doors.now passes.old }
    ensures { OnOk result (Beside (HasFed L.plan number []) doors.now passes.new) }
{
    let mut units = no_units(alloc, doors.len())?;
    let waiting = units.as_mut_slice();
    while let Some(arrival) = link.next() {
        match lane_of_unit(doors, arrival.place) {
            Some(lane) => let_wait(rt, pace, doors, arrival, lane, waiting, passes)?,
            None => deliver_behind(rt, pace, doors, link, arrival, waiting, passes)?,
        }
    }
    empty_all(rt, pace, doors, number, waiting, passes)
}
