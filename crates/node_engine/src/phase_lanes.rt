//! The lanes of a phase: each comes to its place at a barrier, and leaves it at the next one.
ghost use Rattle.std.specs.Prelude.{◌≡◌, ◌≤◌, ◌<◌, ◌+◌, ◌++◌, true, length, map, reverse, IfOk};
ghost use Rattle.std.specs.List.{AllByRecursion};
ghost use Rattle.relay_base.specs.declared.limits.TheConstants.{MOST_LANES};
ghost use Rattle.gtt_editions.specs.Published.{Begins};
ghost use Rattle.scmg.specs.Control.{IsControlJournal};
ghost use Rattle.node_engine.specs.Barriers.{IsPlantOf, IsFresh, IsAtOpening, AreSeated, HaveTaken, HaveSeen, IsOpening, IsClosing};

use crate::node::{ConnLaneList, DataLaneList, Node};
use gtt_editions::{Ended, PlaceList, Publisher, editions};
use lane_seats::{PhasePublisher, Seat};
use lane_turns::{ConnSeatList, DataSeatList, PhaseLanes};
use plant_core::Plant;
use relay_base::Memory;
use scmg::ControlLane;
use std::alloc::Global;
use std::sync::Wait;

/// Each lane at a place of its own.
fn seated<'r, R: Wait, L: Drop>(
    alloc: Global,
    lanes: Vec<L>,
    places: &mut PlaceList<'r, R>,
) -> Result<Vec<Seat<'r, R, L>>, Memory>
    requires { length lanes.items ≤ length places.old.items }
    ensures lanes { IfOk result (λ seats. map (λ s. s.lane) seats.items ≡ lanes.items) }
    ensures places { IfOk result (λ seats. let taken = map (λ s. s.place) seats.items in
        places.old.items ≡ places.new.items ++ reverse taken) }
{
    let mut seats = Vec::with_capacity(alloc, lanes.len())?;
    for lane in lanes {
        let place = places.pop().unwrap();
        let seat = Seat::new(alloc, lane, place)?;
        seats.push_reserved(seat);
    }
    Ok(seats)
}

/// A lane has learnt the end of what was published, and leaves its place.
fn unseated<'r, R: Wait, L: Drop>(seat: Seat<'r, R, L>, ended: &Ended<'r, R>) -> L
    requires { ended.now.seen.ended ≡ true }
    ensures lane { result ≡ seat.entry.lane }
    ensures seen { Begins ended.now.seen seat.entry.place.seen }
{
    let mut seat = seat;
    seat.learn(ended.tell());
    let (lane, _place) = seat.into_parts();
    lane
}

/// Lanes have learnt the end of what was published, and leave their places.
fn all_unseated<'r, R: Wait, L: Drop>(
    alloc: Global,
    seats: Vec<Seat<'r, R, L>>,
    ended: &Ended<'r, R>,
) -> Result<Vec<L>, Memory>
    requires { ended.now.seen.ended ≡ true }
    ensures lanes { IfOk result (λ lanes. lanes.items ≡ map (λ s. s.lane) seats.entry.items) }
    ensures seen { IfOk result (λ lanes.
        AllByRecursion (λ s. Begins ended.now.seen s.place.seen) seats.entry.items) }
{
    let mut lanes = Vec::with_capacity(alloc, seats.len())?;
    for seat in seats {
        lanes.push_reserved(unseated(seat, ended));
    }
    Ok(lanes)
}

/// A copy of the routing data of the control lane.
fn plant_copy(control: &ControlLane) -> Result<Plant, Memory>
    ensures { IfOk result (IsPlantOf control.now) }
{
    Ok(control.plant().copy()?)
}

/// The publisher of a phase, opened on the routing data of the control lane, and so many places.
fn opened<'r, R: Wait>(
    rt: &'r R,
    alloc: Global,
    control: &ControlLane,
    places: u8,
) -> Result<(Publisher<'r, R>, PlaceList<'r, R>), Memory>
    requires { 0 < places }
    ensures publisher { IfOk result (λ t. IsFresh control.now t.0) }
    ensures count { IfOk result (λ t. length t.1.items ≡ places) }
    ensures places { IfOk result (λ t. AllByRecursion (IsAtOpening control.now) t.1.items) }
{
    let plant = plant_copy(control)?;
    editions(rt, alloc, plant, places)
}

/// The lanes beside the control lane, each at a place of its own.
fn both_seated<'r, R: Wait>(
    alloc: Global,
    conns: ConnLaneList,
    units: DataLaneList,
    mut places: PlaceList<'r, R>,
) -> Result<(ConnSeatList<'r, R>, DataSeatList<'r, R>), Memory>
    requires { length conns.items + length units.items ≤ length places.items }
    ensures conns { IfOk result (λ t. map (λ s. s.lane) t.0.items ≡ conns.items) }
    ensures units { IfOk result (λ t. map (λ s. s.lane) t.1.items ≡ units.items) }
    ensures places { IfOk result (λ t. HaveTaken places.entry.items t.0.items t.1.items) }
{
    let conns = seated(alloc, conns, &mut places)?;
    let units = seated(alloc, units, &mut places)?;
    Ok((conns, units))
}

/// The publisher of a phase, and the lanes beside the control lane, each at a place of its own.
fn placed_lanes<'r, R: Wait>(
    rt: &'r R,
    alloc: Global,
    control: &ControlLane,
    conns: ConnLaneList,
    units: DataLaneList,
) -> Result<PhaseLanes<'r, R>, Memory>
    requires some { 0 < length conns.items }
    requires conns { length conns.items ≤ MOST_LANES }
    requires units { length units.items ≤ MOST_LANES }
    ensures publisher { IfOk result (λ lanes. IsFresh control.now lanes.publisher) }
    ensures conns { IfOk result (λ lanes. AreSeated control.now conns.items lanes.conns) }
    ensures units { IfOk result (λ lanes. AreSeated control.now units.items lanes.units) }
{
    let count = conns.len() + units.len();
    let (publisher, places) = opened(rt, alloc, control, count as u8)?;
    let (conns, units) = both_seated(alloc, conns, units, places)?;
    Ok(PhaseLanes {
        publisher: PhasePublisher { publisher },
        conns,
        units,
    })
}

/// The journal of a control lane is a legal one at all times. This does nothing, and tells a proof so.
fn recall_legal(control: &ControlLane)
    ensures { IsControlJournal control.now.head control.now.start control.now.journal }
{
    control.journal();
}

/// The lanes of a node come to their places; the control lane, whose changes are published, has none.
pub fn opened_lanes<'r, R: Wait>(
    rt: &'r R,
    alloc: Global,
    node: Node,
) -> Result<(ControlLane, PhaseLanes<'r, R>), Memory>
    requires some { 0 < length node.conns.items }
    requires conns { length node.conns.items ≤ MOST_LANES }
    requires units { length node.units.items ≤ MOST_LANES }
    ensures control { IfOk result (λ t. t.0 ≡ node.control) }
    ensures open { IfOk result (λ t. IsOpening node t.1) }
    ensures legal { IsControlJournal node.control.head node.control.start node.control.journal }
{
    let Node {
        control,
        conns,
        units,
    } = node;
    recall_legal(&control);
    let lanes = placed_lanes(rt, alloc, &control, conns, units)?;
    Ok((control, lanes))
}

/// The publisher ends, and each lane learns that and leaves its place.
fn left_places<R: Wait>(
    alloc: Global,
    lanes: PhaseLanes<'_, R>,
) -> Result<(ConnLaneList, DataLaneList), Memory>
    ensures conns { IfOk result (λ t. t.0.items ≡ map (λ s. s.lane) lanes.entry.conns) }
    ensures units { IfOk result (λ t. t.1.items ≡ map (λ s. s.lane) lanes.entry.units) }
    ensures conns_seen { IfOk result (λ t. HaveSeen lanes.entry.publisher lanes.entry.conns) }
    ensures units_seen { IfOk result (λ t. HaveSeen lanes.entry.publisher lanes.entry.units) }
{
    let (publisher, conns, units) = lanes.into_parts();
    let ended = publisher.end()?;
    let conns = all_unseated(alloc, conns, &ended)?;
    let units = all_unseated(alloc, units, &ended)?;
    Ok((conns, units))
}

/// The lanes leave their places, and go back to a node with the control lane.
pub fn closed_lanes<R: Wait>(
    alloc: Global,
    control: ControlLane,
    lanes: PhaseLanes<'_, R>,
) -> Result<Node, Memory>
    ensures closed { IfOk result (IsClosing control lanes.entry) }
    ensures legal { IsControlJournal control.head control.start control.journal }
{
    recall_legal(&control);
    let (conns, units) = left_places(alloc, lanes)?;
    Ok(Node {
        control,
        conns,
        units,
    })
}
