//! The lanes of a phase, each at its place.
ghost use Rattle.std.specs.Prelude.{◌≡◌, ◌+◌, ◌++◌, ◌∷◌, [], ◌<◌, ◌≤◌, length, vec_capacity, option_to_list, All, IfOk};
ghost use Rattle.std.specs.List.{flat_map};
ghost use Rattle.capture_form.specs.Events.{phase_events};
ghost use Rattle.lane_seats.specs.Controls.{IsOpen};
ghost use Rattle.lane_turns.specs.Phases.{HasRoomFor};
ghost use Rattle.link_threads.specs.declared.lane_name.LaneName.TheVariants.{Control};
ghost use Rattle.lane_turns.specs.LaneStates.{Conn};
ghost use Rattle.lane_turns.specs.Turns.{HasRoom, IsTurn, opened_turn};
ghost use Rattle.lane_turns.specs.Rows.{AreApart, EndInControl, HasPlace, conn_of, conn_turn, control_lane, data_of, data_turn, lanes_of, seated_turn, turns_from, turns_of};

use crate::phase_lane::PhaseLane;
use crate::seated_kind::SeatedKind;
use crate::turn::LaneTurn;
use capture_form::Phase;
use conn_lane::ConnLane;
use data_lane::DataLane;
use lane_seats::{ControlSeat, PhasePublisher, Seat};
use link_threads::LaneName;
use node_head::Head;
use relay_base::Memory;
use scmg::ControlLane;
use std::alloc::Global;
use std::marker::Model;
use std::sync::Wait;

/// Connection lanes at their places.
pub type ConnSeatList<'r, R> = Vec<Seat<'r, R, ConnLane>>;

/// Data lanes at their places.
pub type DataSeatList<'r, R> = Vec<Seat<'r, R, DataLane>>;

/// The publisher of the control lane, and the other lanes at their places.
pub struct PhaseLanes<'r, R: Wait> {
    pub publisher: PhasePublisher<'r, R>,
    pub conns: ConnSeatList<'r, R>,
    pub units: DataSeatList<'r, R>,
}

impl<'r, R: Wait> Drop for PhaseLanes<'r, R> {
    fn drop(self) {
        let Self {
            publisher: _publisher,
            conns: _conns,
            units: _units,
        } = self;
    }
}

impl<'r, R: Wait> Model for PhaseLanes<'r, R> {
    ghost use Rattle.lane_turns.specs.Phases.{PhaseState};

    ghost Value = { PhaseState };

    ghost view = { λ l. record {
      publisher = l.publisher.publisher;
      conns = l.conns.items;
      units = l.units.items;
    } };
}

/// The lane of a number at its place, before the first event of the phase.
fn seated_turn<'p, 'r, R: Wait, L: SeatedKind>(
    head: &'p Head,
    phase: &Phase,
    number: usize,
    seat: Seat<'r, R, L>,
) -> LaneTurn<'p, 'r, R>
    requires room { HasRoom (length (phase_events phase.now)) (L.lane_of seat) }
    ensures { result ≡ seated_turn L.name_of L.lane_of head.now phase.now number seat.entry }
{
    LaneTurn::new(head, phase, L::name(number), L::lane(seat))
}

/// Lanes of a kind go to the end of a row, before the first event of the phase.
fn add_turns<'p, 'r, R: Wait, L: SeatedKind>(
    turns: &mut Vec<LaneTurn<'p, 'r, R>>,
    head: &'p Head,
    phase: &Phase,
    seats: Vec<Seat<'r, R, L>>,
)
    requires reserved { length turns.old.items + length seats.items ≤ vec_capacity turns.old }
    requires room { All (λ s. HasRoom (length (phase_events phase.now)) (L.lane_of s)) seats.items }
    ensures turns { let turn = seated_turn L.name_of L.lane_of head.now phase.now in
        turns.new.items ≡ turns.old.items ++ turns_from turn 0 seats.entry.items }
    ensures capacity { vec_capacity turns.new ≡ vec_capacity turns.old }
{
    let first = turns.len();
    for seat in seats {
        let turn = seated_turn(head, phase, turns.len() - first, seat);
        turns.push_reserved(turn);
    }
}

/// The connection lanes and the data lanes go to the end of a row.
fn add_both<'p, 'r, R: Wait>(
    turns: &mut Vec<LaneTurn<'p, 'r, R>>,
    head: &'p Head,
    phase: &Phase,
    conns: ConnSeatList<'r, R>,
    units: DataSeatList<'r, R>,
)
    requires reserved { let count = length conns.items + length units.items in
        length turns.old.items + count ≤ vec_capacity turns.old }
    requires room { let events = length (phase_events phase.now) in
        All (λ s. HasRoom events (Conn s)) conns.items }
    ensures turns { let conns = turns_from (conn_turn head.now phase.now) 0 conns.entry.items in
        let units = turns_from (data_turn head.now phase.now) 0 units.entry.items in
        turns.new.items ≡ (turns.old.items ++ conns) ++ units }
    ensures capacity { vec_capacity turns.new ≡ vec_capacity turns.old }
{
    add_turns(turns, head, phase, conns);
    add_turns(turns, head, phase, units);
}

/// How many lanes a phase has, with the control lane.
fn count<'r, R: Wait>(conns: &ConnSeatList<'r, R>, units: &DataSeatList<'r, R>) -> usize
    ensures { result ≡ length conns.now.items + length units.now.items + 1 }
{
    conns.len() + units.len() + 1
}

/// A row of connection lanes and data lanes, behind which the control lane stands, in the memory of an empty one.
fn in_row<'p, 'r, R: Wait>(
    mut row: Vec<LaneTurn<'p, 'r, R>>,
    head: &'p Head,
    phase: &Phase,
    conns: ConnSeatList<'r, R>,
    units: DataSeatList<'r, R>,
    last: LaneTurn<'p, 'r, R>,
) -> Vec<LaneTurn<'p, 'r, R>>
    requires empty { row.items ≡ [] }
    requires reserved { length conns.items + length units.items + 1 ≤ vec_capacity row }
    requires room { let events = length (phase_events phase.now) in
        All (λ s. HasRoom events (Conn s)) conns.items }
    ensures { let first = turns_from (conn_turn head.now phase.now) 0 conns.entry.items in
        let second = turns_from (data_turn head.now phase.now) 0 units.entry.items in
        result.items ≡ first ++ (second ++ last.entry ∷ []) }
{
    add_both(&mut row, head, phase, conns, units);
    row.push_reserved(last);
    row
}

/// The control lane, before the first event of the phase.
fn control_turn<'p, 'r, R: Wait>(
    alloc: Global,
    head: &'p Head,
    phase: &Phase,
    control: ControlLane,
    publisher: PhasePublisher<'r, R>,
) -> Result<LaneTurn<'p, 'r, R>, Memory>
    requires room { let events = length (phase_events phase.now) in
        length control.journal + events < 4294967296 }
    requires open { IsOpen publisher.publisher control }
    ensures { let lane = control_lane control publisher.entry.publisher in
        IfOk result (λ turn. turn ≡ opened_turn head.now phase.now Control lane) }
{
    let lane = PhaseLane::control(ControlSeat::new(alloc, control, publisher)?);
    Ok(LaneTurn::new(head, phase, LaneName::Control, lane))
}

/// An empty row, with memory for so many lanes.
fn empty_row<'p, 'r, R: Wait>(
    alloc: Global,
    lanes: usize,
) -> Result<Vec<LaneTurn<'p, 'r, R>>, Memory>
    ensures empty { IfOk result (λ row. row.items ≡ []) }
    ensures reserved { IfOk result (λ row. lanes ≤ vec_capacity row) }
{
    Ok(Vec::with_capacity(alloc, lanes)?)
}

/// A lane, where there is one, goes to those of its kind.
fn put<T>(seats: &mut Vec<T>, seat: Option<T>)
    requires { length seats.old.items < vec_capacity seats.old }
    ensures seats { seats.new.items ≡ seats.old.items ++ option_to_list seat }
    ensures capacity { vec_capacity seats.new ≡ vec_capacity seats.old }
{
    if let Some(seat) = seat {
        seats.push_reserved(seat);
    }
}

/// Lanes go to those of their kinds, once they have taken the events of the phase.
fn put_apart<'p, 'r, R: Wait>(
    turns: Vec<LaneTurn<'p, 'r, R>>,
    conns: &mut ConnSeatList<'r, R>,
    units: &mut DataSeatList<'r, R>,
)
    requires placed { All HasPlace turns.items }
    requires conns { length conns.old.items + length turns.items ≤ vec_capacity conns.old }
    requires units { length units.old.items + length turns.items ≤ vec_capacity units.old }
    ensures conns { let more = flat_map conn_of (lanes_of turns.entry.items) in
        conns.new.items ≡ conns.old.items ++ more }
    ensures units { let more = flat_map data_of (lanes_of turns.entry.items) in
        units.new.items ≡ units.old.items ++ more }
    ensures turns { All IsTurn turns.entry.items }
{
    for turn in turns {
        let (conn, unit) = turn.into_lane().by_kind();
        put(conns, conn);
        put(units, unit);
    }
}

/// Lanes at their places, by their kinds, once they have taken the events of the phase.
fn apart<'p, 'r, R: Wait>(
    alloc: Global,
    turns: Vec<LaneTurn<'p, 'r, R>>,
) -> Result<(ConnSeatList<'r, R>, DataSeatList<'r, R>), Memory>
    requires { All HasPlace turns.items }
    ensures conns { IfOk result (λ t. t.0.items ≡ flat_map conn_of (lanes_of turns.entry.items)) }
    ensures units { IfOk result (λ t. t.1.items ≡ flat_map data_of (lanes_of turns.entry.items)) }
    ensures turns { IfOk result (λ _. All IsTurn turns.entry.items) }
{
    let mut conns = Vec::with_capacity(alloc, turns.len())?;
    let mut units = Vec::with_capacity(alloc, turns.len())?;
    put_apart(turns, &mut conns, &mut units);
    Ok((conns, units))
}

impl<'r, R: Wait> PhaseLanes<'r, R> {
    /// The publisher, the connection lanes and the data lanes.
    pub fn into_parts(
        self,
    ) -> (
        PhasePublisher<'r, R>,
        ConnSeatList<'r, R>,
        DataSeatList<'r, R>,
    )
        ensures publisher { result.0.publisher ≡ self.entry.publisher }
        ensures conns { result.1.items ≡ self.entry.conns }
        ensures units { result.2.items ≡ self.entry.units }
    {
        let Self {
            publisher,
            conns,
            units,
        } = self;
        (publisher, conns, units)
    }

    /// The lanes in one row, before the first event of the phase: the control lane stands last.
    pub fn into_turns<'p>(
        self,
        alloc: Global,
        head: &'p Head,
        phase: &Phase,
        control: ControlLane,
    ) -> Result<Vec<LaneTurn<'p, 'r, R>>, Memory>
        requires room { HasRoomFor (length (phase_events phase.now)) control self }
        requires open { IsOpen self.publisher control }
        ensures { IfOk result (λ v. v.items ≡ turns_of head.now phase.now control self.entry) }
    {
        let row = empty_row(alloc, count(&self.conns, &self.units))?;
        self.into_row(alloc, row, head, phase, control)
    }

    /// The same, into an empty row.
    fn into_row<'p>(
        self,
        alloc: Global,
        row: Vec<LaneTurn<'p, 'r, R>>,
        head: &'p Head,
        phase: &Phase,
        control: ControlLane,
    ) -> Result<Vec<LaneTurn<'p, 'r, R>>, Memory>
        requires empty { row.items ≡ [] }
        requires reserved { length self.conns + length self.units + 1 ≤ vec_capacity row }
        requires room { HasRoomFor (length (phase_events phase.now)) control self }
        requires open { IsOpen self.publisher control }
        ensures { IfOk result (λ v. v.items ≡ turns_of head.now phase.now control self.entry) }
    {
        let (publisher, conns, units) = self.into_parts();
        let last = control_turn(alloc, head, phase, control, publisher)?;
        Ok(in_row(row, head, phase, conns, units, last))
    }

    /// The lanes of a row, each where it belongs, once they have taken the events of the phase.
    pub fn from_turns<'p>(
        alloc: Global,
        turns: Vec<LaneTurn<'p, 'r, R>>,
    ) -> Result<(ControlLane, PhaseLanes<'r, R>), Memory>
        requires { EndInControl turns.items }
        ensures apart { IfOk result (λ t. AreApart (lanes_of turns.entry.items) t.0 t.1) }
        ensures turns { IfOk result (λ _. All IsTurn turns.entry.items) }
    {
        let mut turns = turns;
        let last = turns.pop().unwrap().into_lane();
        let (control, publisher) = last.into_control().into_parts();
        let (conns, units) = apart(alloc, turns)?;
        let lanes = PhaseLanes {
            publisher,
            conns,
            units,
        };
        Ok((control, lanes))
    }
}
