//! In which lane an event stands.
ghost use Rattle.std.specs.Prelude.{◌≡◌};
ghost use Rattle.node_head.specs.Ranges.{IsHead};
ghost use Rattle.q713_codec.specs.Reading.{seen};
ghost use Rattle.capture_form.specs.Place.{in_conn, in_data, of_reference, place_of_udt, place_of_message, place_of_octets, place_of_request, place_of_event, place_of};

use node_head::Head;
use plant_core::ControlEvent;
use q713_codec::{View, is_too_long, read};
use relay_base::limits::MOST_LANES;
use relay_base::{Event, Pc, Ref24, Request, Sls};
use scmg_messages::is_for_management;

/// A lane: all of them, the control lane, or the connection lane or data lane of a number, from 0.
#[derive(Clone, Copy)]
pub enum LanePlace {
    All,
    Control,
    Conn(u8),
    Unit(u8),
}

/// The connection lane of a number.
fn in_conn(head: &Head, number: u32) -> LanePlace
    requires { IsHead head.now }
    ensures { result ≡ in_conn head.now number }
{
    LanePlace::Conn((number % u32::from(head.conn_lanes)) as u8)
}

/// The data lane of a link selection.
fn in_data(head: &Head, sls: Sls) -> LanePlace
    requires { IsHead head.now }
    ensures { result ≡ in_data head.now sls }
{
    LanePlace::Unit((sls.number() % u32::from(head.data_lanes)) as u8)
}

/// The lane of a local reference, which is in its last four bits.
fn of_reference(head: &Head, reference: Ref24) -> LanePlace
    requires { IsHead head.now }
    ensures { result ≡ of_reference head.now reference }
{
    in_conn(head, reference.number() % u32::from(MOST_LANES))
}

fn place_of_udt(head: &Head, sls: Sls, called: &[u8]) -> LanePlace
    requires { IsHead head.now }
    ensures { result ≡ place_of_udt head.now sls called.now }
{
    if is_for_management(called) {
        LanePlace::Control
    } else {
        in_data(head, sls)
    }
}

/// The lane of a message that was read.
#[tactic(auto, unfolding(crate::specs::Place::place_of_message))]
fn place_of_message(head: &Head, opc: Pc, sls: Sls, view: &View<'_>) -> LanePlace
    requires { IsHead head.now }
    ensures { result ≡ place_of_message head.now opc sls (seen view.now) }
{
    match *view {
        View::Cr { slr, .. } => in_conn(head, opc.number() + slr.number()),
        View::Udt { called, .. } => place_of_udt(head, sls, called),
        View::Cc { dlr, .. }
        | View::Cref { dlr, .. }
        | View::Rlsd { dlr, .. }
        | View::Rlc { dlr, .. }
        | View::Dt1 { dlr, .. }
        | View::Dt2 { dlr, .. }
        | View::Ak { dlr, .. }
        | View::Ed { dlr, .. }
        | View::Ea { dlr }
        | View::Rsr { dlr, .. }
        | View::Rsc { dlr, .. }
        | View::Err { dlr, .. }
        | View::It { dlr, .. } => of_reference(head, dlr),
        View::Udts { .. }
        | View::Xudt { .. }
        | View::Xudts { .. }
        | View::Ludt { .. }
        | View::Ludts { .. } => in_data(head, sls),
    }
}

/// The lane of octets from the network.
fn place_of_octets(head: &Head, opc: Pc, sls: Sls, bytes: &[u8]) -> LanePlace
    requires { IsHead head.now }
    ensures { result ≡ place_of_octets head.now opc sls bytes.now }
{
    if is_too_long(bytes) {
        return in_data(head, sls);
    }
    match read(bytes) {
        Ok(view) => place_of_message(head, opc, sls, &view),
        Err(_) => in_data(head, sls),
    }
}

/// The lane of a user's request.
#[tactic(auto, unfolding(crate::specs::Place::place_of_request))]
fn place_of_request(head: &Head, request: &Request) -> LanePlace
    requires { IsHead head.now }
    ensures { result ≡ place_of_request head.now request.now }
{
    match request {
        Request::Unit { sls, .. } => in_data(head, *sls),
        Request::Conn { tag, .. } => in_conn(head, u32::from(*tag)),
        Request::Accept { mine, .. }
        | Request::Refuse { mine, .. }
        | Request::Send { mine, .. }
        | Request::Expedite { mine, .. }
        | Request::Reset { mine }
        | Request::Disc { mine, .. } => of_reference(head, *mine),
        Request::Coord | Request::Grant { .. } => LanePlace::Control,
    }
}

/// The lane of a message, a request or a tick.
#[tactic(auto, unfolding(crate::specs::Place::place_of_event))]
fn place_of_event(head: &Head, event: &Event) -> LanePlace
    requires { IsHead head.now }
    ensures { result ≡ place_of_event head.now event.now }
{
    match event {
        Event::Message { opc, sls, bytes } => place_of_octets(head, *opc, *sls, bytes.as_slice()),
        Event::Asked { request, .. } => place_of_request(head, request),
        Event::Tick => LanePlace::All,
    }
}

/// In which lane an event stands: by the head and the event alone.
///
/// A change of the routing data stands in the control lane, and a tick in all lanes. Of the messages, UDT whose called address routes on subsystem number 1 stands in the control lane, CR in
/// the connection lane of its origin and source local reference, another one of a connection in that of its destination local
/// reference, and each other one, also one that is too long or doesn't read, in the data lane of its link selection. Of the requests,
/// `unit` stands in the data lane of its link selection, `conn` in the connection lane of its tag, `coord` and `grant` in the control
/// lane, and each other one in the connection lane of its reference.
#[tactic(auto, unfolding(crate::specs::Place::place_of))]
pub fn place(head: &Head, event: &ControlEvent) -> LanePlace
    requires { IsHead head.now }
    ensures { result ≡ place_of head.now event.now }
{
    match event {
        ControlEvent::Plain(event) => place_of_event(head, event),
        ControlEvent::Change(_) => LanePlace::Control,
    }
}
