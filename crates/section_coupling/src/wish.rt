//! What an event wants of a connection (Q.714, 3.1): CR from the network, or a user's request.
ghost use Rattle.std.specs.Prelude.{◌≡◌, ◌%◌, ℕ, slice_get};
ghost use Rattle.std.specs.Option.{option_map};
ghost use Rattle.plant_core.specs.declared.terms.Terms.{Terms};
ghost use Rattle.sccp_address.specs.Parsing.{address_of};
ghost use Rattle.q713_codec.specs.Reading.{reading_of, seen};
ghost use Rattle.plant_core.specs.Asking.{seen_ask};
ghost use Rattle.section_model.specs.UserEnd.{given};
ghost use Rattle.section_model.specs.Opening.{wish_of_message, wish_of_reading, wish_of_request, wish_of, may_be_wanted, question_of, asked_for, by_cr};
ghost use Rattle.section_coupling.specs.Inner.Wishes.{is_of_cr};
ghost use Rattle.section_coupling.specs.Openings.{is_wish, seen_calling, seen_wanted, seen_wish, UserWithin};

use plant_core::{Ask, MOST_HOPS, Origin};
use q713_codec::{View, protocol_class, read};
use relay_base::limits::{GREATEST_CREDIT, LINK_SELECTIONS, LONGEST_DATA, LONGEST_GIVEN_ADDRESS};
use relay_base::{Event, Octets, Pc, Ref24, Request, Sls, Ssn};
use sccp_address::parse;
use std::marker::Model;

/// The type of CR (Q.713, 2.3).
const CR: u8 = 0x01;

/// A calling address: none, one that came in a message, or that of a subsystem of this node.
#[derive(Clone, Copy)]
pub enum Calling<'a> {
    Absent,
    Given(&'a [u8]),
    Subsystem(Ssn),
}

/// What is wanted of a connection. The class is 0 to 15, and the credit is the one that is asked for, before the node's greatest.
#[derive(Clone, Copy)]
pub struct WantedView<'a> {
    pub sls: Sls,
    pub class: u8,
    pub credit: u8,
    pub called: &'a [u8],
    pub calling: Calling<'a>,
    pub body: Option<&'a [u8]>,
    pub hop: Option<u8>,
    pub importance: Option<u8>,
}

/// A connection that CR wants: the point that it came from, and its reference there.
#[derive(Clone, Copy)]
pub struct Incoming<'a> {
    pub point: Pc,
    pub slr: Ref24,
    pub wanted: WantedView<'a>,
}

/// A connection that a user wants: its subsystem, and the tag of its request.
#[derive(Clone, Copy)]
pub struct Outgoing<'a> {
    pub ssn: Ssn,
    pub tag: u16,
    pub wanted: WantedView<'a>,
}

/// What an event wants.
#[derive(Clone, Copy)]
pub enum WishView<'a> {
    ByCr(Incoming<'a>),
    ByUser(Outgoing<'a>),
    NoWish,
}

/// What a message wants.
fn wish_of_message<'a>(point: Pc, sls: Sls, view: &View<'a>) -> WishView<'a>
    ensures value { (terms : Terms) →
        seen_wish terms result ≡ wish_of_message terms point sls (seen view.now) }
    ensures within { UserWithin result }
{
    let View::Cr {
        slr,
        class_octet,
        called,
        credit,
        calling,
        body,
        hop,
        importance,
    } = *view
    else {
        return WishView::NoWish;
    };
    let wanted = WantedView {
        sls,
        class: protocol_class(class_octet),
        credit: credit.unwrap_or(1),
        called,
        calling: calling_of(calling),
        body,
        hop,
        importance,
    };
    WishView::ByCr(Incoming { point, slr, wanted })
}

fn calling_of(calling: Option<&[u8]>) -> Calling<'_>
    ensures { seen_calling result ≡ option_map (λ b. b.now) calling.entry }
{
    match calling {
        Some(octets) => Calling::Given(octets),
        None => Calling::Absent,
    }
}

/// Whether a request for a connection is in its ranges.
fn may_be_wanted(class: u8, credit: u8, called: &[u8], body: &[u8]) -> bool
    ensures { result ≡ may_be_wanted class credit called.now body.now }
{
    (class == 2 || class == 3)
        && credit <= GREATEST_CREDIT
        && called.len() <= LONGEST_GIVEN_ADDRESS
        && parse(called).is_ok()
        && body.len() <= LONGEST_DATA
}

/// The data that a request gives: no octets are no data.
fn given(body: &Octets) -> Option<&[u8]>
    ensures { option_map (λ b. b.now) result ≡ given body.now }
{
    if body.is_empty() {
        return None;
    }
    Some(body.as_slice())
}

/// What a request of a subsystem wants.
fn wish_of_request(ssn: Ssn, request: &Request) -> WishView<'_>
    ensures value { (terms : Terms) →
        seen_wish terms result ≡ wish_of_request terms ssn request.now }
    ensures within { UserWithin result }
{
    let Request::Conn {
        tag,
        class,
        credit,
        called,
        body,
    } = request
    else {
        return WishView::NoWish;
    };
    if !may_be_wanted(*class, *credit, called.as_slice(), body.as_slice()) {
        return WishView::NoWish;
    }
    let wanted = WantedView {
        sls: sls_of(*tag),
        class: *class,
        credit: *credit,
        called: called.as_slice(),
        calling: Calling::Subsystem(ssn),
        body: given(body),
        hop: Some(MOST_HOPS),
        importance: None,
    };
    WishView::ByUser(Outgoing {
        ssn,
        tag: *tag,
        wanted,
    })
}

/// The link selection that comes of a tag.
fn sls_of(tag: u16) -> Sls
    ensures { result ≡ tag % LINK_SELECTIONS }
{
    Sls::new(u32::from(tag) % LINK_SELECTIONS).unwrap()
}

/// Whether octets begin with the type of CR.
fn is_of_cr(bytes: &[u8]) -> bool
    ensures { result ≡ is_of_cr (slice_get bytes.now 0) }
{
    match bytes.first() {
        Some(kind) => *kind == CR,
        None => false,
    }
}

/// What octets want: of the messages CR alone is read.
#[tactic(auto, using(crate::proofs::Wishes::other_type))]
fn wish_of_octets(point: Pc, sls: Sls, bytes: &[u8]) -> WishView<'_>
    ensures value { (terms : Terms) →
        seen_wish terms result ≡ wish_of_reading terms point sls (reading_of bytes.now) }
    ensures within { UserWithin result }
{
    if !is_of_cr(bytes) {
        return WishView::NoWish;
    }
    match read(bytes) {
        Ok(view) => wish_of_message(point, sls, &view),
        Err(_) => WishView::NoWish,
    }
}

/// What an event wants.
#[tactic(auto, unfolding(section_model::specs::Opening::wish_of))]
fn wish_of(event: &Event) -> WishView<'_>
    ensures value { (terms : Terms) → seen_wish terms result ≡ wish_of terms event.now }
    ensures within { UserWithin result }
{
    match event {
        Event::Message { opc, sls, bytes } => wish_of_octets(*opc, *sls, bytes.as_slice()),
        Event::Asked { ssn, request } => wish_of_request(*ssn, request),
        Event::Tick => WishView::NoWish,
    }
}

/// What routing is asked for a called address, where it is one.
fn asked_for(hop: Option<u8>, origin: Origin, called: &[u8]) -> Option<Ask<'_>>
    ensures { option_map seen_ask result ≡ asked_for hop origin (address_of called.now) }
{
    match parse(called) {
        Ok(called) => Some(Ask {
            called,
            hop,
            origin,
        }),
        Err(_) => None,
    }
}

/// What routing is asked for a CR: nothing for one of a class other than 2 and 3.
#[tactic(auto, unfolding(section_model::specs::Opening::question_of))]
fn ask_of_incoming<'a>(wanted: &WantedView<'a>) -> Option<Ask<'a>>
    ensures { (terms : Terms) (point slr : ℕ) →
        option_map seen_ask result ≡ question_of (by_cr (seen_wanted terms point slr wanted.now)) }
{
    if wanted.class == 2 || wanted.class == 3 {
        asked_for(wanted.hop, Origin::Network, wanted.called)
    } else {
        None
    }
}

/// An event, with what it wants, which is read once. A clause sees it as the event.
#[derive(Drop)]
pub struct ReadWish<'a> {
    event: &'a Event,
    wish: WishView<'a>,
}

impl<'a> Model for ReadWish<'a> {
    ghost use Rattle.std.specs.Prelude.{◌≡◌};
    ghost use Rattle.relay_base.specs.declared.words.Event.{Event as EventState};
    ghost use Rattle.plant_core.specs.declared.terms.Terms.{Terms};
    ghost use Rattle.section_model.specs.Opening.{wish_of};
    ghost use Rattle.section_coupling.specs.Openings.{seen_wish, UserWithin};

    ghost Value = { EventState };

    ghost view = { λ r. r.event.now };

    ghost invariant = { λ r.
        ((terms : Terms) → seen_wish terms r.wish ≡ wish_of terms r.event.now) × UserWithin r.wish };
}

impl<'a> ReadWish<'a> {
    pub fn of(event: &'a Event) -> ReadWish<'a>
        ensures { result ≡ event.now }
    {
        ReadWish {
            event,
            wish: wish_of(event),
        }
    }

    /// What the event wants.
    pub(crate) fn wish(&self) -> &WishView<'a>
        ensures value { (terms : Terms) → seen_wish terms result.now ≡ wish_of terms self.now }
        ensures within { UserWithin result.now }
    {
        &self.wish
    }

    /// What routing is asked for an event that opens a connection: nothing for a CR of a class other than 2 and 3, or whose called
    /// address is none.
    #[tactic(auto, unfolding(section_model::specs::Opening::question_of))]
    pub fn ask(&self) -> Option<Ask<'a>>
        ensures { (terms : Terms) → option_map seen_ask result ≡ question_of (wish_of terms self.now) }
    {
        match self.wish() {
            WishView::ByCr(incoming) => ask_of_incoming(&incoming.wanted),
            WishView::ByUser(outgoing) => asked_for(None, Origin::User, outgoing.wanted.called),
            WishView::NoWish => None,
        }
    }

    /// Whether the event opens a connection: it is CR, or a user's request for one in its ranges.
    pub fn opens(&self) -> bool
        ensures { (terms : Terms) → result ≡ is_wish (wish_of terms self.now) }
    {
        !matches!(self.wish(), WishView::NoWish)
    }
}
