//! A user's request on a connection (Q.714).
ghost use Rattle.std.specs.Prelude.{◌≡◌, ◌+◌, ℕ, List, nat_lt, IsTrue, IfOk, OnOk};
ghost use Rattle.relay_base.specs.declared.words.Event.TheVariants.{Asked as Requested};
ghost use Rattle.relay_base.specs.declared.words.Request.TheVariants as request;
ghost use Rattle.section_model.specs.Ends.{gives};
ghost use Rattle.section_model.specs.Step.{asking_cell, refusal, reason_against, said_no, asks, asked_by, is_in_range};
ghost use Rattle.section_model.specs.UserEnd.{user_asks, unit_count};
ghost use Rattle.section_coupling.specs.Inner.Comings.{IsRequest, IsInRange};
ghost use Rattle.section_coupling.specs.Inner.Alone.{asks_unless, user_asks_beside, asks_beside};
ghost use Rattle.section_coupling.specs.Views.{user_at, section_at, end_at, end_by, connection_by, standing, behind};
ghost use Rattle.section_coupling.specs.Sound.{AreSound, SoundOwner, SoundSide, SoundPair, SoundActed};

use crate::clock::Clock;
use crate::coming::Wanting;
use crate::coupling::{TURNS, exchange};
use crate::owner::Owner;
use crate::pair::Pair;
use crate::side::Side;
use crate::wire::Wire;
use relay_base::{Event, Memory, Octets, Output, Outs, Reason, Request, Ssn, Tell};
use section_grid::{Acted, Cell, SectionState, UserOccasion, UserState, user_cell};
use section_model::limits::{LONGEST_UNIT, MOST_WAITING};
use std::alloc::Global;

/// What a request is to a user's end.
fn asking_cell(state: UserState, request: &Request) -> Cell
    ensures { result ≡ asking_cell state request.now }
{
    match request {
        Request::Accept { .. } => user_cell(state, UserOccasion::Accepts),
        Request::Refuse { .. } => user_cell(state, UserOccasion::Refuses),
        Request::Send { .. } => user_cell(state, UserOccasion::Sends),
        Request::Expedite { .. } => user_cell(state, UserOccasion::Expedites),
        Request::Reset { .. } => user_cell(state, UserOccasion::Resets),
        Request::Disc { .. } => user_cell(state, UserOccasion::Disconnects),
        _ => Cell::Nothing,
    }
}

/// How many units a text is cut into.
fn unit_count(body: &Octets) -> usize
    ensures { result ≡ unit_count body.now }
{
    body.len().div_ceil(LONGEST_UNIT)
}

/// Whether more units don't fit beside those that wait.
fn is_too_much(waiting: usize, more: usize) -> bool
    ensures { result ≡ nat_lt MOST_WAITING (waiting + more) }
{
    waiting > MOST_WAITING || more > MOST_WAITING - waiting
}

/// Why a text is refused: in class 3 no more than 127 units may wait.
fn refusal_to_send(body: &Octets, user: &Owner, wire: &Wire) -> Option<Reason>
    ensures { (now mine : ℕ) →
        result ≡ refusal (request.Send mine body.now) (user_at user.now) (section_at now wire.now) }
{
    if user.side.class == 3 && is_too_much(wire.windows.waiting_units(), unit_count(body)) {
        return Some(Reason::Full);
    }
    None
}

/// Why expedited data are refused: class 2 has none, and in class 3 no more than one message of them waits.
fn refusal_to_expedite(user: &Owner, wire: &Wire) -> Option<Reason>
    ensures { (now mine : ℕ) (body : List ℕ) →
        result ≡ refusal (request.Expedite mine body) (user_at user.now) (section_at now wire.now) }
{
    if user.side.class == 2 {
        return Some(Reason::Class);
    }
    if wire.windows.has_waiting_expedited() {
        return Some(Reason::Expedited);
    }
    None
}

/// Why a reset is refused: class 2 has none, and one may be under way.
fn refusal_to_reset(user: &Owner, wire: &Wire) -> Option<Reason>
    ensures { (now mine : ℕ) →
        result ≡ refusal (request.Reset mine) (user_at user.now) (section_at now wire.now) }
{
    if user.side.class == 2 {
        return Some(Reason::Class);
    }
    if wire.head.state() == SectionState::Up {
        return None;
    }
    Some(Reason::State)
}

/// Why a request is refused whose cell is named.
fn refusal(request: &Request, user: &Owner, wire: &Wire) -> Option<Reason>
    ensures { (now : ℕ) →
        result ≡ refusal request.now (user_at user.now) (section_at now wire.now) }
{
    match request {
        Request::Accept { class, .. } => {
            if *class > user.side.class {
                Some(Reason::Class)
            } else {
                None
            }
        }
        Request::Send { body, .. } => refusal_to_send(body, user, wire),
        Request::Expedite { .. } => refusal_to_expedite(user, wire),
        Request::Reset { .. } => refusal_to_reset(user, wire),
        _ => None,
    }
}

/// The user is told why its request is refused.
fn said_no(alloc: Global, ssn: Ssn, reason: Reason) -> Result<Acted, Memory>
    ensures { IfOk result (λ acted. acted ≡ gives (said_no ssn reason)) }
{
    let output = Output::Told {
        ssn,
        tell: Tell::No(reason),
    };
    Acted::giving(alloc, output)
}

/// Why a request has no effect: no cell is named for it, or it is refused.
fn reason_against(request: &Request, user: &Owner, wire: &Wire) -> Option<Reason>
    ensures { (now : ℕ) →
        result ≡ reason_against request.now (user_at user.now) (section_at now wire.now) }
{
    if asking_cell(user.side.state, request) == Cell::Nothing {
        return Some(Reason::State);
    }
    refusal(request, user, wire)
}

/// A user's end does what is asked.
fn user_asks(
    alloc: Global,
    user: &mut Owner,
    request: &Request,
    event: &Event,
) -> Result<Acted, Memory>
    requires user { SoundOwner user.old }
    requires range { IsTrue (is_in_range request.now) }
    requires event { event.now ≡ Requested user.old.side.ssn request.now }
    ensures asks { let cell = asking_cell user.old.side.state request.now in
        IfOk result (λ acted.
        user_asks cell request.now (user_at user.old) ≡ (user_at user.new, acted)) }
    ensures sound { IfOk result (λ acted. SoundOwner user.new × SoundActed acted) }
{
    let cell = asking_cell(user.side.state, request);
    user.ask(alloc, cell, event)
}

/// A request of the user itself, beside the section at the other end.
fn ask_owner(
    alloc: Global,
    request: &Request,
    event: &Event,
    user: &mut Owner,
    wire: &Wire,
) -> Result<Acted, Memory>
    requires user { SoundOwner user.old }
    requires range { IsTrue (is_in_range request.now) }
    requires event { event.now ≡ Requested user.old.side.ssn request.now }
    ensures asks { IfOk result (λ acted. (now : ℕ) →
        let against = reason_against request.now (user_at user.old) (section_at now wire.now) in
        asks_unless against request.now (user_at user.old) ≡ (user_at user.new, acted)) }
    ensures sound { IfOk result (λ acted. SoundOwner user.new × SoundActed acted) }
{
    match reason_against(request, user, wire) {
        Some(reason) => said_no(alloc, user.ssn(), reason),
        None => user_asks(alloc, user, request, event),
    }
}

/// A request of a subsystem on a user's end, beside the other end.
fn ask_user(
    alloc: Global,
    wanting: &Wanting<'_>,
    user: &mut Owner,
    that: &Side,
) -> Result<Acted, Memory>
    requires user { SoundOwner user.old }
    requires range { IsInRange wanting.now }
    requires event { IsRequest wanting.now }
    ensures asks { let w = wanting.now in IfOk result (λ acted. (now : ℕ) →
        user_asks_beside w.ssn w.request.now (user_at user.old) (end_at now that.now) ≡
        (user_at user.new, acted)) }
    ensures sound { IfOk result (λ acted. SoundOwner user.new × SoundActed acted) }
{
    match that {
        Side::Wire(wire) if user.side.ssn == wanting.ssn => ask_owner(
            alloc,
            wanting.request,
            wanting.event,
            user,
            wire.get(),
        ),
        _ => said_no(alloc, wanting.ssn, Reason::Owner),
    }
}

impl Side {
    /// A request of a subsystem on this end, beside the other one.
    fn ask(&mut self, alloc: Global, wanting: &Wanting<'_>, that: &Side) -> Result<Acted, Memory>
        requires end { SoundSide self.old }
        requires range { IsInRange wanting.now }
        requires event { IsRequest wanting.now }
        ensures asks { let w = wanting.now in IfOk result (λ acted. (now : ℕ) →
            asks_beside w.ssn w.request.now (end_at now self.old) (end_at now that.now) ≡
            (end_at now self.new, acted)) }
        ensures sound { IfOk result (λ acted. SoundSide self.new × SoundActed acted) }
    {
        match self {
            Side::User(user) => ask_user(alloc, wanting, user.get_mut(), that),
            Side::Wire(_) => said_no(alloc, wanting.ssn, Reason::Owner),
        }
    }
}

/// A request of a subsystem, on a connection whose user stands at this end if it has one, behind these outputs.
fn ask_this(
    alloc: Global,
    clock: &Clock,
    wanting: &Wanting<'_>,
    this: &mut Side,
    that: &mut Side,
    outs: &mut Outs,
) -> Result<(), Memory>
    requires sound { AreSound this.old that.old }
    requires range { IsInRange wanting.now }
    requires event { IsRequest wanting.now }
    ensures asks { let w = wanting.now in
        let this_end = end_by clock.now this.old in
        let that_end = end_by clock.now that.old in
        let done = asks clock.now.ticks w.ssn w.request.now this_end that_end in
        OnOk result (behind outs.old done ≡ standing clock.now this.new that.new outs.new) }
    ensures sound { OnOk result (AreSound this.new that.new) }
{
    let acted = this.ask(alloc, wanting, that)?;
    exchange(alloc, clock, TURNS, this, acted, that, outs)
}

/// A request of a subsystem, behind these outputs.
#[tactic(auto, using(crate::proofs::Alone::other_done))]
pub fn ask(
    alloc: Global,
    clock: &Clock,
    wanting: &Wanting<'_>,
    pair: &mut Pair,
    outs: &mut Outs,
) -> Result<(), Memory>
    requires pair { SoundPair pair.old }
    requires range { IsInRange wanting.now }
    requires event { IsRequest wanting.now }
    ensures asks { let w = wanting.now in
        let before = connection_by clock.now pair.old in
        let done = asked_by clock.now.ticks w.ssn w.request.now before in
        OnOk result (behind outs.old done ≡ (connection_by clock.now pair.new, outs.new)) }
    ensures sound { OnOk result (SoundPair pair.new) }
{
    let Pair { this, that } = pair;
    if matches!(this, Side::User(_)) {
        ask_this(alloc, clock, wanting, this, that, outs)
    } else {
        ask_this(alloc, clock, wanting, that, this, outs)
    }
}
