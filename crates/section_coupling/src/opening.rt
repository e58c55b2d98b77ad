//! How a connection is opened (Q.714, 3.1): by CR from the network, or by a user's request.
ghost use Rattle.std.specs.Prelude.{◌≡◌, ◌≤◌, ◌∷◌, [], ℕ, true, IfOk, IfSome};
ghost use Rattle.std.specs.Option.{option_map};
ghost use Rattle.relay_base.specs.declared.words.Output.TheVariants.{Sent, Told};
ghost use Rattle.relay_base.specs.declared.words.Tell.TheVariants as tell;
ghost use Rattle.q713_codec.specs.Writing.{spelling_of, InRange};
ghost use Rattle.plant_core.specs.declared.answer.Answer.TheVariants.{Forward};
ghost use Rattle.plant_core.specs.Causes.{refusal_code};
ghost use Rattle.scmg_messages.specs.Messages.{status_outputs};
ghost use Rattle.plant_core.specs.Rewriting.{called_onward};
ghost use Rattle.section_model.specs.Views.{section_of};
ghost use Rattle.section_model.specs.Line.{credit_of};
ghost use Rattle.section_model.specs.Opening.{wish_of, offered, fits, by_cr, by_user, new_section, new_user, asked_section, asking_section, cref_to, not_opened, opened_locally, opened_onward, opened_by_cr, opened_out, opened_by_user, opened};
ghost use Rattle.section_coupling.specs.Openings.{seen_calling, seen_wanted, seen_incoming, seen_outgoing, opened_at, cr_onward, IsGivenWithin, OpensSound};
ghost use Rattle.section_coupling.specs.Sound.{IsCredit, SoundSide, SoundPair};
ghost use Rattle.section_coupling.specs.Views.{end_at, connection_at};

use crate::clock::Clock;
use crate::owner::Owner;
use crate::pair::Pair;
use crate::side::Side;
use crate::sizes::fits;
use crate::taken::Taken;
use crate::timers::Timers;
use crate::unheard::sent;
use crate::wire::Wire;
use crate::wish::{Calling, Incoming, Outgoing, ReadWish, WantedView, WishView};
use plant_core::{Answer, Rewrite, RouteCause, Terms, called_onward, refusal_cause};
use q713_codec::Message;
use relay_base::causes::{REFUSAL_NOT_AVAILABLE, REFUSAL_UNQUALIFIED};
use relay_base::{BoxedOctets, Memory, Octets, Output, Outs, Pc, Ref24, Ssn, Tell};
use sccp_address::subsystem_address;
use scmg_messages::put_status;
use section_class2::Line;
use section_class3::Windows;
use section_grid::{KeptRelease, SectionState, UserState, WireHead};
use section_user::UserSide;
use std::alloc::Global;

/// The connection that an event opens, if it opens one, and what comes of the event.
#[derive(Drop)]
pub struct Opening {
    pub pair: Option<Pair>,
    pub outs: Outs,
}

/// The credit that is offered on: in class 3 that which is wanted, at least 1 and at most the node's greatest.
fn offered(terms: &Terms, wanted: &WantedView<'_>) -> u8
    ensures value { result ≡ offered terms.now wanted.now.class wanted.now.credit }
    ensures most { IsCredit terms.now.credit → IsCredit result }
{
    if wanted.class == 3 {
        wanted.credit.max(1).min(terms.credit)
    } else {
        0
    }
}

/// A new section, in which nothing is kept or counted.
fn new_wire(alloc: Global, terms: &Terms, now: Taken, head: WireHead) -> Result<Side, Memory>
    requires credit { IsCredit head.credit }
    ensures value { let section = new_section terms.now.ticks (section_of head) in
        IfOk result (λ s. end_at now s ≡ section) }
    ensures sound { IfOk result SoundSide }
{
    let clock = Clock {
        ticks: terms.ticks,
        taken: now,
    };
    let state = head.state();
    let wire = Wire {
        head,
        line: Line::new(KeptRelease::with_cause(0)),
        windows: Windows::new(alloc, head.credit),
        timers: Timers::none().entered(&clock, state),
    };
    Side::of_wire(alloc, wire)
}

/// The section that CR came on.
fn asked_side(
    alloc: Global,
    terms: &Terms,
    now: Taken,
    mine: Ref24,
    incoming: &Incoming<'_>,
) -> Result<Side, Memory>
    requires credit { IsCredit terms.now.credit }
    ensures value { IfOk result (λ s. end_at now s ≡
        asked_section terms.now mine (seen_incoming terms.now incoming.now)) }
    ensures sound { IfOk result SoundSide }
{
    let head = WireHead {
        point: incoming.point,
        mine,
        other: incoming.slr,
        sls: incoming.wanted.sls,
        state: SectionState::Asked.number(),
        class: incoming.wanted.class,
        credit: offered(terms, &incoming.wanted),
    };
    new_wire(alloc, terms, now, head)
}

/// The section that CR goes out on.
fn asking_side(
    alloc: Global,
    terms: &Terms,
    now: Taken,
    point: Pc,
    mine: Ref24,
    wanted: &WantedView<'_>,
) -> Result<Side, Memory>
    requires credit { IsCredit terms.now.credit }
    ensures value { IfOk result (λ s. (from slr : ℕ) → end_at now s ≡
        asking_section terms.now point mine (seen_wanted terms.now from slr wanted.now)) }
    ensures sound { IfOk result SoundSide }
{
    let head = WireHead {
        point,
        mine,
        other: Ref24::new(0).unwrap(),
        sls: wanted.sls,
        state: SectionState::Asking.number(),
        class: wanted.class,
        credit: offered(terms, wanted),
    };
    new_wire(alloc, terms, now, head)
}

/// The end of a user.
fn user_side(
    alloc: Global,
    terms: &Terms,
    state: UserState,
    ssn: Ssn,
    mine: Ref24,
    wanted: &WantedView<'_>,
) -> Result<Side, Memory>
    requires credit { IsCredit terms.now.credit }
    ensures value { IfOk result (λ s. (now from slr : ℕ) →
        end_at now s ≡ new_user state ssn mine (seen_wanted terms.now from slr wanted.now)) }
    ensures sound { IfOk result SoundSide }
{
    let user = Owner::new(UserSide {
        ssn,
        mine,
        state,
        class: wanted.class,
        credit: offered(terms, wanted),
        text: Octets::new(alloc),
    });
    Side::of_user(alloc, user)
}

/// The octets of a calling address.
fn calling_octets(alloc: Global, calling: &Calling<'_>) -> Result<Option<Octets>, Memory>
    ensures { IfOk result (λ o. o ≡ seen_calling calling.now) }
{
    match calling {
        Calling::Absent => Ok(None),
        Calling::Given(octets) => Ok(Some(Octets::from_slice(alloc, octets)?)),
        Calling::Subsystem(ssn) => {
            let octets = subsystem_address(*ssn);
            Ok(Some(Octets::from_slice(alloc, &octets)?))
        }
    }
}

/// The octets of the calling address that a user is told.
fn told_calling(alloc: Global, calling: &Calling<'_>) -> Result<Option<BoxedOctets>, Memory>
    ensures { IfOk result (λ o. o ≡ seen_calling calling.now) }
{
    match calling_octets(alloc, calling)? {
        Some(octets) => Ok(Some(BoxedOctets::new(alloc, octets)?)),
        None => Ok(None),
    }
}

/// Where CR goes on to: the point, with the called address and the hop counter as they leave.
#[derive(Clone, Copy)]
struct Route<'a> {
    point: Pc,
    rewrite: &'a Rewrite,
    hop: Option<u8>,
}

/// The credit of CR, which class 3 alone has.
fn credit_in_cr(terms: &Terms, wanted: &WantedView<'_>) -> Option<u8>
    ensures { result ≡
        credit_of wanted.now.class (offered terms.now wanted.now.class wanted.now.credit) }
{
    if wanted.class == 3 {
        Some(offered(terms, wanted))
    } else {
        None
    }
}

/// CR as it goes on, from a new reference.
fn onward(
    alloc: Global,
    terms: &Terms,
    wanted: &WantedView<'_>,
    to: &Route<'_>,
    mine: Ref24,
) -> Result<Message, Memory>
    ensures { IfOk result (λ message. (from slr : ℕ) → message ≡
        cr_onward (seen_wanted terms.now from slr wanted.now) to.now mine) }
{
    Ok(Message::Cr {
        slr: mine,
        class_octet: wanted.class,
        called: called_onward(alloc, wanted.called, to.rewrite)?,
        credit: credit_in_cr(terms, wanted),
        calling: calling_octets(alloc, &wanted.calling)?,
        body: Octets::from_optional(alloc, wanted.body)?,
        hop: to.hop,
        importance: wanted.importance,
    })
}

/// One output.
fn single(alloc: Global, output: Output) -> Result<Outs, Memory>
    ensures { IfOk result (λ outs. outs ≡ output ∷ []) }
{
    let mut outs = Outs::new(alloc);
    outs.push(output)?;
    Ok(outs)
}

/// CREF to where CR came from.
fn cref_outs(alloc: Global, incoming: &Incoming<'_>, cause: u8) -> Result<Outs, Memory>
    ensures { IfOk result (λ outs. (terms : Terms) → outs ≡
        cref_to (seen_incoming terms incoming.now) cause ∷ []) }
{
    let message = Message::Cref {
        dlr: incoming.slr,
        cause,
        called: None,
        body: None,
        importance: None,
    };
    let output = sent(alloc, incoming.point, incoming.wanted.sls, message)?;
    single(alloc, output)
}

impl Opening {
    /// No connection is opened.
    fn none(outs: Outs) -> Opening
        ensures value { (now : ℕ) → opened_at now result ≡ not_opened outs }
        ensures sound { OpensSound result }
    {
        Opening { pair: None, outs }
    }

    /// CR is refused.
    fn refused(alloc: Global, incoming: &Incoming<'_>, cause: u8) -> Result<Opening, Memory>
        ensures value { IfOk result (λ o. (now : ℕ) (terms : Terms) →
            opened_at now o ≡ not_opened (cref_to (seen_incoming terms incoming.now) cause ∷ [])) }
        ensures sound { IfOk result OpensSound }
    {
        Ok(Opening::none(cref_outs(alloc, incoming, cause)?))
    }
}

/// What a user is told of CR.
fn offer_told(
    alloc: Global,
    terms: &Terms,
    ssn: Ssn,
    mine: Ref24,
    wanted: &WantedView<'_>,
) -> Result<Outs, Memory>
    ensures { let body = option_map (λ b. b.now) wanted.now.body in
        let credit = offered terms.now wanted.now.class wanted.now.credit in
        let calling = seen_calling wanted.now.calling in IfOk result (λ outs. outs ≡
        Told ssn
        (tell.Conn mine wanted.now.class credit wanted.now.called.now calling body) ∷ []) }
{
    let tell = Tell::Conn {
        mine,
        class: wanted.class,
        credit: offered(terms, wanted),
        called: BoxedOctets::from_slice(alloc, wanted.called)?,
        calling: told_calling(alloc, &wanted.calling)?,
        body: BoxedOctets::from_optional(alloc, wanted.body)?,
    };
    single(alloc, Output::Told { ssn, tell })
}

/// CR to another point, where it may be written.
fn sent_onward(
    alloc: Global,
    terms: &Terms,
    wanted: &WantedView<'_>,
    to: &Route<'_>,
    mine: Ref24,
) -> Result<Output, Memory>
    requires { (from slr : ℕ) →
        InRange (cr_onward (seen_wanted terms.now from slr wanted.now) to.now mine) }
    ensures { IfOk result (λ output. (from slr : ℕ) →
        let cr = cr_onward (seen_wanted terms.now from slr wanted.now) to.now mine in
        output ≡ Sent to.now.point wanted.now.sls (spelling_of cr)) }
{
    let message = onward(alloc, terms, wanted, to, mine)?;
    sent(alloc, to.point, wanted.sls, message)
}

/// CR for a subsystem of this node.
fn open_locally(
    alloc: Global,
    terms: &Terms,
    now: Taken,
    incoming: &Incoming<'_>,
    ssn: Ssn,
    mine: Ref24,
) -> Result<Opening, Memory>
    requires credit { IsCredit terms.now.credit }
    ensures value { IfOk result (λ o. opened_at now o ≡
        opened_locally terms.now (seen_incoming terms.now incoming.now) ssn mine) }
    ensures sound { IfOk result OpensSound }
{
    let wanted = &incoming.wanted;
    let outs = offer_told(alloc, terms, ssn, mine, wanted)?;
    let this = asked_side(alloc, terms, now, mine, incoming)?;
    let that = user_side(alloc, terms, UserState::Offered, ssn, mine, wanted)?;
    Ok(Opening {
        pair: Some(Pair { this, that }),
        outs,
    })
}

/// CR for another point, which fits as it goes on.
fn open_onward(
    alloc: Global,
    terms: &Terms,
    now: Taken,
    incoming: &Incoming<'_>,
    to: &Route<'_>,
    mine: Ref24,
    next: Ref24,
) -> Result<Opening, Memory>
    requires credit { IsCredit terms.now.credit }
    requires fits { let w = seen_incoming terms.now incoming.now in
        fits w to.now.rewrite.now to.now.hop ≡ true }
    ensures value { let w = seen_incoming terms.now incoming.now in
        IfOk result (λ o. opened_at now o ≡
        opened_onward terms.now w to.now.point to.now.rewrite.now to.now.hop mine next) }
    ensures sound { IfOk result OpensSound }
{
    let wanted = &incoming.wanted;
    let outs = single(alloc, sent_onward(alloc, terms, wanted, to, next)?)?;
    let this = asked_side(alloc, terms, now, mine, incoming)?;
    let that = asking_side(alloc, terms, now, to.point, next, wanted)?;
    Ok(Opening {
        pair: Some(Pair { this, that }),
        outs,
    })
}

/// CR for another point, by the references that are free.
fn through(
    alloc: Global,
    terms: &Terms,
    now: Taken,
    incoming: &Incoming<'_>,
    to: &Route<'_>,
    refs: &[Ref24],
) -> Result<Opening, Memory>
    requires credit { IsCredit terms.now.credit }
    ensures value { let w = seen_incoming terms.now incoming.now in
        let answer = Forward to.now.point to.now.rewrite.now to.now.hop in
        IfOk result (λ o. opened_at now o ≡ opened_by_cr terms.now w answer refs.now) }
    ensures sound { IfOk result OpensSound }
{
    if !fits(&incoming.wanted, to.rewrite, to.hop) {
        return Opening::refused(alloc, incoming, REFUSAL_UNQUALIFIED);
    }
    if refs.len() < 2 {
        return Opening::refused(alloc, incoming, REFUSAL_NOT_AVAILABLE);
    }
    open_onward(alloc, terms, now, incoming, to, refs[0], refs[1])
}

/// CR that routing control refuses.
fn unrouted(
    alloc: Global,
    terms: &Terms,
    incoming: &Incoming<'_>,
    cause: RouteCause,
    local: Option<Ssn>,
) -> Result<Opening, Memory>
    ensures value { let w = seen_incoming terms.now incoming.now in IfOk result (λ o. (now : ℕ) →
        opened_at now o ≡ not_opened (cref_to w (refusal_code cause)
        ∷ status_outputs terms.now.own incoming.now.point incoming.now.wanted.sls local)) }
    ensures sound { IfOk result OpensSound }
{
    let mut outs = cref_outs(alloc, incoming, refusal_cause(cause))?;
    let sls = incoming.wanted.sls;
    put_status(alloc, &mut outs, terms.own, incoming.point, sls, local)?;
    Ok(Opening::none(outs))
}

/// CR, by the answer of routing control.
#[tactic(auto, unfolding(section_model::specs::Opening::opened_by_cr))]
fn by_cr(
    alloc: Global,
    terms: &Terms,
    now: Taken,
    incoming: &Incoming<'_>,
    answer: &Answer,
    refs: &[Ref24],
) -> Result<Opening, Memory>
    requires credit { IsCredit terms.now.credit }
    ensures value { IfOk result (λ o. opened_at now o ≡
        opened_by_cr terms.now (seen_incoming terms.now incoming.now) answer.now refs.now) }
    ensures sound { IfOk result OpensSound }
{
    match answer {
        Answer::Refused { cause, local } => unrouted(alloc, terms, incoming, *cause, *local),
        Answer::Local(ssn) => match refs.first() {
            None => Opening::refused(alloc, incoming, REFUSAL_NOT_AVAILABLE),
            Some(mine) => open_locally(alloc, terms, now, incoming, *ssn, *mine),
        },
        Answer::Forward { dpc, rewrite, hop } => {
            let to = Route {
                point: *dpc,
                rewrite,
                hop: *hop,
            };
            through(alloc, terms, now, incoming, &to, refs)
        }
    }
}

/// A user is told that its connection isn't made.
fn not_made(alloc: Global, outgoing: &Outgoing<'_>, cause: u8) -> Result<Opening, Memory>
    ensures value { IfOk result (λ o. (now : ℕ) → opened_at now o ≡
        not_opened (Told outgoing.now.ssn (tell.NotMade outgoing.now.tag cause) ∷ [])) }
    ensures sound { IfOk result OpensSound }
{
    let output = Output::Told {
        ssn: outgoing.ssn,
        tell: Tell::NotMade {
            tag: outgoing.tag,
            cause,
        },
    };
    Ok(Opening::none(single(alloc, output)?))
}

/// What comes of a user's connection: the user is told its reference, and CR goes out.
fn named_and_sent(
    alloc: Global,
    terms: &Terms,
    outgoing: &Outgoing<'_>,
    to: &Route<'_>,
    mine: Ref24,
) -> Result<Outs, Memory>
    requires within { IsGivenWithin outgoing.now.wanted }
    ensures { let cr = cr_onward (seen_outgoing terms.now outgoing.now) to.now mine in
        IfOk result (λ outs. outs ≡ Told outgoing.now.ssn (tell.Named outgoing.now.tag mine)
        ∷ Sent to.now.point outgoing.now.wanted.sls (spelling_of cr) ∷ []) }
{
    let told = Output::Told {
        ssn: outgoing.ssn,
        tell: Tell::Named {
            tag: outgoing.tag,
            mine,
        },
    };
    let sent = sent_onward(alloc, terms, &outgoing.wanted, to, mine)?;
    let mut outs = single(alloc, told)?;
    outs.push(sent)?;
    Ok(outs)
}

/// A user's connection to a section.
fn open_out(
    alloc: Global,
    terms: &Terms,
    now: Taken,
    outgoing: &Outgoing<'_>,
    point: Pc,
    rewrite: &Rewrite,
    mine: Ref24,
) -> Result<Opening, Memory>
    requires credit { IsCredit terms.now.credit }
    requires within { IsGivenWithin outgoing.now.wanted }
    ensures value { let w = seen_outgoing terms.now outgoing.now in
        IfOk result (λ o. opened_at now o ≡
        opened_out terms.now outgoing.now.ssn outgoing.now.tag w point rewrite.now mine) }
    ensures sound { IfOk result OpensSound }
{
    let wanted = &outgoing.wanted;
    let to = Route {
        point,
        rewrite,
        hop: wanted.hop,
    };
    let outs = named_and_sent(alloc, terms, outgoing, &to, mine)?;
    let this = user_side(alloc, terms, UserState::Calling, outgoing.ssn, mine, wanted)?;
    let that = asking_side(alloc, terms, now, point, mine, wanted)?;
    Ok(Opening {
        pair: Some(Pair { this, that }),
        outs,
    })
}

/// A user's request, by the answer of routing control.
#[tactic(auto, unfolding(section_model::specs::Opening::opened_by_user))]
fn by_user(
    alloc: Global,
    terms: &Terms,
    now: Taken,
    outgoing: &Outgoing<'_>,
    answer: &Answer,
    refs: &[Ref24],
) -> Result<Opening, Memory>
    requires credit { IsCredit terms.now.credit }
    requires within { IsGivenWithin outgoing.now.wanted }
    ensures value { let w = seen_outgoing terms.now outgoing.now in
        IfOk result (λ o. opened_at now o ≡
        opened_by_user terms.now outgoing.now.ssn outgoing.now.tag w answer.now refs.now) }
    ensures sound { IfOk result OpensSound }
{
    match answer {
        Answer::Refused { cause, .. } => not_made(alloc, outgoing, refusal_cause(*cause)),
        Answer::Local(_) => not_made(alloc, outgoing, REFUSAL_UNQUALIFIED),
        Answer::Forward { dpc, rewrite, .. } => match refs.first() {
            None => not_made(alloc, outgoing, REFUSAL_NOT_AVAILABLE),
            Some(mine) => open_out(alloc, terms, now, outgoing, *dpc, rewrite, *mine),
        },
    }
}

/// What comes of CR, by the answer of routing control where that was asked.
#[tactic(auto, unfolding(section_model::specs::Opening::opened))]
fn begin_by_cr(
    alloc: Global,
    terms: &Terms,
    now: Taken,
    incoming: &Incoming<'_>,
    asked: Option<&Answer>,
    refs: &[Ref24],
) -> Result<Opening, Memory>
    requires credit { IsCredit terms.now.credit }
    ensures value { let wish = by_cr (seen_incoming terms.now incoming.now) in
        let answer = option_map (λ a. a.now) asked.entry in
        IfOk result (λ o. opened_at now o ≡ opened terms.now wish answer refs.now) }
    ensures sound { IfOk result OpensSound }
{
    match asked {
        Some(answer) => by_cr(alloc, terms, now, incoming, answer, refs),
        None => Opening::refused(alloc, incoming, REFUSAL_UNQUALIFIED),
    }
}

/// What comes of a user's request, by the answer of routing control.
#[tactic(auto, unfolding(section_model::specs::Opening::opened))]
fn begin_by_user(
    alloc: Global,
    terms: &Terms,
    now: Taken,
    outgoing: &Outgoing<'_>,
    asked: Option<&Answer>,
    refs: &[Ref24],
) -> Result<Opening, Memory>
    requires credit { IsCredit terms.now.credit }
    requires within { IsGivenWithin outgoing.now.wanted }
    ensures value { let w = seen_outgoing terms.now outgoing.now in
        let wish = by_user outgoing.now.ssn outgoing.now.tag w in
        let answer = option_map (λ a. a.now) asked.entry in
        IfOk result (λ o. opened_at now o ≡ opened terms.now wish answer refs.now) }
    ensures sound { IfOk result OpensSound }
{
    match asked {
        Some(answer) => by_user(alloc, terms, now, outgoing, answer, refs),
        None => Ok(Opening::none(Outs::new(alloc))),
    }
}

/// The connection that an event opens, and what comes of the event, after so many ticks of the lane (at most 4,294,967,296): by CR or by
/// a user's request. Routing control has answered where `ask` asks it. The references are those
/// that are free for the connection: as many as it needs, or fewer where too few are free.
#[tactic(auto, unfolding(section_model::specs::Opening::opened))]
pub fn begin(
    alloc: Global,
    terms: &Terms,
    now: Taken,
    event: &ReadWish<'_>,
    asked: Option<&Answer>,
    refs: &[Ref24],
) -> Result<Opening, Memory>
    requires credit { IsCredit terms.now.credit }
    ensures value { let answer = option_map (λ a. a.now) asked.entry in
        IfOk result (λ o. opened terms.now (wish_of terms.now event.now) answer refs.now ≡
        record { connection = option_map (connection_at now) o.pair; outs = o.outs }) }
    ensures sound { IfOk result (λ o. IfSome o.pair SoundPair) }
{
    match event.wish() {
        WishView::ByCr(incoming) => begin_by_cr(alloc, terms, now, incoming, asked, refs),
        WishView::ByUser(outgoing) => begin_by_user(alloc, terms, now, outgoing, asked, refs),
        WishView::NoWish => Ok(Opening::none(Outs::new(alloc))),
    }
}
