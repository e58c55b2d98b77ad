//! What comes of an event of the control lane.
ghost use Rattle.std.specs.Prelude.{◌≡◌, ◌++◌, [], ◌∷◌, map, filter, IfOk};
ghost use Rattle.scmg_messages.specs.Messages.{data_in};
ghost use Rattle.scmg.specs.Control.{is_due_coordination, test_sent, denied, only, one, quiet, dropped, refused, refusal, is_replicate, replicate_of, publishes, changes, announced, tested, asked_out, granted, hears_notice, hears_data, hears, coordinates_with, grants, asks, ticks, effect_of};

use crate::groups::is_by_operator;
use crate::head::ControlHead;
use crate::kept::Kept;
use crate::known::known_by;
use crate::timed::Coordination;
use plant_core::{Change, ControlEvent, Group, RemoteSubsystem, Replicate, Verdict};
use relay_base::{Event, Lost, Memory, Output, Outs, Pc, Reason, Request, Ssn, Tell};
use scmg_messages::{Format, Notice, data_in, notice_in, sent};
use std::alloc::{AllocError, Global};

/// What is done with what the lane keeps.
#[derive(Drop)]
pub enum Act {
    Nothing,
    /// A group of changes of the routing data is published.
    Publish(Group),
    /// A user may grant that this subsystem goes out of service.
    Remember(RemoteSubsystem),
    /// The user granted it.
    Forget(RemoteSubsystem),
    /// A user's coordinated change begins.
    Begin(Replicate),
    /// It is granted by the replicate.
    End(Ssn),
    /// A tick goes by.
    Tick,
}

/// What comes of an event.
#[derive(Drop)]
pub struct Effect {
    pub outs: Outs,
    pub act: Act,
}

impl Effect {
    fn quiet(alloc: Global) -> Effect
        ensures { result ≡ quiet }
    {
        Effect {
            outs: Outs::new(alloc),
            act: Act::Nothing,
        }
    }

    fn one(alloc: Global, output: Output, act: Act) -> Result<Effect, Memory>
        ensures { IfOk result (λ effect. effect ≡ one output act) }
    {
        let mut outs = Outs::new(alloc);
        outs.push(output)?;
        Ok(Effect { outs, act })
    }

    fn only(alloc: Global, output: Output) -> Result<Effect, Memory>
        ensures { IfOk result (λ effect. effect ≡ only (output ∷ [])) }
    {
        Effect::one(alloc, output, Act::Nothing)
    }

    fn dropped(alloc: Global) -> Result<Effect, Memory>
        ensures { IfOk result (λ effect. effect ≡ dropped) }
    {
        Effect::only(alloc, Output::Lost(Lost::Manage))
    }

    fn refused(alloc: Global, ssn: Ssn, reason: Reason) -> Result<Effect, Memory>
        ensures { IfOk result (λ effect. effect ≡ refused ssn reason) }
    {
        let tell = Tell::No(reason);
        Effect::only(alloc, Output::Told { ssn, tell })
    }

    /// What comes of an operator's changes with this verdict, which is not that it alters the routing data.
    fn refusal(alloc: Global, verdict: Verdict) -> Result<Effect, Memory>
        ensures { IfOk result (λ effect. effect ≡ only (refusal verdict)) }
    {
        let lost = match verdict {
            Verdict::Alters => return Ok(Effect::quiet(alloc)),
            Verdict::Same => Lost::Same,
            Verdict::Duplicate => Lost::Duplicate,
            Verdict::RowsFull => Lost::RowsFull,
            Verdict::NoRow => Lost::NoRow,
        };
        Effect::only(alloc, Output::Lost(lost))
    }
}

fn copy_of(group: &Group) -> Result<Group, AllocError>
    ensures { IfOk result (λ copy. copy ≡ group.now) }
{
    group.clone()
}

fn is_replicate(head: &ControlHead, point: Pc, ssn: Ssn) -> bool
    ensures { result ≡ is_replicate head.now point ssn }
{
    let mut replicates = head.replicates.as_slice().iter();
    replicates.any(|replicate| replicate.ssn == ssn && replicate.point == point)
}

fn replicate_of(head: &ControlHead, ssn: Ssn) -> Option<Replicate>
    ensures { result ≡ replicate_of head.now ssn }
{
    for replicate in head.replicates.as_slice() {
        if replicate.ssn == ssn {
            return Some(*replicate);
        }
    }
    None
}

fn test_sent(alloc: Global, to: &RemoteSubsystem) -> Result<Output, Memory>
    ensures { IfOk result (λ output. output ≡ test_sent to.now) }
{
    sent(alloc, to.point, Format::StatusTest, to.ssn, to.point)
}

/// The status tests that are due, by rising point and subsystem (Q.714, 5.3.4).
fn tests_sent(alloc: Global, due: &[RemoteSubsystem]) -> Result<Outs, Memory>
    ensures { IfOk result (λ outs. outs ≡ map test_sent due.now) }
{
    let mut outs = Vec::with_capacity(alloc, due.len())?;
    for to in due {
        outs.push(test_sent(alloc, to)?)?;
    }
    Ok(Outs::from(outs))
}

fn denied(one: &Coordination) -> Output
    ensures { result ≡ denied one.now }
{
    Output::Told {
        ssn: one.ssn,
        tell: Tell::Denied { point: one.point },
    }
}

/// Puts what the next tick tells of coordinated changes that are due at the end.
fn put_denied(list: &[Coordination], mut outs: Outs) -> Result<Outs, Memory>
    ensures { IfOk result (λ all. all ≡ outs ++ map denied (filter is_due_coordination list.now)) }
{
    for one in list {
        if one.is_due() {
            outs.push(denied(one))?;
        }
    }
    Ok(outs)
}

/// A lane's head, and what it keeps.
#[derive(Clone, Copy)]
pub struct Context<'a> {
    pub alloc: Global,
    pub head: &'a ControlHead,
    pub kept: &'a Kept,
}

impl Context<'_> {
    /// A group of changes that is published, and what it makes known.
    fn publishes(&self, group: Group) -> Result<Effect, Memory>
        ensures { let head = self.now.head.now in
            let kept = self.now.kept.now.control
            in IfOk result (λ effect. effect ≡ publishes head kept.routing group) }
    {
        Ok(Effect {
            outs: known_by(self.alloc, self.head, self.kept, &group)?,
            act: Act::Publish(group),
        })
    }

    /// What comes of an operator's group of changes.
    fn changes(&self, group: &Group) -> Result<Effect, Memory>
        ensures { let head = self.now.head.now in
            let kept = self.now.kept.now.control
            in IfOk result (λ effect. effect ≡ changes head kept group.now) }
    {
        if !is_by_operator(group) {
            return Ok(Effect::quiet(self.alloc));
        }
        match self.kept.plant().verdict(group) {
            Verdict::Alters => self.publishes(copy_of(group)?),
            verdict => Effect::refusal(self.alloc, verdict),
        }
    }

    /// What comes of a change by a message.
    #[tactic(auto, using(plant_core::proofs::GroupLemmas::verdict_alone))]
    fn announced(&self, change: Change) -> Result<Effect, Memory>
        ensures { let head = self.now.head.now in
            let kept = self.now.kept.now.control
            in IfOk result (λ effect. effect ≡ announced head kept change) }
    {
        let group = Group::of(self.alloc, change);
        match self.kept.plant().verdict(&group) {
            Verdict::Alters => self.publishes(group),
            _ => Ok(Effect::quiet(self.alloc)),
        }
    }

    /// What comes of a status test for the own point (Q.714, 5.3.4).
    fn tested(&self, opc: Pc, ssn: Ssn) -> Result<Effect, Memory>
        ensures { IfOk result (λ effect. effect ≡ tested self.now.kept.now.control opc ssn) }
    {
        let plant = self.kept.plant();
        if ssn.number() != 1 && !plant.is_in_service(ssn) {
            return Ok(Effect::quiet(self.alloc));
        }
        let output = sent(self.alloc, opc, Format::Allowed, ssn, plant.own())?;
        Effect::only(self.alloc, output)
    }

    /// What comes of a replicate's request to go out of service (Q.714, 5.3.5).
    fn asked_out(&self, point: Pc, ssn: Ssn) -> Result<Effect, Memory>
        ensures { let head = self.now.head.now in
            let kept = self.now.kept.now.control
            in IfOk result (λ effect. effect ≡ asked_out head kept point ssn) }
    {
        if !is_replicate(self.head, point, ssn) || !self.kept.plant().is_in_service(ssn) {
            return Effect::dropped(self.alloc);
        }
        let tell = Tell::Coord { point };
        let grant = RemoteSubsystem { point, ssn };
        Effect::one(self.alloc, Output::Told { ssn, tell }, Act::Remember(grant))
    }

    /// What comes of the grant of a user's coordinated change (Q.714, 5.3.5).
    fn granted(&self, opc: Pc, ssn: Ssn) -> Result<Effect, Memory>
        ensures { IfOk result (λ effect. effect ≡ granted self.now.kept.now.control opc ssn) }
    {
        if !self.kept.is_asked_of(opc, ssn) {
            return Effect::dropped(self.alloc);
        }
        let tell = Tell::Granted { point: opc };
        Effect::one(self.alloc, Output::Told { ssn, tell }, Act::End(ssn))
    }

    /// What comes of a message of management (Q.714, 5.3).
    fn hears_notice(&self, opc: Pc, notice: Notice) -> Result<Effect, Memory>
        ensures { let head = self.now.head.now in
            let kept = self.now.kept.now.control
            in IfOk result (λ effect. effect ≡ hears_notice head kept opc notice) }
    {
        let Notice { format, ssn, point } = notice;
        let is_own = point == self.kept.plant().own();
        match format {
            Format::Allowed if !is_own => self.announced(Change::FreeSub(point, ssn)),
            Format::Prohibited if !is_own => self.announced(Change::BarSub(point, ssn)),
            Format::StatusTest if is_own => self.tested(opc, ssn),
            Format::OutOfServiceRequest => self.asked_out(point, ssn),
            Format::OutOfServiceGrant if is_own => self.granted(opc, ssn),
            _ => Effect::dropped(self.alloc),
        }
    }

    /// What comes of octets from the network.
    fn hears(&self, opc: Pc, bytes: &[u8]) -> Result<Effect, Memory>
        ensures { let head = self.now.head.now in
            let kept = self.now.kept.now.control
            in IfOk result (λ effect. effect ≡ hears head kept opc (data_in bytes.now)) }
    {
        let Some(body) = data_in(bytes) else {
            return Ok(Effect::quiet(self.alloc));
        };
        match notice_in(body) {
            Some(notice) => self.hears_notice(opc, notice),
            None => Effect::dropped(self.alloc),
        }
    }

    /// What comes of a user's request for a coordinated change (Q.714, 5.3.5).
    fn coordinates(&self, ssn: Ssn) -> Result<Effect, Memory>
        ensures { let head = self.now.head.now in
            let kept = self.now.kept.now.control
            in IfOk result (λ effect. effect ≡ coordinates_with kept ssn (replicate_of head ssn)) }
    {
        let Some(replicate) = replicate_of(self.head, ssn) else {
            return Effect::refused(self.alloc, ssn, Reason::Replicate);
        };
        if self.kept.is_under_way(ssn) {
            return Effect::refused(self.alloc, ssn, Reason::State);
        }
        let own = self.kept.plant().own();
        let format = Format::OutOfServiceRequest;
        let output = sent(self.alloc, replicate.point, format, ssn, own)?;
        Effect::one(self.alloc, output, Act::Begin(replicate))
    }

    /// What comes of a user's grant (Q.714, 5.3.5).
    fn grants(&self, ssn: Ssn, point: Pc) -> Result<Effect, Memory>
        ensures { IfOk result (λ effect. effect ≡ grants self.now.kept.now.control ssn point) }
    {
        if !self.kept.may_grant(point, ssn) {
            return Effect::refused(self.alloc, ssn, Reason::State);
        }
        let format = Format::OutOfServiceGrant;
        let output = sent(self.alloc, point, format, ssn, point)?;
        let grant = RemoteSubsystem { point, ssn };
        Effect::one(self.alloc, output, Act::Forget(grant))
    }

    /// What comes of a user's request.
    fn asks(&self, ssn: Ssn, request: &Request) -> Result<Effect, Memory>
        ensures { let head = self.now.head.now in
            let kept = self.now.kept.now.control
            in IfOk result (λ effect. effect ≡ asks head kept ssn request.now) }
    {
        match request {
            Request::Coord => self.coordinates(ssn),
            Request::Grant { point } => self.grants(ssn, *point),
            _ => Ok(Effect::quiet(self.alloc)),
        }
    }

    /// What comes of a tick.
    fn ticks(&self) -> Result<Effect, Memory>
        ensures { IfOk result (λ effect. effect ≡ ticks self.now.kept.now.control) }
    {
        let due = self.kept.due_tests(self.alloc)?;
        let sent = tests_sent(self.alloc, &due)?;
        Ok(Effect {
            outs: put_denied(self.kept.coordinations(), sent)?,
            act: Act::Tick,
        })
    }

    /// What comes of an event.
    #[tactic(auto, unfolding(crate::specs::Control::effect_of))]
    pub fn effect_of(&self, event: &ControlEvent) -> Result<Effect, Memory>
        ensures { let head = self.now.head.now in
            let kept = self.now.kept.now.control
            in IfOk result (λ effect. effect ≡ effect_of head kept event.now) }
    {
        match event {
            ControlEvent::Change(group) => self.changes(group),
            ControlEvent::Plain(Event::Message { opc, bytes, .. }) => {
                self.hears(*opc, bytes.as_slice())
            }
            ControlEvent::Plain(Event::Asked { ssn, request }) => self.asks(*ssn, request),
            ControlEvent::Plain(Event::Tick) => self.ticks(),
        }
    }
}
