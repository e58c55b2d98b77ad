//! What comes of an event before the reassemblies have it.
ghost use Rattle.std.specs.Prelude.{◌≡◌, [], ◌∷◌, IfOk};
ghost use Rattle.relay_base.specs.declared.words.Output.TheVariants.{Lost as Dropped};
ghost use Rattle.q713_codec.specs.Reading.{seen};
ghost use Rattle.connectionless.specs.Asking.{matter_by_unit, matter_by_message, matter_by_given, message_in, question_in, matter_of};
ghost use Rattle.connectionless.specs.Calls.{IsRoutable, IsOfClass};
ghost use Rattle.connectionless.specs.Given.{given_of};
ghost use Rattle.connectionless.specs.Unitdata.{unitdata_of};
ghost use Rattle.data_lane.specs.declared.effect.Work.TheVariants as work;
ghost use Rattle.data_lane.specs.Legal.{asked_of, piece_of, work_of, effect_with};
ghost use Rattle.data_lane.specs.Inner.Lane.{asked_in, effect_in, routed_in};

use connectionless::{
    Next, Segment, message_ask, message_in, reference_after, user_ask, user_outs,
};
use long_interwork::{Sender, routed_outs};
use plant_core::{Answer, Asked, LaneHead, Plant};
use q713_codec::View;
use reassembly::Piece;
use relay_base::{Event, Lost, Memory, Output, Outs, Pc, Request, Sls, Ssn};
use routing_control::asked;
use std::alloc::Global;

/// What is left to do with the reassemblies.
#[derive(Drop)]
pub enum Work {
    Nothing,
    /// A segment is taken.
    Segment(Piece),
    /// A tick goes by.
    Tick,
}

/// What comes of an event before the reassemblies have it.
#[derive(Drop)]
pub struct Effect {
    pub outs: Outs,
    /// A unit was cut into segments.
    pub is_cut: bool,
    pub work: Work,
}

/// No outputs, with room for one, which most events have.
fn outs_of_one(alloc: Global) -> Result<Outs, Memory>
    ensures { IfOk result (λ outs. outs ≡ []) }
{
    Ok(Outs::from(Vec::with_capacity(alloc, 1)?))
}

impl Effect {
    fn with(outs: Outs, work: Work) -> Effect
        ensures { result ≡ effect_with outs work }
    {
        Effect {
            outs,
            is_cut: false,
            work,
        }
    }

    fn of_lost(alloc: Global, lost: Lost) -> Result<Effect, Memory>
        ensures { IfOk result (λ effect. effect ≡ effect_with (Dropped lost ∷ []) work.Nothing) }
    {
        let mut outs = outs_of_one(alloc)?;
        outs.push(Output::Lost(lost))?;
        Ok(Effect::with(outs, Work::Nothing))
    }
}

fn work_of(next: Next) -> Work
    ensures { result ≡ work_of next }
{
    let Next::Gather(segment, ssn) = next else {
        return Work::Nothing;
    };
    Work::Segment(piece_of(segment, ssn))
}

fn piece_of(segment: Segment, ssn: Ssn) -> Piece
    ensures { result ≡ piece_of segment ssn }
{
    let segmentation = segment.segmentation;
    Piece {
        opc: segment.opc,
        sls: segment.sls,
        class_octet: segment.class_octet,
        called: segment.called,
        calling: segment.calling,
        body: segment.body,
        segmentation,
        importance: segment.importance,
        ssn,
    }
}

/// A lane's head and number, the count of units that it cut, and the routing data.
#[derive(Clone, Copy)]
pub struct Context<'a> {
    pub alloc: Global,
    pub head: &'a LaneHead,
    pub number: u8,
    pub cut: u32,
    pub plant: &'a Plant,
}

impl Context<'_> {
    /// What comes of a unit or a service message by the answer to it.
    fn answered(
        &self,
        opc: Pc,
        sls: Sls,
        view: &View<'_>,
        answer: &Answer,
    ) -> Result<Effect, Memory>
        requires routable { IsRoutable (seen view.now) }
        requires class { IsOfClass (seen view.now) }
        ensures { let unit = unitdata_of (seen view.now)
            in IfOk result (λ effect. effect ≡ routed_in self.now opc sls unit answer.now) }
    {
        let sender = Sender {
            own: self.head.terms.own,
            short: &self.head.short,
            reference: reference_after(self.number, self.cut),
        };
        let mut outs = outs_of_one(self.alloc)?;
        let (next, is_cut) = routed_outs(self.alloc, &sender, opc, sls, view, answer, &mut outs)?;
        let work = work_of(next);
        Ok(Effect { outs, is_cut, work })
    }

    /// What comes of a message that was read.
    fn read(&self, opc: Pc, sls: Sls, view: &View<'_>) -> Result<(Option<Asked>, Effect), Memory>
        ensures asked { let matter = matter_by_unit opc sls (unitdata_of (seen view.now))
            in IfOk result (λ x. x.0 ≡ asked_in self.now (question_in matter)) }
        ensures effect { let matter = matter_by_unit opc sls (unitdata_of (seen view.now))
            in IfOk result (λ x. x.1 ≡ effect_in self.now matter x.0) }
    {
        let ask = match message_ask(view) {
            Err(lost) => return Ok((None, Effect::of_lost(self.alloc, lost)?)),
            Ok(None) => return Ok((None, Effect::with(Outs::new(self.alloc), Work::Nothing))),
            Ok(Some(ask)) => ask,
        };
        let asked = asked(self.plant, &ask);
        let effect = self.answered(opc, sls, view, &asked.answer)?;
        Ok((Some(asked), effect))
    }

    /// What comes of octets from the network.
    fn message(&self, opc: Pc, sls: Sls, bytes: &[u8]) -> Result<(Option<Asked>, Effect), Memory>
        ensures asked { let matter = matter_by_message opc sls (message_in bytes.now)
            in IfOk result (λ x. x.0 ≡ asked_in self.now (question_in matter)) }
        ensures effect { let matter = matter_by_message opc sls (message_in bytes.now)
            in IfOk result (λ x. x.1 ≡ effect_in self.now matter x.0) }
    {
        match message_in(bytes) {
            Ok(view) => self.read(opc, sls, &view),
            Err(lost) => Ok((None, Effect::of_lost(self.alloc, lost)?)),
        }
    }

    /// What comes of a user's request.
    fn request(&self, ssn: Ssn, request: &Request) -> Result<(Option<Asked>, Effect), Memory>
        ensures asked { let matter = matter_by_given (given_of ssn request.now)
            in IfOk result (λ x. x.0 ≡ asked_in self.now (question_in matter)) }
        ensures effect { let matter = matter_by_given (given_of ssn request.now)
            in IfOk result (λ x. x.1 ≡ effect_in self.now matter x.0) }
    {
        let Some(ask) = user_ask(request) else {
            return Ok((None, Effect::with(Outs::new(self.alloc), Work::Nothing)));
        };
        let mut outs = outs_of_one(self.alloc)?;
        let asked = asked(self.plant, &ask);
        let is_cut = user_outs(
            self.alloc,
            self.number,
            self.cut,
            ssn,
            request,
            &asked.answer,
            &mut outs,
        )?;
        let effect = Effect {
            outs,
            is_cut,
            work: Work::Nothing,
        };
        Ok((Some(asked), effect))
    }

    /// The routing that an event asks, and what comes of it.
    #[tactic(auto, unfolding(connectionless::specs::Asking::matter_of))]
    pub fn effect_of(&self, event: &Event) -> Result<(Option<Asked>, Effect), Memory>
        ensures asked { IfOk result (λ x. x.0 ≡ asked_of self.now.plant.now event.now) }
        ensures effect { let matter = matter_of event.now
            in IfOk result (λ x. x.1 ≡ effect_in self.now matter x.0) }
    {
        match event {
            Event::Message { opc, sls, bytes } => self.message(*opc, *sls, bytes.as_slice()),
            Event::Asked { ssn, request } => self.request(*ssn, request),
            Event::Tick => Ok((None, Effect::with(Outs::new(self.alloc), Work::Tick))),
        }
    }
}
