//! What a section does upon a message.
ghost use Rattle.std.specs.Prelude.{◌≡◌, [], ◌∷◌, IfOk, OnErr};
ghost use Rattle.std.specs.Option.{option_map};
ghost use Rattle.section_model.specs.Ends.{gives, gives_then};
ghost use Rattle.section_model.specs.Line.{line_hears, agreed, confirms, confirms_late, hears_error, hears_test, rlc, takes_unit};
ghost use Rattle.section_model.specs.Lengths.{KeptWithin};
ghost use Rattle.section_model.specs.Views.{seen_parameters, section_of};
ghost use Rattle.section_model.specs.declared.cell.SectionState.TheVariants.{Gone};
ghost use Rattle.section_model.specs.declared.hand.Hand.TheVariants as hand;
ghost use Rattle.section_class2.specs.Lines.{line_of, line_hears_event};

use crate::line::Line;
use crate::sending::{rlc, rlsd};
use mark::Mark;
use relay_base::causes::{
    ERROR_CLASS_MISMATCH, REFUSAL_UNQUALIFIED, RELEASE_INCONSISTENT_DATA, RELEASE_UNQUALIFIED,
};
use relay_base::{Event, Lost, Memory, Octets, Output, Pc};
use section_model::{
    Acted, Cell, Hand, KeptRelease, ParametersView, SectionState, WireHead, arrival_in,
};
use std::alloc::Global;

/// The credit that CC agrees on: none but in class 3, where it is at least 1 and at most the credit that was asked for.
fn agreed(wire: &WireHead, message: &ParametersView<'_>) -> u8
    ensures { result ≡ agreed (section_of wire.now) (seen_parameters message.now) }
{
    if message.class == 3 {
        message
            .credit
            .unwrap_or(wire.credit)
            .max(1)
            .min(wire.credit)
    } else {
        0
    }
}

/// The section is freed, and the other end is refused.
fn refused(
    alloc: Global,
    wire: &mut WireHead,
    message: &ParametersView<'_>,
) -> Result<Acted, Memory>
    ensures ok { IfOk result (λ done.
        section_of wire.new ≡ record (section_of wire.old) { state = Gone }) }
    ensures done { IfOk result (λ done. let p = seen_parameters message.now in
        done ≡ gives_then [] (hand.Refuse p.cause p.called p.body p.importance ∷ [])) }
    ensures err { OnErr result (wire.new ≡ wire.old) }
{
    let refuse = Hand::Refuse {
        cause: message.cause,
        called: Octets::from_optional(alloc, message.called)?,
        body: Octets::from_optional(alloc, message.body)?,
        importance: message.importance,
    };
    let acted = Acted::handing(alloc, refuse)?;
    wire.enter(SectionState::Gone);
    Ok(acted)
}

/// RLC answers, the section is freed, and the other end is ended.
fn released(
    alloc: Global,
    wire: &mut WireHead,
    message: &ParametersView<'_>,
) -> Result<Acted, Memory>
    ensures ok { IfOk result (λ done.
        section_of wire.new ≡ record (section_of wire.old) { state = Gone }) }
    ensures done { IfOk result (λ done. let p = seen_parameters message.now in done ≡
        gives_then (rlc (section_of wire.old) ∷ []) (hand.End p.cause p.body p.importance ∷ [])) }
    ensures err { OnErr result (wire.new ≡ wire.old) }
{
    let end = Hand::End {
        cause: message.cause,
        body: Octets::from_optional(alloc, message.body)?,
        importance: message.importance,
    };
    let acted = Acted::giving_then(alloc, rlc(alloc, wire)?, end)?;
    wire.enter(SectionState::Gone);
    Ok(acted)
}

/// RLC answers, and the section is freed.
fn collided(alloc: Global, wire: &mut WireHead) -> Result<Acted, Memory>
    ensures ok { IfOk result (λ done.
        section_of wire.new ≡ record (section_of wire.old) { state = Gone }) }
    ensures done { IfOk result (λ done. done ≡ gives (rlc (section_of wire.old) ∷ [])) }
    ensures err { OnErr result (wire.new ≡ wire.old) }
{
    let acted = Acted::giving(alloc, rlc(alloc, wire)?)?;
    wire.enter(SectionState::Gone);
    Ok(acted)
}

/// A unit that comes in, and the section until then.
#[derive(Clone, Copy)]
struct Coming<'a> {
    line: &'a Line,
    is_followed: bool,
    body: &'a [u8],
}

impl Line {
    /// DT1: its unit came in, and is for the other end.
    fn takes_unit(
        &mut self,
        alloc: Global,
        wire: &WireHead,
        message: &ParametersView<'_>,
    ) -> Result<Acted, Memory>
        ensures ok { IfOk result (λ done.
            takes_unit (seen_parameters message.now) (line_of wire.now self.old) ≡
            (line_of wire.now self.new, done)) }
        ensures err { OnErr result (self.new ≡ self.old) }
    {
        let unit = Hand::Unit {
            more: message.more,
            body: Octets::from_slice(alloc, message.data_octets)?,
        };
        let acted = Acted::handing(alloc, unit)?;
        let came = Mark::after(&Coming {
            line: self,
            is_followed: message.more,
            body: message.data_octets,
        });
        self.came = came;
        Ok(acted)
    }

    /// CC: the section is set up with what it agrees on, or it is released where its class is none that was asked for.
    fn confirms(
        &mut self,
        alloc: Global,
        wire: &mut WireHead,
        point: Pc,
        message: &ParametersView<'_>,
    ) -> Result<Acted, Memory>
        ensures ok { IfOk result (λ done.
            confirms point (seen_parameters message.now) (line_of wire.old self.old) ≡
            (line_of wire.new self.new, done)) }
        ensures err { OnErr result ((wire.new ≡ wire.old) × (self.new ≡ self.old)) }
    {
        let mut reached = *wire;
        reached.point = point;
        reached.other = message.slr;
        if (message.class == 2 || message.class == 3) && message.class <= wire.class {
            let credit = agreed(wire, message);
            let accept = Hand::Accept {
                class: message.class,
                credit,
                called: Octets::from_optional(alloc, message.called)?,
                body: Octets::from_optional(alloc, message.body)?,
                importance: message.importance,
            };
            let acted = Acted::handing(alloc, accept)?;
            reached.class = message.class;
            reached.credit = credit;
            *wire = reached;
            wire.enter(SectionState::Up);
            return Ok(acted);
        }
        let refuse = Hand::Refuse {
            cause: REFUSAL_UNQUALIFIED,
            called: None,
            body: None,
            importance: None,
        };
        self.release(alloc, wire, reached, RELEASE_INCONSISTENT_DATA, refuse)
    }

    /// CC of a section that waited for it to be released: RLSD with the cause that was kept.
    fn confirms_late(
        &mut self,
        alloc: Global,
        wire: &mut WireHead,
        point: Pc,
        message: &ParametersView<'_>,
    ) -> Result<Acted, Memory>
        ensures ok { IfOk result (λ done.
            confirms_late point (seen_parameters message.now) (line_of wire.old self.old) ≡
            (line_of wire.new self.new, done)) }
        ensures err { OnErr result ((wire.new ≡ wire.old) × (self.new ≡ self.old)) }
    {
        let mut reached = *wire;
        reached.point = point;
        reached.other = message.slr;
        let kept = KeptRelease::with_cause(self.kept.cause);
        let output = rlsd(alloc, &reached, &kept)?;
        let acted = Acted::giving(alloc, output)?;
        self.kept = kept;
        *wire = reached;
        wire.enter(SectionState::Ending);
        Ok(acted)
    }

    /// ERR: the section is released where the class is mismatched, else it is freed; the other end is ended.
    fn hears_error(
        &mut self,
        alloc: Global,
        wire: &mut WireHead,
        message: &ParametersView<'_>,
    ) -> Result<Acted, Memory>
        ensures ok { IfOk result (λ done.
            hears_error (seen_parameters message.now) (line_of wire.old self.old) ≡
            (line_of wire.new self.new, done)) }
        ensures err { OnErr result ((wire.new ≡ wire.old) × (self.new ≡ self.old)) }
    {
        if message.cause == ERROR_CLASS_MISMATCH {
            return self.breaks(alloc, wire, RELEASE_UNQUALIFIED);
        }
        let end = Hand::End {
            cause: RELEASE_UNQUALIFIED,
            body: None,
            importance: None,
        };
        let acted = Acted::handing(alloc, end)?;
        wire.enter(SectionState::Gone);
        Ok(acted)
    }

    /// IT: the section is released where the other end's reference or class is another one.
    fn hears_test(
        &mut self,
        alloc: Global,
        wire: &mut WireHead,
        message: &ParametersView<'_>,
    ) -> Result<Acted, Memory>
        ensures ok { IfOk result (λ done.
            hears_test (seen_parameters message.now) (line_of wire.old self.old) ≡
            (line_of wire.new self.new, done)) }
        ensures err { OnErr result ((wire.new ≡ wire.old) × (self.new ≡ self.old)) }
    {
        if message.slr == wire.other && message.class == wire.class {
            return Ok(Acted::nothing(alloc));
        }
        self.breaks(alloc, wire, RELEASE_INCONSISTENT_DATA)
    }

    /// A message for a connection from a point; nothing comes of other events here.
    pub(crate) fn hear_event(
        &mut self,
        alloc: Global,
        wire: &mut WireHead,
        cell: Cell,
        event: &Event,
    ) -> Result<Acted, Memory>
        ensures ok { IfOk result (λ done.
            line_hears_event cell event.now (line_of wire.old self.old) ≡
            (line_of wire.new self.new, done)) }
        ensures err { OnErr result ((wire.new ≡ wire.old) × (self.new ≡ self.old)) }
    {
        let Event::Message { opc, bytes, .. } = event else {
            return Ok(Acted::nothing(alloc));
        };
        match arrival_in(bytes.as_slice()) {
            Some(arrival) => self.hear(alloc, wire, cell, *opc, &arrival.parameters),
            None => Ok(Acted::nothing(alloc)),
        }
    }

    /// A message from a point, by the table's cell for it.
    #[tactic(auto, unfolding(section_model::specs::Line::line_hears))]
    fn hear(
        &mut self,
        alloc: Global,
        wire: &mut WireHead,
        cell: Cell,
        point: Pc,
        message: &ParametersView<'_>,
    ) -> Result<Acted, Memory>
        ensures ok { IfOk result (λ done.
            line_hears cell point (seen_parameters message.now) (line_of wire.old self.old) ≡
            (line_of wire.new self.new, done)) }
        ensures err { OnErr result ((wire.new ≡ wire.old) × (self.new ≡ self.old)) }
    {
        match cell {
            Cell::Confirm => self.confirms(alloc, wire, point, message),
            Cell::ConfirmLate => self.confirms_late(alloc, wire, point, message),
            Cell::Refused => refused(alloc, wire, message),
            Cell::Free => {
                wire.enter(SectionState::Gone);
                Ok(Acted::nothing(alloc))
            }
            Cell::Released => released(alloc, wire, message),
            Cell::ReleaseCollision => collided(alloc, wire),
            Cell::TakeData => self.takes_unit(alloc, wire, message),
            Cell::ErrorReceived => self.hears_error(alloc, wire, message),
            Cell::TestReceived => self.hears_test(alloc, wire, message),
            Cell::Discard => Acted::giving(alloc, Output::Lost(Lost::State)),
            _ => Ok(Acted::nothing(alloc)),
        }
    }
}
