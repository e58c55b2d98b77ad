//! What a section does upon an effect of the other end.
ghost use Rattle.std.specs.Prelude.{◌≡◌, IfOk, OnErr};
ghost use Rattle.section_model.specs.Line.{line_takes, passes_accept, passes_refuse, passes_end, keeps_end, passes_unit, counts_passed};
ghost use Rattle.section_model.specs.Ends.{no_effect};
ghost use Rattle.section_model.specs.Lengths.{HandWithin};
ghost use Rattle.section_class2.specs.Inner.Heads.{ActsOnHead};
ghost use Rattle.section_class2.specs.Lines.{line_of};

use crate::line::Line;
use crate::sending::{confirmation, data, refusal, rlsd};
use mark::Mark;
use relay_base::Memory;
use section_model::{Acted, Cell, Hand, KeptRelease, SectionState, WireHead, copied};
use std::alloc::Global;

/// The other end accepts: CC, and the section is set up.
fn passes_accept(alloc: Global, wire: &mut WireHead, hand: &Hand) -> Result<Acted, Memory>
    requires { HandWithin hand.now }
    ensures ok { IfOk result (λ done. ActsOnHead (passes_accept hand.now) wire.old wire.new done) }
    ensures err { OnErr result (wire.new ≡ wire.old) }
{
    let Hand::Accept {
        class,
        credit,
        called,
        body,
        importance,
    } = hand
    else {
        return Ok(Acted::nothing(alloc));
    };
    let output = confirmation(alloc, wire, *class, *credit, called, body, *importance)?;
    let acted = Acted::giving(alloc, output)?;
    wire.class = *class;
    wire.credit = *credit;
    wire.enter(SectionState::Up);
    Ok(acted)
}

/// The other end refuses: CREF, and the section is freed.
fn passes_refuse(alloc: Global, wire: &mut WireHead, hand: &Hand) -> Result<Acted, Memory>
    requires { HandWithin hand.now }
    ensures ok { IfOk result (λ done. ActsOnHead (passes_refuse hand.now) wire.old wire.new done) }
    ensures err { OnErr result (wire.new ≡ wire.old) }
{
    let Hand::Refuse {
        cause,
        called,
        body,
        importance,
    } = hand
    else {
        return Ok(Acted::nothing(alloc));
    };
    let output = refusal(alloc, wire, *cause, called, body, *importance)?;
    let acted = Acted::giving(alloc, output)?;
    wire.enter(SectionState::Gone);
    Ok(acted)
}

/// An effect of the other end, and the section until then.
#[derive(Clone, Copy)]
struct Leaving<'a> {
    wire: &'a WireHead,
    line: &'a Line,
    hand: &'a Hand,
}

/// A unit of data: DT1, and that it left.
fn passes_unit(alloc: Global, wire: &WireHead, hand: &Hand) -> Result<Acted, Memory>
    requires { HandWithin hand.now }
    ensures { IfOk result (λ done. ActsOnHead (passes_unit hand.now) wire.now wire.now done) }
{
    match hand {
        Hand::Unit { more, body } => {
            let left = Hand::Left {
                units: 1,
                expedited: false,
            };
            Acted::giving_then(alloc, data(alloc, wire, *more, body)?, left)
        }
        _ => Ok(Acted::nothing(alloc)),
    }
}

impl Line {
    /// The other end ends: RLSD, which is kept.
    fn passes_end(
        &mut self,
        alloc: Global,
        wire: &mut WireHead,
        hand: &Hand,
    ) -> Result<Acted, Memory>
        requires { HandWithin hand.now }
        ensures ok { IfOk result (λ done.
            passes_end hand.now (line_of wire.old self.old) ≡ (line_of wire.new self.new, done)) }
        ensures err { OnErr result ((wire.new ≡ wire.old) × (self.new ≡ self.old)) }
    {
        let Hand::End {
            cause,
            body,
            importance,
        } = hand
        else {
            return Ok(Acted::nothing(alloc));
        };
        let kept = KeptRelease {
            cause: *cause,
            body: copied(body)?,
            importance: *importance,
        };
        let output = rlsd(alloc, wire, &kept)?;
        let acted = Acted::giving(alloc, output)?;
        self.kept = kept;
        wire.enter(SectionState::Ending);
        Ok(acted)
    }

    /// The other end ends before the section's other end is known: it is to be released as soon as that is.
    fn keeps_end(&mut self, alloc: Global, wire: &mut WireHead, hand: &Hand) -> Acted
        ensures { keeps_end hand.now (line_of wire.old self.old) ≡
            (line_of wire.new self.new, result) }
    {
        if let Hand::End { cause, .. } = hand {
            self.kept = KeptRelease::with_cause(*cause);
            wire.enter(SectionState::Waning);
        }
        Acted::nothing(alloc)
    }

    /// So many of the units that came in left on the other end.
    fn counts_passed(&mut self, wire: &WireHead, hand: &Hand)
        ensures { counts_passed hand.now (line_of wire.now self.old) ≡
            (line_of wire.now self.new, no_effect) }
    {
        let came = Mark::after(&Leaving {
            wire,
            line: self,
            hand,
        });
        self.came = came;
    }

    /// An effect of the other end, by the table's cell for it.
    #[tactic(auto, unfolding(section_model::specs::Line::line_takes))]
    pub(crate) fn take(
        &mut self,
        alloc: Global,
        wire: &mut WireHead,
        cell: Cell,
        hand: &Hand,
    ) -> Result<Acted, Memory>
        requires { HandWithin hand.now }
        ensures ok { IfOk result (λ done. line_takes cell hand.now (line_of wire.old self.old) ≡
            (line_of wire.new self.new, done)) }
        ensures err { OnErr result ((wire.new ≡ wire.old) × (self.new ≡ self.old)) }
    {
        match cell {
            Cell::PassAccept => passes_accept(alloc, wire, hand),
            Cell::PassRefuse => passes_refuse(alloc, wire, hand),
            Cell::PassEnd => self.passes_end(alloc, wire, hand),
            Cell::KeepEnd => Ok(self.keeps_end(alloc, wire, hand)),
            Cell::PassUnit => passes_unit(alloc, wire, hand),
            Cell::Left => {
                self.counts_passed(wire, hand);
                Ok(Acted::nothing(alloc))
            }
            _ => Ok(Acted::nothing(alloc)),
        }
    }
}
