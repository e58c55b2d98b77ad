//! The line of a connection section.
ghost use Rattle.std.specs.Prelude.{◌≡◌, [], ◌∷◌, None, IfOk, OnErr};
ghost use Rattle.section_model.specs.Views.{section_of};
ghost use Rattle.section_model.specs.Ends.{only_cause, gives_then};
ghost use Rattle.section_model.specs.Line.{released, rlsd, breaks};
ghost use Rattle.section_model.specs.Lengths.{ActedWithin, InputWithin, KeptWithin};
ghost use Rattle.section_class2.specs.Lines.{line_of, TakesDataOfDt1, line_acts};

use crate::sending::rlsd;
use mark::Mark;
use relay_base::Memory;
use section_model::{Acted, Came, Cell, Hand, Input, KeptRelease, SectionState, WireHead, copied};
use std::alloc::Global;

/// What a connection section keeps beside its head: what its release says when it is sent again, and the units that came in, which clauses
/// alone count.
pub struct Line {
    pub kept: KeptRelease,
    pub came: Mark<Came>,
}

impl Drop for Line {
    fn drop(self) {
        let Self {
            kept: _kept,
            came: _came,
        } = self;
    }
}

/// No unit came in.
fn none_came() -> Mark<Came>
    ensures { result.value ≡ record { got = []; passed = 0 } }
{
    Mark::after(&0u8)
}

/// An equal release.
fn copied_release(kept: &KeptRelease) -> Result<KeptRelease, Memory>
    ensures { IfOk result (λ copy. copy ≡ kept.now) }
{
    Ok(KeptRelease {
        cause: kept.cause,
        body: copied(&kept.body)?,
        importance: kept.importance,
    })
}

impl Line {
    /// A line that keeps this, before any unit comes in.
    pub fn new(kept: KeptRelease) -> Line
        ensures kept { result.kept ≡ kept }
        ensures came { result.came.value ≡ record { got = []; passed = 0 } }
    {
        Line {
            kept,
            came: none_came(),
        }
    }

    /// The counts begin again.
    pub fn clear(&mut self)
        ensures kept { self.new.kept ≡ self.old.kept }
        ensures came { self.new.came.value ≡ record { got = []; passed = 0 } }
    {
        self.came = none_came();
    }

    /// What a section does upon an input by the cell that the table has for it. Other cells than those of a line, and those upon
    /// another kind of input, have no effect. After `Memory` the section is as before.
    ///
    /// The addresses and the data of a hand that comes in and of the kept release have the lengths of Q.713, and so have those of
    /// what it answers and keeps; where data are taken, the message is DT1.
    pub fn act(
        &mut self,
        alloc: Global,
        wire: &mut WireHead,
        cell: Cell,
        input: &Input<'_>,
    ) -> Result<Acted, Memory>
        requires kept { KeptWithin self.old.kept }
        requires input { InputWithin input.now }
        ensures ok { IfOk result (λ done. line_acts cell input.now (line_of wire.old self.old) ≡
            (line_of wire.new self.new, done)) }
        ensures err { OnErr result ((wire.new ≡ wire.old) × (self.new ≡ self.old)) }
        ensures keeps { KeptWithin self.new.kept }
        ensures hands { TakesDataOfDt1 cell input.now → IfOk result ActedWithin }
    {
        match *input {
            Input::Event(event) => self.hear_event(alloc, wire, cell, event),
            Input::Timer(_) => self.fire(alloc, wire, cell),
            Input::Hand(hand) => self.take(alloc, wire, cell, hand),
            Input::Turn => Ok(Acted::nothing(alloc)),
        }
    }

    /// An equal line.
    pub fn copy(&self) -> Result<Line, Memory>
        ensures { IfOk result (λ line. line ≡ self.now) }
    {
        Ok(Line {
            kept: copied_release(&self.kept)?,
            came: Mark::after(self),
        })
    }

    /// The section, as it is now known, sends RLSD with a cause, keeps that, and hands an effect to the other end.
    pub(crate) fn release(
        &mut self,
        alloc: Global,
        wire: &mut WireHead,
        reached: WireHead,
        cause: u8,
        hand: Hand,
    ) -> Result<Acted, Memory>
        ensures line { IfOk result (λ done.
            line_of wire.new self.new ≡ released cause None None (line_of reached self.old)) }
        ensures done { IfOk result (λ done.
            done ≡ gives_then (rlsd (section_of reached) (only_cause cause) ∷ []) (hand ∷ [])) }
        ensures err { OnErr result ((wire.new ≡ wire.old) × (self.new ≡ self.old)) }
    {
        let kept = KeptRelease::with_cause(cause);
        let output = rlsd(alloc, &reached, &kept)?;
        let acted = Acted::giving_then(alloc, output, hand)?;
        self.kept = kept;
        *wire = reached;
        wire.enter(SectionState::Ending);
        Ok(acted)
    }

    /// RLSD with a cause here, and the end for the other end.
    pub(crate) fn breaks(
        &mut self,
        alloc: Global,
        wire: &mut WireHead,
        cause: u8,
    ) -> Result<Acted, Memory>
        ensures ok { IfOk result (λ done.
            breaks cause (line_of wire.old self.old) ≡ (line_of wire.new self.new, done)) }
        ensures err { OnErr result ((wire.new ≡ wire.old) × (self.new ≡ self.old)) }
    {
        let reached = *wire;
        let end = Hand::End {
            cause,
            body: None,
            importance: None,
        };
        self.release(alloc, wire, reached, cause, end)
    }
}
