//! What a section does when a timer fires.
ghost use Rattle.std.specs.Prelude.{◌≡◌, [], ◌∷◌, None, IfOk, OnErr};
ghost use Rattle.section_model.specs.Ends.{gives_then};
ghost use Rattle.section_model.specs.Views.{section_of};
ghost use Rattle.section_model.specs.Line.{line_fires};
ghost use Rattle.section_model.specs.Lengths.{KeptWithin};
ghost use Rattle.section_model.specs.declared.cell.SectionState.TheVariants.{Gone};
ghost use Rattle.section_model.specs.declared.hand.Hand.TheVariants as hand;
ghost use Rattle.section_class2.specs.Lines.{line_of};

use crate::line::Line;
use crate::sending::{rlsd, test};
use relay_base::Memory;
use relay_base::causes::{
    REFUSAL_ESTABLISHMENT_EXPIRED, RELEASE_INACTIVITY_EXPIRED, RELEASE_RESET_EXPIRED,
};
use section_model::{Acted, Cell, Hand, SectionState, WireHead};
use std::alloc::Global;

/// The other end is refused, and the section is freed.
fn not_answered(alloc: Global, wire: &mut WireHead) -> Result<Acted, Memory>
    ensures ok { IfOk result (λ done.
        section_of wire.new ≡ record (section_of wire.old) { state = Gone }) }
    ensures done { IfOk result (λ done.
        done ≡ gives_then [] (hand.Refuse REFUSAL_ESTABLISHMENT_EXPIRED None None None ∷ [])) }
    ensures err { OnErr result (wire.new ≡ wire.old) }
{
    let refuse = Hand::Refuse {
        cause: REFUSAL_ESTABLISHMENT_EXPIRED,
        called: None,
        body: None,
        importance: None,
    };
    let acted = Acted::handing(alloc, refuse)?;
    wire.enter(SectionState::Gone);
    Ok(acted)
}

impl Line {
    /// A timer fires, by the table's cell for it.
    #[tactic(auto, unfolding(section_model::specs::Line::line_fires))]
    pub(crate) fn fire(
        &mut self,
        alloc: Global,
        wire: &mut WireHead,
        cell: Cell,
    ) -> Result<Acted, Memory>
        requires { KeptWithin self.old.kept }
        ensures ok { IfOk result (λ done.
            line_fires cell (line_of wire.old self.old) ≡ (line_of wire.new self.new, done)) }
        ensures err { OnErr result ((wire.new ≡ wire.old) × (self.new ≡ self.old)) }
    {
        match cell {
            Cell::NotAnswered => not_answered(alloc, wire),
            Cell::ResetExpired => self.breaks(alloc, wire, RELEASE_RESET_EXPIRED),
            Cell::PeerSilent => self.breaks(alloc, wire, RELEASE_INACTIVITY_EXPIRED),
            Cell::SendTest => Acted::giving(alloc, test(alloc, wire)?),
            Cell::ReleaseUnanswered | Cell::RepeatRelease => {
                Acted::giving(alloc, rlsd(alloc, wire, &self.kept)?)
            }
            Cell::Free => {
                wire.enter(SectionState::Gone);
                Ok(Acted::nothing(alloc))
            }
            _ => Ok(Acted::nothing(alloc)),
        }
    }
}
