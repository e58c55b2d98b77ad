//! What a section does upon an effect of the other end, in class 3.
ghost use Rattle.std.specs.Prelude.{◌≡◌, Some, IfOk, OnErr};
ghost use Rattle.section_model.specs.Lengths.{HandWithin, IsExpeditedData};
ghost use Rattle.section_model.specs.Windowed.{windowed_takes, sends_expedited, queues_unit, passes_expedited, passes_reset, HasCome, counts_left};
ghost use Rattle.section_class3.specs.Windows.{windowed_of};

use crate::sending::{expedited, expedited_acknowledgement, reset_request};
use crate::windows::Windows;
use relay_base::{Memory, Octets};
use section_flow::Unit;
use section_model::{Acted, Cell, Hand, SectionState, WireHead, copied_octets};
use std::alloc::Global;

impl Windows {
    /// A unit of data: it waits.
    fn pass(&mut self, alloc: Global, hand: &Hand) -> Result<Acted, Memory>
        ensures ok { IfOk result (λ done. (wire : WireHead) →
            queues_unit hand.now (windowed_of wire self.old) ≡ (windowed_of wire self.new, done)) }
        ensures err { OnErr result (self.new ≡ self.old) }
        ensures agreed { self.new.agreed ≡ self.old.agreed }
    {
        if let Hand::Unit { more, body } = hand {
            let unit = Unit {
                more: *more,
                body: copied_octets(body)?,
            };
            self.flow.reserve(1)?;
            self.flow.wait(unit);
        }
        Ok(Acted::nothing(alloc))
    }

    /// Expedited data leave, and their EA is awaited.
    fn expedite(&mut self, alloc: Global, wire: &WireHead, body: &Octets) -> Result<Acted, Memory>
        requires { IsExpeditedData body.now }
        ensures ok { IfOk result (λ done.
            sends_expedited (Some body.now) (windowed_of wire.now self.old) ≡
            (windowed_of wire.now self.new, done)) }
        ensures err { OnErr result (self.new ≡ self.old) }
        ensures agreed { self.new.agreed ≡ self.old.agreed }
    {
        let left = Hand::Left {
            units: 0,
            expedited: true,
        };
        let acted = Acted::giving_then(alloc, expedited(alloc, wire, body)?, left)?;
        self.waiting = None;
        self.is_unanswered = true;
        Ok(acted)
    }

    /// Expedited data: they leave where none are unanswered, else they wait.
    fn pass_expedited(
        &mut self,
        alloc: Global,
        wire: &WireHead,
        hand: &Hand,
    ) -> Result<Acted, Memory>
        requires { HandWithin hand.now }
        ensures ok { IfOk result (λ done.
            passes_expedited hand.now (windowed_of wire.now self.old) ≡
            (windowed_of wire.now self.new, done)) }
        ensures err { OnErr result (self.new ≡ self.old) }
        ensures agreed { self.new.agreed ≡ self.old.agreed }
    {
        let Hand::Expedited { body } = hand else {
            return Ok(Acted::nothing(alloc));
        };
        if wire.state() == SectionState::Up && !self.is_unanswered {
            return self.expedite(alloc, wire, body);
        }
        self.waiting = Some(copied_octets(body)?);
        Ok(Acted::nothing(alloc))
    }

    /// The other end is reset: RSR, and the counts begin again.
    fn pass_reset(
        &mut self,
        alloc: Global,
        wire: &mut WireHead,
        hand: &Hand,
    ) -> Result<Acted, Memory>
        requires agreed { self.old.agreed ≡ wire.old.credit }
        ensures ok { IfOk result (λ done. passes_reset hand.now (windowed_of wire.old self.old) ≡
            (windowed_of wire.new self.new, done)) }
        ensures err { OnErr result ((wire.new ≡ wire.old) × (self.new ≡ self.old)) }
        ensures agreed { self.new.agreed ≡ wire.new.credit }
    {
        let Hand::Reset { cause } = hand else {
            return Ok(Acted::nothing(alloc));
        };
        let acted = Acted::giving(alloc, reset_request(alloc, wire, *cause)?)?;
        self.clear();
        wire.enter(SectionState::Resetting);
        Ok(acted)
    }

    /// Units that came in here left on the other end; EA, where expedited data did.
    fn count_left(&mut self, alloc: Global, wire: &WireHead, hand: &Hand) -> Result<Acted, Memory>
        requires left { HasCome hand.now self.old.windows }
        ensures ok { IfOk result (λ done. counts_left hand.now (windowed_of wire.now self.old) ≡
            (windowed_of wire.now self.new, done)) }
        ensures err { OnErr result (self.new ≡ self.old) }
        ensures agreed { self.new.agreed ≡ self.old.agreed }
    {
        let Hand::Left { units, expedited } = hand else {
            return Ok(Acted::nothing(alloc));
        };
        if !*expedited {
            self.flow.left(*units);
            return Ok(Acted::nothing(alloc));
        }
        let acted = Acted::giving(alloc, expedited_acknowledgement(alloc, wire)?)?;
        self.flow.left(*units);
        self.is_owed = false;
        Ok(acted)
    }

    /// An effect of the other end, by the table's cell for it.
    #[tactic(auto, unfolding(section_model::specs::Windowed::windowed_takes))]
    pub(crate) fn take(
        &mut self,
        alloc: Global,
        wire: &mut WireHead,
        cell: Cell,
        hand: &Hand,
    ) -> Result<Acted, Memory>
        requires agreed { self.old.agreed ≡ wire.old.credit }
        requires hand { HandWithin hand.now }
        requires left { HasCome hand.now self.old.windows }
        ensures ok { IfOk result (λ done.
            windowed_takes cell hand.now (windowed_of wire.old self.old) ≡
            (windowed_of wire.new self.new, done)) }
        ensures err { OnErr result ((wire.new ≡ wire.old) × (self.new ≡ self.old)) }
        ensures agreed { self.new.agreed ≡ wire.new.credit }
    {
        match cell {
            Cell::PassUnit => self.pass(alloc, hand),
            Cell::PassExpedited => self.pass_expedited(alloc, wire, hand),
            Cell::PassReset => self.pass_reset(alloc, wire, hand),
            Cell::ClearCounts => {
                self.clear();
                Ok(Acted::nothing(alloc))
            }
            Cell::Left => self.count_left(alloc, wire, hand),
            _ => Ok(Acted::nothing(alloc)),
        }
    }
}
