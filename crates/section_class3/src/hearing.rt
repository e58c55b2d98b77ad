//! What a section does upon a message of class 3.
ghost use Rattle.std.specs.Prelude.{◌≡◌, IfOk, OnErr};
ghost use Rattle.section_model.specs.declared.cell.Cell.TheVariants as cell;
ghost use Rattle.section_model.specs.Lengths.{WindowsWithin};
ghost use Rattle.section_model.specs.Views.{seen_parameters};
ghost use Rattle.section_model.specs.Windowed.{windowed_hears, resets, takes_data, takes_acknowledgement, takes_expedited, takes_answer};
ghost use Rattle.section_class3.specs.Windows.{windowed_of, windows_hear_event};

use crate::sending::{expedited, reset_confirmation, reset_request};
use crate::windows::Windows;
use relay_base::causes::RESET_REMOTE_PROCEDURE_ERROR;
use relay_base::{Event, Lost, Memory, Octets, Output};
use section_model::{Acted, Cell, Hand, ParametersView, SectionState, WireHead, arrival_in};
use std::alloc::Global;

/// The data of a message.
fn data(alloc: Global, message: &ParametersView<'_>) -> Result<Octets, Memory>
    ensures { IfOk result (λ o. o ≡ message.now.data_octets.now) }
{
    Ok(Octets::from_slice(alloc, message.data_octets)?)
}

impl Windows {
    /// RSR with a cause here, the counts begin again, and the reset for the other end.
    fn reset(&mut self, alloc: Global, wire: &mut WireHead, cause: u8) -> Result<Acted, Memory>
        requires agreed { self.old.agreed ≡ wire.old.credit }
        ensures ok { IfOk result (λ done.
            resets cause (windowed_of wire.old self.old) ≡ (windowed_of wire.new self.new, done)) }
        ensures err { OnErr result ((wire.new ≡ wire.old) × (self.new ≡ self.old)) }
        ensures agreed { self.new.agreed ≡ wire.new.credit }
    {
        let output = reset_request(alloc, wire, cause)?;
        let acted = Acted::giving_then(alloc, output, Hand::Reset { cause })?;
        self.clear();
        wire.enter(SectionState::Resetting);
        Ok(acted)
    }

    /// DT2: the unit is accepted, or the section is reset.
    fn take_data(
        &mut self,
        alloc: Global,
        wire: &mut WireHead,
        message: &ParametersView<'_>,
    ) -> Result<Acted, Memory>
        requires agreed { self.old.agreed ≡ wire.old.credit }
        ensures ok { IfOk result (λ done.
            takes_data (seen_parameters message.now) (windowed_of wire.old self.old) ≡
            (windowed_of wire.new self.new, done)) }
        ensures err { OnErr result ((wire.new ≡ wire.old) × (self.new ≡ self.old)) }
        ensures agreed { self.new.agreed ≡ wire.new.credit }
    {
        let unit = Hand::Unit {
            more: message.more,
            body: data(alloc, message)?,
        };
        let acted = Acted::handing(alloc, unit)?;
        let accepted = self
            .flow
            .accept(message.ps, message.pr, message.more, message.data_octets);
        match accepted {
            Ok(()) => Ok(acted),
            Err(cause) => self.reset(alloc, wire, cause),
        }
    }

    /// AK: its P(R) and its credit are taken, or the section is reset.
    fn take_acknowledgement(
        &mut self,
        alloc: Global,
        wire: &mut WireHead,
        message: &ParametersView<'_>,
    ) -> Result<Acted, Memory>
        requires agreed { self.old.agreed ≡ wire.old.credit }
        ensures ok { IfOk result (λ done.
            takes_acknowledgement (seen_parameters message.now) (windowed_of wire.old self.old) ≡
            (windowed_of wire.new self.new, done)) }
        ensures err { OnErr result ((wire.new ≡ wire.old) × (self.new ≡ self.old)) }
        ensures agreed { self.new.agreed ≡ wire.new.credit }
    {
        let credit = message.credit.unwrap_or(0);
        match self.flow.acknowledge(message.pr, credit) {
            Ok(()) => Ok(Acted::nothing(alloc)),
            Err(cause) => self.reset(alloc, wire, cause),
        }
    }

    /// ED: it is handed on, or the section is reset where EA is owed already.
    fn take_expedited(
        &mut self,
        alloc: Global,
        wire: &mut WireHead,
        message: &ParametersView<'_>,
    ) -> Result<Acted, Memory>
        requires agreed { self.old.agreed ≡ wire.old.credit }
        ensures ok { IfOk result (λ done.
            takes_expedited (seen_parameters message.now) (windowed_of wire.old self.old) ≡
            (windowed_of wire.new self.new, done)) }
        ensures err { OnErr result ((wire.new ≡ wire.old) × (self.new ≡ self.old)) }
        ensures agreed { self.new.agreed ≡ wire.new.credit }
    {
        if self.is_owed {
            return self.reset(alloc, wire, RESET_REMOTE_PROCEDURE_ERROR);
        }
        let body = data(alloc, message)?;
        let acted = Acted::handing(alloc, Hand::Expedited { body })?;
        self.is_owed = true;
        Ok(acted)
    }

    /// EA: expedited data that wait leave; the message is lost where none was awaited.
    fn take_answer(&mut self, alloc: Global, wire: &WireHead) -> Result<Acted, Memory>
        requires { WindowsWithin self.old.windows }
        ensures ok { IfOk result (λ done.
            takes_answer (windowed_of wire.now self.old) ≡ (windowed_of wire.now self.new, done)) }
        ensures err { OnErr result (self.new ≡ self.old) }
        ensures agreed { self.new.agreed ≡ self.old.agreed }
    {
        if !self.is_unanswered {
            return Acted::giving(alloc, Output::Lost(Lost::State));
        }
        let Some(body) = &self.waiting else {
            self.is_unanswered = false;
            return Ok(Acted::nothing(alloc));
        };
        let left = Hand::Left {
            units: 0,
            expedited: true,
        };
        let acted = Acted::giving_then(alloc, expedited(alloc, wire, body)?, left)?;
        self.waiting = None;
        Ok(acted)
    }

    /// RSR: RSC answers, the counts begin again, and the reset for the other end.
    #[tactic(auto, unfolding(section_model::specs::Windowed::windowed_hears))]
    fn reset_by_peer(
        &mut self,
        alloc: Global,
        wire: &WireHead,
        message: &ParametersView<'_>,
    ) -> Result<Acted, Memory>
        requires agreed { self.old.agreed ≡ wire.now.credit }
        ensures ok { IfOk result (λ done.
            windowed_hears cell.ResetByPeer (seen_parameters message.now)
            (windowed_of wire.now self.old) ≡ (windowed_of wire.now self.new, done)) }
        ensures err { OnErr result (self.new ≡ self.old) }
        ensures agreed { self.new.agreed ≡ self.old.agreed }
    {
        let reset = Hand::Reset {
            cause: message.cause,
        };
        let acted = Acted::giving_then(alloc, reset_confirmation(alloc, wire)?, reset)?;
        self.clear();
        Ok(acted)
    }

    /// A message, by the table's cell for it.
    #[tactic(auto, unfolding(section_model::specs::Windowed::windowed_hears))]
    fn hear(
        &mut self,
        alloc: Global,
        wire: &mut WireHead,
        cell: Cell,
        message: &ParametersView<'_>,
    ) -> Result<Acted, Memory>
        requires agreed { self.old.agreed ≡ wire.old.credit }
        requires waits { WindowsWithin self.old.windows }
        ensures ok { IfOk result (λ done.
            windowed_hears cell (seen_parameters message.now) (windowed_of wire.old self.old) ≡
            (windowed_of wire.new self.new, done)) }
        ensures err { OnErr result ((wire.new ≡ wire.old) × (self.new ≡ self.old)) }
        ensures agreed { self.new.agreed ≡ wire.new.credit }
    {
        match cell {
            Cell::TakeNumberedData => self.take_data(alloc, wire, message),
            Cell::TakeAcknowledgement => self.take_acknowledgement(alloc, wire, message),
            Cell::TakeExpedited => self.take_expedited(alloc, wire, message),
            Cell::TakeExpeditedAcknowledgement => self.take_answer(alloc, wire),
            Cell::ResetByPeer => self.reset_by_peer(alloc, wire, message),
            Cell::ResetComplete => {
                let acted = Acted::handing(alloc, Hand::Done)?;
                wire.enter(SectionState::Up);
                Ok(acted)
            }
            _ => Ok(Acted::nothing(alloc)),
        }
    }

    /// A message for a connection; nothing comes of other events here.
    pub(crate) fn hear_event(
        &mut self,
        alloc: Global,
        wire: &mut WireHead,
        cell: Cell,
        event: &Event,
    ) -> Result<Acted, Memory>
        requires agreed { self.old.agreed ≡ wire.old.credit }
        requires waits { WindowsWithin self.old.windows }
        ensures ok { IfOk result (λ done.
            windows_hear_event cell event.now (windowed_of wire.old self.old) ≡
            (windowed_of wire.new self.new, done)) }
        ensures err { OnErr result ((wire.new ≡ wire.old) × (self.new ≡ self.old)) }
        ensures agreed { self.new.agreed ≡ wire.new.credit }
    {
        let Event::Message { bytes, .. } = event else {
            return Ok(Acted::nothing(alloc));
        };
        match arrival_in(bytes.as_slice()) {
            Some(arrival) => self.hear(alloc, wire, cell, &arrival.parameters),
            None => Ok(Acted::nothing(alloc)),
        }
    }
}
