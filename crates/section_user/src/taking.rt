//! What a user's end does upon the effects of the section.
ghost use Rattle.std.specs.Prelude.{◌≡◌, IfOk, OnErr};
ghost use Rattle.section_model.specs.UserEnd.{tells_confirm, tells_disconnect, tells_expedited, tells_reset, user_takes, tells_reset_done};
ghost use Rattle.section_user.specs.Side.{ActsAs};

use crate::side::{UserSide, taken};
use crate::units::boxed_if_any;
use relay_base::{Memory, Octets, Tell};
use section_model::{Acted, Cell, Hand, UserState, copied_octets};
use std::alloc::Global;

impl UserSide {
    /// The other end accepted: its class and its credit are agreed on.
    fn tells_confirm(&mut self, alloc: Global, hand: &Hand) -> Result<Acted, Memory>
        ensures ok { IfOk result (λ done. ActsAs (tells_confirm hand.now) self.old self.new done) }
        ensures err { OnErr result (self.new ≡ self.old) }
    {
        let Hand::Accept {
            class,
            credit,
            called,
            body,
            ..
        } = hand
        else {
            return Ok(Acted::nothing(alloc));
        };
        let tell = Tell::Confirm {
            mine: self.mine,
            class: *class,
            credit: *credit,
            called: boxed_if_any(alloc, called)?,
            body: boxed_if_any(alloc, body)?,
        };
        let done = Acted::giving(alloc, self.output_to(tell))?;
        self.state = UserState::Ready;
        self.class = *class;
        self.credit = *credit;
        Ok(done)
    }

    /// The other end refused, or the connection ended.
    fn tells_disconnect(&mut self, alloc: Global, hand: &Hand) -> Result<Acted, Memory>
        ensures ok { IfOk result (λ done.
            ActsAs (tells_disconnect hand.now) self.old self.new done) }
        ensures err { OnErr result (self.new ≡ self.old) }
    {
        let (cause, body) = match hand {
            Hand::Refuse { cause, body, .. } => (*cause, body),
            Hand::End { cause, body, .. } => (*cause, body),
            _ => return Ok(Acted::nothing(alloc)),
        };
        let tell = Tell::Disc {
            mine: self.mine,
            cause,
            body: boxed_if_any(alloc, body)?,
        };
        let done = Acted::giving(alloc, self.output_to(tell))?;
        self.state = UserState::Gone;
        Ok(done)
    }

    /// Expedited data comes.
    fn tells_expedited(&self, alloc: Global, hand: &Hand) -> Result<Acted, Memory>
        ensures { IfOk result (λ done. ActsAs (tells_expedited hand.now) self.now self.now done) }
    {
        let Hand::Expedited { body } = hand else {
            return Ok(Acted::nothing(alloc));
        };
        let tell = Tell::Expedited {
            mine: self.mine,
            body: copied_octets(body)?,
        };
        let mut done = Acted::giving(alloc, self.output_to(tell))?;
        done.then = taken(alloc, 0, true)?;
        Ok(done)
    }

    /// The other end resets: what was put together of a text is lost.
    fn tells_reset(&mut self, alloc: Global, hand: &Hand) -> Result<Acted, Memory>
        ensures ok { IfOk result (λ done. ActsAs (tells_reset hand.now) self.old self.new done) }
        ensures err { OnErr result (self.new ≡ self.old) }
    {
        let Hand::Reset { cause } = hand else {
            return Ok(Acted::nothing(alloc));
        };
        let tell = Tell::Renewed {
            mine: self.mine,
            cause: *cause,
        };
        let done = Acted::giving(alloc, self.output_to(tell))?;
        self.text = Octets::new(alloc);
        Ok(done)
    }

    /// The user's reset is done.
    fn reset_done(&mut self, alloc: Global) -> Result<Acted, Memory>
        ensures ok { IfOk result (λ done. ActsAs tells_reset_done self.old self.new done) }
        ensures err { OnErr result (self.new ≡ self.old) }
    {
        let tell = Tell::ResetDone { mine: self.mine };
        let done = Acted::giving(alloc, self.output_to(tell))?;
        self.state = UserState::Ready;
        Ok(done)
    }

    /// An effect of the section, by its cell.
    #[tactic(auto, unfolding(section_model::specs::UserEnd::user_takes))]
    pub(crate) fn take(&mut self, alloc: Global, cell: Cell, hand: &Hand) -> Result<Acted, Memory>
        ensures ok { IfOk result (λ done.
            ActsAs (user_takes cell hand.now) self.old self.new done) }
        ensures err { OnErr result (self.new ≡ self.old) }
    {
        match cell {
            Cell::TellConfirm => self.tells_confirm(alloc, hand),
            Cell::TellDisconnect => self.tells_disconnect(alloc, hand),
            Cell::TellUnit => self.collects(alloc, hand),
            Cell::TellExpedited => self.tells_expedited(alloc, hand),
            Cell::TellReset => self.tells_reset(alloc, hand),
            Cell::TellResetDone => self.reset_done(alloc),
            // Only the definition counts what left.
            _ => Ok(Acted::nothing(alloc)),
        }
    }
}
