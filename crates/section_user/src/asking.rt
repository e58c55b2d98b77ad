//! The requests of a user.
ghost use Rattle.std.specs.Prelude.{◌≡◌, [], IfOk, OnErr};
ghost use Rattle.section_model.specs.Ends.{gives_then};
ghost use Rattle.section_model.specs.UserEnd.{accepts, refuses, sends, expedites, disconnects, user_asks, user_resets};
ghost use Rattle.section_user.specs.Side.{ActsAs};
ghost use Rattle.section_user.specs.Inner.Acts.{KeepsEnd};
ghost use Rattle.section_model.specs.Line.{agreed_credit};

use crate::side::UserSide;
use crate::units::{given, units_of};
use relay_base::causes::RESET_END_USER;
use relay_base::{Memory, Octets, Outs, Request};
use section_model::{Acted, Cell, Hand, HandList, UserState, copied_octets};
use std::alloc::Global;

/// The user sends a text, which goes in units.
fn sends(alloc: Global, request: &Request) -> Result<Acted, Memory>
    ensures { IfOk result (λ done. KeepsEnd (sends request.now) done) }
{
    let Request::Send { body, .. } = request else {
        return Ok(Acted::nothing(alloc));
    };
    Ok(Acted {
        first: HandList::new(alloc),
        outs: Outs::new(alloc),
        then: units_of(alloc, body.as_slice())?,
    })
}

/// The user sends expedited data.
fn expedites(alloc: Global, request: &Request) -> Result<Acted, Memory>
    ensures { IfOk result (λ done. KeepsEnd (expedites request.now) done) }
{
    let Request::Expedite { body, .. } = request else {
        return Ok(Acted::nothing(alloc));
    };
    let hand = Hand::Expedited {
        body: copied_octets(body)?,
    };
    Acted::handing(alloc, hand)
}

impl UserSide {
    /// The agreed credit: 0 asked for is 1, and the offered one is the greatest. Class 2 has none.
    fn agreed_credit(&self, class: u8, credit: u8) -> u8
        ensures { result ≡ agreed_credit class credit self.now.credit }
    {
        if class == 3 {
            credit.max(1).min(self.credit)
        } else {
            0
        }
    }

    /// The user accepts: the class is the one that it chose.
    fn accepts(&mut self, alloc: Global, request: &Request) -> Result<Acted, Memory>
        ensures ok { IfOk result (λ done. ActsAs (accepts request.now) self.old self.new done) }
        ensures err { OnErr result (self.new ≡ self.old) }
    {
        let Request::Accept {
            class,
            credit,
            body,
            ..
        } = request
        else {
            return Ok(Acted::nothing(alloc));
        };
        let agreed = self.agreed_credit(*class, *credit);
        let hand = Hand::Accept {
            class: *class,
            credit: agreed,
            called: None,
            body: given(body)?,
            importance: None,
        };
        let done = Acted::handing(alloc, hand)?;
        self.state = UserState::Ready;
        self.class = *class;
        self.credit = agreed;
        Ok(done)
    }

    /// The user refuses.
    fn refuses(&mut self, alloc: Global, request: &Request) -> Result<Acted, Memory>
        ensures ok { IfOk result (λ done. ActsAs (refuses request.now) self.old self.new done) }
        ensures err { OnErr result (self.new ≡ self.old) }
    {
        let Request::Refuse { cause, body, .. } = request else {
            return Ok(Acted::nothing(alloc));
        };
        let hand = Hand::Refuse {
            cause: *cause,
            called: None,
            body: given(body)?,
            importance: None,
        };
        let done = Acted::handing(alloc, hand)?;
        self.state = UserState::Gone;
        Ok(done)
    }

    /// The user resets: what was put together of a text is lost.
    fn resets(&mut self, alloc: Global) -> Result<Acted, Memory>
        ensures ok { IfOk result (λ done. ActsAs user_resets self.old self.new done) }
        ensures err { OnErr result (self.new ≡ self.old) }
    {
        let done = Acted::handing(
            alloc,
            Hand::Reset {
                cause: RESET_END_USER,
            },
        )?;
        self.state = UserState::Renewing;
        self.text = Octets::new(alloc);
        Ok(done)
    }

    /// The user disconnects.
    fn disconnects(&mut self, alloc: Global, request: &Request) -> Result<Acted, Memory>
        ensures ok { IfOk result (λ done. ActsAs (disconnects request.now) self.old self.new done) }
        ensures err { OnErr result (self.new ≡ self.old) }
    {
        let Request::Disc { cause, body, .. } = request else {
            return Ok(Acted::nothing(alloc));
        };
        let hand = Hand::End {
            cause: *cause,
            body: given(body)?,
            importance: None,
        };
        let done = Acted::handing(alloc, hand)?;
        self.state = UserState::Gone;
        Ok(done)
    }

    /// A request that was not refused, by its cell.
    #[tactic(auto, unfolding(section_model::specs::UserEnd::user_asks))]
    pub(crate) fn ask(
        &mut self,
        alloc: Global,
        cell: Cell,
        request: &Request,
    ) -> Result<Acted, Memory>
        ensures ok { IfOk result (λ done.
            ActsAs (user_asks cell request.now) self.old self.new done) }
        ensures err { OnErr result (self.new ≡ self.old) }
    {
        match cell {
            Cell::UserAccepts => self.accepts(alloc, request),
            Cell::UserRefuses => self.refuses(alloc, request),
            Cell::UserSends => sends(alloc, request),
            Cell::UserExpedites => expedites(alloc, request),
            Cell::UserResets => self.resets(alloc),
            Cell::UserDisconnects => self.disconnects(alloc, request),
            _ => Ok(Acted::nothing(alloc)),
        }
    }
}
