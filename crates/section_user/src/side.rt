//! A user's end.
ghost use Rattle.std.specs.Prelude.{◌≡◌, IfOk, OnErr};
ghost use Rattle.relay_base.specs.declared.words.Output.TheVariants.{Told};
ghost use Rattle.section_model.specs.UserEnd.{taken};
ghost use Rattle.section_user.specs.Side.{ActsAs, user_acts, user_hears_event};
ghost use Rattle.section_model.specs.Lengths.{ActedWithin};
ghost use Rattle.section_user.specs.Lengths.{IsInputInRange};

use relay_base::{Event, Memory, Octets, Output, Ref24, Ssn, Tell};
use section_model::{Acted, Cell, Hand, HandList, Input, UserState};
use std::alloc::Global;

/// A user's end of a connection: its subsystem, the reference of the section at the other end, its state, the class (2 or 3) and the
/// credit (0 to 127) that were offered or agreed on, and what is put together of a text (0 to 8,192 octets).
pub struct UserSide {
    pub ssn: Ssn,
    pub mine: Ref24,
    pub state: UserState,
    pub class: u8,
    pub credit: u8,
    pub text: Octets,
}

impl Drop for UserSide {
    fn drop(self) {
        let Self {
            ssn: _,
            mine: _,
            state: _state,
            class: _,
            credit: _,
            text: _text,
        } = self;
    }
}

/// That what the user took has left.
pub(crate) fn taken(alloc: Global, units: u8, expedited: bool) -> Result<HandList, Memory>
    ensures { IfOk result (λ hands. hands ≡ taken units expedited) }
{
    let mut hands = HandList::new(alloc);
    hands.push(Hand::Left { units, expedited })?;
    Ok(hands)
}

impl UserSide {
    /// What the end does upon an input, by the cell of the table of states and events that it meets. Requests, and the other end's
    /// effects, have one; a cell for another input has no effect. After `Memory` the end is as before.
    pub fn act(&mut self, alloc: Global, cell: Cell, input: &Input<'_>) -> Result<Acted, Memory>
        ensures ok { IfOk result (λ done.
            ActsAs (user_acts cell input.now) self.old self.new done) }
        ensures err { OnErr result (self.new ≡ self.old) }
        ensures lengths { IfOk result (λ done. IsInputInRange input.now → ActedWithin done) }
    {
        match *input {
            Input::Event(event) => self.hear(alloc, cell, event),
            Input::Hand(hand) => self.take(alloc, cell, hand),
            Input::Timer(_) | Input::Turn => Ok(Acted::nothing(alloc)),
        }
    }

    /// What comes of a request; no other event is for a user's end.
    fn hear(&mut self, alloc: Global, cell: Cell, event: &Event) -> Result<Acted, Memory>
        ensures ok { IfOk result (λ done.
            ActsAs (user_hears_event cell event.now) self.old self.new done) }
        ensures err { OnErr result (self.new ≡ self.old) }
    {
        match event {
            Event::Asked { request, .. } => self.ask(alloc, cell, request),
            Event::Message { .. } | Event::Tick => Ok(Acted::nothing(alloc)),
        }
    }

    /// What the user is told.
    pub(crate) fn output_to(&self, tell: Tell) -> Output
        ensures { result ≡ Told self.now.ssn tell }
    {
        Output::Told {
            ssn: self.ssn,
            tell,
        }
    }

    /// An equal end.
    pub fn copy(&self) -> Result<UserSide, Memory>
        ensures { IfOk result (λ copy. copy ≡ self.now) }
    {
        Ok(UserSide {
            ssn: self.ssn,
            mine: self.mine,
            state: self.state,
            class: self.class,
            credit: self.credit,
            text: self.text.clone()?,
        })
    }
}
