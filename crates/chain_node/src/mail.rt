//! The outputs of an event by where they go.
ghost use Rattle.std.specs.Prelude.{◌≡◌, ◌∷◌, [], IfOk, OnOk};
ghost use Rattle.relay_base.specs.declared.words.Output.TheVariants.{Sent};
ghost use Rattle.chain_step.specs.Run.{tells_in, messages_in};
ghost use Rattle.chain_node.specs.Inner.Mails.{IsPut};

use relay_base::{Event, Memory, Octets, Output, Outs, Pc, Sls, Tell};
use std::alloc::Global;
use std::collections::VecDeque;

/// A node's number, with the points of the node, of the next one, and of the one before.
#[derive(Clone, Copy)]
pub struct Place {
    pub number: u8,
    pub own: Pc,
    pub ahead: Pc,
    pub back: Pc,
}

/// What a node's users are told, and the messages that it sends to the next node and to the one before.
#[derive(Drop)]
pub struct Mail {
    pub tells: Vec<(u8, Tell)>,
    pub ahead: VecDeque<Event>,
    pub back: VecDeque<Event>,
}

impl Mail {
    fn new(alloc: Global) -> Mail
        ensures tells { result.tells.items ≡ [] }
        ensures ahead { result.ahead.items ≡ [] }
        ensures back { result.back.items ≡ [] }
    {
        Mail {
            tells: Vec::new(alloc),
            ahead: VecDeque::new(alloc),
            back: VecDeque::new(alloc),
        }
    }

    /// Puts a message to the neighbour that has its point, if one has.
    fn send(&mut self, place: &Place, point: Pc, sls: Sls, bytes: Octets) -> Result<(), Memory>
        requires number { place.now.own ≡ place.now.number }
        requires apart { place.now.ahead ≡ place.now.back → ⊥ }
        ensures { let number = place.now.number in
            let outs = Sent point sls bytes ∷ [] in
            OnOk result (IsPut number place.now.ahead place.now.back outs self.old self.new) }
    {
        let message = Event::Message {
            opc: place.own,
            sls,
            bytes,
        };
        if point == place.ahead {
            self.ahead.push_back(message)?;
        } else if point == place.back {
            self.back.push_back(message)?;
        }
        Ok(())
    }

    /// Puts an output where it goes.
    fn put(&mut self, place: &Place, out: Output) -> Result<(), Memory>
        requires number { place.now.own ≡ place.now.number }
        requires apart { place.now.ahead ≡ place.now.back → ⊥ }
        ensures { OnOk result
            (IsPut place.now.number place.now.ahead place.now.back (out ∷ []) self.old self.new) }
    {
        match out {
            Output::Told { ssn: _, tell } => self.tells.push((place.number, tell))?,
            Output::Sent { point, sls, bytes } => self.send(place, point, sls, bytes)?,
            Output::Lost(_) => {}
        }
        Ok(())
    }

    /// The outputs of an event of a node, by where they go.
    pub fn sorted(alloc: Global, place: &Place, outs: Outs) -> Result<Mail, Memory>
        requires number { place.now.own ≡ place.now.number }
        requires apart { place.now.ahead ≡ place.now.back → ⊥ }
        ensures tells { IfOk result (λ mail. mail.tells.items ≡ tells_in place.now.number outs) }
        ensures ahead { let number = place.now.number in
            IfOk result (λ mail. mail.ahead.items ≡ messages_in number place.now.ahead outs) }
        ensures back { let number = place.now.number in
            IfOk result (λ mail. mail.back.items ≡ messages_in number place.now.back outs) }
    {
        let mut mail = Mail::new(alloc);
        for out in outs.into_vec() {
            mail.put(place, out)?;
        }
        Ok(mail)
    }
}
