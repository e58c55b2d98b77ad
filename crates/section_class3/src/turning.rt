//! What follows each event on a section of class 3.
ghost use Rattle.std.specs.Prelude.{◌≡◌, ◌++◌, ◌||◌, nat_lt, [], ◌∷◌, is_some, if◌then◌else◌, IfOk, OnOk, OnErr};
ghost use Rattle.std.specs.Option.{option_map};
ghost use Rattle.section_model.specs.declared.hand.Hand.TheVariants as hand;
ghost use Rattle.section_model.specs.Views.{section_of};
ghost use Rattle.section_model.specs.Lengths.{ExpeditedWithin, UnitsWithin, WindowsWithin};
ghost use Rattle.section_model.specs.Windowed.{leaves, acknowledges};
ghost use Rattle.section_class3.specs.Windows.{windowed_of, windows_turn};
ghost use Rattle.section_class3.specs.Inner.Sending.{all_sent, units_output, ready_expedited, expedited_output};

use crate::sending::{acknowledgement, expedited, numbered};
use crate::windows::Windows;
use relay_base::{Memory, Octets, Outs};
use section_flow::Flow;
use section_model::{Acted, Cell, Hand, HandList, WireHead};
use std::alloc::Global;

/// Sends the units that may leave, in order.
fn send_units(alloc: Global, wire: &WireHead, flow: &mut Flow) -> Result<Outs, Memory>
    requires { UnitsWithin flow.old.waits }
    ensures outs { IfOk result (λ outs. outs ≡ units_output (section_of wire.now) flow.old) }
    ensures flow { OnOk result (all_sent flow.old ≡ record flow.new { room = 0 }) }
{
    let mut outs = Outs::new(alloc);
    while let Some((ps, pr, unit)) = flow.next() {
        outs.push(numbered(alloc, wire, ps, pr, &unit)?)?;
    }
    Ok(outs)
}

/// What the other end is told of units and of expedited data that left.
fn hands_left(alloc: Global, units: u8, expedited: bool) -> Result<HandList, Memory>
    ensures { IfOk result (λ hands.
        hands ≡ (if expedited || nat_lt 0 units then hand.Left units expedited ∷ [] else [])) }
{
    let mut hands = HandList::new(alloc);
    if expedited || units > 0 {
        hands.push(Hand::Left { units, expedited })?;
    }
    Ok(hands)
}

/// Puts ED behind the outputs, where there are expedited data, and tells whether there are.
fn send_expedited(
    alloc: Global,
    wire: &WireHead,
    body: Option<&Octets>,
    outs: &mut Outs,
) -> Result<bool, Memory>
    requires { ExpeditedWithin (option_map (λ b. b.now) body) }
    ensures { IfOk result (λ sent. (sent ≡ is_some body.entry) × (outs.new ≡
        outs.old ++ expedited_output (section_of wire.now) (option_map (λ b. b.now) body.entry))) }
{
    match body {
        Some(body) => {
            outs.push(expedited(alloc, wire, body)?)?;
            Ok(true)
        }
        None => Ok(false),
    }
}

impl Windows {
    /// The expedited data that may leave now.
    fn ready_expedited(&self) -> Option<&Octets>
        ensures { option_map (λ b. b.now) result ≡ ready_expedited self.now.windows }
    {
        if self.is_unanswered {
            return None;
        }
        self.waiting.as_ref()
    }

    /// Units leave as far as the window goes, and then expedited data where none are unanswered.
    #[tactic(auto, unfolding(section_model::specs::Windowed::leaves))]
    fn leave(&mut self, alloc: Global, wire: &WireHead) -> Result<Acted, Memory>
        requires { WindowsWithin self.old.windows }
        ensures ok { IfOk result (λ done.
            leaves (windowed_of wire.now self.old) ≡ (windowed_of wire.now self.new, done)) }
        ensures err { OnErr result (self.new ≡ self.old) }
        ensures agreed { self.new.agreed ≡ self.old.agreed }
    {
        let mut flow = self.flow.copy()?;
        let units = flow.sendable();
        let mut outs = send_units(alloc, wire, &mut flow)?;
        let expedited = send_expedited(alloc, wire, self.ready_expedited(), &mut outs)?;
        let then = hands_left(alloc, units, expedited)?;
        self.flow = flow;
        if expedited {
            self.waiting = None;
            self.is_unanswered = true;
        }
        Ok(Acted {
            first: HandList::new(alloc),
            outs,
            then,
        })
    }

    /// AK, where units left on the other end beyond the last P(R) sent.
    #[tactic(auto, unfolding(section_model::specs::Windowed::acknowledges))]
    fn acknowledge(&mut self, alloc: Global, wire: &WireHead) -> Result<Acted, Memory>
        ensures ok { IfOk result (λ done.
            acknowledges (windowed_of wire.now self.old) ≡ (windowed_of wire.now self.new, done)) }
        ensures err { OnErr result (self.new ≡ self.old) }
        ensures agreed { self.new.agreed ≡ self.old.agreed }
    {
        let Some(pr) = self.flow.due() else {
            return Ok(Acted::nothing(alloc));
        };
        let acted = Acted::giving(alloc, acknowledgement(alloc, wire, pr)?)?;
        self.flow.tell();
        Ok(acted)
    }

    /// The section's turn after each event, by its part.
    pub(crate) fn turn(
        &mut self,
        alloc: Global,
        wire: &WireHead,
        cell: Cell,
    ) -> Result<Acted, Memory>
        requires { WindowsWithin self.old.windows }
        ensures ok { IfOk result (λ done. windows_turn cell (windowed_of wire.now self.old) ≡
            (windowed_of wire.now self.new, done)) }
        ensures err { OnErr result (self.new ≡ self.old) }
        ensures agreed { self.new.agreed ≡ self.old.agreed }
    {
        match cell {
            Cell::Leave => self.leave(alloc, wire),
            Cell::Acknowledge => self.acknowledge(alloc, wire),
            _ => Ok(Acted::nothing(alloc)),
        }
    }
}
