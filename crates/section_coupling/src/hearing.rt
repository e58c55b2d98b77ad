//! A message on a connection section (Q.714): the checks before the table's cell, and the cell.
ghost use Rattle.std.specs.Prelude.{◌≡◌, Some, IfOk, OnOk};
ghost use Rattle.relay_base.specs.declared.words.Output.TheVariants.{Sent};
ghost use Rattle.q713_codec.specs.declared.message.Message.TheVariants.{Err as Error};
ghost use Rattle.q713_codec.specs.Writing.{spelling_of};
ghost use Rattle.section_model.specs.Ends.{End, wire};
ghost use Rattle.section_model.specs.Laws.{hands_of};
ghost use Rattle.section_model.specs.Views.{seen_arrival, seen_parameters, section_of};
ghost use Rattle.section_model.specs.Step.{names_both, ends_both, names_another, is_of_class_2, is_of_class_3, is_of_other_class, checked, is_from_elsewhere, in_touch, keeps, at_this, heard_by};
ghost use Rattle.section_coupling.specs.Inner.Alone.{hears_alone};
ghost use Rattle.section_coupling.specs.Inner.Comings.{IsArrival, hears_coming, hears_on};
ghost use Rattle.section_coupling.specs.Views.{section_by, end_by, ends_by, connection_by, standing, behind, IsAct, IsEndAct};
ghost use Rattle.section_coupling.specs.Sound.{AreSound, AreOfWhatCame, SoundWire, SoundSide, SoundPair, SoundActed};

use crate::clock::Clock;
use crate::coming::Coming;
use crate::coupling::{TURNS, exchange};
use crate::pair::Pair;
use crate::side::Side;
use crate::wire::{Wire, is_sent};
use q713_codec::{Message, write};
use relay_base::causes::ERROR_INCONSISTENT_REFERENCE;
use relay_base::{Lost, Memory, Output, Outs, Pc, Ref24};
use section_grid::{Acted, Input, Occasion, SectionState, WireHead, section_cell};
use section_model::{ArrivalView, ParametersView};
use std::alloc::Global;

fn names_both(occasion: Occasion) -> bool
    ensures { result ≡ names_both occasion }
{
    matches!(occasion, Occasion::Rlsd | Occasion::Rsr)
}

fn ends_both(occasion: Occasion) -> bool
    ensures { result ≡ ends_both occasion }
{
    matches!(occasion, Occasion::Rlc | Occasion::Rsc)
}

fn is_of_class_3(occasion: Occasion) -> bool
    ensures { result ≡ is_of_class_3 occasion }
{
    matches!(
        occasion,
        Occasion::Dt2 | Occasion::Ak | Occasion::Ed | Occasion::Ea | Occasion::Rsr | Occasion::Rsc
    )
}

fn is_of_class_2(occasion: Occasion) -> bool
    ensures { result ≡ is_of_class_2 occasion }
{
    matches!(occasion, Occasion::Dt1)
}

/// Whether a message has another reference of the other end than is agreed on.
fn names_another(parameters: &ParametersView<'_>, head: &WireHead) -> bool
    ensures { result ≡ names_another (seen_parameters parameters.now) (section_of head.now) }
{
    let knows_other = matches!(
        head.state(),
        SectionState::Up | SectionState::Resetting | SectionState::Ending
    );
    knows_other && parameters.slr != head.other
}

fn is_of_other_class(occasion: Occasion, head: &WireHead) -> bool
    ensures { result ≡ is_of_other_class occasion (section_of head.now) }
{
    let is_connected = matches!(head.state(), SectionState::Up | SectionState::Resetting);
    is_connected
        && ((is_of_class_2(occasion) && head.class == 3)
            || (is_of_class_3(occasion) && head.class == 2))
}

fn is_from_elsewhere(point: Pc, head: &WireHead) -> bool
    ensures { result ≡ is_from_elsewhere point (section_of head.now) }
{
    let is_reached = !matches!(head.state(), SectionState::Asking | SectionState::Waning);
    is_reached && point != head.point
}

/// ERR for a wrong reference of the other end, to the reference that the message names.
fn reference_error(alloc: Global, head: &WireHead, dlr: Ref24) -> Result<Output, Memory>
    ensures { let error = spelling_of (Error dlr ERROR_INCONSISTENT_REFERENCE) in
        IfOk result (λ output. output ≡ Sent head.now.point head.now.sls error) }
{
    let error = Message::Err {
        dlr,
        cause: ERROR_INCONSISTENT_REFERENCE,
    };
    let bytes = write(alloc, &error)?;
    Ok(Output::Sent {
        point: head.point,
        sls: head.sls,
        bytes,
    })
}

/// What is said in place of the cell, where a check keeps the message from it.
fn checked(
    alloc: Global,
    arrival: &ArrivalView<'_>,
    head: &WireHead,
) -> Result<Option<Output>, Memory>
    ensures { let parameters = seen_parameters arrival.now.parameters in IfOk result (λ output.
        output ≡ checked arrival.now.occasion parameters (section_of head.now)) }
{
    let occasion = arrival.occasion;
    let names_another = names_another(&arrival.parameters, head);
    if names_both(occasion) && names_another {
        let error = reference_error(alloc, head, arrival.parameters.slr)?;
        return Ok(Some(error));
    }
    if ends_both(occasion) && names_another {
        return Ok(Some(Output::Lost(Lost::State)));
    }
    if is_of_other_class(occasion, head) {
        return Ok(Some(Output::Lost(Lost::Class)));
    }
    Ok(None)
}

impl Wire {
    /// A message from the section's point starts its receive inactivity timer again.
    fn keep_in_touch(&mut self, clock: &Clock)
        ensures value { section_by clock.now self.new ≡
            in_touch clock.now.ticks (section_by clock.now self.old) }
        ensures sound { SoundWire self.old → SoundWire self.new }
    {
        self.timers = self.timers.heard_again(clock);
    }

    /// Gives an output, and keeps its state.
    fn keep(&mut self, alloc: Global, clock: &Clock, output: Output) -> Result<Acted, Memory>
        ensures sound { SoundWire self.old →
            IfOk result (λ acted. SoundWire self.new × SoundActed acted) }
        ensures keeps { let x = section_by clock.now self.old in
            IfOk result (IsAct clock.now (keeps clock.now.ticks output x) self.new) }
    {
        let state = self.head.state();
        self.timers = self.timers.after(clock, state, state, is_sent(&output));
        Acted::giving(alloc, output)
    }

    /// Hears a message from its point, by a check or by the cell.
    fn hear(&mut self, alloc: Global, clock: &Clock, coming: &Coming<'_>) -> Result<Acted, Memory>
        requires section { SoundWire self.old }
        requires arrives { IsArrival coming.now }
        ensures hears { let x = section_by clock.now self.old in
            IfOk result (IsAct clock.now (hears_coming clock.now coming.now x) self.new) }
        ensures sound { IfOk result (λ acted. SoundWire self.new × SoundActed acted) }
    {
        match checked(alloc, &coming.arrival, &self.head)? {
            Some(output) => self.keep(alloc, clock, output),
            None => {
                let cell = section_cell(self.head.state(), coming.arrival.occasion);
                self.act(alloc, clock, cell, &Input::Event(coming.event))
            }
        }
    }

    /// Hears a message; one that comes from another point than the section's is lost.
    fn hear_from(
        &mut self,
        alloc: Global,
        clock: &Clock,
        coming: &Coming<'_>,
    ) -> Result<Acted, Memory>
        requires section { SoundWire self.old }
        requires arrives { IsArrival coming.now }
        ensures hears { let this = wire (section_by clock.now self.old) in
            IfOk result (IsAct clock.now (hears_alone clock.now coming.now this) self.new) }
        ensures sound { IfOk result (λ acted. SoundWire self.new × SoundActed acted) }
        ensures left { let this = wire (section_by clock.now self.new) in
            IfOk result (λ acted. (that : End) → AreOfWhatCame this (hands_of acted) that) }
    {
        if is_from_elsewhere(coming.point, &self.head) {
            return Acted::giving(alloc, Output::Lost(Lost::Point));
        }
        self.windows.keeps_windows();
        self.keep_in_touch(clock);
        self.hear(alloc, clock, coming)
    }
}

impl Side {
    /// A message on this end alone; one for a user's end has no effect.
    fn hear(&mut self, alloc: Global, clock: &Clock, coming: &Coming<'_>) -> Result<Acted, Memory>
        requires end { SoundSide self.old }
        requires arrives { IsArrival coming.now }
        ensures hears { let this = end_by clock.now self.old in
            IfOk result (IsEndAct clock.now (hears_alone clock.now coming.now this) self.new) }
        ensures sound { IfOk result (λ acted. SoundSide self.new × SoundActed acted) }
        ensures left { let this = end_by clock.now self.new in
            IfOk result (λ acted. (that : End) → AreOfWhatCame this (hands_of acted) that) }
    {
        match self {
            Side::Wire(wire) => wire.get_mut().hear_from(alloc, clock, coming),
            Side::User(_) => Ok(Acted::nothing(alloc)),
        }
    }
}

/// A message on this end, behind these outputs.
fn hear_at_this(
    alloc: Global,
    clock: &Clock,
    coming: &Coming<'_>,
    this: &mut Side,
    that: &mut Side,
    outs: &mut Outs,
) -> Result<(), Memory>
    requires sound { AreSound this.old that.old }
    requires arrives { IsArrival coming.now }
    ensures hears { let before = ends_by clock.now this.old that.old in
        let done = at_this (hears_on clock.now coming.now) before in
        OnOk result (behind outs.old done ≡ standing clock.now this.new that.new outs.new) }
    ensures sound { OnOk result (AreSound this.new that.new) }
{
    let acted = this.hear(alloc, clock, coming)?;
    exchange(alloc, clock, TURNS, this, acted, that, outs)
}

/// A message on the end that its destination local reference names, behind these outputs.
#[tactic(auto, using(crate::proofs::Alone::other_done))]
pub fn hear_message(
    alloc: Global,
    clock: &Clock,
    coming: &Coming<'_>,
    pair: &mut Pair,
    outs: &mut Outs,
) -> Result<(), Memory>
    requires pair { SoundPair pair.old }
    requires arrives { IsArrival coming.now }
    ensures hears { let arrival = Some (seen_arrival coming.now.arrival) in
        let before = connection_by clock.now pair.old in
        let done = heard_by clock.now.ticks coming.now.point arrival before in
        OnOk result (behind outs.old done ≡ (connection_by clock.now pair.new, outs.new)) }
    ensures sound { OnOk result (SoundPair pair.new) }
{
    let Pair { this, that } = pair;
    if this.is_named(coming.arrival.parameters.dlr) {
        hear_at_this(alloc, clock, coming, this, that, outs)
    } else {
        hear_at_this(alloc, clock, coming, that, this, outs)
    }
}
