//! What follows each event in class 3 (Q.714, 3.5.2 and 3.6): what waits leaves, and what left is
//! acknowledged.
ghost use Rattle.std.specs.Prelude.{◌≡◌, ◌==◌, ◌&&◌, ℕ, IfOk, OnOk};
ghost use Rattle.section_model.specs.Ends.{is_up, wire as end};
ghost use Rattle.section_class3.specs.Windows.{windows_turn};
ghost use Rattle.section_model.specs.Views.{section_of};
ghost use Rattle.section_model.specs.Step.{on_windows, on_each, after_event};
ghost use Rattle.connection_law.specs.InStep.{AreInStep, IsInStep};
ghost use Rattle.section_coupling.specs.Views.{section_at, section_by, end_at, end_by, connection_by, standing, behind, IsAct, IsEndAct};
ghost use Rattle.section_coupling.specs.Inner.Alone.{turns_alone};
ghost use Rattle.section_coupling.specs.Inner.Idle.{is_in_class_3, has_waiting, has_turn, may_turn};
ghost use Rattle.section_coupling.specs.Sound.{AreSound, SoundActed, SoundWire, SoundSide, SoundPair};

use crate::clock::Clock;
use crate::coupling::{TURNS, exchange};
use crate::pair::Pair;
use crate::side::Side;
use crate::wire::Wire;
use relay_base::{Memory, Outs};
use section_grid::{Acted, Cell, SectionState, WireHead};
use std::alloc::Global;

/// Whether a section is one of class 3 that is up.
fn has_windows(head: &WireHead) -> bool
    ensures { result ≡ (is_up (section_of head.now).state && (section_of head.now).class == 3) }
{
    head.state() == SectionState::Up && head.class == 3
}

/// Whether units or expedited data wait on a section.
fn has_waiting(wire: &Wire) -> bool
    ensures { (now : ℕ) → result ≡ has_waiting (section_at now wire.now) }
{
    wire.windows.waiting_units() > 0 || wire.windows.has_waiting_expedited()
}

/// Whether there is something to do on a section for a part of it: something waits to leave, or something that left is to be acknowledged.
fn has_turn(cell: Cell, wire: &Wire) -> bool
    requires sound { SoundWire wire.now }
    requires class { wire.now.head.class ≡ 3 }
    ensures { (now : ℕ) → result ≡ has_turn cell (section_at now wire.now) }
{
    match cell {
        Cell::Leave => has_waiting(wire),
        Cell::Acknowledge => wire.windows.owes_acknowledgement(),
        _ => true,
    }
}

/// Whether a part of it may do something on a section.
fn may_turn_section(cell: Cell, wire: &Wire) -> bool
    requires { SoundWire wire.now }
    ensures { (now : ℕ) → result ≡ may_turn cell (end (section_at now wire.now)) }
{
    has_windows(&wire.head) && has_turn(cell, wire)
}

/// A part of it on a section.
fn turn_section(alloc: Global, clock: &Clock, cell: Cell, wire: &mut Wire) -> Result<Acted, Memory>
    requires { SoundWire wire.old }
    ensures turns { let this = end (section_by clock.now wire.old) in
        IfOk result (IsAct clock.now (turns_alone clock.now.ticks cell this) wire.new) }
    ensures sound { IfOk result (λ acted. SoundWire wire.new × SoundActed acted) }
{
    if !has_windows(&wire.head) {
        return Ok(Acted::nothing(alloc));
    }
    wire.take_turn(alloc, clock, cell)
}

impl Side {
    /// Whether a part of it may do something on this end.
    fn may_turn(&self, cell: Cell) -> bool
        requires { SoundSide self.now }
        ensures { (now : ℕ) → result ≡ may_turn cell (end_at now self.now) }
    {
        match self {
            Side::Wire(wire) => may_turn_section(cell, wire.get()),
            Side::User(_) => false,
        }
    }

    /// A part of it on this end alone.
    fn turn(&mut self, alloc: Global, clock: &Clock, cell: Cell) -> Result<Acted, Memory>
        requires { SoundSide self.old }
        ensures turns { let this = end_by clock.now self.old in
            IfOk result (IsEndAct clock.now (turns_alone clock.now.ticks cell this) self.new) }
        ensures sound { IfOk result (λ acted. SoundSide self.new × SoundActed acted) }
    {
        match self {
            Side::Wire(wire) => turn_section(alloc, clock, cell, wire.get_mut()),
            Side::User(_) => Ok(Acted::nothing(alloc)),
        }
    }
}

/// A part of it on this end, behind these outputs.
#[tactic(auto, using(crate::proofs::Idle::none_turns))]
fn on_this(
    alloc: Global,
    clock: &Clock,
    cell: Cell,
    this: &mut Side,
    that: &mut Side,
    outs: &mut Outs,
) -> Result<(), Memory>
    requires sound { AreSound this.old that.old }
    requires steps { AreInStep (end_by clock.now this.old) (end_by clock.now that.old) }
    ensures follows { let part = on_windows clock.now.ticks (windows_turn cell) in
        let done = part (end_by clock.now this.old) (end_by clock.now that.old) in
        OnOk result (behind outs.old done ≡ standing clock.now this.new that.new outs.new) }
    ensures sound { OnOk result (AreSound this.new that.new) }
    ensures steps { OnOk result
        (AreInStep (end_by clock.now this.new) (end_by clock.now that.new)) }
{
    if !this.may_turn(cell) {
        return Ok(());
    }
    let acted = this.turn(alloc, clock, cell)?;
    exchange(alloc, clock, TURNS, this, acted, that, outs)
}

/// A part of it on this end, and then on the other one, behind these outputs.
fn on_each(
    alloc: Global,
    clock: &Clock,
    cell: Cell,
    pair: &mut Pair,
    outs: &mut Outs,
) -> Result<(), Memory>
    requires pair { SoundPair pair.old }
    requires steps { IsInStep (connection_by clock.now pair.old) }
    ensures follows { let part = on_windows clock.now.ticks (windows_turn cell) in
        let done = on_each part (connection_by clock.now pair.old, outs.old) in
        OnOk result (done ≡ (connection_by clock.now pair.new, outs.new)) }
    ensures sound { OnOk result (SoundPair pair.new) }
    ensures steps { OnOk result (IsInStep (connection_by clock.now pair.new)) }
{
    on_this(alloc, clock, cell, &mut pair.this, &mut pair.that, outs)?;
    on_this(alloc, clock, cell, &mut pair.that, &mut pair.this, outs)
}

/// Whether this end is a section of class 3 that is up.
fn is_in_class_3(side: &Side) -> bool
    ensures { (now : ℕ) → result ≡ is_in_class_3 (end_at now side.now) }
{
    match side {
        Side::Wire(wire) => has_windows(&wire.get().head),
        Side::User(_) => false,
    }
}

/// What follows an event that gave these outputs: on each end what waits leaves, and then on each what left is acknowledged.
#[tactic(auto, unfolding(section_model::specs::Step::after_event), using(crate::proofs::Idle::none_follows))]
pub fn follow(alloc: Global, clock: &Clock, pair: &mut Pair, outs: &mut Outs) -> Result<(), Memory>
    requires pair { SoundPair pair.old }
    requires steps { IsInStep (connection_by clock.now pair.old) }
    ensures follows { OnOk result
        (after_event clock.now.ticks (connection_by clock.now pair.old, outs.old) ≡
        (connection_by clock.now pair.new, outs.new)) }
    ensures sound { OnOk result (SoundPair pair.new) }
{
    if !is_in_class_3(&pair.this) && !is_in_class_3(&pair.that) {
        return Ok(());
    }
    on_each(alloc, clock, Cell::Leave, pair, outs)?;
    on_each(alloc, clock, Cell::Acknowledge, pair, outs)
}
