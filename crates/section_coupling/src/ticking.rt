//! A tick on a connection (Q.714, timers).
ghost use Rattle.std.specs.Prelude.{◌≡◌, ◌+◌, ℕ, IfOk, OnOk};
ghost use Rattle.section_model.specs.Timing.{firing, rearmed};
ghost use Rattle.section_model.specs.Acting.{section_fires};
ghost use Rattle.section_model.specs.Step.{is_due_at, fires_next, fires_due, ticks_by};
ghost use Rattle.section_coupling.specs.Views.{section_by, end_at, end_by, ends_by, connection_at, connection_by, standing, behind, left_at, IsAct, IsEndAct};
ghost use Rattle.section_coupling.specs.Inner.Alone.{fires_alone};
ghost use Rattle.section_coupling.specs.Duos.{timer_placed, left_of_timer};
ghost use Rattle.section_coupling.specs.Sound.{AreSound, SoundWire, SoundSide, SoundPair, SoundActed};
ghost use Rattle.section_model.specs.Table.{section_cell};
ghost use Rattle.section_coupling.specs.Inner.Idle.{has_due};

use crate::clock::Clock;
use crate::coupling::{TURNS, exchange};
use crate::pair::Pair;
use crate::side::Side;
use crate::taken::Taken;
use crate::wire::Wire;
use relay_base::{Memory, Outs};
use section_grid::{Acted, Input, Occasion, Timer, section_cell};
use std::alloc::Global;

/// The timers in the order in which they fire.
const FIRING_ORDER: [Timer; 7] = [
    Timer::Connect,
    Timer::Reset,
    Timer::Iar,
    Timer::Ias,
    Timer::Rel,
    Timer::Int,
    Timer::Repeat,
];

/// The timer at a place, from 0, of this order.
pub fn timer_placed(place: u8) -> Timer
    ensures { result ≡ timer_placed place }
{
    match place {
        0 => Timer::Connect,
        1 => Timer::Reset,
        2 => Timer::Iar,
        3 => Timer::Ias,
        4 => Timer::Rel,
        5 => Timer::Int,
        _ => Timer::Repeat,
    }
}

/// What a section meets where a timer fires.
fn firing(timer: Timer) -> Occasion
    ensures { result ≡ firing timer }
{
    match timer {
        Timer::Connect => Occasion::ConnectFires,
        Timer::Reset => Occasion::ResetFires,
        Timer::Iar => Occasion::IarFires,
        Timer::Ias => Occasion::IasFires,
        Timer::Rel => Occasion::RelFires,
        Timer::Int => Occasion::IntFires,
        Timer::Repeat => Occasion::RepeatFires,
    }
}

impl Wire {
    /// A timer fires.
    #[tactic(auto, unfolding(section_model::specs::Acting::section_fires))]
    fn fire(&mut self, alloc: Global, clock: &Clock, timer: Timer) -> Result<Acted, Memory>
        requires section { SoundWire self.old }
        ensures fires { let x = section_by clock.now self.old in IfOk result (IsAct clock.now
            (section_fires clock.now.ticks (section_cell x.head.state (firing timer))
            (record x { timers = rearmed clock.now.ticks timer x.timers })) self.new) }
        ensures sound { IfOk result (λ acted. SoundWire self.new × SoundActed acted) }
    {
        let cell = section_cell(self.head.state(), firing(timer));
        self.timers = self.timers.rearmed(clock, timer);
        self.act(alloc, clock, cell, &Input::Timer(timer as u8))
    }
}

impl Side {
    /// The number of the tick at which a timer of this end fires; None where it doesn't run.
    pub fn deadline(&self, timer: Timer) -> Option<u64>
        ensures { (now : ℕ) → left_at now result ≡ left_of_timer timer (end_at now self.now) }
    {
        match self {
            Side::Wire(wire) => wire.get().timers.deadline(timer),
            Side::User(_) => None,
        }
    }

    /// Whether one of these timers of this end fires at this tick.
    fn has_due(&self, now: Taken, timers: &[Timer]) -> bool
        ensures { result ≡ has_due timers.now (end_at now self.now) }
    {
        timers.iter().any(|timer| self.is_due(now, *timer))
    }

    /// Whether a timer of this end fires at this tick; a user's end has none.
    fn is_due(&self, now: Taken, timer: Timer) -> bool
        ensures { result ≡ is_due_at timer (end_at now self.now) }
    {
        match self {
            Side::Wire(wire) => wire.get().timers.is_due(now, timer),
            Side::User(_) => false,
        }
    }

    /// A timer of this end fires; a user's end has none.
    fn fire(&mut self, alloc: Global, clock: &Clock, timer: Timer) -> Result<Acted, Memory>
        requires end { SoundSide self.old }
        ensures fires { let this = end_by clock.now self.old in
            IfOk result (IsEndAct clock.now (fires_alone clock.now.ticks timer this) self.new) }
        ensures sound { IfOk result (λ acted. SoundSide self.new × SoundActed acted) }
    {
        match self {
            Side::Wire(wire) => wire.get_mut().fire(alloc, clock, timer),
            Side::User(_) => Ok(Acted::nothing(alloc)),
        }
    }
}

/// A timer of this end fires if it is due, behind these outputs.
#[tactic(auto, using(crate::proofs::Idle::not_due))]
fn fire_if_due(
    alloc: Global,
    clock: &Clock,
    timer: Timer,
    this: &mut Side,
    that: &mut Side,
    outs: &mut Outs,
) -> Result<(), Memory>
    requires sound { AreSound this.old that.old }
    ensures fires { let before = standing clock.now this.old that.old outs.old in OnOk result
        (fires_next clock.now.ticks before timer ≡
        standing clock.now this.new that.new outs.new) }
    ensures sound { OnOk result (AreSound this.new that.new) }
{
    if !this.is_due(clock.taken, timer) {
        return Ok(());
    }
    let acted = this.fire(alloc, clock, timer)?;
    exchange(alloc, clock, TURNS, this, acted, that, outs)
}

/// The timers of this end that are due fire in their order, behind these outputs.
#[tactic(auto, using(crate::proofs::Idle::none_due))]
fn fire_due(
    alloc: Global,
    clock: &Clock,
    this: &mut Side,
    that: &mut Side,
    outs: &mut Outs,
) -> Result<(), Memory>
    requires sound { AreSound this.old that.old }
    ensures fires { let done = fires_due clock.now.ticks (ends_by clock.now this.old that.old) in
        OnOk result (behind outs.old done ≡ standing clock.now this.new that.new outs.new) }
    ensures sound { OnOk result (AreSound this.new that.new) }
{
    if !this.has_due(clock.taken, &FIRING_ORDER) {
        return Ok(());
    }
    for timer in &FIRING_ORDER {
        fire_if_due(alloc, clock, *timer, this, that, outs)?;
    }
    Ok(())
}

/// A tick: first the timers of this end, then those of the other one. The clock has the tick already. The outputs stand behind those
/// that are there.
pub fn tick(
    alloc: Global,
    clock: &Clock,
    before: u32,
    pair: &mut Pair,
    outs: &mut Outs,
) -> Result<(), Memory>
    requires before { before + 1 ≡ clock.now.taken }
    requires pair { SoundPair pair.old }
    ensures ticks { let done = ticks_by clock.now.ticks (connection_at before pair.old) in
        OnOk result (behind outs.old done ≡ (connection_by clock.now pair.new, outs.new)) }
    ensures sound { OnOk result (SoundPair pair.new) }
{
    fire_due(alloc, clock, &mut pair.this, &mut pair.that, outs)?;
    fire_due(alloc, clock, &mut pair.that, &mut pair.this, outs)
}
