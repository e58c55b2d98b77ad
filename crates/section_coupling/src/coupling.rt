//! What the ends of a connection hand to each other.
ghost use Rattle.std.specs.Prelude.{◌≡◌, OnOk, fold};
ghost use Rattle.section_model.specs.Coupling.{exchange, other_takes};
ghost use Rattle.section_coupling.specs.Views.{behind, end_by, standing};
ghost use Rattle.section_coupling.specs.Sound.{AreSound, SoundActed, SoundHands, AreOfWhatCame};
ghost use Rattle.section_model.specs.Laws.{hands_of};

use crate::clock::Clock;
use crate::side::Side;
use relay_base::{Memory, Outs};
use section_grid::{Acted, HandList};
use std::alloc::Global;

/// How many turns the ends of a connection take until nothing is left: on what is handed back nothing more is.
pub const TURNS: u8 = 2;

/// The other end takes effects, one after another, and what it hands back goes on in turn. The outputs stand behind those that are
/// there.
#[cycle(exchange)]
fn offer(
    alloc: Global,
    clock: &Clock,
    turns: u8,
    this: &mut Side,
    hands: &HandList,
    that: &mut Side,
    outs: &mut Outs,
) -> Result<(), Memory>
    requires sound { AreSound this.old that.old }
    requires hands { SoundHands hands.now }
    requires left { AreOfWhatCame (end_by clock.now this.old) hands.now
        (end_by clock.now that.old) }
    ensures offered { let takes = other_takes (exchange turns clock.now.ticks) clock.now.ticks in
        let before = standing clock.now this.old that.old outs.old in OnOk result
        (fold takes before hands.now ≡ standing clock.now this.new that.new outs.new) }
    ensures sound { OnOk result (AreSound this.new that.new) }
{
    for hand in hands.as_slice() {
        let acted = that.take(alloc, clock, hand)?;
        exchange(alloc, clock, turns, that, acted, this, outs)?;
    }
    Ok(())
}

/// This end has acted: the other end takes what is handed over first, then the outputs stand, then it takes the rest; and it may
/// hand back in the same way, so many times. The outputs stand behind those that are there.
#[cycle(exchange)]
pub fn exchange(
    alloc: Global,
    clock: &Clock,
    turns: u8,
    this: &mut Side,
    acted: Acted,
    that: &mut Side,
    outs: &mut Outs,
) -> Result<(), Memory>
    requires sound { AreSound this.old that.old }
    requires acted { SoundActed acted }
    requires left { AreOfWhatCame (end_by clock.now this.old) (hands_of acted)
        (end_by clock.now that.old) }
    ensures exchanged { let that_end = end_by clock.now that.old in
        let done = exchange turns clock.now.ticks (end_by clock.now this.old, acted) that_end in
        OnOk result (behind outs.old done ≡ standing clock.now this.new that.new outs.new) }
    ensures sound { OnOk result (AreSound this.new that.new) }
{
    let (first, own, then) = acted.into_parts();
    if turns == 0 {
        return outs.append(own);
    }
    offer(alloc, clock, turns - 1, this, &first, that, outs)?;
    outs.append(own)?;
    offer(alloc, clock, turns - 1, this, &then, that, outs)
}
