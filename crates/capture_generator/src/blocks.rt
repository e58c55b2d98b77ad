//! The phases of generated lines.
ghost use Rattle.std.specs.Prelude.{◌≡◌, ◌<◌, ◌≤◌, ◌+◌, ◌*◌, ◌++◌, [], ◌∷◌, IfOk, OnOk};
ghost use Rattle.capture_form.specs.declared.steps.TheConstants.{MOST_LINES};
ghost use Rattle.capture_generator.specs.declared.events.TheConstants.{BLOCK};
ghost use Rattle.capture_generator.specs.Generator.{number_after, events_after, lines_phase, block_phases, tick_phase, whole_blocks, phases_after};

use crate::events::{BLOCK, next_number, stamped_at};
use capture_form::{Phase, PhaseList, StampedControlList};
use plant_core::ControlEvent;
use relay_base::{Event, Memory, Stamp};
use std::alloc::Global;

/// The events of lines, of which `x` is the number before the first.
#[tactic(auto, using(crate::proofs::StepLemmas::number_none, crate::proofs::StepLemmas::events_none, crate::proofs::StepLemmas::number_more, crate::proofs::StepLemmas::events_more))]
fn events_after(
    alloc: Global,
    x: &mut u32,
    first: u32,
    count: u32,
) -> Result<StampedControlList, Memory>
    requires { first + count ≤ MOST_LINES }
    ensures events { IfOk result (λ events. events ≡ events_after x.old first count) }
    ensures number { OnOk result (x.new ≡ number_after x.old count) }
{
    let mut events = StampedControlList::new(alloc);
    for index in 0..count {
        *x = next_number(*x);
        events.push(stamped_at(alloc, *x, first + index)?)?;
    }
    Ok(events)
}

/// A phase with the events of link 0 and of link 1.
fn phase_of(
    alloc: Global,
    control: StampedControlList,
    events: StampedControlList,
) -> Result<Phase, Memory>
    ensures { IfOk result (λ phase. phase ≡ control ∷ events ∷ []) }
{
    let mut phase = Phase::new(alloc);
    phase.push(control)?;
    phase.push(events)?;
    Ok(phase)
}

/// The phase of lines, of which `x` is the number before the first.
fn block_phase(alloc: Global, x: &mut u32, first: u32, count: u32) -> Result<Phase, Memory>
    requires { first + count ≤ MOST_LINES }
    ensures phase { IfOk result (λ phase. phase ≡ lines_phase x.old first count) }
    ensures number { OnOk result (x.new ≡ number_after x.old count) }
{
    let events = events_after(alloc, x, first, count)?;
    phase_of(alloc, StampedControlList::new(alloc), events)
}

/// The tick after a block.
fn tick_phase(alloc: Global, block: u32) -> Result<Phase, Memory>
    requires { BLOCK * block < MOST_LINES }
    ensures { IfOk result (λ phase. phase ≡ tick_phase block) }
{
    let stamp = Stamp {
        phase: 2 + 2 * block,
        link: 0,
        line: 7 + BLOCK + (BLOCK + 3) * block,
    };
    let mut control = StampedControlList::new(alloc);
    control.push((stamp, ControlEvent::Plain(Event::Tick)))?;
    phase_of(alloc, control, StampedControlList::new(alloc))
}

/// Puts the phases of a block of 400 lines, of which `x` is the number before the first, and of its tick at the end.
fn push_block(alloc: Global, x: &mut u32, block: u32, phases: &mut PhaseList) -> Result<(), Memory>
    requires { BLOCK * (block + 1) ≤ MOST_LINES }
    ensures phases { OnOk result (phases.new ≡ phases.old ++ block_phases x.old block) }
    ensures number { OnOk result (x.new ≡ number_after x.old BLOCK) }
{
    phases.push(block_phase(alloc, x, BLOCK * block, BLOCK)?)?;
    phases.push(tick_phase(alloc, block)?)?;
    Ok(())
}

/// So many blocks of 400 lines, each with its tick, of which `x` is the number before the first.
#[tactic(auto, using(crate::proofs::StepLemmas::blocks_none, crate::proofs::StepLemmas::number_none))]
fn whole_blocks(alloc: Global, x: &mut u32, count: u32) -> Result<PhaseList, Memory>
    requires { BLOCK * count ≤ MOST_LINES }
    ensures phases { IfOk result (λ phases. phases ≡ whole_blocks x.old count) }
    ensures number { OnOk result (x.new ≡ number_after x.old (BLOCK * count)) }
{
    let mut phases = PhaseList::new(alloc);
    for block in 0..count {
        push_block(alloc, x, block, &mut phases)?;
    }
    Ok(phases)
}

/// The phases of lines, of which `x` is the number before the first.
pub fn phases_after(alloc: Global, x: u32, lines: u32) -> Result<PhaseList, Memory>
    requires { lines < MOST_LINES }
    ensures { IfOk result (λ phases. phases ≡ phases_after x lines) }
{
    if lines == 0 {
        return Ok(PhaseList::new(alloc));
    }
    let mut x = x;
    let blocks = lines / BLOCK;
    let mut phases = whole_blocks(alloc, &mut x, blocks)?;
    phases.push(block_phase(alloc, &mut x, BLOCK * blocks, lines % BLOCK)?)?;
    Ok(phases)
}
