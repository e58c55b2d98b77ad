//! What a lane keeps of a connection that isn't over.
ghost use Rattle.std.specs.Prelude.{◌≡◌, ◌≤◌, ◌<◌, ◌+◌, ℕ, [], Option, Some, None, IfOk, IfSome, IsTrue, false};
ghost use Rattle.std.specs.Option.{option_map};
ghost use Rattle.relay_base.specs.declared.words.Event.TheVariants.{Tick};
ghost use Rattle.section_model.specs.Step.{hears, is_over};
ghost use Rattle.section_model.specs.Lane.{fed};
ghost use Rattle.section_coupling.specs.Duos.{duo_at, taken_after, end_numbered, ticks_left};
ghost use Rattle.section_coupling.specs.declared.duo.TheConstants.{TIMERS};
ghost use Rattle.section_coupling.specs.Views.{left_at};
ghost use Rattle.conn_journal.specs.Inner.Remnants.{part_in, live_of};
ghost use Rattle.conn_journal.specs.Inner.Views.{IsAlive, live_at};
ghost use Rattle.conn_journal.specs.Inner.Hearing.{gives, Becomes, HeardBy};

use relay_base::{Event, Memory, Outs, Ref24};
use section_coupling::{Duo, ReadEvent};
use std::alloc::Global;
use std::marker::Model;

/// A connection that isn't over.
#[derive(Drop)]
pub struct Kept {
    duo: Box<Duo>,
}

/// A connection after an event that it hears, None once it is over, the references that its ends give up, and its outputs.
#[derive(Drop)]
pub struct Heard {
    pub one: Option<Kept>,
    pub this: Option<Ref24>,
    pub that: Option<Ref24>,
    pub outs: Outs,
}

impl Model for Kept {
    ghost use Rattle.section_coupling.specs.Duos.{DuoState};
    ghost use Rattle.conn_journal.specs.Inner.Views.{IsAlive};

    ghost Value = { DuoState };

    ghost view = { λ k. k.duo.value };

    ghost invariant = { λ k. IsAlive k.duo.value };
}

/// The local reference that an end of a connection gives up, as it is gone now and wasn't before.
fn given_up(before: &Duo, after: &Duo, side: u8) -> Option<Ref24>
    requires side { side < 2 }
    ensures { (now later : ℕ) → let end = end_numbered side (duo_at now before.now) in
        result ≡ gives end (end_numbered side (duo_at later after.now)) }
{
    if after.gone(side) && !before.gone(side) {
        after.reference(side)
    } else {
        None
    }
}

/// The connection, unless it is over.
fn unless_over(alloc: Global, duo: Duo) -> Result<Option<Kept>, Memory>
    ensures { (now : ℕ) → IfOk result (λ kept.
        option_map (live_at now) kept ≡ live_of duo.ticks (duo_at now duo)) }
{
    if duo.is_over() {
        return Ok(None);
    }
    let duo = Box::new(alloc, duo)?;
    Ok(Some(Kept { duo }))
}

/// A connection after an event that it hears, and the outputs of that.
fn feed(duo: &Duo, now: u32, event: ReadEvent<'_>) -> Result<(Duo, Outs), Memory>
    requires hears { IsTrue (hears (duo_at now duo.now) event) }
    ensures fed { let later = taken_after now event.entry in IfOk result (λ r.
        duo_at later r.0 ≡ fed duo.now.ticks (duo_at now duo.now) event.entry) }
    ensures ticks { IfOk result (λ r. r.0.ticks ≡ duo.now.ticks) }
    ensures part { IfOk result (λ r. Some r.1 ≡ part_in event.entry (live_at now duo.now)) }
{
    let heard = duo.hear_read(u64::from(now), event)?;
    Ok((heard.duo, heard.outs))
}

/// What an event that it hears makes of a connection. `now` is how many ticks the lane took before.
fn after(alloc: Global, duo: &Duo, now: u32, event: ReadEvent<'_>) -> Result<Heard, Memory>
    requires hears { IsTrue (hears (duo_at now duo.now) event) }
    ensures { IfOk result (λ heard. Becomes now event.entry duo.now heard) }
{
    let (later, outs) = feed(duo, now, event)?;
    let this = given_up(duo, &later, 0);
    let that = given_up(duo, &later, 1);
    let one = unless_over(alloc, later)?;
    Ok(Heard {
        one,
        this,
        that,
        outs,
    })
}

impl Kept {
    /// A connection that was just opened.
    pub fn new(alloc: Global, duo: Duo) -> Result<Kept, Memory>
        requires { IsAlive duo }
        ensures { IfOk result (λ kept. kept ≡ duo) }
    {
        let duo = Box::new(alloc, duo)?;
        Ok(Kept { duo })
    }

    /// The lane's tick, counted from 1, at which a timer fires; None where it doesn't run. Timers are numbered from 0 to 13.
    pub fn deadline(&self, timer: u8) -> Option<u64>
        requires { timer < TIMERS }
        ensures { (now : ℕ) → left_at now result ≡ ticks_left timer (duo_at now self.now) }
    {
        self.duo.deadline(timer)
    }

    /// What an event makes of the connection; None where it doesn't hear it. `now` is how many ticks the lane took before.
    pub fn hear(
        &self,
        alloc: Global,
        now: u32,
        event: ReadEvent<'_>,
    ) -> Result<Option<Heard>, Memory>
        ensures { IfOk result (λ heard. HeardBy now event.entry self.now heard) }
    {
        if !self.duo.hears_read(&event) {
            return Ok(None);
        }
        let heard = after(alloc, &self.duo, now, event)?;
        Ok(Some(heard))
    }

    /// What a tick makes of the connection. `now` is how many ticks the lane took before.
    pub fn tick(&self, alloc: Global, now: u32) -> Result<Heard, Memory>
        ensures { IfOk result (λ heard. Becomes now Tick self.now heard) }
    {
        after(alloc, &self.duo, now, ReadEvent::of(&Event::Tick))
    }
}
