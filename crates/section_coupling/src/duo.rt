//! A connection: two coupled ends.
ghost use Rattle.section_coupling.specs.declared.duo.TheConstants.{TIMERS};
ghost use Rattle.std.specs.Prelude.{◌≡◌, ◌≤◌, ◌<◌, ◌+◌, ℕ, [], Some, IsTrue, IfOk, OnOk, IfSome};
ghost use Rattle.section_model.specs.Step.{connection_step, event_step, hears, is_over, end_is_gone, destination_of, names, named, is_in_range};
ghost use Rattle.std.specs.Option.{option_map};
ghost use Rattle.section_model.specs.Lane.{reference_of};
ghost use Rattle.section_model.specs.Opening.{wish_of, slots_needed, opened};
ghost use Rattle.section_coupling.specs.Openings.{IsAnswered};
ghost use Rattle.section_coupling.specs.Views.{connection_at, connection_by, behind, left_at};
ghost use Rattle.section_coupling.specs.Sound.{IsCredit, SoundPair};
ghost use Rattle.connection_law.specs.InStep.{IsInStep};
ghost use Rattle.connection_law.specs.FlowLaw.{FlowKept};
ghost use Rattle.connection_law.specs.DataSent.{SendsData};
ghost use Rattle.connection_law.specs.ExpeditedSent.{SendsExpedited};
ghost use Rattle.section_coupling.specs.Duos.{duo_at, taken_after, end_numbered, end_named, left_of_timer, ticks_left};

use crate::asking::ask;
use crate::clock::{Clock, taken_after};
use crate::coming::{Coming, ReadEvent, Wanting};
use crate::following::follow;
use crate::hearing::hear_message;
use crate::opening::{Opening, begin};
use crate::pair::{EndName, Pair};
use crate::sizes::needs;
use crate::taken::Taken;
use crate::ticking::{tick, timer_placed};
use crate::unheard::{is_in_range, named};
use crate::wish::ReadWish;
use plant_core::{Answer, Terms, Ticks};
use relay_base::{Event, Memory, Outs, Ref24};
use section_grid::Timer;
use std::alloc::Global;
use std::marker::Model;

/// How many timers a connection has: seven at each end.
pub const TIMERS: u8 = 14;

/// A connection, with the ticks of its timers.
#[derive(Drop)]
pub struct Duo {
    alloc: Global,
    ticks: Ticks,
    pair: Pair,
}

impl Model for Duo {
    ghost use Rattle.section_coupling.specs.Duos.{DuoState, HoldsAt};

    ghost Value = { DuoState };

    ghost view = { λ d. record { ticks = d.ticks; pair = d.pair } };

    ghost invariant = { λ d. HoldsAt d.pair };
}

/// A connection after an event, and the outputs of that.
#[derive(Drop)]
pub struct Heard {
    pub duo: Duo,
    pub outs: Outs,
}

/// What an event does to a connection before which the lane took so many ticks, but for what follows each event in class 3. The clock
/// has the event already. The outputs stand behind those that are there.
fn take(
    alloc: Global,
    clock: &Clock,
    now: u32,
    event: ReadEvent<'_>,
    pair: &mut Pair,
    outs: &mut Outs,
) -> Result<(), Memory>
    requires clock { clock.now.taken ≡ taken_after now event }
    requires pair { SoundPair pair.old }
    requires hears { IsTrue (hears (connection_at now pair.old) event) }
    ensures step { let done = event_step clock.now.ticks (connection_at now pair.old) event.entry in
        OnOk result (behind outs.old done ≡ (connection_by clock.now pair.new, outs.new)) }
    ensures sound { OnOk result (SoundPair pair.new) }
{
    let (event, arrival) = event.into_parts();
    match event {
        Event::Message { opc, .. } => match arrival {
            Some(arrival) => {
                let coming = Coming {
                    event,
                    point: *opc,
                    arrival,
                };
                hear_message(alloc, clock, &coming, pair, outs)
            }
            None => Ok(()),
        },
        Event::Asked { ssn, request } => {
            let wanting = Wanting {
                event,
                ssn: *ssn,
                request,
            };
            ask(alloc, clock, &wanting, pair, outs)
        }
        Event::Tick => tick(alloc, clock, now, pair, outs),
    }
}

/// What an opening gives: the connection, unless it is refused, and the outputs.
#[derive(Drop)]
pub struct Begun {
    pub duo: Option<Duo>,
    pub outs: Outs,
}

impl Duo {
    /// How many local references an opening takes by the answer of routing, 0, 1 or 2.
    pub fn needs(event: &Event, answer: &Answer) -> u8
        ensures { (terms : Terms) →
            result ≡ slots_needed (wish_of terms event.now) (Some answer.now) }
    {
        Duo::needs_read(&ReadWish::of(event), answer)
    }

    /// The same of an event that was read.
    pub fn needs_read(event: &ReadWish<'_>, answer: &Answer) -> u8
        ensures { (terms : Terms) →
            result ≡ slots_needed (wish_of terms event.now) (Some answer.now) }
    {
        needs(event, answer)
    }

    /// Opens a connection for CR or for a user's request, with the answer of routing where it is asked, and the references that it
    /// takes; none where too few are free. `now` is the number of ticks that the lane took before, 0 to 4,294,967,295.
    pub fn begin(
        alloc: Global,
        terms: &Terms,
        now: u64,
        event: &Event,
        asked: Option<&Answer>,
        refs: &[Ref24],
    ) -> Result<Begun, Memory>
        requires now { now ≤ 4_294_967_295 }
        requires credit { IsCredit terms.now.credit }
        requires answered { let answer = option_map (λ a. a.now) asked in
            IsAnswered (wish_of terms.now event.now) answer }
        ensures opened { let answer = option_map (λ a. a.now) asked.entry in
            IfOk result (λ b. opened terms.now (wish_of terms.now event.now) answer refs.now ≡
            record { connection = option_map (duo_at now) b.duo; outs = b.outs }) }
        ensures ticks { IfOk result (λ b. IfSome b.duo (λ d. d.ticks ≡ terms.now.ticks)) }
    {
        Duo::begin_read(alloc, terms, now, &ReadWish::of(event), asked, refs)
    }

    /// The same with an event that was read.
    pub fn begin_read(
        alloc: Global,
        terms: &Terms,
        now: u64,
        event: &ReadWish<'_>,
        asked: Option<&Answer>,
        refs: &[Ref24],
    ) -> Result<Begun, Memory>
        requires now { now ≤ 4_294_967_295 }
        requires credit { IsCredit terms.now.credit }
        requires answered { let answer = option_map (λ a. a.now) asked in
            IsAnswered (wish_of terms.now event.now) answer }
        ensures opened { let answer = option_map (λ a. a.now) asked.entry in
            IfOk result (λ b. opened terms.now (wish_of terms.now event.now) answer refs.now ≡
            record { connection = option_map (duo_at now) b.duo; outs = b.outs }) }
        ensures ticks { IfOk result (λ b. IfSome b.duo (λ d. d.ticks ≡ terms.now.ticks)) }
    {
        let taken = Taken::before(now as u32);
        let Opening { pair, outs } = begin(alloc, terms, taken, event, asked, refs)?;
        let ticks = terms.ticks;
        let duo = match pair {
            Some(pair) => Some(Duo { alloc, ticks, pair }),
            None => None,
        };
        Ok(Begun { duo, outs })
    }

    /// An equal connection.
    pub fn copy(&self) -> Result<Duo, Memory>
        ensures { IfOk result (λ copy. copy ≡ self.now) }
    {
        Ok(Duo {
            alloc: self.alloc,
            ticks: self.ticks,
            pair: self.pair.copy(self.alloc)?,
        })
    }

    /// Whether it hears an event: a tick unless it is over, a message whose destination local reference is that of a section which
    /// isn't gone, and a request in its ranges that names such a reference.
    pub fn hears(&self, event: &Event) -> bool
        ensures { (now : ℕ) → result ≡ hears (duo_at now self.now) event.now }
    {
        self.hears_read(&ReadEvent::of(event))
    }

    /// The same of an event that was read.
    #[tactic(auto, unfolding(section_model::specs::Step::hears))]
    pub fn hears_read(&self, event: &ReadEvent<'_>) -> bool
        ensures { (now : ℕ) → result ≡ hears (duo_at now self.now) event.now }
    {
        match event.event() {
            Event::Message { .. } => event.destination().is_some_and(|mine| self.pair.has(mine)),
            Event::Asked { request, .. } => {
                is_in_range(request) && named(request).is_some_and(|mine| self.pair.has(mine))
            }
            Event::Tick => !self.is_over(),
        }
    }

    /// The connection after an event that it hears, and its outputs. `now` is the number of ticks that its lane took before the event,
    /// 0 to 4,294,967,295. It works on a copy. The law of the windows holds of what it leaves, as of every connection: what was sent is the first
    /// of what came in at the other end, and no window is overrun. Of its outputs the DT2 are, octet for octet, the next units of either end,
    /// numbered on; of ED there is at most one on a section, and none while one is unanswered.
    pub fn hear(&self, now: u64, event: &Event) -> Result<Heard, Memory>
        requires now { now ≤ 4_294_967_295 }
        requires hears { IsTrue (hears (duo_at now self.now) event.now) }
        ensures step { let later = taken_after now event.now in IfOk result (λ heard.
            connection_step self.now.ticks (duo_at now self.now) event.now ≡
            (duo_at later heard.duo, heard.outs)) }
        ensures ticks { IfOk result (λ heard. heard.duo.ticks ≡ self.now.ticks) }
        ensures windows { IfOk result (λ heard.
            FlowKept (duo_at (taken_after now event.now) heard.duo)) }
        ensures data { IfOk result (λ heard.
            SendsData self.now.ticks (duo_at now self.now) event.now heard.outs) }
        ensures expedited { IfOk result (λ heard.
            SendsExpedited self.now.ticks (duo_at now self.now) event.now heard.outs) }
    {
        self.hear_read(now, ReadEvent::of(event))
    }

    /// The same with an event that was read.
    pub fn hear_read(&self, now: u64, event: ReadEvent<'_>) -> Result<Heard, Memory>
        requires now { now ≤ 4_294_967_295 }
        requires hears { IsTrue (hears (duo_at now self.now) event) }
        ensures step { let later = taken_after now event.entry in IfOk result (λ heard.
            connection_step self.now.ticks (duo_at now self.now) event.entry ≡
            (duo_at later heard.duo, heard.outs)) }
        ensures ticks { IfOk result (λ heard. heard.duo.ticks ≡ self.now.ticks) }
        ensures windows { IfOk result (λ heard.
            FlowKept (duo_at (taken_after now event.entry) heard.duo)) }
        ensures data { IfOk result (λ heard.
            SendsData self.now.ticks (duo_at now self.now) event.entry heard.outs) }
        ensures expedited { IfOk result (λ heard.
            SendsExpedited self.now.ticks (duo_at now self.now) event.entry heard.outs) }
    {
        let Duo {
            alloc,
            ticks,
            mut pair,
        } = self.copy()?;
        let before = now as u32;
        let clock = Clock {
            ticks,
            taken: taken_after(before, event.event()),
        };
        let mut outs = Outs::new(alloc);
        take(alloc, &clock, before, event, &mut pair, &mut outs)?;
        follow(alloc, &clock, &mut pair, &mut outs)?;
        let duo = Duo { alloc, ticks, pair };
        Ok(Heard { duo, outs })
    }

    /// How long a local reference is frozen once its end is gone, in ticks.
    pub fn freeze(&self) -> u32
        ensures { result ≡ self.now.ticks.freeze }
    {
        self.ticks.freeze
    }

    /// The local reference that the end of this number took, 0 or 1; None where it is a user.
    pub fn reference(&self, side: u8) -> Option<Ref24>
        requires { side < 2 }
        ensures { (now : ℕ) → result ≡ reference_of (end_numbered side (duo_at now self.now)) }
    {
        if side == 0 {
            self.pair.this.reference()
        } else {
            self.pair.that.reference()
        }
    }

    /// The lane's tick, counted from 1, at which a timer fires; None where it doesn't run. The number of a timer, 0 to 13, is 7 times
    /// that of its end, and its place in the order in which timers fire: connect, reset, iar, ias, rel, int, repeat.
    pub fn deadline(&self, timer: u8) -> Option<u64>
        requires { timer < TIMERS }
        ensures { (now : ℕ) → left_at now result ≡ ticks_left timer (duo_at now self.now) }
    {
        // One number for both, since a caller keeps and compares timers of many connections by such numbers; inside both have their names.
        self.deadline_of(EndName::numbered(timer / 7), timer_placed(timer % 7))
    }

    /// The lane's tick, counted from 1, at which a timer of an end fires; None where it doesn't run.
    fn deadline_of(&self, end: EndName, timer: Timer) -> Option<u64>
        ensures { (now : ℕ) →
            left_at now result ≡ left_of_timer timer (end_named end (duo_at now self.now)) }
    {
        match end {
            EndName::This => self.pair.this.deadline(timer),
            EndName::That => self.pair.that.deadline(timer),
        }
    }

    /// Whether both ends are gone.
    pub fn is_over(&self) -> bool
        ensures { (now : ℕ) → result ≡ is_over (duo_at now self.now) }
    {
        self.pair.this.is_gone() && self.pair.that.is_gone()
    }

    /// Whether the end of this number is gone, 0 or 1.
    pub fn gone(&self, side: u8) -> bool
        requires { side < 2 }
        ensures { (now : ℕ) → result ≡ end_is_gone (end_numbered side (duo_at now self.now)) }
    {
        if side == 0 {
            self.pair.this.is_gone()
        } else {
            self.pair.that.is_gone()
        }
    }
}
