//! The timers of a connection section (Q.714, timers).
ghost use Rattle.std.specs.Prelude.{◌≡◌, ◌≤◌, ◌+◌, ℕ, Bool, true, false, if◌then◌else◌};
ghost use Rattle.section_model.specs.Ends.{no_timers};
ghost use Rattle.section_model.specs.Timing.{entered, timers_after, in_new_state, again, sent_again, heard_again, rearmed, is_due, timer_in, same_state};
ghost use Rattle.section_coupling.specs.Views.{timers_at, timers_by, left_at};

use crate::clock::Clock;
use crate::taken::Taken;
use section_model::{SectionState, Timer};

/// For each timer that runs, the number of the lane's tick at which it fires.
#[derive(Clone, Copy)]
pub struct Timers {
    pub connect: Option<u64>,
    pub reset: Option<u64>,
    pub iar: Option<u64>,
    pub ias: Option<u64>,
    pub rel: Option<u64>,
    pub int: Option<u64>,
    pub repeat: Option<u64>,
}

impl Timers {
    /// No timer runs.
    pub fn none() -> Timers
        ensures { (now : ℕ) → timers_at now result ≡ no_timers }
    {
        Timers {
            connect: None,
            reset: None,
            iar: None,
            ias: None,
            rel: None,
            int: None,
            repeat: None,
        }
    }

    /// The timers when a section comes into a state.
    pub fn entered(self, clock: &Clock, state: SectionState) -> Timers
        ensures { timers_by clock.now result ≡
            entered clock.now.ticks state (timers_by clock.now self) }
    {
        let ticks = &clock.ticks;
        match state {
            SectionState::Asking => Timers {
                connect: clock.deadline(ticks.connect),
                ..Timers::none()
            },
            SectionState::Waning => Timers {
                connect: self.connect,
                ..Timers::none()
            },
            SectionState::Up => Timers {
                iar: clock.deadline(ticks.iar),
                ias: clock.deadline(ticks.ias),
                ..Timers::none()
            },
            SectionState::Resetting => Timers {
                iar: self.iar,
                ias: self.ias,
                reset: clock.deadline(ticks.reset),
                ..Timers::none()
            },
            SectionState::Ending => Timers {
                rel: clock.deadline(ticks.rel),
                ..Timers::none()
            },
            SectionState::Asked | SectionState::Gone => Timers::none(),
        }
    }

    fn in_new_state(self, clock: &Clock, old: SectionState, new: SectionState) -> Timers
        ensures { timers_by clock.now result ≡
            in_new_state clock.now.ticks old new (timers_by clock.now self) }
    {
        if is_same(old, new) {
            self
        } else {
            self.entered(clock, new)
        }
    }

    /// The timers after an act that may have changed the state and sent a message.
    #[tactic(auto, unfolding(section_model::specs::Timing::timers_after))]
    pub fn after(self, clock: &Clock, old: SectionState, new: SectionState, is_sent: bool) -> Timers
        ensures { timers_by clock.now result ≡
            timers_after clock.now.ticks old new is_sent (timers_by clock.now self) }
    {
        let timers = self.in_new_state(clock, old, new);
        if is_sent {
            timers.sent_again(clock)
        } else {
            timers
        }
    }

    /// Send inactivity starts again where it is watched.
    fn sent_again(self, clock: &Clock) -> Timers
        ensures { timers_by clock.now result ≡
            sent_again clock.now.ticks (timers_by clock.now self) }
    {
        Timers {
            ias: again(clock, clock.ticks.ias, self.ias),
            ..self
        }
    }

    /// Receive inactivity starts again where it is watched.
    pub fn heard_again(self, clock: &Clock) -> Timers
        ensures { timers_by clock.now result ≡
            heard_again clock.now.ticks (timers_by clock.now self) }
    {
        Timers {
            iar: again(clock, clock.ticks.iar, self.iar),
            ..self
        }
    }

    /// The timers once one has fired.
    pub fn rearmed(self, clock: &Clock, timer: Timer) -> Timers
        ensures { timers_by clock.now result ≡
            rearmed clock.now.ticks timer (timers_by clock.now self) }
    {
        match timer {
            Timer::Rel => Timers {
                rel: None,
                int: clock.deadline(clock.ticks.int),
                repeat: clock.deadline(clock.ticks.repeat),
                ..self
            },
            Timer::Repeat => Timers {
                repeat: clock.deadline(clock.ticks.repeat),
                ..self
            },
            _ => self,
        }
    }

    /// The number of the tick at which a timer fires; None where it doesn't run.
    pub fn deadline(&self, timer: Timer) -> Option<u64>
        ensures { (now : ℕ) → left_at now result ≡ timer_in timer (timers_at now self.now) }
    {
        match timer {
            Timer::Connect => self.connect,
            Timer::Reset => self.reset,
            Timer::Iar => self.iar,
            Timer::Ias => self.ias,
            Timer::Rel => self.rel,
            Timer::Int => self.int,
            Timer::Repeat => self.repeat,
        }
    }

    /// Whether a timer fires at this tick.
    pub fn is_due(&self, now: Taken, timer: Timer) -> bool
        ensures { result ≡ is_due timer (timers_at now self.now) }
    {
        match self.deadline(timer) {
            Some(tick) => tick <= now.number(),
            None => false,
        }
    }
}

/// A timer starts again where it runs.
fn again(clock: &Clock, ticks: u32, deadline: Option<u64>) -> Option<u64>
    ensures { left_at clock.now.taken result ≡ again ticks (left_at clock.now.taken deadline) }
{
    match deadline {
        Some(_) => clock.deadline(ticks),
        None => None,
    }
}

fn is_same(old: SectionState, new: SectionState) -> bool
    ensures { result ≡ same_state old new }
{
    old == new
}
