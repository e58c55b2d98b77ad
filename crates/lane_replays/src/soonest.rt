//! When a connection wakes.
ghost use Rattle.std.specs.Prelude.{◌≡◌, ◌<◌, option_map};
ghost use Rattle.section_coupling.specs.declared.duo.TheConstants.{TIMERS};
ghost use Rattle.lane_replays.specs.Inner.Soonest.{FiresFrom, FirstFireFrom, WakesFrom, is_due};

use conn_journal::Kept;
use section_coupling::TIMERS;

/// The tick of a connection that never wakes.
const NEVER: u64 = u64::MAX;

/// The lane's tick, counted from 1, at which a timer of a connection fires.
fn fires_at(one: &Kept, timer: u8) -> u64
    requires timer { timer < TIMERS }
    ensures { FiresFrom timer result one.now }
{
    one.deadline(timer).unwrap_or(NEVER)
}

/// The tick at which the first of the timers of a connection fires.
fn first_of(one: &Kept) -> u64
    ensures { FirstFireFrom TIMERS result one.now }
{
    let mut soonest = NEVER;
    for timer in 0..TIMERS {
        soonest = soonest.min(fires_at(one, timer));
    }
    soonest
}

/// The tick at which a connection wakes first, unless it is over.
pub fn soonest_of(one: Option<&Kept>) -> u64
    ensures { WakesFrom result (option_map (λ k. k.now) one.entry) }
{
    match one {
        Some(one) => first_of(one),
        None => NEVER,
    }
}

/// Whether a connection wakes by the next tick of a lane that took so many.
pub fn is_due(soonest: u64, taken: u64) -> bool
    ensures { result ≡ is_due taken soonest }
{
    soonest.saturating_sub(1) <= taken
}
