//! When connections wake: the wheel of a lane has the running timers of each that isn't over, under its number in the journal.
ghost use Rattle.std.specs.Prelude.{◌≡◌, ◌≤◌, ◌<◌, ◌+◌, ◌-◌, ◌*◌, length, max, option_map, IfOk, IfSome, OnOk, OnErr};
ghost use Rattle.section_coupling.specs.declared.duo.TheConstants.{TIMERS};
ghost use Rattle.timer_wheel.specs.Timers.{timer_of, due_now};
ghost use Rattle.conn_lane.specs.Inner.Wheels.{ticks_of, with_ticks, AreOrdered, AreConnections, SetsOne};
ghost use Rattle.conn_lane.specs.Inner.Timed.{ticks_in_wheel, timer_left, stands, IsLeft, AreLeft, SetsTimers};

use conn_journal::Kept;
use relay_base::Memory;
use section_coupling::TIMERS;
use std::alloc::Global;
use timer_wheel::{Due, Wheel};

/// The connections of timers that stand in order, each once.
fn connections_of(alloc: Global, timers: &[Due]) -> Result<Vec<usize>, Memory>
    requires ordered { AreOrdered 0 timers.now }
    ensures { IfOk result (λ numbers. AreConnections timers.now numbers.items) }
{
    let mut numbers = Vec::new(alloc);
    let mut next = 0;
    for timer in timers {
        let number = timer.conn as usize;
        if number >= next {
            numbers.push(number)?;
            next = number + 1;
        }
    }
    Ok(numbers)
}

/// The connections of which the next tick makes a timer due, by rising number.
pub fn due(alloc: Global, wheel: &Wheel) -> Result<Vec<usize>, Memory>
    ensures { IfOk result (λ numbers. AreConnections (due_now wheel.now.armed) numbers.items) }
{
    let timers = wheel.due(alloc)?;
    connections_of(alloc, timers.as_slice())
}

/// The ticks that the wheel has for a timer which fires at this tick of its lane, where the lane took so many: one at least, and none beyond
/// the tick 4,294,967,295.
fn ticks_in_wheel(deadline: u64, taken: u64) -> u32
    ensures value { result ≡ ticks_in_wheel taken (deadline - taken) }
    ensures some { 1 ≤ result }
{
    let last = u64::from(u32::MAX).saturating_sub(taken);
    deadline.saturating_sub(taken).min(last).max(1) as u32
}

/// The ticks that the wheel has for a timer of a connection, where the connection isn't over and the timer runs.
fn ticks_left(one: Option<&Kept>, timer: u8, taken: u64) -> Option<u32>
    requires timer { timer < TIMERS }
    ensures value { result ≡ timer_left taken timer (option_map (λ k. k.now) one.entry) }
    ensures some { IfSome result (λ ticks. 1 ≤ ticks) }
{
    let deadline = one?.deadline(timer)?;
    Some(ticks_in_wheel(deadline, taken))
}

/// Lets a timer of a connection run for so many ticks, or stops it.
fn set_timer(wheel: &mut Wheel, number: usize, timer: u8, left: Option<u32>)
    requires number { number ≤ 4_294_967_295 }
    requires left { IfSome left (λ ticks. 1 ≤ ticks) }
    requires room { length wheel.old.armed < wheel.old.room }
    ensures { let later = with_ticks (timer_of number timer) left wheel.old.armed in
        wheel.new ≡ record wheel.old { armed = later } }
{
    match left {
        Some(ticks) => wheel.arm(number as u32, timer, ticks),
        None => wheel.cancel(number as u32, timer),
    }
}

/// Whether a timer of which so many ticks were left stands in the wheel as it is to be. Where one is left, a tick may have dropped it.
fn stands(before: Option<u32>, left: Option<u32>) -> bool
    ensures { result ≡ stands before left }
{
    match (before, left) {
        (None, None) => true,
        (Some(before), Some(left)) => before == left && left >= 2,
        _ => false,
    }
}

/// Lets a timer of a connection run for so many ticks, or stops it, unless it stands so in the wheel.
fn follow_timer(wheel: &mut Wheel, number: usize, timer: u8, before: Option<u32>, left: Option<u32>)
    requires number { number ≤ 4_294_967_295 }
    requires left { IfSome left (λ ticks. 1 ≤ ticks) }
    requires before { IsLeft before (ticks_of (timer_of number timer) wheel.old.armed) }
    requires room { length wheel.old.armed < wheel.old.room }
    ensures set { SetsOne (timer_of number timer) left wheel.old.armed wheel.new.armed }
    ensures room { wheel.new.room ≡ wheel.old.room }
{
    if !stands(before, left) {
        set_timer(wheel, number, timer, left);
    }
}

/// Lets the timers of a connection run that run as it is next, and stops the others; all of them once it is over. Those that it leaves as they
/// were stay in the wheel as they are.
pub fn follow(
    wheel: &mut Wheel,
    number: usize,
    before: Option<&Kept>,
    next: Option<&Kept>,
    taken: u64,
)
    requires number { number ≤ 4_294_967_295 }
    requires before { let one = option_map (λ k. k.now) before in
        AreLeft taken number one wheel.old.armed }
    requires room { length wheel.old.armed + TIMERS ≤ wheel.old.room }
    ensures set { let one = option_map (λ k. k.now) next.entry in
        SetsTimers taken number one wheel.old.armed wheel.new.armed }
    ensures room { wheel.new.room ≡ wheel.old.room }
{
    for timer in 0..TIMERS {
        let was = ticks_left(before, timer, taken);
        follow_timer(wheel, number, timer, was, ticks_left(next, timer, taken));
    }
}

/// Takes memory for the timers of so many connections beside those that run. No memory has room for more than a `usize` counts.
pub fn reserve(wheel: &mut Wheel, connections: usize) -> Result<(), Memory>
    ensures ok { let timers = length wheel.old.armed + TIMERS * connections in
        OnOk result (wheel.new ≡ record wheel.old { room = max wheel.old.room timers }) }
    ensures err { OnErr result (wheel.new ≡ wheel.old) }
{
    let timers = connections.checked_mul(usize::from(TIMERS)).ok_or(Memory)?;
    wheel.reserve_more(timers)
}
