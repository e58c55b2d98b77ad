//! Callers in threads of their own, over a lane that keeps what it took.
ghost use Rattle.std.specs.Prelude.{◌≡◌, ℕ, ◌==◌, [], count_by};
ghost use Rattle.lane_gate.specs.Gates.{AreAllPasses, callers_of};
ghost use Rattle.lane_gate.specs.Passes.{IsSamePass};
ghost use Rattle.gate_tests.specs.Trials.{IsReady, IsDealt, IsServed, EachAt};

use lane_gate::{Gate, LaneState, Pass, PassList, Refused};
use relay_base::{Memory, Stamp};
use std::alloc::Global;
use std::sync::atomic::{AtomicBool, Ordering};
use std::sync::{Arc, Wait};
use std::test::Fail;
use std::thread;
use std::thread::Threads;

// The events of each link.
const EVENTS: u32 = 500;

// How often a waiting caller looks.
const LOOKS: u32 = 20_000_000;

/// Two callers who wait for each other.
#[derive(Drop)]
struct Meeting {
    inside: AtomicBool,
    answered: AtomicBool,
}

/// A lane that keeps what it took. At a meeting its turn waits until the other caller has its answer.
#[derive(Drop)]
struct Journal {
    entries: Vec<(Stamp, u32)>,
    meeting: Option<Arc<Meeting>>,
}

impl LaneState for Journal {
    ghost use Rattle.gate_tests.specs.Trials.{events_of};

    type Event = u32;

    ghost Base = { Unit {0} };

    ghost plan = { λ _. record { base = tt; links = events_of } };

    ghost taken = { λ j link. count_by (λ entry. entry.0.link == link) j.entries.items };

    fn take_turn(&mut self, stamp: Stamp, event: &u32) -> Result<(), Memory> {
        self.entries.reserve(1)?;
        if let Some(meeting) = &self.meeting {
            meeting.inside.store(true, Ordering::SeqCst);
            wait_for(&meeting.answered);
        }
        self.entries.push_reserved((stamp, *event));
        Ok(())
    }
}

fn wait_for(flag: &AtomicBool) {
    for _ in 0..LOOKS {
        if flag.load(Ordering::SeqCst) {
            return;
        }
        thread::yield_now();
    }
}

fn stamp_of(link: u8, line: u32) -> Stamp
    ensures { (result.phase ≡ 1) × (result.link ≡ link) × (result.line ≡ line) }
{
    Stamp {
        phase: 1,
        link,
        line,
    }
}

// The caller that comes while the lane waits.
fn come_late<R: Wait>(
    rt: &R,
    gate: &Gate<Journal>,
    meeting: &Meeting,
    pass: Pass,
) -> (Option<(u32, u8)>, Result<(), Memory>)
    requires { IsReady gate.now pass }
{
    let mut pass = pass;
    let link = pass.number();
    let stamp = stamp_of(link, 0);
    wait_for(&meeting.inside);
    let first = gate.try_turn(&mut pass, stamp, u32::from(link) * 1000);
    meeting.answered.store(true, Ordering::SeqCst);
    match first {
        Err(Refused::Busy { event, holder }) => (
            Some((event, holder)),
            gate.deliver(rt, &mut pass, stamp, event),
        ),
        Err(Refused::Memory { event: _ }) => (None, Err(Memory)),
        Ok(()) => (None, Ok(())),
    }
}

fn come_first(gate: &Gate<Journal>, pass: Pass) -> Result<(), Refused<u32>>
    requires { IsReady gate.now pass }
{
    let mut pass = pass;
    let link = pass.number();
    gate.try_turn(&mut pass, stamp_of(link, 0), u32::from(link) * 1000)
}

// Whether the only caller of a gate is served.
fn come_alone(alloc: Global) -> Result<bool, Memory> {
    let journal = Journal {
        entries: Vec::new(alloc),
        meeting: None,
    };
    let (gate, mut passes) = Gate::make(alloc, journal, 1)?;
    match passes.pop() {
        Some(pass) => Ok(come_first(&gate, pass).is_ok()),
        None => Ok(false),
    }
}

#[test]
fn says_who_has_the_turn(rt: HostRuntime) -> Result<(), Fail> {
    let alloc = rt.alloc();
    let meeting = Arc::new(
        alloc,
        Meeting {
            inside: AtomicBool::new(false),
            answered: AtomicBool::new(false),
        },
    )?;
    let journal = Journal {
        entries: Vec::new(alloc),
        meeting: Some(meeting.clone()?),
    };
    let (gate, mut passes) = Gate::make(alloc, journal, 2)?;
    let second = passes.pop().expect(&rt, "a second pass");
    let first = passes.pop().expect(&rt, "a first pass");
    let gate = &gate;
    let (early, late) = thread::join(
        &rt,
        ||
            requires { IsReady gate.now first }
        { come_first(gate, first) },
        ||
            requires { IsReady gate.now second }
        { come_late(&rt, gate, &meeting, second) },
    );
    assert!(rt; early.is_ok() && late.1.is_ok());
    assert!(rt;
        matches!(late.0, Some((1000, 0))),
        "not the event, and who has the turn"
    );
    assert!(rt; come_alone(alloc)?, "an only caller was refused");
    Ok(())
}

// Delivers all events of the pass's link.
fn feed<R: Wait>(rt: &R, gate: &Gate<Journal>, pass: &mut Pass) -> Result<(), Memory>
    requires { IsReady gate.now pass.old }
    ensures { IsSamePass pass.old pass.new }
{
    let link = pass.number();
    for line in 0..EVENTS {
        gate.deliver(
            rt,
            pass,
            stamp_of(link, line),
            u32::from(link) * 1000 + line,
        )?;
    }
    Ok(())
}

// Each caller in a thread of its own.
fn feed_all<R: Threads + Wait + Sync>(rt: &R, gate: &Gate<Journal>, passes: &mut [Pass])
    requires { EachAt (IsDealt gate.now) passes.old }
    ensures { EachAt (IsServed gate.now) passes.new }
{
    thread::for_each_mut(
        rt,
        passes,
        9,
        &|k: usize, pass: &mut Pass|
            requires { IsDealt gate.now k pass.now }
            ensures { IsServed gate.entry.now k pass.exit.now }
        {
            let _ended = feed(rt, gate, pass).is_ok();
        },
    );
}

// What a lane has taken when nine callers are done.
fn taken_from_nine<R: Threads + Wait + Sync>(
    rt: &R,
    alloc: Global,
) -> Result<Vec<(Stamp, u32)>, Memory> {
    let journal = Journal {
        entries: Vec::new(alloc),
        meeting: None,
    };
    let (gate, passes) = Gate::make(alloc, journal, 9)?;
    let mut passes = passes.into_vec();
    feed_all(rt, &gate, passes.as_mut_slice());
    let Journal {
        entries,
        meeting: _,
    } = gate.close(PassList::from(passes));
    Ok(entries)
}

#[test]
fn takes_each_event_once_and_in_order(rt: HostRuntime) -> Result<(), Fail> {
    let entries = taken_from_nine(&rt, rt.alloc())?;
    assert_eq!(rt; entries.len(), 4_500);
    let mut next = [0u32; 9];
    for (stamp, event) in entries.as_slice() {
        let link = usize::from(stamp.link);
        assert!(rt; link < 9, "a link {link}");
        assert_eq!(rt; stamp.line, next[link]);
        assert_eq!(rt;
            event.checked_sub(stamp.line),
            Some(u32::from(stamp.link) * 1000)
        );
        next[link] = stamp.line.checked_add(1).expect(&rt, "the line fits");
    }
    assert_eq!(rt; next, [EVENTS; 9]);
    Ok(())
}
