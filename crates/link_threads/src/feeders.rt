//! The feeders at work: each in a thread of its own, or one after the other where events come on one link at most.
ghost use Rattle.std.specs.Prelude.{◌≡◌, ◌≤◌, true, length, map, All, IfOk};
ghost use Rattle.std.specs.Thread.{IsSync};
ghost use Rattle.right_book.specs.Lanes.{LanesFrom};
ghost use Rattle.lane_gate.specs.declared.gate.TheConstants.{MOST_CALLERS};
ghost use Rattle.block_threads.specs.Items.{Beside};
ghost use Rattle.link_threads.specs.Pairs.{PairsFrom};
ghost use Rattle.link_threads.specs.Links.{IsStamped};
ghost use Rattle.link_threads.specs.Gates.{AreDealt, HasRun, HaveUsed, IsFeederOf, IsReady};

use crate::arrivals::Arrivals;
use crate::door::Door;
use crate::feed::serve;
use crate::runs::serve_in_runs;
use lane_gate::{LaneState, MOST_CALLERS, Pass};
use relay_base::{Memory, Pace, take_spare};
use std::alloc::Global;
use std::marker::Model;
use std::sync::Wait;
use std::thread;
use std::thread::Threads;

/// How many octets of memory an event takes, with what comes of it.
const EVENT_OCTETS: usize = 512;

/// A feeder: the gates of the lanes, a pass of each, and the link whose events it delivers, with its number.
#[derive(Drop)]
pub struct Feeder<'g, L: LaneState, A: Arrivals<L::Event>> {
    doors: &'g [Door<L>],
    number: u8,
    link: A,
    passes: Vec<Pass>,
    alloc: Global,
    ended: bool,
}

impl<'g, L: LaneState, A: Arrivals<L::Event>> Model for Feeder<'g, L, A> {
    ghost use Rattle.link_threads.specs.Gates.{FeederState};

    ghost Value = { FeederState L L.Event };

    ghost view = { λ f. record {
      doors = f.doors.now;
      number = f.number;
      left = A.left f.link;
      passes = f.passes;
      ended = f.ended;
    } };
}

impl<'g, L: LaneState, A: Arrivals<L::Event>> Feeder<'g, L, A> {
    /// Has memory at hand for what it will deliver.
    fn prepare(&self)
        requires { IsReady L.plan self.now }
    {
        take_spare(self.alloc, self.link.len().saturating_mul(EVENT_OCTETS));
    }

    /// Delivers the events of its link, in runs where other links run too.
    fn run<R: Wait, P: Pace>(&mut self, rt: &R, pace: &P, several: bool)
        requires { IsReady L.plan self.old }
        ensures { HasRun L.plan self.old self.new }
    {
        let passes = self.passes.as_mut_slice();
        let link = &mut self.link;
        let served = if several {
            serve_in_runs(rt, self.alloc, pace, self.doors, self.number, link, passes)
        } else {
            serve(rt, pace, self.doors, self.number, link, passes)
        };
        self.ended = served.is_ok();
    }

    /// The passes, and whether it came to its end.
    fn into_parts(self) -> (Vec<Pass>, bool)
        ensures { (result.0 ≡ self.entry.passes) × (result.1 ≡ self.entry.ended) }
    {
        (self.passes, self.ended)
    }
}

/// A feeder for each link.
fn feeders<'g, L: LaneState, A: Arrivals<L::Event>>(
    alloc: Global,
    doors: &'g [Door<L>],
    links: Vec<A>,
    hands: Vec<Vec<Pass>>,
) -> Result<Vec<Feeder<'g, L, A>>, Memory>
    requires each { length hands.items ≡ length links.items }
    requires few { length links.items ≤ MOST_CALLERS }
    ensures { IfOk result (λ v.
        PairsFrom (IsFeederOf doors.now (map A.left links.items)) 0 hands.items v.items) }
{
    let mut feeders = Vec::with_capacity(alloc, hands.len())?;
    let mut left = links.into_iter();
    for passes in hands {
        let link = left.next().unwrap();
        feeders.push_reserved(Feeder {
            doors,
            number: feeders.len() as u8,
            link,
            passes,
            alloc,
            ended: false,
        });
    }
    Ok(feeders)
}

/// Each feeder in a thread of its own, where events come on several links. All are joined.
fn run_all<
    'g,
    R: Threads + Wait + Sync,
    P: Pace,
    L: LaneState + Send,
    A: Arrivals<L::Event> + Send,
>(rt: &R, pace: &P, several: bool, all: &mut [Feeder<'g, L, A>])
where
    L::Event: Send,
    requires { All (IsReady L.plan) all.old }
    ensures { Beside (HasRun L.plan) all.old all.new }
{
    let threads = if several {
        usize::from(MOST_CALLERS)
    } else {
        1
    };
    thread::for_each_mut(
        rt,
        all,
        threads,
        &|_: usize, feeder: &mut Feeder<'_, L, A>|
            requires { IsSync P.row × IsReady L.plan feeder.now }
            ensures { HasRun L.plan feeder.entry.now feeder.exit.now }
        {
            if several {
                feeder.prepare();
            }
            feeder.run(rt, pace, several)
        },
    );
}

/// What the feeders held, where each came to its end.
fn used_hands<'g, L: LaneState, A: Arrivals<L::Event>>(
    alloc: Global,
    feeders: Vec<Feeder<'g, L, A>>,
) -> Result<Vec<Vec<Pass>>, Memory>
    ensures ended { IfOk result (λ v. All (λ f. f.ended ≡ true) feeders.entry.items) }
    ensures hands { IfOk result (λ v. v.items ≡ map (λ f. f.passes) feeders.entry.items) }
{
    let mut hands = Vec::with_capacity(alloc, feeders.len())?;
    for feeder in feeders {
        let (passes, ended) = feeder.into_parts();
        if !ended {
            return Err(Memory);
        }
        hands.push_reserved(passes);
    }
    Ok(hands)
}

/// Whether events come on more links than one.
fn are_several<E, A: Arrivals<E>>(links: &[A]) -> bool {
    links.iter().filter(|link| link.len() > 0).count() > 1
}

/// All events are delivered, those of each link in their order. Where a feeder meets want of memory, all are joined first.
pub fn feed<R: Threads + Wait + Sync, P: Pace, L: LaneState + Send, A: Arrivals<L::Event> + Send>(
    rt: &R,
    alloc: Global,
    doors: &[Door<L>],
    links: Vec<A>,
    hands: Vec<Vec<Pass>>,
    pace: &P,
) -> Result<Vec<Vec<Pass>>, Memory>
where
    L::Event: Send,
    requires few { length links.items ≤ MOST_CALLERS }
    requires stamped { LanesFrom IsStamped 0 (map A.left links.items) }
    requires dealt { AreDealt L.plan (map A.left links.items) doors.now hands.items }
    ensures { IfOk result (λ v. HaveUsed L.plan doors.now v.items) }
{
    let several = are_several(links.as_slice());
    let mut all = feeders(alloc, doors, links, hands)?;
    run_all(rt, pace, several, all.as_mut_slice());
    used_hands(alloc, all)
}
