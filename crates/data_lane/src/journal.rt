//! The journal of the units of a lane.
ghost use Rattle.std.specs.Prelude.{◌≡◌, ◌+◌, ◌++◌, ◌∷◌, [], if◌then◌else◌, IfOk, OnOk, OnErr};
ghost use Rattle.reassembly.specs.Laws.{IsWithinBounds};
ghost use Rattle.plant_core.specs.Terms.{IsLaneHead};
ghost use Rattle.data_lane.specs.Legal.{worked};
ghost use Rattle.data_lane.specs.Inner.Lane.{reduced};

use crate::effect::{Context, Work};
use crate::gathering::work_off;
use plant_core::{Entry, EntryList, LaneHead, Plant, fitted};
use reassembly::Bench;
use relay_base::{Event, Memory, Outs, Pc, Stamp};
use std::alloc::Global;
use std::marker::Model;
use std::mem;

/// How many references of segments a lane has (Q.713, 3.17: a reference has 24 bits, of which four are the lane's number).
const REFERENCES: u32 = 1_048_576;

/// The units of one lane. Its journal is a legal one at all times.
pub struct UnitJournal {
    alloc: Global,
    head: LaneHead,
    number: u8,
    journal: EntryList,
    /// How many units were cut into segments, as far as references tell them apart.
    cut: u32,
    bench: Bench,
}

impl Drop for UnitJournal {
    fn drop(self) {
        let Self {
            alloc: _,
            head: _head,
            number: _,
            journal: _journal,
            cut: _,
            bench: _bench,
        } = self;
    }
}

impl Model for UnitJournal {
    ghost use Rattle.data_lane.specs.Legal.{LaneState};
    ghost use Rattle.data_lane.specs.Inner.Lane.{IsLane};

    ghost Value = { LaneState };

    ghost view = { λ l. record { head = l.head; number = l.number; journal = l.journal } };

    ghost invariant = { λ l. IsLane l.head l.number l.journal l.cut l.bench };
}

/// The count after one more event.
fn count_after(cut: u32, is_cut: bool) -> u32
    ensures { result ≡ reduced (reduced cut + (if is_cut then 1 else 0)) }
{
    (cut % REFERENCES + u32::from(is_cut)) % REFERENCES
}

/// Does what is left to do with the reassemblies, and puts the entry at the end of the journal, with what comes of that. After `Memory`
/// both are as before.
fn write(
    alloc: Global,
    own: Pc,
    bench: &mut Bench,
    journal: &mut Vec<Entry>,
    mut entry: Entry,
    work: Work,
) -> Result<(), Memory>
    requires { IsWithinBounds bench.old.processes }
    ensures entry { let done = worked own bench.old.ticks bench.old.processes work in
        let written = record entry { outs = entry.outs ++ done.outs }
        in OnOk result (journal.new.items ≡ journal.old.items ++ written ∷ []) }
    ensures processes { let done = worked own bench.old.ticks bench.old.processes work
        in OnOk result (bench.new.processes ≡ done.processes) }
    ensures ticks { bench.new.ticks ≡ bench.old.ticks }
    ensures journal { OnErr result (journal.new.items ≡ journal.old.items) }
    ensures bench { OnErr result (bench.new ≡ bench.old) }
    ensures bounds { IsWithinBounds bench.new.processes }
{
    journal.reserve(1)?;
    let outs = mem::replace(&mut entry.outs, Outs::new(alloc));
    entry.outs = fitted(work_off(alloc, own, bench, work, outs)?);
    journal.push_reserved(entry);
    Ok(())
}

impl UnitJournal {
    ghost use Rattle.data_lane.specs.Legal.{IsDataJournal, AddsEntry};

    /// The journal of the lane of this number, from 0, before its first event.
    pub fn new(alloc: Global, head: &LaneHead, number: u8) -> Result<UnitJournal, Memory>
        requires { IsLaneHead head.now }
        ensures { IfOk result (λ x. x ≡ record { head = head.now; number = number; journal = [] }) }
    {
        Ok(UnitJournal {
            alloc,
            head: head.copy(alloc)?,
            number,
            journal: EntryList::new(alloc),
            cut: 0,
            bench: Bench::new(alloc, head.reassembly),
        })
    }

    /// Takes an event, with these routing data. After want of memory the journal is as before.
    pub fn step(&mut self, plant: &Plant, stamp: Stamp, event: &Event) -> Result<(), Memory>
        ensures ok { OnOk result (AddsEntry plant.now stamp event.now self.old self.new) }
        ensures err { OnErr result (self.new ≡ self.old) }
    {
        let event = event.copied()?;
        self.step_owned(plant, stamp, event)
    }

    /// The same with an event that becomes the journal's own, so that none is copied.
    pub fn step_owned(&mut self, plant: &Plant, stamp: Stamp, event: Event) -> Result<(), Memory>
        ensures ok { OnOk result (AddsEntry plant.now stamp event self.old self.new) }
        ensures err { OnErr result (self.new ≡ self.old) }
    {
        let context = Context {
            alloc: self.alloc,
            head: &self.head,
            number: self.number,
            cut: self.cut,
            plant,
        };
        let (asked, effect) = context.effect_of(&event)?;
        let entry = Entry {
            stamp,
            event,
            asked,
            outs: effect.outs,
        };
        let own = self.head.terms.own;
        let mut journal = mem::replace(&mut self.journal, EntryList::new(self.alloc)).into_vec();
        let written = write(
            self.alloc,
            own,
            &mut self.bench,
            &mut journal,
            entry,
            effect.work,
        );
        self.journal = EntryList::from(journal);
        written?;
        self.cut = count_after(self.cut, effect.is_cut);
        Ok(())
    }

    /// What the lane did, event by event.
    pub fn journal(&self) -> &EntryList
        ensures value { result.now ≡ self.now.journal }
        ensures legal { IsDataJournal self.now.head self.now.number self.now.journal }
    {
        &self.journal
    }

    /// What the lane did, as a list of its own.
    pub fn into_journal(self) -> EntryList
        ensures value { result ≡ self.journal }
        ensures legal { IsDataJournal self.head self.number self.journal }
    {
        let Self {
            alloc: _,
            head: _head,
            number: _,
            journal,
            cut: _,
            bench: _bench,
        } = self;
        journal
    }
}
