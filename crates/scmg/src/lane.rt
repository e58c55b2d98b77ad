//! The control lane.
ghost use Rattle.std.specs.Prelude.{◌≡◌, ◌+◌, ◌-◌, ◌^◌, ◌<◌, [], ◌∷◌, ◌++◌, length, vec_len, None, option_to_list, IfOk, OnOk, OnErr};
ghost use Rattle.std.specs.Vec.{vec_capacity};
ghost use Rattle.scmg.specs.Control.{effect_of, control_after, change_of, edition_after, count_after};

use crate::effect::{Act, Context, Effect};
use crate::head::ControlHead;
use crate::kept::Kept;
use crate::publish::Publish;
use mark::Mark;
use plant_core::{ControlEntry, ControlEvent, ControlList, Plant, Ticks, fitted};
use relay_base::{Memory, Stamp};
use std::alloc::{AllocError, Global};
use std::marker::Model;
use std::mem;

/// The control lane: it takes edits, status, messages of management, coordinated changes and ticks. Its journal is a legal one at all times.
pub struct ControlLane {
    alloc: Global,
    head: ControlHead,
    journal: ControlList,
    kept: Kept,
    /// The routing data that the lane began with, which clauses alone read.
    start: Mark<Plant>,
}

impl Drop for ControlLane {
    fn drop(self) {
        let Self {
            alloc: _,
            head: _head,
            journal: _journal,
            kept: _kept,
            start: _start,
        } = self;
    }
}

impl Model for ControlLane {
    ghost use Rattle.scmg.specs.Lane.{ControlState};
    ghost use Rattle.scmg.specs.Inner.Kept.{IsLane};

    ghost Value = { ControlState };

    ghost view = { λ l.
        record { head = l.head; start = l.start.value.routing; journal = l.journal } };

    ghost invariant = { λ l. IsLane l.head l.start.value.routing l.journal l.kept };
}

fn copy_of(head: &ControlHead) -> Result<ControlHead, AllocError>
    ensures { IfOk result (λ copy. copy ≡ head.now) }
{
    head.clone()
}

fn event_of(event: &ControlEvent) -> Result<ControlEvent, AllocError>
    ensures { IfOk result (λ copy. copy ≡ event.now) }
{
    event.clone()
}

/// The entry of an event, before anything is published, and what is to be done.
fn prepare(
    alloc: Global,
    head: &ControlHead,
    kept: &Kept,
    stamp: Stamp,
    event: ControlEvent,
) -> Result<(ControlEntry, Act), Memory>
    ensures entry { let outs = (effect_of head.now kept.now.control event).outs in
        let entry : ControlEntry =
        record { stamp = stamp; event = event; published = None; outs = outs }
        in IfOk result (λ x. x.0 ≡ entry) }
    ensures act { IfOk result (λ x. x.1 ≡ (effect_of head.now kept.now.control event).act) }
{
    let context = Context { alloc, head, kept };
    let Effect { outs, act } = context.effect_of(&event)?;
    let entry = ControlEntry {
        stamp,
        event,
        published: None,
        outs: fitted(outs),
    };
    Ok((entry, act))
}

/// Publishes the changes of an act, where it has them, and gives the number of the new edition.
fn publish_act<P: Publish>(publish: &mut P, act: &Act) -> Result<Option<u64>, Memory>
    requires { P.first publish.old + length (P.published publish.old) < 2 ^ 64 - 1 }
    ensures first { P.first publish.new ≡ P.first publish.old }
    ensures ok { let published = P.published publish.old ++ option_to_list (change_of act.now)
        in OnOk result (P.published publish.new ≡ published) }
    ensures err { OnErr result (P.published publish.new ≡ P.published publish.old) }
    ensures edition { let count = P.first publish.old + length (P.published publish.old)
        in IfOk result (λ edition. edition ≡ edition_after count (change_of act.now)) }
{
    match act {
        Act::Publish(group) => Ok(Some(publish.publish(group)?)),
        _ => Ok(None),
    }
}

/// Takes all memory, also for one entry of the journal, publishes the changes of an act, and then does it; gives the edition that was published.
/// After `Memory` all is as before.
fn perform<P: Publish>(
    kept: &mut Kept,
    journal: &mut Vec<ControlEntry>,
    publish: &mut P,
    ticks: &Ticks,
    act: &Act,
) -> Result<Option<u64>, Memory>
    requires in_step { P.first publish.old + length (P.published publish.old) ≡ kept.old.plant.edition }
    requires few { kept.old.plant.edition < 4294967295 }
    ensures control { let control = control_after ticks.now kept.old.control act.now
        in OnOk result (kept.new.control ≡ control) }
    ensures edition { let count = count_after kept.old.plant.edition (change_of act.now)
        in OnOk result (kept.new.plant.edition ≡ count) }
    ensures number { IfOk result (λ x. x ≡ edition_after kept.old.plant.edition (change_of act.now)) }
    ensures room { OnOk result (vec_len journal.new < vec_capacity journal.new) }
    ensures journal { journal.new.items ≡ journal.old.items }
    ensures published { let published = P.published publish.old ++ option_to_list (change_of act.now)
        in OnOk result (P.published publish.new ≡ published) }
    ensures first { P.first publish.new ≡ P.first publish.old }
    ensures kept { let control = kept.new.control ≡ kept.old.control
        in OnErr result (control × (kept.new.plant.edition ≡ kept.old.plant.edition)) }
    ensures unpublished { OnErr result (P.published publish.new ≡ P.published publish.old) }
{
    kept.make_room(act)?;
    journal.reserve(1)?;
    let published = publish_act(publish, act)?;
    kept.act(ticks, act)?;
    Ok(published)
}

/// Does an act, and puts the entry at the end of the journal, with the edition that was published. After `Memory` all is as before.
fn write<P: Publish>(
    kept: &mut Kept,
    journal: &mut Vec<ControlEntry>,
    publish: &mut P,
    ticks: &Ticks,
    mut entry: ControlEntry,
    act: &Act,
) -> Result<(), Memory>
    requires in_step { P.first publish.old + length (P.published publish.old) ≡ kept.old.plant.edition }
    requires few { kept.old.plant.edition < 4294967295 }
    ensures control { let control = control_after ticks.now kept.old.control act.now
        in OnOk result (kept.new.control ≡ control) }
    ensures edition { let count = count_after kept.old.plant.edition (change_of act.now)
        in OnOk result (kept.new.plant.edition ≡ count) }
    ensures entry { let edition = edition_after kept.old.plant.edition (change_of act.now) in
        let written = record entry { published = edition }
        in OnOk result (journal.new.items ≡ journal.old.items ++ written ∷ []) }
    ensures published { let published = P.published publish.old ++ option_to_list (change_of act.now)
        in OnOk result (P.published publish.new ≡ published) }
    ensures first { P.first publish.new ≡ P.first publish.old }
    ensures kept { let control = kept.new.control ≡ kept.old.control
        in OnErr result (control × (kept.new.plant.edition ≡ kept.old.plant.edition)) }
    ensures journal { OnErr result (journal.new.items ≡ journal.old.items) }
    ensures unpublished { OnErr result (P.published publish.new ≡ P.published publish.old) }
{
    entry.published = perform(kept, journal, publish, ticks, act)?;
    journal.push_reserved(entry);
    Ok(())
}

impl ControlLane {
    ghost use Rattle.scmg.specs.Control.{IsControlJournal, changes_in, routing_after};
    ghost use Rattle.scmg.specs.Lane.{changes_of, AddsEntry, GrowAlike};

    /// The control lane before its first event, with these routing data.
    pub fn new(alloc: Global, head: &ControlHead, plant: Plant) -> Result<ControlLane, Memory>
        requires edition { plant.edition ≡ 0 }
        requires users { plant.routing.users ≡ head.now.users }
        ensures { let start = plant.routing
            in IfOk result (λ lane.
            lane ≡ record { head = head.now; start = start; journal = [] }) }
    {
        let head = copy_of(head)?;
        let start = Mark::after(&plant);
        let kept = Kept::start(alloc, head.users.as_slice(), plant)?;
        Ok(ControlLane {
            alloc,
            head,
            journal: ControlList::new(alloc),
            kept,
            start,
        })
    }

    /// The routing data after all changes that the journal published.
    pub fn plant(&self) -> &Plant
        ensures routing { result.now.routing ≡ routing_after self.now.start (changes_of self.now) }
        ensures edition { result.now.edition ≡ length (changes_of self.now) }
        ensures legal { IsControlJournal self.now.head self.now.start self.now.journal }
    {
        self.kept.plant()
    }

    /// What the lane did, event by event.
    pub fn journal(&self) -> &ControlList
        ensures value { result.now ≡ self.now.journal }
        ensures legal { IsControlJournal self.now.head self.now.start self.now.journal }
    {
        &self.journal
    }

    /// What the lane did, as a list of its own.
    pub fn into_journal(self) -> ControlList
        ensures value { result ≡ self.journal }
        ensures legal { IsControlJournal self.head self.start self.journal }
    {
        let Self {
            alloc: _,
            head: _head,
            journal,
            kept: _kept,
            start: _start,
        } = self;
        journal
    }

    /// Takes an event: it takes all its memory, publishes the change where there is one, and then changes the lane. The publisher has published
    /// what the journal has. After `Memory` the lane is as before, and nothing was published.
    pub fn step<P: Publish>(
        &mut self,
        publish: &mut P,
        stamp: Stamp,
        event: &ControlEvent,
    ) -> Result<(), Memory>
        requires in_step { let count = P.first publish.old + length (P.published publish.old)
            in count ≡ length (changes_of self.old) }
        requires few { length self.old.journal < 4294967295 }
        ensures ok { OnOk result (AddsEntry stamp event.now self.old self.new) }
        ensures err { OnErr result (self.new ≡ self.old) }
        ensures first { P.first publish.new ≡ P.first publish.old }
        ensures published { let old = P.published publish.old in let new = P.published publish.new
            in OnOk result (GrowAlike old new (changes_of self.old) (changes_of self.new)) }
        ensures unpublished { OnErr result (P.published publish.new ≡ P.published publish.old) }
    {
        let event = event_of(event)?;
        self.step_owned(publish, stamp, event)
    }

    /// The same with an event that becomes the journal's own, so that none is copied.
    pub fn step_owned<P: Publish>(
        &mut self,
        publish: &mut P,
        stamp: Stamp,
        event: ControlEvent,
    ) -> Result<(), Memory>
        requires in_step { let count = P.first publish.old + length (P.published publish.old)
            in count ≡ length (changes_of self.old) }
        requires few { length self.old.journal < 4294967295 }
        ensures ok { OnOk result (AddsEntry stamp event self.old self.new) }
        ensures err { OnErr result (self.new ≡ self.old) }
        ensures first { P.first publish.new ≡ P.first publish.old }
        ensures published { let old = P.published publish.old in let new = P.published publish.new
            in OnOk result (GrowAlike old new (changes_of self.old) (changes_of self.new)) }
        ensures unpublished { OnErr result (P.published publish.new ≡ P.published publish.old) }
    {
        let (entry, act) = prepare(self.alloc, &self.head, &self.kept, stamp, event)?;
        let ticks = self.head.ticks;
        let mut journal = mem::replace(&mut self.journal, ControlList::new(self.alloc)).into_vec();
        let written = write(&mut self.kept, &mut journal, publish, &ticks, entry, &act);
        self.journal = ControlList::from(journal);
        written
    }
}
