//! The one thread that publishes.
ghost use Rattle.std.specs.Prelude.{◌≡◌, ◌+◌, ◌-◌, ◌<◌, ◌^◌, [], true, false, length, drop, IsTrue, IsErr, IfOk, OnOk, OnErr};
ghost use Rattle.left_right.specs.Sides.{view};
ghost use Rattle.gtt_editions.specs.Marked.{shown_by};
ghost use Rattle.gtt_editions.specs.Rule.{IsCurrent, IsGoing, publishing};
ghost use Rattle.gtt_editions.specs.Standing.{IsNewPlace, IsEndOf, with_change, newest_of};
ghost use Rattle.gtt_editions.specs.Shown.{newcomer};

use crate::moves::{PlaceReader, PlantWriter, publish};
use crate::place::Place;
use crate::rule::Notes;
use crate::step::Step;
use crate::store::{Store, copied};
use plant_core::Group;
use relay_base::Memory;
use std::marker::Model;
use std::sync::Wait;

/// What is published so far. While it is there, nothing is published.
#[derive(Drop)]
pub struct Notice<'p> {
    pub(crate) store: &'p Store,
}

impl<'p> Model for Notice<'p> {
    ghost use Rattle.gtt_editions.specs.Marked.{shown_by, list_of};
    ghost use Rattle.gtt_editions.specs.Published.{Published};

    ghost Value = { Published };

    ghost view = { λ n. list_of (shown_by n.store.now) };
}

/// Publishes groups of changes. To a contract it is the edition at the opening, what is published, and whether memory was refused to it.
pub struct Publisher<'r, R: Wait> {
    pub(crate) rt: &'r R,
    pub(crate) writer: PlantWriter,
    /// A step that memory was refused to stays pending, so nothing more is published.
    pub(crate) spent: bool,
}

impl<'r, R: Wait> Model for Publisher<'r, R> {
    ghost use Rattle.std.specs.Prelude.{◌≡◌, [], false, drop};
    ghost use Rattle.left_right.specs.Sides.{view as view_of};
    ghost use Rattle.gtt_editions.specs.Standing.{Publishing};
    ghost use Rattle.gtt_editions.specs.Rule.{IsCurrent, IsGoing, publishing};
    ghost use Rattle.gtt_editions.specs.Marked.{shown_by};

    ghost Value = { Publishing };

    ghost view = { λ p. publishing (view_of p.writer.desk.place) p.spent };

    ghost invariant = { λ p.
        IsCurrent (view_of p.writer.desk.place) (shown_by p.writer.desk.shown.value)
        × IsGoing (shown_by p.writer.desk.shown.value)
        × (p.spent ≡ false → drop p.writer.behind p.writer.log.items ≡ []) };
}

impl<'r, R: Wait> Drop for Publisher<'r, R> {
    fn drop(self) {
        let rt = self.rt;
        let Self {
            rt: _,
            writer,
            spent: _,
        } = self;
        writer.take(rt);
    }
}

/// After the end. Places may look and learn for as long as it stands.
pub struct Ended<'r, R: Wait> {
    rt: &'r R,
    writer: PlantWriter,
}

impl<'r, R: Wait> Model for Ended<'r, R> {
    ghost use Rattle.left_right.specs.Sides.{view as view_of};
    ghost use Rattle.gtt_editions.specs.Standing.{Standing};
    ghost use Rattle.gtt_editions.specs.Rule.{IsCurrent, standing};
    ghost use Rattle.gtt_editions.specs.Marked.{shown_by};

    ghost Value = { Standing };

    ghost view = { λ p. standing (view_of p.writer.desk.place) };

    ghost invariant = { λ p.
        IsCurrent (view_of p.writer.desk.place) (shown_by p.writer.desk.shown.value) };
}

impl<'r, R: Wait> Drop for Ended<'r, R> {
    fn drop(self) {
        let rt = self.rt;
        let Self { rt: _, writer } = self;
        writer.take(rt);
    }
}

/// A reader, asked for again for as long as it is refused.
fn new_reader<R: Wait>(rt: &R, writer: &PlantWriter) -> PlaceReader
    ensures object { result.place.table_id ≡ writer.now.desk.place.table_id }
    ensures view { view result.place ≡ newcomer }
{
    for _ in rt.forever() {
        if let Ok(reader) = writer.factory().reader() {
            return reader;
        }
    }
    unreachable!()
}

/// Publishes a group. Either copy has room for it before the first one has it.
fn publish_group<R: Wait>(rt: &R, writer: &mut PlantWriter, group: &Group) -> Result<(), Memory>
    requires settled { drop writer.old.behind writer.old.log.items ≡ [] }
    requires current { let desk = writer.old.desk in
        IsCurrent (view desk.place) (shown_by desk.shown.value) }
    requires going { IsGoing (shown_by writer.old.desk.shown.value) }
    ensures ok { let old = publishing (view writer.old.desk.place) false in
        OnOk result (publishing (view writer.new.desk.place) false ≡ with_change old group.now) }
    ensures err { let old = publishing (view writer.old.desk.place) true in
        OnErr result (publishing (view writer.new.desk.place) true ≡ old) }
    ensures settled { OnOk result (drop writer.new.behind writer.new.log.items ≡ []) }
    ensures current { let desk = writer.new.desk in
        IsCurrent (view desk.place) (shown_by desk.shown.value) }
    ensures going { IsGoing (shown_by writer.new.desk.shown.value) }
{
    publish(rt, writer, Step::Room(copied(group)?))?;
    publish(rt, writer, Step::Change(copied(group)?))?;
    Ok(())
}

impl<'r, R: Wait> Publisher<'r, R> {
    /// A place that has seen nothing.
    pub(crate) fn place(&mut self) -> Place<'r, R>
        ensures place { IsNewPlace self.old result }
        ensures kept { self.new ≡ self.old }
    {
        let mut reader = new_reader(self.rt, &self.writer);
        reader.learn::<Notes>(self.writer.tell::<Notes>());
        Place {
            rt: self.rt,
            reader,
        }
    }

    /// Publishes a group of changes, whole, and gives the number of the new edition: no look shows a part of it. A group that doesn't alter
    /// the routing data raises the number alone.
    /// It may wait for looks to end. After `Memory` what is published is as before, and each later call here and of `end` answers `Memory`.
    pub fn publish(&mut self, group: &Group) -> Result<u64, Memory>
        requires { self.old.opened.number + length self.old.seen.changes < 2 ^ 64 - 1 }
        ensures ok { OnOk result (self.new ≡ with_change self.old group.now) }
        ensures err { OnErr result (self.new ≡ record self.old { spent = true }) }
        ensures edition { IfOk result (λ number.
            number ≡ self.new.opened.number + length self.new.seen.changes) }
        ensures spent { IsTrue self.old.spent → IsErr result }
    {
        if self.spent {
            return Err(Memory);
        }
        self.spent = true;
        publish_group(self.rt, &mut self.writer, group)?;
        self.spent = false;
        Ok(self.writer.published().plant.edition())
    }

    /// Marks the end. After `Memory` the publisher is given up.
    pub fn end(self) -> Result<Ended<'r, R>, Memory>
        ensures end { IfOk result (λ ended. IsEndOf self.entry ended) }
        ensures spent { IsTrue self.entry.spent → IsErr result }
    {
        if self.spent {
            return Err(Memory);
        }
        let rt = self.rt;
        let Self {
            rt: _,
            mut writer,
            spent: _,
        } = self;
        match publish(rt, &mut writer, Step::End) {
            Ok(()) => Ok(Ended { rt, writer }),
            Err(_) => {
                writer.take(rt);
                Err(Memory)
            }
        }
    }

    /// A notice of what is published so far. It takes no memory.
    pub fn tell(&self) -> Notice<'_>
        ensures { result ≡ self.now.seen }
    {
        Notice {
            store: self.writer.published(),
        }
    }
}

impl<'r, R: Wait> Ended<'r, R> {
    /// The number of the last edition.
    pub fn edition(&self) -> u64
        ensures { result ≡ (newest_of self.now).number }
    {
        self.writer.published().plant.edition()
    }

    /// A notice of what was published, and of its end. It takes no memory.
    pub fn tell(&self) -> Notice<'_>
        ensures { result ≡ self.now.seen }
    {
        Notice {
            store: self.writer.published(),
        }
    }
}
