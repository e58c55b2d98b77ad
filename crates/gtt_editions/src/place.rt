//! A place from which a thread looks at what is published.
ghost use Rattle.std.specs.Prelude.{◌≡◌, IsTrue};
ghost use Rattle.left_right.specs.Sides.{view};
ghost use Rattle.gtt_editions.specs.Published.{Begins};
ghost use Rattle.gtt_editions.specs.Marked.{shown_by, list_of};
ghost use Rattle.gtt_editions.specs.Rule.{IsOpened, standing};
ghost use Rattle.gtt_editions.specs.Standing.{LooksFrom, newest_of};

use crate::moves::{PlaceReader, PlaceReading, enter};
use crate::publisher::Notice;
use crate::store::Store;
use core::mem::replace_with;
use plant_core::Plant;
use std::marker::Model;
use std::sync::Wait;

/// A place that isn't looking. To a contract it is the edition at the opening, and what is published as far as it was seen.
pub struct Place<'r, R: Wait> {
    pub(crate) rt: &'r R,
    pub(crate) reader: PlaceReader,
}

impl<'r, R: Wait> Model for Place<'r, R> {
    ghost use Rattle.left_right.specs.Sides.{view as view_of};
    ghost use Rattle.gtt_editions.specs.Standing.{Standing};
    ghost use Rattle.gtt_editions.specs.Rule.{IsOpened, standing};

    ghost Value = { Standing };

    ghost view = { λ p. standing (view_of p.reader.place) };

    ghost invariant = { λ p. IsOpened (view_of p.reader.place) };
}

impl<'r, R: Wait> Drop for Place<'r, R> {
    fn drop(self) {
        let Self {
            rt: _,
            reader: _reader,
        } = self;
    }
}

/// A look at the routing data of one edition. It isn't `Drop`: end it by `leave`.
pub struct Looking<'r, R: Wait> {
    rt: &'r R,
    reading: PlaceReading,
}

impl<'r, R: Wait> Model for Looking<'r, R> {
    ghost use Rattle.left_right.specs.Sides.{view as view_of};
    ghost use Rattle.gtt_editions.specs.Marked.{shown_by};
    ghost use Rattle.gtt_editions.specs.Standing.{Standing};
    ghost use Rattle.gtt_editions.specs.Rule.{IsCurrent, standing};

    ghost Value = { Standing };

    ghost view = { λ l. standing (view_of l.reading.place) };

    ghost invariant = { λ l. IsCurrent (view_of l.reading.place) (shown_by l.reading.part.value) };
}

/// Looks once: whether what is seen begins with what this copy shows.
fn look_once<R: Wait>(rt: &R, reader: PlaceReader, store: &Store) -> (PlaceReader, bool)
    requires { IsOpened (view reader.place) }
    ensures opened { IsOpened (view result.0.place) }
    ensures looks { LooksFrom (standing (view reader.place)) (standing (view result.0.place)) }
    ensures learnt { let seen = (view result.0.place).seen in
        IsTrue result.1 → Begins seen (list_of (shown_by store.now)) }
{
    let reading = enter(rt, reader);
    let learnt = reading.get().begins_with(store);
    (reading.leave(), learnt)
}

/// Looks until what is seen begins with what this copy shows.
fn catch_up<R: Wait>(rt: &R, reader: PlaceReader, store: &Store) -> PlaceReader
    requires { IsOpened (view reader.place) }
    ensures opened { IsOpened (view result.place) }
    ensures looks { LooksFrom (standing (view reader.place)) (standing (view result.place)) }
    ensures learnt { Begins (view result.place).seen (list_of (shown_by store.now)) }
{
    let mut reader = reader;
    for _ in rt.forever() {
        let (next, learnt) = look_once(rt, reader, store);
        reader = next;
        if learnt {
            return reader;
        }
    }
    unreachable!()
}

impl<'r, R: Wait> Place<'r, R> {
    /// A look at one published edition, not older than any that this place saw or learnt. It may wait, and takes no memory.
    pub fn look(self) -> Looking<'r, R>
        ensures { LooksFrom self.entry result }
    {
        let rt = self.rt;
        let Self { rt: _, reader } = self;
        Looking {
            rt,
            reading: enter(rt, reader),
        }
    }

    /// Looks until what is published begins with what the notice shows: it may wait, and waits for ever at a notice of another opening.
    /// It takes no memory.
    pub fn learn(&mut self, notice: Notice<'_>)
        ensures looks { LooksFrom self.old self.new }
        ensures learnt { Begins self.new.seen notice.entry }
    {
        let store = notice.store;
        replace_with(&mut self.reader, self.rt, move |reader, rt| {
            (catch_up(rt, reader, store), ())
        });
    }
}

impl<'r, R: Wait> Looking<'r, R> {
    /// The routing data of the edition, with its number.
    pub fn plant(&self) -> &Plant
        ensures routing { result.now.routing ≡ (newest_of self.now).routing }
        ensures edition { result.now.edition ≡ (newest_of self.now).number }
    {
        &self.reading.get().plant
    }

    /// Ends the look.
    pub fn leave(self) -> Place<'r, R>
        ensures { result ≡ self.entry }
    {
        let Self { rt, reading } = self;
        Place {
            rt,
            reader: reading.leave(),
        }
    }
}
