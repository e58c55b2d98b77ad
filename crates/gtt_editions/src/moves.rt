//! What a reader and the writer do, under the rule.
ghost use Rattle.std.specs.Prelude.{◌≡◌, [], ◌∷◌, false, drop, OnOk, OnErr};
ghost use Rattle.left_right.specs.Sides.{view};
ghost use Rattle.gtt_editions.specs.Marked.{shown_by};
ghost use Rattle.gtt_editions.specs.Rule.{Seen, IsCurrent, IsGoing, HasOpened, HasPublished};

use crate::rule::{Editions, Opens, Sees};
use crate::step::Step;
use crate::store::Store;
use crate::view::Knowledge;
use left_right::reader::{Reader, Reading};
use left_right::writer::Writer;
use std::alloc::AllocError;
use std::sync::Wait;

pub type PlaceReader = Reader<Store, Knowledge, Editions>;

pub type PlaceReading = Reading<Store, Knowledge, Editions>;

pub type PlantWriter = Writer<Store, Step, Knowledge, Editions>;

/// Enters, and asks again for as long as that is refused.
pub fn enter<R: Wait>(rt: &R, reader: PlaceReader) -> PlaceReading
    ensures { Seen (view reader.place) result.part.value result.part.value (view result.place) }
{
    let mut reader = reader;
    for _ in rt.forever() {
        match reader.enter_as::<Sees>() {
            Ok(reading) => return reading,
            Err(refused) => reader = refused,
        }
    }
    unreachable!()
}

/// The writer has a step to publish.
fn append(writer: &mut PlantWriter, step: Step) -> Result<(), AllocError>
    requires { drop writer.old.behind writer.old.log.items ≡ [] }
    ensures desk { writer.new.desk ≡ writer.old.desk }
    ensures pending { OnOk result (drop writer.new.behind writer.new.log.items ≡ step ∷ []) }
{
    match writer.append(step) {
        Ok(()) => Ok(()),
        Err(_) => Err(AllocError),
    }
}

/// The publisher notes the edition at the opening.
pub fn note_opening<R: Wait>(
    rt: &R,
    mut writer: PlantWriter,
) -> (PlantWriter, Result<(), AllocError>)
    requires settled { drop writer.behind writer.log.items ≡ [] }
    requires empty { writer.desk.shown.value.changes.items ≡ [] }
    requires shut { writer.desk.shown.value.opened ≡ false }
    requires going { writer.desk.shown.value.ended ≡ false }
    ensures opened { let shown = shown_by writer.desk.shown.value in let new = result.0.desk in
        OnOk result.1 (HasOpened shown (view new.place) (shown_by new.shown.value)) }
    ensures settled { OnOk result.1 (drop result.0.behind result.0.log.items ≡ []) }
{
    match append(&mut writer, Step::Open) {
        Ok(()) => writer.publish_as::<Opens, R>(rt),
        Err(refused) => (writer, Err(refused)),
    }
}

/// Publishes one step.
fn published_in<R: Wait>(
    rt: &R,
    mut writer: PlantWriter,
    step: Step,
) -> (PlantWriter, Result<(), AllocError>)
    requires settled { drop writer.behind writer.log.items ≡ [] }
    requires current { IsCurrent (view writer.desk.place) (shown_by writer.desk.shown.value) }
    requires going { IsGoing (shown_by writer.desk.shown.value) }
    ensures ok { let old = view writer.desk.place in let shown = shown_by writer.desk.shown.value in
        let new = view result.0.desk.place in let shown_new = shown_by result.0.desk.shown.value in
        OnOk result.1 (HasPublished step old shown new shown_new) }
    ensures settled { OnOk result.1 (drop result.0.behind result.0.log.items ≡ []) }
    ensures err { OnErr result.1 (view result.0.desk.place ≡ view writer.desk.place) }
    ensures kept { OnErr result.1 (result.0.desk.shown.value ≡ writer.desk.shown.value) }
{
    match append(&mut writer, step) {
        Ok(()) => writer.publish_as::<Sees, R>(rt),
        Err(refused) => (writer, Err(refused)),
    }
}

/// The same, in place.
pub fn publish<R: Wait>(rt: &R, writer: &mut PlantWriter, step: Step) -> Result<(), AllocError>
    requires settled { drop writer.old.behind writer.old.log.items ≡ [] }
    requires current { let desk = writer.old.desk in
        IsCurrent (view desk.place) (shown_by desk.shown.value) }
    requires going { IsGoing (shown_by writer.old.desk.shown.value) }
    ensures ok { let old = writer.old.desk in let new = writer.new.desk in
        let shown = shown_by old.shown.value in let shown_new = shown_by new.shown.value in
        OnOk result (HasPublished step (view old.place) shown (view new.place) shown_new) }
    ensures settled { OnOk result (drop writer.new.behind writer.new.log.items ≡ []) }
    ensures err { OnErr result (view writer.new.desk.place ≡ view writer.old.desk.place) }
    ensures kept { OnErr result (writer.new.desk.shown.value ≡ writer.old.desk.shown.value) }
{
    core::mem::replace_with(writer, rt, move |writer, rt| published_in(rt, writer, step))
}
