//! A lane that takes the events of a capture again.
ghost use Rattle.std.specs.Prelude.{◌≡◌, ◌<◌, ◌&&◌, [], map, is_some, IfOk};
ghost use Rattle.relay_base.specs.declared.limits.TheConstants.{MOST_LANES};
ghost use Rattle.node_head.specs.Ranges.{IsHead};
ghost use Rattle.book_output.specs.Print.{line_of_entry, line_of_output};
ghost use Rattle.journal_form.specs.Words.{same};
ghost use Rattle.journal_form.specs.Inner.Seen.{seen_part};
ghost use Rattle.journal_finding.specs.Entries.{same_lines};

use crate::plain_lane::PlainLane;
use capture_form::Capture;
use journal_form::EntryForm;
use lane_audit::{Judged, Replay, is_entry_written};
use plant_core::{ControlEvent, ControlList, Entry, Plant};
use relay_base::{Event, Memory, Stamp};
use right_book::lane_head_of;
use std::alloc::Global;
use std::marker::Model;

/// A connection lane or a data lane that takes the events of a capture again, with the editions of
/// a control journal.
pub struct PlainReplay<'a, L: PlainLane> {
    alloc: Global,
    /// The capture and the control journal, which clauses alone read.
    capture: &'a Capture,
    control: &'a ControlList,
    number: u8,
    lane: L,
}

impl<'a, L: PlainLane> Drop for PlainReplay<'a, L> {
    fn drop(self) {
        let Self {
            alloc: _,
            capture: _,
            control: _,
            number: _,
            lane: _lane,
        } = self;
    }
}

impl<'a, L: PlainLane> Model for PlainReplay<'a, L> {
    ghost use Rattle.lane_replays.specs.Plain.{PlainState, IsTold};

    ghost Value = { PlainState };

    ghost view = { λ r. record {
      head = r.capture.now.head;
      phases = r.capture.now.phases;
      control = r.control.now;
      number = r.number;
      journal = (L.state r.lane).journal;
    } };

    ghost invariant = { λ r. IsTold r.capture.now.head r.number (L.state r.lane) };
}

/// What is known of an entry that was made, beside the lines of a part.
fn judge(alloc: Global, entry: &Entry, part: &EntryForm<'_>) -> Result<Judged, Memory>
    ensures asks { IfOk result (λ judged. judged.asks ≡ is_some entry.now.asked) }
    ensures written { let seen = seen_part part.now in
        let lines = map line_of_output entry.now.outs in
        IfOk result (λ judged. judged.is_written
        ≡ (same (line_of_entry entry.now) seen.text && same_lines lines seen.outs)) }
{
    Ok(Judged {
        asks: entry.asked.is_some(),
        is_written: is_entry_written(alloc, entry, part)?,
    })
}

impl<'a, L: PlainLane> PlainReplay<'a, L> {
    /// The lane of this number, 0 to 15, before its first event.
    pub fn new(
        alloc: Global,
        capture: &'a Capture,
        control: &'a ControlList,
        number: u8,
    ) -> Result<PlainReplay<'a, L>, Memory>
        requires number { number < MOST_LANES }
        requires head { IsHead capture.now.head }
        ensures { IfOk result (λ r. r ≡ record {
          head = capture.now.head;
          phases = capture.now.phases;
          control = control.now;
          number = number;
          journal = [];
        }) }
    {
        let told = lane_head_of(alloc, &capture.head)?;
        let lane = L::begin(alloc, &told, number)?;
        Ok(PlainReplay {
            alloc,
            capture,
            control,
            number,
            lane,
        })
    }
}

impl<'a, L: PlainLane> Replay for PlainReplay<'a, L> {
    ghost use Rattle.lane_replays.specs.Plain.{plain_rules};

    type Event = Event;

    type Entry = Entry;

    ghost head = { λ r. r.head };

    ghost rules = { λ r. plain_rules L.named L.question L.outs r };

    ghost journal = { λ r. r.journal };

    fn takes(&self, event: &ControlEvent) -> bool {
        matches!(event, ControlEvent::Plain(_))
    }

    fn take(
        &mut self,
        plant: &Plant,
        stamp: Stamp,
        event: &ControlEvent,
        part: &EntryForm<'_>,
    ) -> Result<Judged, Memory> {
        let ControlEvent::Plain(event) = event else {
            unreachable!();
        };
        self.lane.take(plant, stamp, event)?;
        let entries = self.lane.entries().as_slice();
        judge(self.alloc, &entries[entries.len() - 1], part)
    }
}
