//! The control lane takes the events of a capture again.
ghost use Rattle.std.specs.Prelude.{◌≡◌, ◌<◌, length, IfOk};
ghost use Rattle.scmg.specs.Control.{IsControlJournal};
ghost use Rattle.node_head.specs.Ranges.{IsHead};
ghost use Rattle.journal_form.specs.Inner.Seen.{seen_part};
ghost use Rattle.control_replay.specs.Replaying.{before_first};
ghost use Rattle.control_replay.specs.Inner.Lanes.{IsLastWritten};

use crate::collector::Collector;
use capture_form::Capture;
use journal_form::EntryForm;
use lane_audit::{Judged, Replay, is_control_entry_written};
use plant_core::{ControlEntry, ControlEvent, ControlList, Group, Plant};
use relay_base::{Memory, Stamp};
use right_book::{control_head_of, plant_of};
use scmg::ControlLane;
use std::alloc::Global;
use std::marker::Model;

/// The control lane of a capture, which takes its events again, and the groups of changes that it
/// published.
#[derive(Drop)]
pub struct ControlReplay<'a> {
    alloc: Global,
    capture: &'a Capture,
    lane: ControlLane,
    collector: Collector,
}

impl<'a> Model for ControlReplay<'a> {
    ghost use Rattle.control_replay.specs.Replaying.{ControlReplaying};
    ghost use Rattle.control_replay.specs.Inner.Lanes.{IsLaneOf};

    ghost Value = { ControlReplaying };

    ghost view = { λ r. record {
      head = r.capture.now.head;
      phases = r.capture.now.phases;
      journal = r.lane.journal;
    } };

    ghost invariant = { λ r. IsLaneOf r.capture.now.head r.lane r.collector.groups };
}

/// Whether the lines of a part are those of the last entry of a lane.
fn is_last_written(alloc: Global, lane: &ControlLane, part: &EntryForm<'_>) -> Result<bool, Memory>
    requires { 0 < length lane.now.journal }
    ensures written { IfOk result (IsLastWritten lane.now.journal (seen_part part.now)) }
    ensures legal { IsControlJournal lane.now.head lane.now.start lane.now.journal }
{
    let entries = lane.journal().as_slice();
    is_control_entry_written(alloc, &entries[entries.len() - 1], part)
}

impl<'a> ControlReplay<'a> {
    ghost use Rattle.right_book.specs.Editions.{changes_of};
    ghost use Rattle.right_book.specs.Heads.{routing_of, control_head_of};

    /// Before the first event.
    pub fn new(alloc: Global, capture: &'a Capture) -> Result<ControlReplay<'a>, Memory>
        requires { IsHead capture.now.head }
        ensures { let first = before_first capture.now.head capture.now.phases in
            IfOk result (λ r. r ≡ first) }
    {
        let told = control_head_of(alloc, &capture.head)?;
        let plant = plant_of(alloc, &capture.head)?;
        let lane = ControlLane::new(alloc, &told, plant)?;
        Ok(ControlReplay {
            alloc,
            capture,
            lane,
            collector: Collector::new(alloc),
        })
    }

    /// The groups of changes that were published, in order.
    pub fn groups(&self) -> &[Group]
        ensures { result.now ≡ changes_of self.now.head self.now.journal }
    {
        self.collector.groups.as_slice()
    }

    /// What the lane did, event by event.
    pub fn journal(&self) -> &ControlList
        ensures value { result.now ≡ self.now.journal }
        ensures legal { let head = self.now.head in
            IsControlJournal (control_head_of head) (routing_of head) self.now.journal }
    {
        self.lane.journal()
    }
}

impl<'a> Replay for ControlReplay<'a> {
    ghost use Rattle.journal_finding.specs.Lanes.{control_rules};

    type Event = ControlEvent;

    type Entry = ControlEntry;

    ghost head = { λ r. r.head };

    ghost rules = { λ r. control_rules r.head r.phases };

    ghost journal = { λ r. r.journal };

    fn takes(&self, _event: &ControlEvent) -> bool {
        true
    }

    fn take(
        &mut self,
        _plant: &Plant,
        stamp: Stamp,
        event: &ControlEvent,
        part: &EntryForm<'_>,
    ) -> Result<Judged, Memory> {
        self.lane.step(&mut self.collector, stamp, event)?;
        let is_written = is_last_written(self.alloc, &self.lane, part)?;
        Ok(Judged {
            asks: false,
            is_written,
        })
    }
}
