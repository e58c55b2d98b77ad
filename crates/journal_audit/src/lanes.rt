//! A lane of a text, from its first entry on.
ghost use Rattle.std.specs.Prelude.{◌≡◌, [], length, map, IfOk, OnOk};
ghost use Rattle.node_head.specs.Ranges.{IsHead};
ghost use Rattle.journal_form.specs.Inner.Seen.{seen_lane};
ghost use Rattle.journal_finding.specs.Finding.{journal_in};
ghost use Rattle.journal_finding.specs.Lanes.{control_rules};
ghost use Rattle.lane_events.specs.Placing.{all_placed, kept};
ghost use Rattle.lane_audit.specs.Follows.{Names, found_of};
ghost use Rattle.control_replay.specs.Replaying.{before_first};
ghost use Rattle.control_replay.specs.Tables.{IsTable};
ghost use Rattle.journal_audit.specs.Inner.Judging.{IsShort};

use capture_form::Capture;
use control_replay::{ControlReplay, editions_by_phase};
use journal_finding::Fault;
use journal_form::LaneForm;
use lane_audit::{Replay, judge_lane};
use lane_events::{Editions, Lane, LaneEvents, PlacedPhases};
use plant_core::ControlList;
use relay_base::Memory;
use right_book::plant_of;
use std::alloc::Global;

/// The first fault of a lane in a text, or none, and then the lane's journal is the one that the text writes. The lane was before its first event.
pub fn judge_first<R: Replay>(
    alloc: Global,
    name: Lane,
    placed: &PlacedPhases<'_>,
    lane: &mut R,
    editions: &mut Editions<'_>,
    form: &LaneForm<'_>,
) -> Result<Option<Fault>, Memory>
    requires first { R.journal lane.old ≡ [] }
    requires events { map (map (kept name)) placed.now ≡ (R.rules lane.old).events }
    requires names { Names (R.rules lane.old) [] editions.old }
    requires short { IsShort (seen_lane form.now) }
    ensures found { let found = journal_in (R.rules lane.old) (seen_lane form.now) in
        IfOk result (λ fault. found ≡ found_of (R.journal lane.new) fault) }
    ensures head { OnOk result (R.head lane.new ≡ R.head lane.old) }
{
    let mut events = LaneEvents::new(alloc, name, placed)?;
    judge_lane(lane, &mut events, editions, form)
}

/// How many editions were published before each phase of so many, and the one behind: none, before the control lane's first event.
fn none_published(alloc: Global, phases: usize) -> Result<Vec<u64>, Memory>
    ensures { IfOk result (λ before. IsTable phases [] before.items) }
{
    editions_by_phase(alloc, &ControlList::new(alloc), phases)
}

/// The first fault of the control lane in a text, or none, and then its journal is the one that the text writes. The lane was before its first event, and
/// before no phase was anything published.
fn judge_unpublished(
    alloc: Global,
    capture: &Capture,
    placed: &PlacedPhases<'_>,
    lane: &mut ControlReplay<'_>,
    before: &[u64],
    form: &LaneForm<'_>,
) -> Result<Option<Fault>, Memory>
    requires head { IsHead capture.now.head }
    requires placed { placed.now ≡ all_placed capture.now.head capture.now.phases }
    requires lane { lane.old ≡ before_first capture.now.head capture.now.phases }
    requires before { IsTable (length capture.now.phases) [] before.now }
    requires short { IsShort (seen_lane form.now) }
    ensures found { let rules = control_rules capture.now.head capture.now.phases in
        let found = journal_in rules (seen_lane form.now) in
        IfOk result (λ fault. found ≡ found_of lane.new.journal fault) }
    ensures head { OnOk result (lane.new.head ≡ capture.now.head) }
{
    let plant = plant_of(alloc, &capture.head)?;
    let mut editions = Editions::new(plant, &[], before);
    judge_first(alloc, Lane::Control, placed, lane, &mut editions, form)
}

/// The first fault of the control lane in a text, or none, and then its journal is the one that the text writes. The lane was before its first event.
pub fn judge_control(
    alloc: Global,
    capture: &Capture,
    placed: &PlacedPhases<'_>,
    lane: &mut ControlReplay<'_>,
    form: &LaneForm<'_>,
) -> Result<Option<Fault>, Memory>
    requires head { IsHead capture.now.head }
    requires placed { placed.now ≡ all_placed capture.now.head capture.now.phases }
    requires lane { lane.old ≡ before_first capture.now.head capture.now.phases }
    requires short { IsShort (seen_lane form.now) }
    ensures found { let rules = control_rules capture.now.head capture.now.phases in
        let found = journal_in rules (seen_lane form.now) in
        IfOk result (λ fault. found ≡ found_of lane.new.journal fault) }
    ensures head { OnOk result (lane.new.head ≡ capture.now.head) }
{
    let before = none_published(alloc, capture.phases.len())?;
    judge_unpublished(alloc, capture, placed, lane, before.as_slice(), form)
}
