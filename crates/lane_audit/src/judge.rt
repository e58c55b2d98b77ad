//! The entries of a lane in a text, each beside what the lane does.
ghost use Rattle.std.specs.Prelude.{◌≡◌, ◌<◌, ◌+◌, ◌^◌, true, length, is_some, Err, IfOk, IfSome, IfNone, OnOk, option_map};
ghost use Rattle.journal_form.specs.Inner.Seen.{seen_routing, seen_part, seen_lane};
ghost use Rattle.journal_form.specs.Parts.{lane_size};
ghost use Rattle.journal_finding.specs.Entries.{entry_of, journal_from};
ghost use Rattle.lane_events.specs.Pending.{taken_in};
ghost use Rattle.lane_events.specs.declared.editions.TheConstants.{MANY_EDITIONS};
ghost use Rattle.lane_audit.specs.Follows.{Awaits, Names, Comes, Made, may_follow, named_by, Judges, found_of};

use crate::replay::Replay;
use journal_finding::{Fault, FindingKind};
use journal_form::{EntryForm, LaneForm, Routing};
use lane_events::{Editions, LaneEvents};
use plant_core::{ControlEvent, Plant};
use relay_base::{Memory, Stamp};

/// Whether the edition of a routing, where a line has one, may be named in a phase; it is then named.
fn may_name(
    editions: &mut Editions<'_>,
    phase: u32,
    asked: &Option<Routing<'_>>,
) -> Result<bool, Memory>
    requires few { length editions.old.groups < MANY_EDITIONS }
    requires phase { phase + 1 < length editions.old.before }
    ensures named { let words = option_map seen_routing asked.now in
        IfOk result (λ named. named ≡ may_follow editions.old phase words) }
    ensures after { let words = option_map seen_routing asked.now in
        OnOk result (editions.new ≡ named_by editions.old phase words) }
{
    match asked {
        None => Ok(true),
        Some(words) => editions.name(phase, words.edition),
    }
}

/// What is wrong with the entry that the lane makes of an event, beside the lines of one, or nothing.
fn judge_made<R: Replay>(
    lane: &mut R,
    plant: &Plant,
    stamp: Stamp,
    event: &ControlEvent,
    part: &EntryForm<'_>,
) -> Result<Option<FindingKind>, Memory>
    requires event { is_some ((R.rules lane.old).event event.now) ≡ true }
    requires few { length (R.journal lane.old) < 4_294_967_295 }
    ensures made { let before = R.journal lane.old in let after = R.journal lane.new in
        let part = seen_part part.now in
        IfOk result (Made (R.rules lane.old) before after plant.now stamp event.now part) }
    ensures rules { OnOk result (R.rules lane.new ≡ R.rules lane.old) }
    ensures head { OnOk result (R.head lane.new ≡ R.head lane.old) }
{
    let judged = lane.take(plant, stamp, event, part)?;
    if judged.asks != part.words.asked.is_some() {
        return Ok(Some(FindingKind::Edition));
    }
    if !judged.is_written {
        return Ok(Some(FindingKind::Entry));
    }
    Ok(None)
}

/// The event of an entry, with its stamp, where it comes next in the lane; it is then taken.
fn next_event<'e, R: Replay>(
    lane: &R,
    events: &mut LaneEvents<'e>,
    part: &EntryForm<'_>,
) -> Option<(Stamp, &'e ControlEvent)>
    requires awaits { Awaits (R.rules lane.now) (R.journal lane.now) events.old }
    ensures comes { let part = seen_part part.now in
        IfSome result (λ t. Comes (R.rules lane.now) part events.old t.0 t.1.now) }
    ensures taken { IfSome result (λ t. events.new ≡ taken_in events.old t.0) }
    ensures late { let entry = entry_of (R.rules lane.now) (R.journal lane.now) (seen_part part.now) in
        IfNone result (entry ≡ Err FindingKind.Order) }
{
    let stamp = part.words.stamp()?;
    let event = events.take(stamp)?;
    if lane.takes(event) {
        Some((stamp, event))
    } else {
        None
    }
}

/// What is wrong with an entry, or nothing, and then the lane took its event.
fn judge_entry<R: Replay>(
    lane: &mut R,
    events: &mut LaneEvents<'_>,
    editions: &mut Editions<'_>,
    part: &EntryForm<'_>,
) -> Result<Option<FindingKind>, Memory>
    requires awaits { Awaits (R.rules lane.old) (R.journal lane.old) events.old }
    requires names { Names (R.rules lane.old) (R.journal lane.old) editions.old }
    requires few { length (R.journal lane.old) < 4_294_967_295 }
    ensures judges { let before = R.journal lane.old in let after = R.journal lane.new in
        IfOk result (Judges (R.rules lane.old) before after (seen_part part.now) events.new editions.new) }
    ensures rules { OnOk result (R.rules lane.new ≡ R.rules lane.old) }
    ensures head { OnOk result (R.head lane.new ≡ R.head lane.old) }
{
    let Some((stamp, event)) = next_event(lane, events, part) else {
        return Ok(Some(FindingKind::Order));
    };
    if !may_name(editions, stamp.phase, &part.words.asked)? {
        return Ok(Some(FindingKind::Edition));
    }
    judge_made(lane, editions.plant(), stamp, event, part)
}

/// The number of the line behind a lane.
fn end_of(form: &LaneForm<'_>) -> u32
    requires { let lane = seen_lane form.now in lane.number + lane_size lane < 2 ^ 32 }
    ensures { let lane = seen_lane form.now in result ≡ lane.number + lane_size lane }
{
    let mut end = form.number + 1;
    for part in &form.entries {
        end += 1 + part.outs.len() as u32;
    }
    end
}

/// The first fault of a lane in a text, or none, and then the lane's journal is the one that the text writes.
pub fn judge_lane<R: Replay>(
    lane: &mut R,
    events: &mut LaneEvents<'_>,
    editions: &mut Editions<'_>,
    form: &LaneForm<'_>,
) -> Result<Option<Fault>, Memory>
    requires end { let text = seen_lane form.now in text.number + lane_size text < 2 ^ 32 }
    requires few { let text = seen_lane form.now in
        length (R.journal lane.old) + lane_size text < 2 ^ 32 }
    requires awaits { Awaits (R.rules lane.old) (R.journal lane.old) events.old }
    requires names { Names (R.rules lane.old) (R.journal lane.old) editions.old }
    ensures found { let text = seen_lane form.now in
        let found = journal_from (R.rules lane.old) (text.number + lane_size text) (R.journal lane.old) text.entries
        in IfOk result (λ fault. found ≡ found_of (R.journal lane.new) fault) }
    ensures head { OnOk result (R.head lane.new ≡ R.head lane.old) }
{
    for part in &form.entries {
        if let Some(kind) = judge_entry(lane, events, editions, part)? {
            let line = part.number;
            return Ok(Some(Fault { line, kind }));
        }
    }
    if events.all_taken() {
        return Ok(None);
    }
    Ok(Some(Fault {
        line: end_of(form),
        kind: FindingKind::Order,
    }))
}
