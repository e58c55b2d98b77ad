//! The judgement of a text.
ghost use Rattle.std.specs.Prelude.{◌≡◌, ◌<◌, ◌+◌, ◌^◌, ◌∷◌, length, IfOk};
ghost use Rattle.node_head.specs.Ranges.{IsHead};
ghost use Rattle.journal_form.specs.Inner.Seen.{seen_lane, seen_lanes};
ghost use Rattle.journal_finding.specs.Finding.{book_in};
ghost use Rattle.lane_events.specs.Placing.{all_placed};
ghost use Rattle.journal_audit.specs.Audit.{IsFinding};
ghost use Rattle.journal_audit.specs.Inner.Judging.{fault_in, IsShort, AreShort, others_in};

use crate::beside::Beside;
use crate::finding::{Finding, told};
use crate::lanes::judge_control;
use capture_form::Capture;
use control_replay::{ControlReplay, editions_by_phase};
use journal_finding::{Fault, FindingKind};
use journal_form::{FormRefused, LaneForm, read_form};
use lane_events::{PlacedPhases, place_all};
use relay_base::Memory;
use std::alloc::Global;

/// The first fault of the lanes behind the control lane, which took its events again.
fn judge_others(
    alloc: Global,
    capture: &Capture,
    placed: &PlacedPhases<'_>,
    control: &ControlReplay<'_>,
    forms: &[LaneForm<'_>],
) -> Result<Option<Fault>, Memory>
    requires head { IsHead capture.now.head }
    requires placed { placed.now ≡ all_placed capture.now.head capture.now.phases }
    requires control { control.now.head ≡ capture.now.head }
    requires few { length control.now.journal < 2 ^ 32 }
    requires count { let head = capture.now.head in
        length forms.now ≡ head.conn_lanes + head.data_lanes }
    requires short { AreShort (seen_lanes forms.now) }
    ensures { let head = capture.now.head in
        let phases = capture.now.phases in
        let found = others_in head phases control.now.journal (seen_lanes forms.now)
        in IfOk result (λ fault. fault ≡ fault_in found) }
{
    let journal = control.journal();
    let before = editions_by_phase(alloc, journal, capture.phases.len())?;
    let beside = Beside {
        alloc,
        capture,
        placed,
        control: journal,
        groups: control.groups(),
        before: before.as_slice(),
    };
    beside.judge_others(forms)
}

/// The first fault of the lanes of a text, if there is one, by the events with their places.
fn judge_placed(
    alloc: Global,
    capture: &Capture,
    placed: &PlacedPhases<'_>,
    control: &LaneForm<'_>,
    others: &[LaneForm<'_>],
) -> Result<Option<Fault>, Memory>
    requires head { IsHead capture.now.head }
    requires placed { placed.now ≡ all_placed capture.now.head capture.now.phases }
    requires count { let head = capture.now.head in
        length others.now ≡ head.conn_lanes + head.data_lanes }
    requires control { IsShort (seen_lane control.now) }
    requires short { AreShort (seen_lanes others.now) }
    ensures { let head = capture.now.head in
        let lanes = seen_lane control.now ∷ seen_lanes others.now in
        let found = book_in head capture.now.phases lanes
        in IfOk result (λ fault. fault ≡ fault_in found) }
{
    let mut lane = ControlReplay::new(alloc, capture)?;
    if let Some(fault) = judge_control(alloc, capture, placed, &mut lane, control)? {
        return Ok(Some(fault));
    }
    judge_others(alloc, capture, placed, &lane, others)
}

/// The first fault of the lanes of a text, if there is one.
fn judge_lanes(
    alloc: Global,
    capture: &Capture,
    forms: &[LaneForm<'_>],
) -> Result<Option<Fault>, Memory>
    requires head { IsHead capture.now.head }
    requires count { let head = capture.now.head in
        length forms.now ≡ 1 + (head.conn_lanes + head.data_lanes) }
    requires short { AreShort (seen_lanes forms.now) }
    ensures { let head = capture.now.head in
        let found = book_in head capture.now.phases (seen_lanes forms.now)
        in IfOk result (λ fault. fault ≡ fault_in found) }
{
    let placed = place_all(alloc, &capture.head, &capture.phases)?;
    judge_placed(alloc, capture, &placed, &forms[0], &forms[1..])
}

/// What is found of the text of a journal beside its capture.
pub fn judge(alloc: Global, capture: &Capture, text: &[u8]) -> Result<Finding, Memory>
    requires head { IsHead capture.now.head }
    requires few { length text.now + 1 < 2 ^ 32 }
    ensures { IfOk result (IsFinding capture.now.head capture.now.phases text.now) }
{
    let head = &capture.head;
    let form = match read_form(alloc, head.conn_lanes, head.data_lanes, text) {
        Ok(form) => form,
        Err(FormRefused::Fault(line)) => return Ok(Finding::Illegal {
            line,
            kind: FindingKind::Form,
        }),
        Err(FormRefused::Memory) => return Err(Memory),
    };
    let fault = judge_lanes(alloc, capture, form.lanes.as_slice())?;
    Ok(told(fault))
}
