//! The lanes behind the control lane, whose routings name editions that it published.
ghost use Rattle.std.specs.Prelude.{◌≡◌, ◌<◌, ◌≤◌, ◌+◌, length, IfOk};
ghost use Rattle.relay_base.specs.declared.limits.TheConstants.{MOST_LANES};
ghost use Rattle.journal_form.specs.Inner.Seen.{seen_lane, seen_lanes};
ghost use Rattle.journal_finding.specs.Finding.{journal_in, journals_in};
ghost use Rattle.control_replay.specs.Tables.{named_first};
ghost use Rattle.journal_audit.specs.Inner.Judging.{fault_in, IsShort, AreShort, others_in, kind_rules, IsBeside};

use crate::lanes::judge_first;
use capture_form::Capture;
use conn_journal::ConnJournal;
use data_lane::UnitJournal;
use journal_finding::Fault;
use journal_form::LaneForm;
use lane_events::{Editions, PlacedPhases};
use lane_replays::{ListedConnections, PlainLane, PlainReplay};
use plant_core::{ControlList, Group};
use relay_base::Memory;
use right_book::plant_of;
use std::alloc::Global;

/// What the lanes behind the control lane are judged beside.
#[derive(Clone, Copy)]
pub struct Beside<'a> {
    pub alloc: Global,
    pub capture: &'a Capture,
    /// Its events, each with its place.
    pub placed: &'a PlacedPhases<'a>,
    /// The journal of the control lane.
    pub control: &'a ControlList,
    /// The groups of changes that it published.
    pub groups: &'a [Group],
    /// How many of them before each phase, from 0.
    pub before: &'a [u64],
}

impl Beside<'_> {
    /// The first fault of the lane of a kind and a number, if there is one. These editions may be named, and none is yet.
    fn judge_named<L: PlainLane>(
        &self,
        number: u8,
        editions: &mut Editions<'_>,
        form: &LaneForm<'_>,
    ) -> Result<Option<Fault>, Memory>
        requires beside { IsBeside self.now }
        requires number { number < MOST_LANES }
        requires editions { let head = self.now.capture.now.head in
            editions.old ≡ named_first head self.now.groups.now self.now.before.now }
        requires short { IsShort (seen_lane form.now) }
        ensures { let rules = kind_rules L.named L.question L.outs self.now number in
            IfOk result (λ fault. fault ≡ fault_in (journal_in rules (seen_lane form.now))) }
    {
        let mut lane = PlainReplay::<L>::new(self.alloc, self.capture, self.control, number)?;
        let name = L::lane(number);
        judge_first(self.alloc, name, self.placed, &mut lane, editions, form)
    }

    /// The first fault of the lane of a kind and a number, if there is one.
    fn judge_lane<L: PlainLane>(
        &self,
        number: u8,
        form: &LaneForm<'_>,
    ) -> Result<Option<Fault>, Memory>
        requires beside { IsBeside self.now }
        requires number { number < MOST_LANES }
        requires short { IsShort (seen_lane form.now) }
        ensures { let rules = kind_rules L.named L.question L.outs self.now number in
            IfOk result (λ fault. fault ≡ fault_in (journal_in rules (seen_lane form.now))) }
    {
        let plant = plant_of(self.alloc, &self.capture.head)?;
        let mut editions = Editions::new(plant, self.groups, self.before);
        self.judge_named::<L>(number, &mut editions, form)
    }

    /// The first fault of the lanes of a kind, if there is one.
    fn judge_kind<L: PlainLane>(&self, forms: &[LaneForm<'_>]) -> Result<Option<Fault>, Memory>
        requires beside { IsBeside self.now }
        requires few { length forms.now ≤ MOST_LANES }
        requires short { AreShort (seen_lanes forms.now) }
        ensures { let rules = kind_rules L.named L.question L.outs self.now in
            IfOk result (λ fault. fault ≡ fault_in (journals_in rules 0 (seen_lanes forms.now))) }
    {
        for (number, form) in forms.iter().enumerate() {
            if let Some(fault) = self.judge_lane::<L>(number as u8, form)? {
                return Ok(Some(fault));
            }
        }
        Ok(None)
    }

    /// The first fault of the connection lanes and the data lanes behind them, if there is one.
    pub fn judge_others(&self, forms: &[LaneForm<'_>]) -> Result<Option<Fault>, Memory>
        requires beside { IsBeside self.now }
        requires count { let head = self.now.capture.now.head in
            length forms.now ≡ head.conn_lanes + head.data_lanes }
        requires short { AreShort (seen_lanes forms.now) }
        ensures { let head = self.now.capture.now.head in
            let phases = self.now.capture.now.phases in
            let found = others_in head phases self.now.control.now (seen_lanes forms.now)
            in IfOk result (λ fault. fault ≡ fault_in found) }
    {
        let (conns, units) = forms.split_at(usize::from(self.capture.head.conn_lanes));
        if let Some(fault) = self.judge_kind::<ConnJournal<ListedConnections>>(conns)? {
            return Ok(Some(fault));
        }
        self.judge_kind::<UnitJournal>(units)
    }
}
