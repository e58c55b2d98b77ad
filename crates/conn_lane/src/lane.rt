//! The connection lane.
ghost use Rattle.std.specs.Prelude.{◌≡◌, ◌<◌, ◌^◌, [], length, IfOk, OnOk, OnErr};
ghost use Rattle.relay_base.specs.declared.limits.TheConstants.{MOST_LANES};
ghost use Rattle.section_coupling.specs.Sound.{IsCredit};

use crate::timed::TimedConnections;
use conn_journal::{ConnJournal, Outcome};
use plant_core::{EntryList, LaneHead, Plant};
use relay_base::{Event, Memory, Stamp};
use std::alloc::Global;
use std::marker::Model;

/// The connections of one lane. Its journal is a legal one at all times.
pub struct ConnLane {
    journal: ConnJournal<TimedConnections>,
}

impl Drop for ConnLane {
    fn drop(self) {
        let Self { journal: _journal } = self;
    }
}

impl Model for ConnLane {
    ghost use Rattle.conn_journal.specs.Lanes.{ConnLaneState};

    ghost Value = { ConnLaneState };

    ghost view = { λ l. l.journal };
}

impl ConnLane {
    ghost use Rattle.section_model.specs.Journals.{IsConnJournal};
    ghost use Rattle.conn_journal.specs.Lanes.{ConnLaneTakes};
    ghost use Rattle.conn_journal.specs.Outcomes.{IsOutcome};

    /// The connection lane of this number, 0 to 15, before its first event. The greatest credit of its head is 127 at most.
    pub fn new(alloc: Global, head: &LaneHead, number: u8) -> Result<ConnLane, Memory>
        requires number { number < MOST_LANES }
        requires credit { IsCredit head.now.terms.credit }
        ensures { IfOk result (λ lane. lane ≡
            record { head = head.now; number = number; journal = [] }) }
    {
        let journal = ConnJournal::new(alloc, head, number)?;
        Ok(ConnLane { journal })
    }

    /// What would come of an event that it takes next, with these routing data. It takes none.
    pub fn outcome(&self, plant: &Plant, event: &Event) -> Result<Outcome, Memory>
        requires few { length self.now.journal < 2 ^ 32 }
        ensures { IfOk result (IsOutcome plant.now event.now self.now) }
    {
        self.journal.outcome(plant, event)
    }

    /// Takes an event, with these routing data. After want of memory the lane is as before, and takes a later event like any other.
    pub fn step(&mut self, plant: &Plant, stamp: Stamp, event: &Event) -> Result<(), Memory>
        requires few { length self.old.journal < 2 ^ 32 }
        ensures ok { OnOk result (ConnLaneTakes plant.now stamp event.now self.old self.new) }
        ensures err { OnErr result (self.new ≡ self.old) }
    {
        self.journal.step(plant, stamp, event)
    }

    /// The same with an event that becomes the journal's own, so that none is copied.
    pub fn step_owned(&mut self, plant: &Plant, stamp: Stamp, event: Event) -> Result<(), Memory>
        requires few { length self.old.journal < 2 ^ 32 }
        ensures ok { OnOk result (ConnLaneTakes plant.now stamp event self.old self.new) }
        ensures err { OnErr result (self.new ≡ self.old) }
    {
        self.journal.step_owned(plant, stamp, event)
    }

    /// What the lane did, event by event.
    pub fn journal(&self) -> &EntryList
        ensures value { result.now ≡ self.now.journal }
        ensures legal { IsConnJournal self.now.head self.now.number self.now.journal }
    {
        self.journal.journal()
    }

    /// What the lane did, as a list of its own.
    pub fn into_journal(self) -> EntryList
        ensures value { result ≡ self.journal }
        ensures legal { IsConnJournal self.head self.number self.journal }
    {
        let Self { journal } = self;
        journal.into_journal()
    }
}
