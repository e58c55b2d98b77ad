//! The data lane.
ghost use Rattle.std.specs.Prelude.{◌≡◌, [], IfOk, OnOk, OnErr};
ghost use Rattle.plant_core.specs.Terms.{IsLaneHead};

use crate::journal::UnitJournal;
use plant_core::{EntryList, LaneHead, Plant};
use relay_base::{Event, Memory, Stamp};
use std::alloc::Global;
use std::marker::Model;

/// The units of one lane. Its journal is a legal one at all times.
pub struct DataLane {
    journal: UnitJournal,
}

impl Drop for DataLane {
    fn drop(self) {
        let Self { journal: _journal } = self;
    }
}

impl Model for DataLane {
    ghost use Rattle.data_lane.specs.Legal.{LaneState};

    ghost Value = { LaneState };

    ghost view = { λ l. l.journal };
}

impl DataLane {
    ghost use Rattle.data_lane.specs.Legal.{IsDataJournal, AddsEntry};

    /// The data lane of this number, from 0, before its first event.
    pub fn new(alloc: Global, head: &LaneHead, number: u8) -> Result<DataLane, Memory>
        requires { IsLaneHead head.now }
        ensures { IfOk result (λ x. x ≡ record { head = head.now; number = number; journal = [] }) }
    {
        let journal = UnitJournal::new(alloc, head, number)?;
        Ok(DataLane { journal })
    }

    /// Takes an event, with these routing data. After want of memory the lane is as before.
    pub fn step(&mut self, plant: &Plant, stamp: Stamp, event: &Event) -> Result<(), Memory>
        ensures ok { OnOk result (AddsEntry plant.now stamp event.now self.old self.new) }
        ensures err { OnErr result (self.new ≡ self.old) }
    {
        self.journal.step(plant, stamp, event)
    }

    /// The same with an event that becomes the journal's own, so that none is copied.
    pub fn step_owned(&mut self, plant: &Plant, stamp: Stamp, event: Event) -> Result<(), Memory>
        ensures ok { OnOk result (AddsEntry plant.now stamp event self.old self.new) }
        ensures err { OnErr result (self.new ≡ self.old) }
    {
        self.journal.step_owned(plant, stamp, event)
    }

    /// What the lane did, event by event.
    pub fn journal(&self) -> &EntryList
        ensures value { result.now ≡ self.now.journal }
        ensures legal { IsDataJournal self.now.head self.now.number self.now.journal }
    {
        self.journal.journal()
    }

    /// What the lane did, as a list of its own.
    pub fn into_journal(self) -> EntryList
        ensures value { result ≡ self.journal }
        ensures legal { IsDataJournal self.head self.number self.journal }
    {
        let Self { journal } = self;
        journal.into_journal()
    }
}
