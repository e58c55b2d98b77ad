//! Changes of the routing data.
ghost use Rattle.std.specs.Prelude.{◌≡◌, count_by};
ghost use Rattle.plant_core.specs.Changes.{alone, adds_row, bars_subsystem};

use crate::change_list::ChangeList;
use gtt_table::Row;
use relay_base::{Digits, Pc, Ssn};
use sccp_address::Selector;
use std::alloc::Global;

/// A single change of the routing data.
#[derive(Clone, Copy, PartialEq, Eq)]
pub enum Change {
    /// A row of the translation (Q.714, 2.4) is added.
    AddRow(Row),
    /// The row of this selector and prefix is taken away.
    DelRow(Selector, Digits),
    /// MTP-PAUSE of another point (Q.714, 5.2).
    BarPoint(Pc),
    /// MTP-RESUME of another point (Q.714, 5.2).
    FreePoint(Pc),
    /// A subsystem of another point is prohibited (Q.714, 5.3.2).
    BarSub(Pc, Ssn),
    /// A subsystem of another point is allowed (Q.714, 5.3.3).
    FreeSub(Pc, Ssn),
    /// A local user goes in service.
    LocalUp(Ssn),
    /// A local user goes out of service.
    LocalDown(Ssn),
}

/// Changes of the routing data that are made together, in order. Each edition is one group, whole.
#[derive(Clone, PartialEq, Eq, Drop)]
pub struct Group {
    pub changes: ChangeList,
}

impl Group {
    /// The group of one change.
    pub fn of(alloc: Global, change: Change) -> Group
        ensures { result ≡ alone change }
    {
        Group {
            changes: ChangeList::of(alloc, change),
        }
    }

    /// How many rows it adds.
    pub(crate) fn rows_added(&self) -> usize
        ensures { result ≡ count_by adds_row self.now.changes }
    {
        self.changes
            .as_slice()
            .iter()
            .filter(|change| matches!(change, Change::AddRow(_)))
            .count()
    }

    /// How many subsystems of other points it prohibits.
    pub(crate) fn subsystems_barred(&self) -> usize
        ensures { result ≡ count_by bars_subsystem self.now.changes }
    {
        self.changes
            .as_slice()
            .iter()
            .filter(|change| matches!(change, Change::BarSub(..)))
            .count()
    }
}

/// What a change, or a group of them, would do: alter the routing data; nothing, since the status is there already;
/// or nothing, since the row is there already, 4,096 rows are there, or no such row is.
#[derive(Clone, Copy)]
pub enum Verdict {
    Alters,
    Same,
    Duplicate,
    RowsFull,
    NoRow,
}
