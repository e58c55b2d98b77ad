//! The gate.
ghost use Rattle.std.specs.Prelude.{◌≡◌, ◌<◌};

use crate::lane::LaneState;
use crate::table::{Opening, Turns, View};
use atomic_table::{Seat, Table};
use std::alloc::Global;
use std::sync::atomic::AtomicUsize;

mod ends;
mod turns;

/// The most callers of a gate: the links of a node, and the control feeder.
pub const MOST_CALLERS: u8 = 9;

/// A lane behind a turn.
#[derive(Drop)]
pub struct Gate<L: LaneState> {
    pub(crate) table: Table<Option<L>, View, Opening<L>, Turns<L>, Global>,
    /// How many callers sleep, or are about to: only where there is one does a turn's end wake it. No clause speaks of it.
    pub(crate) sleeping: AtomicUsize,
    ghost sized: { (table.shared.table_id.words ≡ 1) × (table.shared.table_id.slots ≡ 1) × (0 < table.shared.key.callers) },
}

// A caller's place at the table of a gate of such lanes.
type Place<L> = Seat<Option<L>, View>;
