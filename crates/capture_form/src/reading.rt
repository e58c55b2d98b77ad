//! Lines that are read one after the other.

use crate::changes::OpenGroup;
use plant_core::ControlEvent;
use relay_base::{PlainList, Stamp};

/// Events with their stamps.
pub type StampedControlList = PlainList<(Stamp, ControlEvent)>;

/// The events of a phase, one list for each link from 0.
pub type Phase = PlainList<StampedControlList>;

/// Phases, the first of which is number 1.
pub type PhaseList = PlainList<Phase>;

/// What was read so far: the phases that ended, the one that stands, its number, that of the line that is taken, how many event
/// lines there are, and tick lines among them, and the group that stands open.
#[derive(Drop)]
pub struct Reading {
    pub phases: PhaseList,
    pub current: Phase,
    pub phase: u32,
    pub line: u32,
    pub events: u32,
    pub ticks: u32,
    pub group: Option<OpenGroup>,
}
