//! A data lane: the units that one lane takes, the messages that it puts together of segments, and the journal of what came of them.
#![tactic(auto)]

mod effect;
mod gathering;
mod journal;
mod lane;

pub use journal::UnitJournal;
pub use lane::DataLane;
