//! The connection lane: the connections of one lane, with the wheel by which they wake, and its journal.
#![tactic(auto)]

mod connections;
mod lane;
mod placed;
mod timed;
mod waking;

pub use conn_journal::Outcome;
pub use lane::ConnLane;
