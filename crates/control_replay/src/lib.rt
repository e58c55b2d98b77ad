//! The control lane takes the events of a capture again, and what its journal publishes: the groups
//! of changes, and how many editions before each phase.
#![tactic(auto)]

mod collector;
mod replay;
mod table;

pub use replay::ControlReplay;
pub use table::editions_by_phase;
