//! The engine: the lanes of a node, and how they take a capture.
#![tactic(auto)]

mod copies;
mod node;
mod phase;
mod phase_lanes;
mod run;

pub use node::{ConnLaneList, DataLaneList, Node};
pub use phase::{run_phase, run_phase_owned};
pub use run::{run_capture, run_owned};
