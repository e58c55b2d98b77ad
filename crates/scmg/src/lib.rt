//! SCCP management (Q.714, 5): what the control lane does with edits, status, messages of management and coordinated changes, and its journal.
#![tactic(auto)]

mod effect;
mod groups;
mod head;
mod kept;
mod known;
mod lane;
mod publish;
mod status_tests;
mod timed;

pub use head::ControlHead;
pub use lane::ControlLane;
pub use publish::Publish;
