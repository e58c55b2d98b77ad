//! A gate: callers in threads of their own take turns at one lane, each with a pass that counts what it delivered.
#![tactic(auto)]

mod gate;
mod lane;
mod pass;
mod table;

pub use gate::{Gate, MOST_CALLERS};
pub use lane::LaneState;
pub use pass::{Pass, PassList, Refused};
