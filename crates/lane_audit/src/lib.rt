//! The first fault of a lane in a journal's text, and whether lines of the text are those of an entry.
#![tactic(auto)]

mod judge;
mod replay;
mod written;

pub use judge::judge_lane;
pub use replay::{Judged, Replay};
pub use written::{is_control_entry_written, is_entry_written};
