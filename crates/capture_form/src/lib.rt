//! The text of a capture.
#![tactic(auto)]

mod capture;
mod changes;
mod fault;
mod groups;
mod lane_place;
mod line;
mod line_read;
mod meaning;
mod note;
mod part;
mod progress;
mod reading;
mod refused;
mod requests;
mod stated;
mod steps;
mod text;
mod words;

pub use capture::{Capture, read_capture};
pub use fault::{CaptureFault, Limit, LineFault, LineKind};
pub use groups::MOST_CHANGES;
pub use journal_text::{Book, WriteFault, print_book, write_book};
pub use lane_place::{LanePlace, place};
pub use note::fault_note;
pub use part::{PartRead, read_part};
pub use progress::{Progress, begin_capture, end_capture, take_part};
pub use reading::{Phase, PhaseList, StampedControlList};
pub use refused::LineRefused;
pub use requests::RequestForm;
pub use stated::is_skipped;
pub use steps::{MOST_BARRIERS, MOST_LINES, MOST_TICK_LINES};
pub use text::split_words;
