//! What is written of a book: its print, the line of its counts, or the M3UA messages of what it sends.
#![tactic(auto)]

mod frames;
mod law;
mod report;

pub use frames::sent_frames;
pub use law::print_is_in_lines;
pub use report::{Report, write_report};
