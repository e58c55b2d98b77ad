//! Captures that are made of a number, and the line of counts of their journals.
#![tactic(auto)]

mod blocks;
mod count;
mod events;
mod tally;
mod whole;

pub use events::BLOCK;
pub use tally::counts_line;
pub use whole::generated;
