//! A capture that comes from a source piece by piece: the lines of a piece are read in threads, while what those of the piece before say is taken.
#![tactic(auto)]

mod blocks;
mod fault;
mod feed;
mod reading;
mod whole;

pub use fault::PieceFault;
pub use reading::take_capture;
