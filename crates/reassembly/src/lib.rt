//! Reassembly of messages that came in segments (Q.714, 4.1.1).
#![tactic(auto)]

mod bench;
mod laws;
mod piece;
mod process;
mod processes;

pub use bench::Bench;
pub use laws::{hears_its_key_alone, stays_within_bounds};
pub use piece::{Now, Piece, PieceList, Taken};
pub use processes::MOST_REASSEMBLIES;
