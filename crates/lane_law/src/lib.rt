//! The laws of a connection lane (Q.714, 3.3.2), as the contracts of functions without a body: a legal journal is what one run gives, and it parts anywhere;
//! no local reference is held twice, so at most one connection hears a message; and whose an entry's outputs are.
#![tactic(auto)]

mod hearing_laws;
mod journal_laws;
mod lane_laws;

pub use hearing_laws::{each_in_turn, one_hears, one_holds, same_generation};
pub use journal_laws::{journal_splits, legal_is_played};
pub use lane_laws::{parts_stand, two_worlds};
