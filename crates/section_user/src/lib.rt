//! A user's end of a connection (Q.711): what its requests do, and what it is told.
#![tactic(auto)]

mod asking;
mod joining;
mod side;
mod taking;
mod units;

pub use side::UserSide;
