//! The run of nodes in a row, printed as it goes.
#![tactic(auto)]

mod print;
mod running;

pub use running::run_chain;
