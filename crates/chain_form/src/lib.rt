//! The text that states the steps of nodes in a row.
#![tactic(auto)]

mod fault;
mod line;
mod reading;

pub use fault::ChainFault;
pub use reading::{ChainInput, LEAST_NODES, MOST_NODES, StepLine, StepList, read_chain};
