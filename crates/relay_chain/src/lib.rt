//! Nodes in a row: neighbours are joined by one queue in each direction, and each step is one event in one node.
#![tactic(auto)]

mod chain;
mod nodes;

pub use chain::Chain;
pub use chain_node::TellList;
