//! A node of a row: its routing data, its connection lane, the messages that wait to its neighbours, and the local references that its connections took.
#![tactic(auto)]

mod coming;
mod kept;
mod mail;
mod node;
mod queue;
mod references;
mod start;
mod tells;

pub use node::Node;
pub use tells::TellList;
