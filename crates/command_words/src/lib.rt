//! The words of the command line.
#![tactic(auto)]

mod command;
mod number;
mod parser;
mod reading;

pub use command::Command;
pub use reading::command_of;
