//! The steps that nodes in a row can take, and their run.
#![tactic(auto)]

mod step;
mod terms;

pub use step::Step;
pub use terms::{CREDIT, USER};
