//! The timers of a lane: which run, and which the next tick makes due.
#![tactic(auto)]

mod due;
mod tree;
mod wheel;

pub use due::Due;
pub use wheel::Wheel;
