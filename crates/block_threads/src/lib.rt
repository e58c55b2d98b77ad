//! What is asked of each item of a list, in threads that take them one by one.
#![tactic(auto)]

mod each;
mod shares;

pub use each::map_each;
