//! Routing control (Q.714, 2.3): where a called address leads.
#![tactic(auto)]

mod control;

pub use control::{asked, route};
