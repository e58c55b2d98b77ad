//! What is found of a journal's text, beside the capture that it is said to be of: definitions alone.
//!
//! A text is legal (`IsFinding`), or its first fault has a line and a kind: the form of the text, the order of a lane's events, the edition of a routing, or
//! what stands in an entry.
#![tactic(auto)]

mod finding;

pub use finding::{Fault, FindingKind};
