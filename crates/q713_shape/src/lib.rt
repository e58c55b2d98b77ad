//! The messages of the Signalling Connection Control Part by their shapes (Q.713): one reader and one writer for every type.
#![tactic(auto)]

mod layout;
mod lengths;
mod parts;
mod put;
mod reading;
mod rules;
mod shape;
mod writing;

pub use layout::Layout;
pub use parts::Parts;
pub use rules::{OptionRule, VarRule};
pub use shape::Shape;
