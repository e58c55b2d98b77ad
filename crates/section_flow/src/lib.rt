//! The flow control of a connection section of class 3 (Q.714): counts that the code holds as remainders modulo 128, and that clauses
//! read as whole numbers.
#![tactic(auto)]

mod counts;
mod flow;
pub mod limits;
mod unit;

pub use counts::{Counts, UnitList};
pub use flow::Flow;
pub use unit::Unit;
