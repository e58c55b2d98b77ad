//! The rows of global title translation (Q.714, 2.4), and the search among them.
#![tactic(auto)]

mod row;
mod search;
mod table;

pub use row::{Entity, Row};
pub use table::{AddFault, Look, NoSuchRow, Table};
