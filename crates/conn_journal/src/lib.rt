//! The connections of a lane and its journal, over any store of the connections.
#![tactic(auto)]

mod change;
mod index;
mod journal;
mod kept;
mod laws;
mod openings;
mod outcome;
mod store;

pub use change::Next;
pub use journal::ConnJournal;
pub use kept::Kept;
pub use laws::keeps_all;
pub use outcome::Outcome;
pub use store::Store;
