//! A connection in its place.
use conn_journal::Kept;

/// A connection that isn't over, with its number in the lane's journal.
#[derive(Drop)]
pub struct Placed {
    pub number: usize,
    pub one: Kept,
}
