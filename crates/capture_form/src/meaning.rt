//! What a line means.
use plant_core::{Change, ControlEvent};

/// What a line means that is no barrier.
#[derive(Drop)]
pub enum Meaning {
    /// An event of a link.
    Event(u8, ControlEvent),
    /// A row is added or taken away, alone or in a group.
    Edit(Change),
    /// A group of edits begins.
    Begin,
    /// A group of edits ends, whole.
    Commit,
}
