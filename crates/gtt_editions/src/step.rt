//! What is published.
use plant_core::Group;

/// One step of what is published.
#[derive(Drop)]
pub enum Step {
    /// From now on the publisher knows the edition at the opening.
    Open,
    /// Each copy takes memory for the next group of changes, which is this one.
    Room(Group),
    /// A group of changes, whole.
    Change(Group),
    /// Nothing is published after it.
    End,
}
