//! What all nodes of a chain have alike.

/// The subsystem of the user at the first and at the last node.
pub const USER: u8 = 8;

/// The greatest credit of each node.
pub const CREDIT: u8 = 7;
