//! A step of nodes in a row.
use relay_base::Request;

/// One event in one of the nodes, which have numbers from 1 on.
#[derive(Drop)]
pub enum Step {
    /// The user of the first or of the last node asks for something.
    Ask { node: u8, request: Request },
    /// The first message that waits from this node to the next, or to the one before, arrives there.
    Pass { node: u8, forward: bool },
    /// A tick in the node's lane.
    Tick { node: u8 },
}
