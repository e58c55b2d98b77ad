//! The connection lanes and the data lanes that do again what a journal's text says that they did.
#![tactic(auto)]

mod listed;
mod plain_lane;
mod replay;
mod soonest;

pub use listed::ListedConnections;
pub use plain_lane::PlainLane;
pub use replay::PlainReplay;
