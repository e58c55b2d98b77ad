//! What would come of an event.
use relay_base::{Outs, Ref24};

/// The outputs of an event that a lane would take next, and the local references that the ends would take of a connection which it opens.
#[derive(Drop)]
pub struct Outcome {
    pub outs: Outs,
    pub this: Option<Ref24>,
    pub that: Option<Ref24>,
}
