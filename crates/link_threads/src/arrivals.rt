//! What is to come on a link.
use capture_form::LanePlace;
use relay_base::{Memory, Stamp};

/// An event that comes on a link, with its place and its stamp.
#[derive(Drop)]
pub struct Arrival<E> {
    pub place: LanePlace,
    pub stamp: Stamp,
    pub event: E,
}

/// What is left to come on a link, in its order.
pub trait Arrivals<E>: Drop {
    ghost use Rattle.std.specs.Prelude.{◌≡◌, [], ◌∷◌, length, IfOk, IfSome, IfNone};
    ghost use Rattle.link_threads.specs.Links.{Link};

    ghost left: { Self → Link E };

    /// How many events are left.
    fn len(&self) -> usize
        ensures { result ≡ length (left self.now) };

    /// The event that comes next.
    fn next(&mut self) -> Option<Arrival<E>>
        ensures some { IfSome result (λ a. left self.old ≡ a ∷ left self.new) }
        ensures none { IfNone result (left self.old ≡ []) };

    /// A copy of an event.
    fn copy(&self, event: &E) -> Result<E, Memory>
        ensures { IfOk result (λ copy. copy ≡ event.now) };
}
