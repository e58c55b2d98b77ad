//! The routing data as one thread publishes them and others look at them, while edits of the translation (Q.714, 2.4) and statuses
//! (Q.714, 5.2 and 5.3) come in.
#![tactic(auto)]

mod moves;
mod open;
mod place;
mod publisher;
mod rule;
mod step;
mod store;
mod view;

pub use open::{PlaceList, editions};
pub use place::{Looking, Place};
pub use publisher::{Ended, Notice, Publisher};
