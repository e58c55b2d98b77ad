//! What a lane takes next, by phase and link, and at which edition of the routing data.
#![tactic(auto)]

mod editions;
mod lane_events;
mod placing;

pub use editions::{Editions, MANY_EDITIONS};
pub use lane_events::LaneEvents;
pub use placing::{Lane, PlacedLink, PlacedPhase, PlacedPhases, place_all};
