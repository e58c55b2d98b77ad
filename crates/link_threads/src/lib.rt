//! A thread for each link of a phase, which delivers the events of its link to lanes behind gates.
#![tactic(auto)]

mod arrivals;
mod closing;
mod dealing;
mod door;
mod feed;
mod feeders;
mod lane_name;
mod phase_link;
mod run;
mod runs;

pub use arrivals::{Arrival, Arrivals};
pub use lane_name::{LaneName, Named};
pub use phase_link::{PhaseLink, event_copy, phase_links};
pub use run::take_events;
