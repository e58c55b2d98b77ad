//! The lanes of a phase, each at its place in the published routing data, and how they take what comes on its links.
#![tactic(auto)]

mod conn_seat;
mod lane_kind;
mod phase_lane;
mod phase_lanes;
mod run;
mod seated_kind;
mod turn;

pub use phase_lanes::{ConnSeatList, DataSeatList, PhaseLanes};
pub use run::take_phase;
