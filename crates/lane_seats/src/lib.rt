//! The control lane with its publisher, and other lanes at places from which they look at the published routing data.
#![tactic(auto)]

mod control_seat;
mod publisher;
mod seat;
mod unit_seat;

pub use control_seat::ControlSeat;
pub use publisher::PhasePublisher;
pub use seat::Seat;
pub use unit_seat::unit_takes;
