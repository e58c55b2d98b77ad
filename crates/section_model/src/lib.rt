//! Connections of the Signalling Connection Control Part (Q.714), as definitions, and the words that they speak of.
#![tactic(auto)]

mod arrival;
mod cell;
mod hand;
mod input;
mod laws;
pub mod limits;
mod sending;
mod wire;

pub use arrival::{ArrivalView, ParametersView, arrival_in, arrival_of};
pub use cell::{Cell, Occasion, SectionState, Timer, UserOccasion, UserState};
pub use hand::{Acted, Came, Hand, HandList, KeptRelease};
pub use input::Input;
pub use laws::{
    arrives_within, hands_end, reads_within, references_are_read, step_by_step, two_worlds,
    writes_within,
};
pub use sending::{copied, copied_octets, sent_on};
pub use wire::WireHead;
