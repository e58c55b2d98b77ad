//! The local references of a lane (Q.714, 3.3.2): which are free, which are held, and which are frozen after their use.
#![tactic(auto)]

mod slots;
mod state;

pub use slots::{Full, Slots};
pub use state::SlotState;
