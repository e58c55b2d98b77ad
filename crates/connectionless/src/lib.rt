//! The connectionless service (Q.714, 4.1): what comes of units and service messages, and of the units that users give.
#![tactic(auto)]

mod asking;
mod cutting;
mod delivery;
mod forwarding;
mod given;
mod leaving;
mod outgoing;
mod returning;
mod segment;
mod unit;
mod unitdata;
mod user;

pub use asking::{message_ask, message_in, user_ask};
pub use cutting::CutUnit;
pub use forwarding::calling_onward;
pub use leaving::octets_of;
pub use returning::{refusal_output, return_outs};
pub use segment::{Next, Segment};
pub use unit::unit_outs;
pub use unitdata::{Kind, UnitView, unit_of, view_of};
pub use user::{reference_after, user_outs};
