//! M3UA messages (RFC 4666), one after another, as a source of events, and the message that carries octets of SCCP.
#![tactic(auto)]

mod carrier;
mod events;
mod fault;
pub mod limits;
mod message;
mod parameters;
mod port;
mod reader;
mod transfer;

pub use carrier::wrap;
pub use fault::{PortFault, PortKind, PortRefused};
pub use port::Port;
