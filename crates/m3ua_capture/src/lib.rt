//! A capture that is a head of one link and a stream of M3UA messages (RFC 4666).
#![tactic(auto)]

mod fault;
mod feeding;
mod links;
mod one_link;
mod parts;
mod phases;
mod reading;
mod text;

pub use fault::{StreamFault, stream_note};
pub use one_link::read_one_link_head;
pub use reading::read_stream;
