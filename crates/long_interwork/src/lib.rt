//! LUDT and LUDTS for a point that can't take them: as XUDT or XUDTS, or cut into segments (Q.714, 4.1.1).
#![tactic(auto)]

mod forward;
mod routed;
mod shortening;

pub use forward::Forward;
pub use routed::{Sender, routed_outs};
pub use shortening::long_outs;
