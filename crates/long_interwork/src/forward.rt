//! How an LUDT or an LUDTS goes on.
use relay_base::{Octets, Pc};

/// The point that a unit goes on to, with its addresses and its hop counter as they leave.
pub struct Forward {
    pub dpc: Pc,
    pub called: Octets,
    pub calling: Octets,
    pub hop: u8,
}

impl Drop for Forward {
    fn drop(self) {
        let Self {
            dpc: _,
            called: _called,
            calling: _calling,
            hop: _,
        } = self;
    }
}
