//! What the control lane is told at its start.
use plant_core::{ReplicateList, Ticks};
use relay_base::{PcList, SsnList};

/// What the control lane is made with: the users, the points that are told of their service in this order, their replicates, at most one for each,
/// and the ticks of the timers.
#[derive(Clone)]
pub struct ControlHead {
    pub users: SsnList,
    pub concerned: PcList,
    pub replicates: ReplicateList,
    pub ticks: Ticks,
}

impl Drop for ControlHead {
    fn drop(self) {
        let Self {
            users: _users,
            concerned: _concerned,
            replicates: _replicates,
            ticks: _,
        } = self;
    }
}
