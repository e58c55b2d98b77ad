//! A gate with a lane behind it.
use crate::lane_name::LaneName;
use lane_gate::{Gate, LaneState};

/// The gate of a lane, with its name.
#[derive(Drop)]
pub struct Door<L: LaneState> {
    pub name: LaneName,
    pub gate: Gate<L>,
}
