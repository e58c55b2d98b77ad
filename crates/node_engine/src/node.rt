//! The lanes of a node.
ghost use Rattle.std.specs.Prelude.{◌≡◌, ◌≤◌, [], length, IsTrue, IfOk};
ghost use Rattle.std.specs.List.{AllByRecursion};
ghost use Rattle.relay_base.specs.declared.limits.TheConstants.{GREATEST_CREDIT, MOST_LANES};
ghost use Rattle.node_head.specs.Addable.{are_addable};
ghost use Rattle.node_head.specs.Ranges.{IsHead};
ghost use Rattle.right_book.specs.Heads.{routing_of, lane_head_of, control_head_of};
ghost use Rattle.right_book.specs.Lanes.{LanesFrom};
ghost use Rattle.node_engine.specs.Running.{IsFirst, IsConnLaneOf, IsDataLaneOf};

use conn_lane::ConnLane;
use data_lane::DataLane;
use node_head::Head;
use relay_base::Memory;
use right_book::{control_head_of, lane_head_of, plant_of};
use scmg::{ControlHead, ControlLane};
use std::alloc::Global;

/// Connection lanes, by their numbers from 0.
pub type ConnLaneList = Vec<ConnLane>;

/// Data lanes, by their numbers from 0.
pub type DataLaneList = Vec<DataLane>;

/// The lanes of a node. The control lane has the routing data that all of them read.
#[derive(Drop)]
pub struct Node {
    pub control: ControlLane,
    pub conns: ConnLaneList,
    pub units: DataLaneList,
}

/// The control lane of a head that was told this, before its first event.
fn told_lane(alloc: Global, head: &Head, told: &ControlHead) -> Result<ControlLane, Memory>
    requires rows { IsTrue (are_addable [] head.now.row) }
    requires told { told.now ≡ control_head_of head.now }
    ensures { IfOk result (λ lane. lane ≡
        record { head = control_head_of head.now; start = routing_of head.now; journal = [] }) }
{
    let plant = plant_of(alloc, head)?;
    ControlLane::new(alloc, told, plant)
}

/// The control lane of a head, before its first event.
fn control_lane(alloc: Global, head: &Head) -> Result<ControlLane, Memory>
    requires { IsTrue (are_addable [] head.now.row) }
    ensures { IfOk result (λ lane. lane ≡
        record { head = control_head_of head.now; start = routing_of head.now; journal = [] }) }
{
    let told = control_head_of(alloc, head)?;
    told_lane(alloc, head, &told)
}

/// The connection lanes of a head, before their first events.
fn conn_lanes(alloc: Global, head: &Head) -> Result<ConnLaneList, Memory>
    requires lanes { head.now.conn_lanes ≤ MOST_LANES }
    requires credit { head.now.credit ≤ GREATEST_CREDIT }
    ensures count { IfOk result (λ lanes. length lanes.items ≡ head.now.conn_lanes) }
    ensures lanes { IfOk result (λ lanes. LanesFrom (IsConnLaneOf head.now) 0 lanes.items) }
    ensures empty { IfOk result (λ lanes. AllByRecursion (λ l. l.journal ≡ []) lanes.items) }
{
    let lane_head = lane_head_of(alloc, head)?;
    let mut lanes = Vec::new(alloc);
    for number in 0..head.conn_lanes {
        let lane = ConnLane::new(alloc, &lane_head, number)?;
        lanes.push(lane)?;
    }
    Ok(lanes)
}

/// The data lanes of a head, before their first events.
fn data_lanes(alloc: Global, head: &Head) -> Result<DataLaneList, Memory>
    requires { IsHead head.now }
    ensures count { IfOk result (λ lanes. length lanes.items ≡ head.now.data_lanes) }
    ensures lanes { IfOk result (λ lanes. LanesFrom (IsDataLaneOf head.now) 0 lanes.items) }
    ensures empty { IfOk result (λ lanes. AllByRecursion (λ l. l.journal ≡ []) lanes.items) }
{
    let lane_head = lane_head_of(alloc, head)?;
    let mut lanes = Vec::new(alloc);
    for number in 0..head.data_lanes {
        let lane = DataLane::new(alloc, &lane_head, number)?;
        lanes.push(lane)?;
    }
    Ok(lanes)
}

/// The control lane alone.
pub fn control_alone(alloc: Global, head: &Head) -> Result<Node, Memory>
    requires { IsTrue (are_addable [] head.now.row) }
    ensures { IfOk result (λ node. node.control ≡
        record { head = control_head_of head.now; start = routing_of head.now; journal = [] }) }
{
    let control = control_lane(alloc, head)?;
    Ok(Node {
        control,
        conns: Vec::new(alloc),
        units: Vec::new(alloc),
    })
}

impl Node {
    /// The lanes before the first event.
    pub fn start(alloc: Global, head: &Head) -> Result<Node, Memory>
        requires { IsHead head.now }
        ensures { IfOk result (λ node. IsFirst head.now node) }
    {
        let conns = conn_lanes(alloc, head)?;
        let units = data_lanes(alloc, head)?;
        let control = control_lane(alloc, head)?;
        Ok(Node {
            control,
            conns,
            units,
        })
    }
}
