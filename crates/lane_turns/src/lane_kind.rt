//! The kinds of lanes of a phase.
use conn_lane::ConnLane;
use data_lane::DataLane;
use lane_seats::{ControlSeat, Seat};
use std::sync::Wait;

/// The control lane with its publisher, or a connection lane or a data lane at its place.
#[derive(Drop)]
pub enum LaneKind<'r, R: Wait> {
    Control(ControlSeat<'r, R>),
    Conn(Seat<'r, R, ConnLane>),
    Data(Seat<'r, R, DataLane>),
}
