//! What the book of a run is, what its lanes are told of the head, and the routing data with which they begin.
//!
//! Each lane's journal is a legal one of its own (`IsConnJournal`, `IsDataJournal`, `IsControlJournal`), has each link's events once and in order, and
//! names at each routing a published edition whose answer it has (`IsRight`).
#![tactic(auto)]

mod heads;

pub use heads::{control_head_of, lane_head_of, plant_of};
