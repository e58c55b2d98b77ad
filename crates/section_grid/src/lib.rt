//! The tables of states and events of a connection (Q.714, Annex B): what a connection section, and a user's end, does with each event in
//! each of its states. The acts take a cell by `section_cell` and `user_cell`; `Grid`, `wire_grid` and `user_grid` are the same tables by
//! numbers, for those who read them from outside.
#![tactic(auto)]

mod grid;
mod section_table;
mod user_table;

pub use grid::Grid;
pub use section_flow::Unit;
pub use section_model::{
    Acted, Cell, Hand, HandList, Input, KeptRelease, Occasion, SectionState, Timer, UserOccasion,
    UserState, WireHead,
};
pub use section_table::{section_cell, wire_grid};
pub use user_table::{user_cell, user_grid};
