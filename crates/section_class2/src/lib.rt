//! What a connection section does in both classes of the connection-oriented service (Q.714), and the data of class 2.
#![tactic(auto)]

mod firing;
mod hearing;
mod line;
mod sending;
mod taking;

pub use line::Line;
