//! What a connection section does in class 3 alone (Q.714, flow control, expedited data transfer, reset).
#![tactic(auto)]

mod hearing;
mod sending;
mod taking;
mod turning;
mod windows;

pub use windows::Windows;
