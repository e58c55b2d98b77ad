//! Messages of SCCP management (Q.713, 5): UDT between the managements of two points.
#![tactic(auto)]

mod message;

pub use message::{Format, Notice, data_in, is_for_management, notice_in, put_status, sent};
