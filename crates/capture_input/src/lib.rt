//! What a source states, a capture alone or with the text of a journal behind it, or why a command stops.
#![tactic(auto)]

mod audit_fault;
mod fault;
mod input;
mod laws;
mod parts;
mod reading;
mod stop;

pub use audit_fault::AuditFault;
pub use fault::InputFault;
pub use input::{Form, Input, take_input};
pub use laws::joined_reads_back;
pub use reading::{AuditInput, read_audit};
pub use stop::{Stop, note_of, status_of};
