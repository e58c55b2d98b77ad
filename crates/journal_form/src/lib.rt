//! The form of a journal's text.
#![tactic(auto)]

mod field;
mod form;
mod heading;
mod outputs;
mod parts;
mod words;

pub use form::read_form;
pub use heading::{EntryLine, Routing, read_entry_line};
pub use outputs::is_output_line;
pub use parts::{EntryForm, Form, FormRefused, LaneForm};
