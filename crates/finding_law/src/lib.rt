//! What is found of a journal's text: it is legal exactly where it is the print of a right book of its capture, and one thing is found of each text. As
//! the contracts of functions without a body, with worked examples.
#![tactic(auto)]

mod laws;
mod rows;

pub use laws::{found_is_right, found_once, legal_is_right, right_is_found, something_is_found};
pub use rows::{legal, out_of_order, unlike};
