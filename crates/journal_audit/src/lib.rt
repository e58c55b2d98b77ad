//! Whether the text of a journal is legal beside its capture.
#![tactic(auto)]

mod beside;
mod finding;
mod judgement;
mod lanes;

pub use finding::{Finding, write_finding};
pub use journal_finding::FindingKind;
pub use judgement::judge;
