//! The law of the definitions, as the contract of a function.
ghost use Rattle.printable_law.specs.ManagementRanges.{ControlKeepsRanges};

/// The outputs of a legal journal of the control lane, and the changes that it publishes, are in their ranges, where its events are.
#[tactic(auto, using(crate::proofs::Journals::control_keeps_ranges))]
pub fn control_keeps_ranges()
    ensures { ControlKeepsRanges }
{}
