//! The laws of the definitions, each as the contract of a function.
ghost use Rattle.printable_law.specs.UnitRanges.{DataAsksInRange, DataKeepsRanges};

/// What an event asks of routing in a data lane is in its ranges, where the event is.
#[tactic(auto, using(crate::proofs::Units::data_asks_in_range))]
pub fn data_asks_in_range()
    ensures { DataAsksInRange }
{}

/// The outputs of a legal journal of a data lane are in their ranges, where its events and answers are.
#[tactic(auto, using(crate::proofs::UnitJournals::data_keeps_ranges))]
pub fn data_keeps_ranges()
    ensures { DataKeepsRanges }
{}
