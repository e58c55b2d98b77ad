//! The laws of the definitions, each as the contract of a function.
ghost use Rattle.printable_law.specs.SectionRanges.{ConnAsksInRange, ConnKeepsRanges};

/// What an event asks of routing in a connection lane is in its ranges, where the event is.
#[tactic(auto, using(crate::proofs::Connections::conn_asks_in_range))]
pub fn conn_asks_in_range()
    ensures { ConnAsksInRange }
{}

/// The outputs of a legal journal of a connection lane are in their ranges, where its events and answers are.
#[tactic(auto, using(crate::proofs::Connections::conn_keeps_ranges))]
pub fn conn_keeps_ranges()
    ensures { ConnKeepsRanges }
{}
