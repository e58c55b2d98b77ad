//! The laws of the definitions, each as the contract of a function.
ghost use Rattle.printable_law.specs.CaptureRanges.{HeadsAreInRange, CapturesAreInRange};

/// The head that a text states is in its ranges.
#[tactic(auto, using(crate::proofs::Heads::heads_are_in_range))]
pub fn heads_are_in_range()
    ensures { HeadsAreInRange }
{}

/// The head, the stamps and the events of the capture that an input is are in their ranges.
pub fn captures_are_in_range()
    ensures { CapturesAreInRange }
{}
