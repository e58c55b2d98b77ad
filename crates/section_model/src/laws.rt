//! Laws of the definitions, each as the contract of a function.
ghost use Rattle.section_model.specs.Laws.{StepByStep, TwoWorlds, NoHandIsLost};
ghost use Rattle.section_model.specs.Lengths.{ArrivesWithin, ReadsWithin, WritesWithin};
ghost use Rattle.section_model.specs.References.{ReferencesAreRead};

/// What a connection is after one more event hangs on what it was alone.
#[tactic(auto, using(crate::proofs::Following::one_more))]
pub fn step_by_step()
    ensures { StepByStep }
{}

/// Connections that were opened alike and heard the same act alike, whatever else ran.
#[tactic(auto, using(crate::proofs::Following::worlds))]
pub fn two_worlds()
    ensures { TwoWorlds }
{}

/// The ends hand back answers alone, and nothing on an answer. So two turns of an exchange are enough.
#[tactic(auto, using(crate::proofs::Handing::no_hand_is_lost))]
pub fn hands_end()
    ensures { NoHandIsLost }
{}

/// A message that was read has the lengths of Q.713.
#[tactic(auto, using(crate::proofs::ReadWithin::read_within))]
pub fn reads_within()
    ensures { ReadsWithin }
{}

/// What arrives for a connection has the lengths of Q.713.
#[tactic(auto, using(crate::proofs::ArriveWithin::arrives_within))]
pub fn arrives_within()
    ensures { ArrivesWithin }
{}

/// Messages of a connection with these lengths may be written.
#[tactic(auto, using(crate::proofs::InRanges::writes_within))]
pub fn writes_within()
    ensures { WritesWithin }
{}

/// The slot of a local reference that is given is its slot, and no reference is all ones.
#[tactic(auto, using(crate::proofs::References::references_are_read))]
pub fn references_are_read()
    ensures { ReferencesAreRead }
{}
