//! Laws of the definitions, each as the contract of a function.
ghost use Rattle.lane_law.specs.HearingLaw.{OneHears, OneHolds};
ghost use Rattle.lane_law.specs.TurnLaw.{EachInTurn, SameGeneration};

/// No local reference of a lane is held by two connections.
#[tactic(auto, using(crate::proofs::Standing::one_holds))]
pub fn one_holds()
    ensures { OneHolds }
{}

/// At most one connection of a lane hears a message or a request.
#[tactic(auto, using(crate::proofs::Hearing::one_hears))]
pub fn one_hears()
    ensures { OneHears }
{}

/// Each opening has the references of its slots' turns, which follow each other.
pub fn each_in_turn()
    ensures { EachInTurn }
{}

/// A reference that two openings took was given in two turns of its slot that differ by a multiple of 255.
pub fn same_generation()
    ensures { SameGeneration }
{}
