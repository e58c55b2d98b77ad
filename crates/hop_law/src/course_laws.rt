//! The law of the definitions, as the contract of a function.
ghost use Rattle.hop_law.specs.Hop.{HopLaw};

/// As long as no reset is sent, what came in at one section of a hop begins the units that left on the other, and while it may take them the rest waits.
pub fn one_hop()
    ensures { HopLaw }
{}
