//! Laws of the definitions, each as the contract of a function.
ghost use Rattle.hop_law.specs.ClassLaw.{ClassesStay};
ghost use Rattle.hop_law.specs.ClearingLaw.{NoClearing};
ghost use Rattle.hop_law.specs.ClosingLaw.{NoOpening};
ghost use Rattle.hop_law.specs.EarlyLaw.{EarlyLaw};
ghost use Rattle.hop_law.specs.LeavingLaw.{UnitsLeave};
ghost use Rattle.hop_law.specs.PassingLaw.{UnitsPass};
ghost use Rattle.hop_law.specs.PlaceLaw.{PlacesStay};
ghost use Rattle.hop_law.specs.TakingLaw.{UnitsAreTaken};

/// What comes in by one event at an end of a connection is the unit of a DT1 or DT2 for it, or the units of a text that its user sends. In class 2
/// these leave on the other end at once as DT1, and no others.
pub fn units_pass()
    ensures { UnitsPass }
{}

/// A section that is up takes the unit of a DT1 from its point in class 2. In class 3 it takes that of a DT2, or RSR leaves.
pub fn units_are_taken()
    ensures { UnitsAreTaken }
{}

/// The units that are read of what a section sends in a step: in class 2 those that come in at the other end by it, in class 3 the next ones of those
/// that came in there.
pub fn units_leave()
    ensures { UnitsLeave }
{}

/// A section keeps its link selection, and once its other end is known, its point and the other end's reference, whatever the connection hears.
pub fn places_stay()
    ensures { PlacesStay }
{}

/// At an end that was asked for a connection, or that asks for it, no unit came in. No end is so again after it was set up, or is over.
pub fn early_is_empty()
    ensures { EarlyLaw }
{}

/// What came in at an end goes on over each step, but in class 3 with RSR or RSC among the outputs.
pub fn no_clearing()
    ensures { NoClearing }
{}

/// A section that takes units did so before, and one that is reset was reset before, but where RSR or RSC is among the outputs.
pub fn no_opening()
    ensures { NoOpening }
{}

/// A connection of class 2 or 3 stays one, whatever it hears.
pub fn classes_stay()
    ensures { ClassesStay }
{}
