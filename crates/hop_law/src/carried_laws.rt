//! Laws of the definitions, each as the contract of a function.
ghost use Rattle.hop_law.specs.CarriedLaw.{UnitsAreRead};

/// The unit that a section sends as DT1 or as DT2 is read of its octets again, with the destination reference, and those that leave on a
/// section are those that it sends.
#[tactic(auto, using(crate::proofs::Reading::units_are_read))]
pub fn units_are_read()
    ensures { UnitsAreRead }
{}
