//! Laws of the definitions, each as the contract of a function.
ghost use Rattle.reassembly.specs.Laws.{HearsItsKeyAlone, StaysWithinBounds};

/// The reassembly of a key hangs on the segments of that key and on the ticks alone, whatever else is under way.
#[tactic(auto, using(crate::proofs::Alone::alone))]
pub fn hears_its_key_alone()
    ensures { HearsItsKeyAlone }
{}

/// There is at most one reassembly a key, and at most 256 in all, after each segment and each tick.
#[tactic(auto, using(crate::proofs::Within::stays_within))]
pub fn stays_within_bounds()
    ensures { StaysWithinBounds }
{}
