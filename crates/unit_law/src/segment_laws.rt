//! Laws of the definitions, each as the contract of a function.
ghost use Rattle.unit_law.specs.SegmentLaw.{SegmentsAreFew};

/// A user's unit that goes on has at most 80 octets of addresses, so each full segment holds at least 171 octets of its data, and it has at most 15 segments.
pub fn segments_are_few()
    ensures { SegmentsAreFew }
{}
