//! The law of the definitions, as the contract of a function.
ghost use Rattle.printable_law.specs.StreamRanges.{StreamsAreInRange};

/// The head, the stamps and the events of the capture that a head and a stream of M3UA messages are, are in their ranges.
pub fn streams_are_in_range()
    ensures { StreamsAreInRange }
{}
