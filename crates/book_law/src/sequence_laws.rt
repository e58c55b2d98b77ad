//! The law of the definitions, as the contract of a function.
ghost use Rattle.book_law.specs.SequenceLaw.{SequenceLaw};

/// In a right book the units of one originating point and link selection that came on one link stand in one data lane, in the order of the
/// capture, and the outputs of each that waits for no other are its own.
#[tactic(auto, using(crate::proofs::Sequence::sequence))]
pub fn sequence_law()
    ensures { SequenceLaw }
{}
