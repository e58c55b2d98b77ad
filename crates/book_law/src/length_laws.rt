//! The laws of the definitions, each as the contract of a function.
ghost use Rattle.book_law.specs.LengthLaw.{LanesAreCarried, BookIsCarried, NoneIsLeftOut};

/// In each legal journal of a lane, whatever events and answers it has, one M3UA message carries each message that is sent.
#[tactic(auto, using(crate::proofs::LengthBooks::lanes_are_carried))]
pub fn lanes_are_carried()
    ensures { LanesAreCarried }
{}

/// So it is in a right book.
#[tactic(auto, using(crate::proofs::LengthBooks::book_is_carried))]
pub fn book_is_carried()
    ensures { BookIsCarried }
{}

/// The M3UA messages of a right book are those of all that it sends, however long it is: none is left out.
#[tactic(auto, using(crate::proofs::LengthBooks::none_is_left_out))]
pub fn none_is_left_out()
    ensures { NoneIsLeftOut }
{}
