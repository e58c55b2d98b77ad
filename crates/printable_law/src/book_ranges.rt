//! The law of the definitions, as the contract of a function.
ghost use Rattle.printable_law.specs.BookRanges.{RightBooksAreInRange};

/// The stamps, the routings, the editions and the outputs of a right book are in their ranges, where its head and its phases are.
#[tactic(auto, using(crate::proofs::Books::right_books_are_in_range))]
pub fn right_books_are_in_range()
    ensures { RightBooksAreInRange }
{}
