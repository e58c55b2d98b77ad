//! The laws of the definitions, each as the contract of a function.
ghost use Rattle.finding_law.specs.FindingLaw.{FoundIsRight, FoundOnce, LegalIsRight, RightIsFound, SomethingIsFound};

/// A text that is found legal is the print of the book that is found, and this book is right for its head and its phases.
pub fn found_is_right()
    ensures { FoundIsRight }
{}

/// Whatever is found of the print of a right book, where its head and its phases are in their ranges: it is that book, so the print is legal.
pub fn right_is_found()
    ensures { RightIsFound }
{}

/// One thing is found of each text.
pub fn found_once()
    ensures { FoundOnce }
{}

/// And something is found of each.
pub fn something_is_found()
    ensures { SomethingIsFound }
{}

/// A text is found legal exactly where it is the print of a right book, for a head and phases in their ranges, and then that book is found.
pub fn legal_is_right()
    ensures { LegalIsRight }
{}
