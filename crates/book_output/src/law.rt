//! The law of the print, as the contract of a function without a body.
ghost use Rattle.book_output.specs.PrintLaw.{PrintIsInLines};

/// What is written of a book's journals, entry after entry, is its print, and cut at its line feeds the print is its lines.
pub fn print_is_in_lines()
    ensures { PrintIsInLines }
{}
