//! Laws of the definitions, each as the contract of a function.
ghost use Rattle.book_law.specs.TextLaw.{TextLaw};

/// The text that the generator's definition writes is read as the capture that it makes.
pub fn generated_text_reads()
    ensures { TextLaw }
{}
