//! Laws of the definitions, each as the contract of a function.
ghost use Rattle.unit_law.specs.SpellingLaw.{SpellingLaw};

/// The spelling of a message that may be written reads as that message, and the spelling of an address in form as that address.
pub fn written_reads_back()
    ensures { SpellingLaw }
{}
