//! Laws of the definitions, each as the contract of a function.
ghost use Rattle.printable_law.specs.FormLaw.{HeadingsHaveForm, LanesHaveForm, OutputsHaveForm, StampsAreRead};
ghost use Rattle.printable_law.specs.FormLaw.{PrintHasForm, PrintIsRead, WordsArePrinted};

/// Words that the form takes for numbers and octets are printed of some.
#[tactic(auto, using(crate::proofs::Back::words_are_printed))]
pub fn words_are_printed()
    ensures { WordsArePrinted }
{}

/// The line of an output that is printed is one that the form allows.
#[tactic(auto, using(crate::proofs::Outputs::outputs_have_form))]
pub fn outputs_have_form()
    ensures { OutputsHaveForm }
{}

/// The lines of lanes that are printed are those of the form.
#[tactic(auto, using(crate::proofs::FormReading::lanes_have_form))]
pub fn lanes_have_form()
    ensures { LanesHaveForm }
{}

/// The line of an entry that is printed says its stamp, and its routing or what it published.
#[tactic(auto, using(crate::proofs::Headings::headings_have_form))]
pub fn headings_have_form()
    ensures { HeadingsHaveForm }
{}

/// Its stamp is read of these words.
#[tactic(auto, using(crate::proofs::Stamps::stamps_are_read))]
pub fn stamps_are_read()
    ensures { StampsAreRead }
{}

/// No line of a print breaks the form of a journal with as many lanes as the book has.
#[tactic(auto, using(crate::proofs::Print::print_has_form))]
pub fn print_has_form()
    ensures { PrintHasForm }
{}

/// What is read of a print are the lanes of the book with their entries and outputs.
#[tactic(auto, using(crate::proofs::FormReading::print_is_read))]
pub fn print_is_read()
    ensures { PrintIsRead }
{}
