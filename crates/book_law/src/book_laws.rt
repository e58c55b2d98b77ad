//! Laws of the definitions, each as the contract of a function.
ghost use Rattle.book_law.specs.Generated.{GeneratedIsSequential};
ghost use Rattle.book_law.specs.OneBook.{OneRightBook};

/// Phases whose events come one after another have one right book.
pub fn one_right_book()
    ensures { OneRightBook }
{}

/// The events of a generated capture come one after another.
pub fn generated_is_sequential()
    ensures { GeneratedIsSequential }
{}
