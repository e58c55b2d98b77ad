//! The laws of the definitions, each as the contract of a function.
ghost use Rattle.printable_law.specs.PrintableLaw.{RightIsPrintable, CapturesArePrintable, StreamsArePrintable, RightIsStamped, PrintsHaveForm};

/// Each number that a right book writes has at most 64 digits, and what it writes as octets are octets, where its head and its phases are in their ranges.
pub fn right_is_printable()
    ensures { RightIsPrintable }
{}

/// So it is with a right book of each capture that an input is.
pub fn captures_are_printable()
    ensures { CapturesArePrintable }
{}

/// And with one of each capture that a head and a stream of M3UA messages are.
pub fn streams_are_printable()
    ensures { StreamsArePrintable }
{}

/// The stamp of each of its entries is as large as one may be that is read of the entry's line.
pub fn right_is_stamped()
    ensures { RightIsStamped }
{}

/// No line of its print breaks the form of a journal with the lanes of its head, and what is read of it are the lanes of the book.
pub fn prints_have_form()
    ensures { PrintsHaveForm }
{}
