//! The journals of a run, and their print.
ghost use Rattle.std.specs.Prelude.{◌≡◌, IfOk, IsTrue, ◌↔◌};
ghost use Rattle.journal_text.specs.Print.{book_text};
ghost use Rattle.journal_text.specs.Book.{IsEmpty};

use crate::pieces::{pieces_of, put_pieces};
use crate::text::Text;
use plant_core::{ControlList, EntryList, JournalList};
use relay_base::{Memory, Octets};
use std::alloc::Global;

/// The journals of the control lane, the connection lanes and the data lanes.
#[derive(Drop)]
pub struct Book {
    pub control: ControlList,
    pub conns: JournalList,
    pub units: JournalList,
}

impl Book {
    /// The empty book.
    pub fn new(alloc: Global) -> Book
        ensures { IsEmpty result }
    {
        Book {
            control: ControlList::new(alloc),
            conns: JournalList::new(alloc),
            units: JournalList::new(alloc),
        }
    }

    /// Whether the book has no journals.
    pub fn is_empty(&self) -> bool
        ensures { IsTrue result ↔ IsEmpty self.now }
    {
        self.control.is_empty() && self.conns.is_empty() && self.units.is_empty()
    }
}

/// The print of a book, in memory.
///
/// A run writes its print by [`crate::write_book`] instead, so that a long one does not stand in memory whole; this is for callers
/// that want the text.
pub fn print_book(alloc: Global, book: &Book) -> Result<Octets, Memory>
    ensures { IfOk result (λ o. o ≡ book_text book.now) }
{
    let mut text = Text::of(alloc, "= control\n")?;
    put_pieces(&mut text, pieces_of(alloc, book)?.as_slice())?;
    Ok(text.into_octets())
}
