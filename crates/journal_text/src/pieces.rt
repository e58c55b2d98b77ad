//! The print of a book in pieces, of which threads print one at a time.
ghost use Rattle.std.specs.Prelude.{◌≡◌, IfOk};
ghost use Rattle.std.specs.List.{flat_map};
ghost use Rattle.journal_text.specs.Print.{lanes_text};
ghost use Rattle.journal_text.specs.Inner.Pieces.{GoesOnWith, all_lanes_text, piece_text, pieces_text};
ghost use Rattle.journal_text.specs.Inner.Texts.{Puts};

use crate::book::Book;
use crate::entries::{Printed, put_entries, put_lane};
use crate::text::Text;
use plant_core::{ControlEntry, Entry, EntryList};
use std::alloc::{AllocError, Global};

/// The most entries of a piece.
const MOST_ENTRIES: usize = 256;

/// For how many octets of text an entry is given memory: a message of a hundred octets takes as many.
const ENTRY_OCTETS: usize = 256;

/// A piece of the print of a book.
#[derive(Clone, Copy)]
pub enum Piece<'a> {
    /// Entries of the control lane.
    Control(&'a [ControlEntry]),
    /// The line above a lane of a kind.
    Above { name: &'a str, number: usize },
    /// Entries of a lane.
    Lane(&'a [Entry]),
}

impl Piece<'_> {
    /// How many entries it has.
    pub fn entries(&self) -> usize {
        match self {
            Piece::Control(entries) => entries.len(),
            Piece::Above { .. } => 0,
            Piece::Lane(entries) => entries.len(),
        }
    }

    /// Appends the print.
    fn put(&self, text: &mut Text) -> Result<(), AllocError>
        ensures { Puts result text.old text.new (piece_text self.now) }
    {
        match self {
            Piece::Control(entries) => put_entries(text, entries),
            Piece::Above { name, number } => put_lane(text, name, *number),
            Piece::Lane(entries) => put_entries(text, entries),
        }
    }

    /// The print, as a text of its own, whose memory is taken at once: while a text grows the other threads wait for the kernel.
    pub fn print(&self, alloc: Global) -> Result<Text, AllocError>
        ensures { IfOk result (λ text. text ≡ piece_text self.now) }
    {
        let octets = self.entries().saturating_mul(ENTRY_OCTETS);
        let mut text = Text::with_capacity(alloc, octets)?;
        self.put(&mut text)?;
        Ok(text)
    }
}

/// How many entries pieces have.
pub fn count_entries(pieces: &[Piece<'_>]) -> usize {
    pieces.iter().fold(
        0,
        |count: usize, piece| count.saturating_add(piece.entries()),
    )
}

/// Appends the print of pieces.
pub fn put_pieces(text: &mut Text, pieces: &[Piece<'_>]) -> Result<(), AllocError>
    ensures { Puts result text.old text.new (pieces_text pieces.now) }
{
    for piece in pieces {
        piece.put(text)?;
    }
    Ok(())
}

/// Entries follow, in pieces.
fn add_entries<'a, P: Printed>(
    pieces: &mut Vec<Piece<'a>>,
    entries: &'a [P],
) -> Result<(), AllocError>
    ensures { GoesOnWith result pieces.old.items pieces.new.items (flat_map P.print entries.now) }
{
    for some in entries.chunks(MOST_ENTRIES) {
        pieces.push(P::piece(some))?;
    }
    Ok(())
}

/// The lanes of a kind follow.
fn add_lanes<'a>(
    pieces: &mut Vec<Piece<'a>>,
    name: &'a str,
    lanes: &'a [EntryList],
) -> Result<(), AllocError>
    ensures { GoesOnWith result pieces.old.items pieces.new.items (lanes_text name.now 0 lanes.now) }
{
    for (number, lane) in lanes.iter().enumerate() {
        pieces.push(Piece::Above { name, number })?;
        add_entries(pieces, lane.as_slice())?;
    }
    Ok(())
}

/// The pieces of the print of all lanes.
pub fn pieces_of(alloc: Global, book: &Book) -> Result<Vec<Piece<'_>>, AllocError>
    ensures { IfOk result (λ v. pieces_text v.items ≡ all_lanes_text book.now) }
{
    let mut pieces = Vec::new(alloc);
    add_entries(&mut pieces, book.control.as_slice())?;
    add_lanes(&mut pieces, "conn", book.conns.as_slice())?;
    add_lanes(&mut pieces, "data", book.units.as_slice())?;
    Ok(pieces)
}
