//! The print of a book, written to a sink, a long one in parts.
ghost use Rattle.std.specs.Prelude.{◌≡◌, ◌≢◌, ℕ, List, [], Err, IfOk, OnOk, OnErr};
ghost use Rattle.std.specs.Io.KnownBytes.{Appends};
ghost use Rattle.relay_base.specs.Causes.{Rose};
ghost use Rattle.relay_base.specs.Streams.{AppendedPart};
ghost use Rattle.journal_text.specs.Print.{book_text};
ghost use Rattle.journal_text.specs.Inner.Pieces.{piece_text, pieces_text};
ghost use Rattle.journal_text.specs.Inner.Writing.{Writes, CarriesTo, Joins};

use crate::book::Book;
use crate::pieces::{Piece, count_entries, pieces_of, put_pieces};
use crate::text::Text;
use block_threads::map_each;
use relay_base::{Failed, Memory, Sink, write_all};
use std::alloc::{AllocError, Global};
use std::thread::Threads;

/// How many octets wait in memory before they are written.
const LONG: usize = 65_536;

/// How many pieces are printed at a time.
const WINDOW: usize = 128;

/// How many entries are too few to be printed in threads.
const FEW: usize = 256;

/// How many octets are too few to be written on their own.
const SHORT: usize = 4_096;

/// Why a print was not written to its end: the sink failed, or memory ran out.
#[derive(Clone, Copy)]
pub enum WriteFault {
    Sink,
    Memory,
}

impl From<Failed> for WriteFault {
    ghost use Rattle.journal_text.specs.declared.writing.WriteFault.TheVariants as write_fault;

    ghost from_gives = { λ _ e. e ≡ write_fault.Sink };

    fn from(_: Failed) -> WriteFault {
        WriteFault::Sink
    }
}

impl From<Memory> for WriteFault {
    ghost use Rattle.journal_text.specs.declared.writing.WriteFault.TheVariants as write_fault;

    ghost from_gives = { λ _ e. e ≡ write_fault.Memory };

    fn from(_: Memory) -> WriteFault {
        WriteFault::Memory
    }
}

impl From<AllocError> for WriteFault {
    ghost use Rattle.journal_text.specs.declared.writing.WriteFault.TheVariants as write_fault;

    ghost from_gives = { λ _ e. e ≡ write_fault.Memory };

    fn from(error: AllocError) -> WriteFault {
        WriteFault::from(Memory::from(error))
    }
}

/// Writes a text that waits.
pub fn write_text<K: Sink>(out: &mut K, text: &Text) -> Result<(), WriteFault>
    ensures { Writes (K.held out.old) (K.held out.new) (K.faults out.old) (K.faults out.new)
        text.now result }
{
    write_all(out, text.as_slice())?;
    Ok(())
}

/// Writes a text that waits, where it is long, and then takes it away.
pub fn write_if_long<K: Sink>(out: &mut K, text: &mut Text) -> Result<(), WriteFault>
    ensures { CarriesTo K.held K.faults out.old out.new text.old text.new result }
{
    if text.len() >= LONG {
        write_text(out, text)?;
        text.clear();
    }
    Ok(())
}

/// The print of a piece joins the text that waits, or is written behind it.
fn carry_print<K: Sink>(
    out: &mut K,
    text: &mut Text,
    print: Result<Text, AllocError>,
) -> Result<(), WriteFault>
    ensures { (piece : List ℕ) → IfOk print (λ text. text ≡ piece) →
        Joins K.held K.faults out.old out.new text.old text.new piece result }
{
    let print = print?;
    if print.len() < SHORT {
        text.append(&print)?;
        return write_if_long(out, text);
    }
    write_text(out, text)?;
    text.clear();
    write_text(out, &print)
}

/// The print of pieces joins the text that waits. Each is printed into a text of its own, in threads where they can be made.
fn carry_in_threads<R: Threads + Sync, K: Sink>(
    rt: &R,
    alloc: Global,
    out: &mut K,
    text: &mut Text,
    pieces: &[Piece<'_>],
) -> Result<(), WriteFault>
    ensures { Joins K.held K.faults out.old out.new text.old text.new (pieces_text pieces.now) result }
{
    let prints = map_each(
        rt,
        alloc,
        pieces,
        &|piece: &Piece<'_>| -> Result<Text, AllocError>
            ensures { IfOk result (λ text. text ≡ piece_text piece.now) }
        { piece.print(alloc) },
    )?;
    for print in prints {
        carry_print(out, text, print)?;
    }
    Ok(())
}

/// The print of some pieces joins the text that waits.
fn carry_window<R: Threads + Sync, K: Sink>(
    rt: &R,
    alloc: Global,
    out: &mut K,
    text: &mut Text,
    pieces: &[Piece<'_>],
) -> Result<(), WriteFault>
    ensures { Joins K.held K.faults out.old out.new text.old text.new (pieces_text pieces.now) result }
{
    if count_entries(pieces) <= FEW {
        put_pieces(text, pieces)?;
        return write_if_long(out, text);
    }
    carry_in_threads(rt, alloc, out, text, pieces)
}

/// The print of pieces joins the text that waits, a window of them after the other.
fn carry_pieces<R: Threads + Sync, K: Sink>(
    rt: &R,
    alloc: Global,
    out: &mut K,
    text: &mut Text,
    pieces: &[Piece<'_>],
) -> Result<(), WriteFault>
    ensures { Joins K.held K.faults out.old out.new text.old text.new (pieces_text pieces.now) result }
{
    for window in pieces.chunks(WINDOW) {
        carry_window(rt, alloc, out, text, window)?;
    }
    Ok(())
}

/// Writes the print of a book to a sink, in parts, so that a long one does not stand in memory whole. Many entries are printed in
/// pieces, in threads where they can be made, and few join a text that is written as soon as 65,536 octets wait. After an error a
/// front of the print was written.
pub fn write_book<R: Threads + Sync, K: Sink>(
    rt: &R,
    alloc: Global,
    book: &Book,
    out: &mut K,
) -> Result<(), WriteFault>
    ensures ok { OnOk result (Appends (K.held out.old) (K.held out.new) (book_text book.now)) }
    ensures err { let text = book_text book.now in
        OnErr result (AppendedPart (K.held out.old) (K.held out.new) text) }
    ensures fault { result ≡ Err WriteFault.Sink → Rose (K.faults out.old) (K.faults out.new) }
    ensures kept { result ≢ Err WriteFault.Sink → K.faults out.new ≡ K.faults out.old }
{
    let mut text = Text::of(alloc, "= control\n")?;
    let pieces = pieces_of(alloc, book)?;
    carry_pieces(rt, alloc, out, &mut text, pieces.as_slice())?;
    write_text(out, &text)
}
