//! Reports of a book.
ghost use Rattle.std.specs.Prelude.{◌≡◌, ◌≢◌, Err, OnOk, OnErr};
ghost use Rattle.std.specs.Io.KnownBytes.{Appends};
ghost use Rattle.relay_base.specs.Causes.{Rose};
ghost use Rattle.relay_base.specs.Streams.{AppendedPart};
ghost use Rattle.book_output.specs.Report.{report_text};

use crate::frames::sent_frames;
use capture_generator::counts_line;
use journal_text::{Book, WriteFault, write_book};
use relay_base::{Octets, Pc, Sink, write_all};
use std::alloc::Global;
use std::thread::Threads;

/// What is written of a book.
#[derive(Clone, Copy)]
pub enum Report {
    /// Its print.
    Print,
    /// The line of its counts, of a run over so many lines.
    Counts { lines: u32 },
    /// The M3UA messages that carry from this point what it sends.
    Frames { own: Pc },
}

fn write_octets<K: Sink>(out: &mut K, octets: &Octets) -> Result<(), WriteFault>
    ensures ok { OnOk result (Appends (K.held out.old) (K.held out.new) octets.now) }
    ensures err { OnErr result (AppendedPart (K.held out.old) (K.held out.new) octets.now) }
    ensures fault { result ≡ Err WriteFault.Sink → Rose (K.faults out.old) (K.faults out.new) }
    ensures kept { result ≢ Err WriteFault.Sink → K.faults out.new ≡ K.faults out.old }
{
    write_all(out, octets.as_slice())?;
    Ok(())
}

/// Writes a report of a book to a sink, its print in threads. After an error a front of it was written.
pub fn write_report<R: Threads + Sync, K: Sink>(
    rt: &R,
    alloc: Global,
    report: Report,
    book: &Book,
    out: &mut K,
) -> Result<(), WriteFault>
    ensures ok { OnOk result (Appends (K.held out.old) (K.held out.new)
        (report_text report book.now)) }
    ensures err { OnErr result (AppendedPart (K.held out.old) (K.held out.new)
        (report_text report book.now)) }
    ensures fault { result ≡ Err WriteFault.Sink → Rose (K.faults out.old) (K.faults out.new) }
    ensures kept { result ≢ Err WriteFault.Sink → K.faults out.new ≡ K.faults out.old }
{
    let octets = match report {
        Report::Print => return write_book(rt, alloc, book, out),
        Report::Counts { lines } => counts_line(alloc, lines, book)?,
        Report::Frames { own } => sent_frames(alloc, own, book)?,
    };
    write_octets(out, &octets)
}
