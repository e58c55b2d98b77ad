//! The top call: from words, a source and a sink to a status.
#![tactic(auto)]

ghost use Rattle.std.specs.Prelude.{◌≡◌, IfSome, map, string_bytes};
ghost use Rattle.journal_text.specs.Book.{IsEmpty};
ghost use Rattle.command_words.specs.Commands.{command_in};
ghost use Rattle.capture_input.specs.Input.{bytes};
ghost use Rattle.relay_call.specs.Outcome.{device, Says, plain_note, IsServed};

mod serving;

use capture_form::Book;
use capture_input::{Stop, note_of, status_of};
use relay_base::{Pace, Sink, Source, write_all};
use serving::serve;
use std::alloc::Global;
use std::sync::Wait;
use std::thread::Threads;

/// Writes a text to `notes`, whose fault is passed over.
fn say<N: Sink>(notes: &mut N, text: &[u8])
    ensures { let noted = bytes (N.held notes.old) (N.held notes.new) in
        Says noted (N.faults notes.old) (N.faults notes.new) text.now }
{
    let _ = write_all(notes, text);
}

/// What a caller does whom memory lacks before it has the words: `notes` gets the line that tells so, and the status is answered.
pub fn lacks_memory<N: Sink>(notes: &mut N) -> u8
    ensures status { result ≡ 7 }
    ensures said { let noted = bytes (N.held notes.old) (N.held notes.new) in
        let says = Says noted (N.faults notes.old) (N.faults notes.new) in
        IfSome (plain_note 7) says }
{
    say(notes, note_of(&Stop::Memory));
    status_of(&Stop::Memory)
}

/// Does what the words ask, and answers the status. `notes` gets the line that tells why a command stopped.
///
/// The word `run` reads a capture from `source`, runs it, fills `book` and writes its print to `out`. The words `gen`, a number and a count
/// of lines make a capture, leave `source` as it is, and write one line of counts. The word `m3ua` reads a head and a stream of M3UA
/// messages, whose events are those of link 1 in one phase, and writes the print; `m3ua frames` writes in its place the M3UA messages that
/// carry all that is sent. The word `chain` reads the steps of nodes in a row, leaves `book` empty, and writes what their users are told. The
/// word `audit` reads a capture, a line `%%%` and the text of a journal, leaves `book` empty, and writes `legal` or the first fault of the text.
///
/// | Status | Comes |
/// |---|---|
/// | 0 | the input was read to its end, and all output was written; a text that was judged is legal |
/// | 1 | exactly where the words are no stated command |
/// | 2 | exactly where the first fault of the input is of its head |
/// | 3 | exactly where the first fault is of a line of a capture, also of one with a text behind it, or of a step |
/// | 4 | exactly where a limit is passed before any other fault |
/// | 5 | only where the source failed in this call |
/// | 6 | only where `out` failed in this call |
/// | 7 | memory ran out |
/// | 8 | exactly where the first fault is of an M3UA message |
/// | 9 | as 0, but the text of a journal that was judged is illegal |
/// | 10 | exactly where the head of an audited capture is right and no line `%%%` follows its `%%` |
pub fn relay<R: Threads + Wait + Sync, S: Source, K: Sink, N: Sink, P: Pace>(
    rt: &R,
    alloc: Global,
    words: &[String],
    source: &mut S,
    out: &mut K,
    notes: &mut N,
    pace: &P,
    book: &mut Book,
) -> u8
    requires { IsEmpty book.old }
    ensures { let command = command_in (map string_bytes words.now) in
        let read = device (S.left source.old) (S.left source.new)
        (S.faults source.old) (S.faults source.new) in
        let written = device (K.held out.old) (K.held out.new)
        (K.faults out.old) (K.faults out.new) in
        let noted = device (N.held notes.old) (N.held notes.new)
        (N.faults notes.old) (N.faults notes.new) in
        IsServed command read written noted book.new result }
{
    match serve(rt, alloc, words, source, out, pace, book) {
        Ok(()) => 0,
        Err(stop) => {
            say(notes, note_of(&stop));
            status_of(&stop)
        }
    }
}
