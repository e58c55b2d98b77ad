//! The node: reads a capture, runs it, and prints its journals.
#![tactic(auto)]

ghost use Rattle.std.specs.Prelude.{◌≡◌, drop, IfOk};
ghost use Rattle.std.specs.Vec.Iter.{into_iter_items};

use capture_form::Book;
use relay_base::{Memory, NoPace, StdSink, StdSource};
use relay_call::{lacks_memory, relay};
use std::alloc::Global;
use std::env::Args;
use std::io::ErrorKind;
use std::process::ExitCode;
use std::{env, io, mem};

/// The words after the program's name, in their order.
fn words(alloc: Global, args: Args) -> Result<Vec<String>, Memory>
    ensures { IfOk result (λ words. words.items ≡ drop 1 (into_iter_items args)) }
{
    let mut args = args;
    args.next();
    let mut words = Vec::new(alloc);
    for word in args {
        words.push(word)?;
    }
    Ok(words)
}

fn main(rt: HostRuntime) -> ExitCode {
    let alloc: Global = rt.alloc();
    let mut notes = StdSink {
        inner: rt.stderr(),
        faults: 0,
    };
    let words = match env::args(&rt) {
        Ok(args) => words(alloc, args),
        // a word that is no text is no word of a command
        Err(error) if error.kind() == ErrorKind::InvalidData => Ok(Vec::new(alloc)),
        Err(_) => Err(Memory),
    };
    let Ok(words) = words else {
        return ExitCode::from(lacks_memory(&mut notes));
    };
    let mut source = StdSource {
        inner: rt.reader(),
        faults: 0,
    };
    let mut out = StdSink {
        inner: io::writer(&rt),
        faults: 0,
    };
    let mut book = Book::new(alloc);
    let status = relay(
        &rt,
        alloc,
        words.as_slice(),
        &mut source,
        &mut out,
        &mut notes,
        &NoPace,
        &mut book,
    );
    // the process ends: its memory is given back whole, and not entry by entry
    mem::forget(book);
    ExitCode::from(status)
}
