//! A capture that is lent to its run.

use crate::paces::Pacing;
use crate::running::{SOUND, assert_left, call, sink_of};
use book_output::{Report, write_report};
use capture_form::{Book, read_capture};
use node_engine::run_capture;
use std::alloc::Global;
use std::sync::Wait;
use std::test::Fail;
use std::thread::Threads;

/// The units of two links, for two lanes, and behind a barrier a tick, which goes to all lanes.
const LENT: &[u8] =
    b"point = 100\nusers = [8]\nlinks = 2\ndata_lanes = 2\n%%\nm 1 200 0 090003050702420802420601aa\nm 2 200 1 090003050702420802420601aa\nw\nt\n";

/// The print of a capture that its run is lent.
fn lent_print<R: Threads + Wait + Sync>(
    rt: &R,
    alloc: Global,
    text: &[u8],
) -> Result<Vec<u8>, Fail> {
    let capture = read_capture(alloc, text)?;
    let mut book = Book::new(alloc);
    run_capture(rt, alloc, &capture, &Pacing::Free, &mut book)?;
    let mut out = sink_of(alloc, SOUND)?;
    if write_report(rt, alloc, Report::Print, &book, &mut out).is_err() {
        return Err(Fail::new("no print"));
    }
    Ok(out.held)
}

/// It has the print that the top call writes of it.
#[test]
fn lent_capture(rt: HostRuntime) -> Result<(), Fail> {
    let print = lent_print(&rt, rt.alloc(), LENT)?;
    let ran = call(&rt, rt.alloc(), &["run"], LENT, [SOUND; 3])?;
    assert_left(&rt, &ran, 0, print.as_slice(), b"");
    Ok(())
}
