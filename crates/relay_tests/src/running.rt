//! Calls of `relay` over memory, and what they leave.
ghost use Rattle.std.specs.Prelude.{◌<◌};

use crate::paces::Pacing;
use capture_form::Book;
use relay_base::{MemSink, MemSource};
use relay_call::relay;
use std::alloc::{AllocError, Global};
use std::process::Abort;
use std::sync::Wait;
use std::thread::Threads;

/// How much a device moves in one call, and at which call it fails; 0 for none.
#[derive(Clone, Copy)]
pub struct Device {
    pub most: usize,
    pub fails: u64,
}

/// How many bytes a sink has room for.
const ROOM: usize = 1_048_576;

pub const SOUND: Device = Device { most: 7, fails: 0 };

/// What a call left.
#[derive(Drop)]
pub struct Ran {
    pub status: u8,
    pub out: Vec<u8>,
    pub notes: Vec<u8>,
    pub lanes: usize,
}

fn source_of(alloc: Global, text: &[u8], device: Device) -> Result<MemSource, AllocError> {
    Ok(MemSource {
        bytes: Vec::from_slice(alloc, text)?,
        at: 0,
        most: device.most.max(1),
        fails: Vec::from_slice(alloc, &[device.fails])?,
        calls: 0,
        faults: 0,
    })
}

pub fn sink_of(alloc: Global, device: Device) -> Result<MemSink, AllocError> {
    Ok(MemSink {
        held: Vec::with_capacity(alloc, ROOM)?,
        most: device.most.max(1),
        fails: Vec::from_slice(alloc, &[device.fails])?,
        calls: 0,
        faults: 0,
    })
}

fn words_of(alloc: Global, words: &[&str]) -> Result<Vec<String>, AllocError> {
    let mut list = Vec::new(alloc);
    for word in words {
        list.push(String::from_str(alloc, word)?)?;
    }
    Ok(list)
}

pub fn call<R: Threads + Wait + Sync>(
    rt: &R,
    alloc: Global,
    words: &[&str],
    text: &[u8],
    devices: [Device; 3],
) -> Result<Ran, AllocError> {
    call_at(rt, alloc, words, text, devices, &Pacing::Free)
}

/// The same, at a pace.
pub fn call_at<R: Threads + Wait + Sync>(
    rt: &R,
    alloc: Global,
    words: &[&str],
    text: &[u8],
    devices: [Device; 3],
    pace: &Pacing,
) -> Result<Ran, AllocError> {
    let words = words_of(alloc, words)?;
    let mut source = source_of(alloc, text, devices[0])?;
    let mut out = sink_of(alloc, devices[1])?;
    let mut notes = sink_of(alloc, devices[2])?;
    let mut book = Book::new(alloc);
    let status = relay(
        rt,
        alloc,
        words.as_slice(),
        &mut source,
        &mut out,
        &mut notes,
        pace,
        &mut book,
    );
    Ok(Ran {
        status,
        out: out.held,
        notes: notes.held,
        lanes: book.units.len(),
    })
}

/// Compares what a call left.
pub fn assert_left<R: Abort>(rt: &R, ran: &Ran, status: u8, out: &[u8], notes: &[u8]) {
    assert_eq!(rt; ran.status, status);
    assert_eq!(rt; ran.out.as_slice(), out);
    assert_eq!(rt; ran.notes.as_slice(), notes);
}
