//! The events of a stream, which is fed to a port by pieces.
ghost use Rattle.std.specs.Prelude.{◌≡◌, ◌≤◌, ◌+◌, ◌++◌, [], length, IfErr, OnOk, IfOk};
ghost use Rattle.relay_base.specs.declared.limits.TheConstants.{MOST_BYTES};
ghost use Rattle.m3ua_port.specs.Frames.{frames_of};
ghost use Rattle.m3ua_port.specs.declared.limits.TheConstants.{MOST_OCTETS};
ghost use Rattle.m3ua_capture.specs.Streams.{Reads, limited};
ghost use Rattle.m3ua_capture.specs.Inner.Feeding.{IsFed, Refuses};

use crate::fault::StreamFault;
use capture_form::{CaptureFault, Limit, MOST_LINES};
use m3ua_port::{Port, PortRefused};
use relay_base::{Memory, Pc, StampedList};
use std::alloc::Global;

/// The most octets of a piece.
const PIECE: usize = 4_096;

/// Feeds a piece, and tests how many events there are.
fn feed_piece(port: &mut Port, piece: &[u8], events: &mut StampedList) -> Result<(), StreamFault>
    requires fed { IsFed port.old port.old.own port.old.fed events.old }
    requires room { length port.old.fed + length piece.now ≤ MOST_OCTETS }
    ensures ok { OnOk result (IsFed port.new port.old.own (port.old.fed ++ piece.now) events.new) }
    ensures refused { IfErr result (Refuses port.old.own (port.old.fed ++ piece.now)) }
{
    let answer = port.feed(piece, events);
    if events.len() > MOST_LINES as usize {
        return Err(StreamFault::Capture(CaptureFault::TooLong(Limit::Lines)));
    }
    match answer {
        Ok(()) => Ok(()),
        Err(PortRefused::Fault(fault)) => Err(StreamFault::Port(fault)),
        Err(PortRefused::Memory) => Err(StreamFault::Capture(CaptureFault::Memory)),
    }
}

/// Feeds a stream by pieces, up to the first fault.
fn feed_all(port: &mut Port, stream: &[u8], events: &mut StampedList) -> Result<(), StreamFault>
    requires new { IsFed port.old port.old.own [] events.old }
    requires room { length stream.now ≤ MOST_BYTES }
    ensures ok { OnOk result (IsFed port.new port.old.own stream.now events.new) }
    ensures refused { IfErr result (Refuses port.old.own stream.now) }
{
    let mut rest = stream;
    while !rest.is_empty() {
        let (piece, behind) = rest.split_at(rest.len().min(PIECE));
        feed_piece(port, piece, events)?;
        rest = behind;
    }
    Ok(())
}

/// The events that a stream brings to SCCP at the own point.
pub fn stream_events(alloc: Global, own: Pc, stream: &[u8]) -> Result<StampedList, StreamFault>
    requires { length stream.now ≤ MOST_BYTES }
    ensures { Reads result (limited (frames_of own stream.now)) }
{
    let mut port = Port::new(alloc, own);
    let mut events = StampedList::new(alloc);
    feed_all(&mut port, stream, &mut events)?;
    match port.finish() {
        Ok(()) => Ok(events),
        Err(fault) => Err(StreamFault::Port(fault)),
    }
}
