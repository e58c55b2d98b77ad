//! The capture of a head and a stream.
ghost use Rattle.std.specs.Prelude.{◌≡◌, ◌≤◌, [], length, IsTrue, IfOk};
ghost use Rattle.node_head.specs.Addable.{are_addable};
ghost use Rattle.node_head.specs.Ranges.{IsHead};
ghost use Rattle.capture_form.specs.Events.{all_events, IsStamped};
ghost use Rattle.capture_form.specs.Links.{AreLinked};
ghost use Rattle.capture_form.specs.declared.steps.TheConstants.{MOST_LINES};
ghost use Rattle.m3ua_capture.specs.Streams.{Reads, capture_with, capture_within, stream_capture};

use crate::fault::StreamFault;
use crate::feeding::stream_events;
use crate::parts::{head_before, head_fault, stream_start};
use crate::phases::phases_of;
use capture_form::{Capture, CaptureFault, Limit};
use node_head::{Head, HeadKind};
use relay_base::limits::MOST_BYTES;
use std::alloc::Global;

/// The capture of a head and a stream.
#[tactic(auto, unfolding(crate::specs::Streams::capture_with))]
fn capture_with(alloc: Global, head: Head, stream: &[u8]) -> Result<Capture, StreamFault>
    requires { length stream.now ≤ MOST_BYTES }
    ensures value { Reads result (capture_with head stream.now) }
    ensures head { IfOk result (λ c. c.head ≡ head) }
{
    let events = stream_events(alloc, head.point, stream)?;
    let phases = phases_of(alloc, events)?;
    Ok(Capture { head, phases })
}

/// The capture of an input of at most 67,108,864 bytes.
fn capture_within(alloc: Global, bytes: &[u8]) -> Result<Capture, StreamFault>
    requires { length bytes.now ≤ MOST_BYTES }
    ensures value { Reads result (capture_within bytes.now) }
    ensures addable { IfOk result (λ c. IsTrue (are_addable [] c.head.row)) }
    ensures range { IfOk result (λ c. IsHead c.head) }
{
    let Some(start) = stream_start(bytes) else {
        let fault = head_fault(alloc, HeadKind::End, "-")?;
        return Err(StreamFault::Capture(fault));
    };
    let head = head_before(alloc, start, bytes)?;
    capture_with(alloc, head, &bytes[start..])
}

/// The capture that an input is whose head ends with a mark and a line feed, behind which the octets of a stream stand, or the first of
/// its faults.
///
/// An input has at most 67,108,864 bytes, and its stream brings at most 200,000 events. Its head has one link.
#[tactic(auto, unfolding(crate::specs::Streams::stream_capture))]
pub fn read_stream(alloc: Global, bytes: &[u8]) -> Result<Capture, StreamFault>
    ensures value { Reads result (stream_capture bytes.now) }
    ensures stamped { IfOk result (λ c. IsStamped c.head c.phases) }
    ensures linked { IfOk result (λ c. AreLinked c.phases) }
    ensures few { IfOk result (λ c. length (all_events c.phases) ≤ MOST_LINES) }
    ensures addable { IfOk result (λ c. IsTrue (are_addable [] c.head.row)) }
    ensures range { IfOk result (λ c. IsHead c.head) }
{
    if bytes.len() > MOST_BYTES {
        return Err(StreamFault::Capture(CaptureFault::TooLong(Limit::Bytes)));
    }
    capture_within(alloc, bytes)
}
