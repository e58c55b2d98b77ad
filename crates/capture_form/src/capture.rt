//! A capture: its head, and its events by phase and link.
ghost use Rattle.std.specs.Prelude.{◌≤◌, [], length, IsTrue, IfOk};
ghost use Rattle.node_head.specs.Addable.{are_addable};
ghost use Rattle.node_head.specs.Ranges.{IsHead};
ghost use Rattle.capture_form.specs.Capture.{Reads, capture_within, capture_of};
ghost use Rattle.capture_form.specs.Events.{all_events, IsStamped};
ghost use Rattle.capture_form.specs.Links.{AreLinked};
ghost use Rattle.capture_form.specs.declared.steps.TheConstants.{MOST_LINES};

use crate::fault::{CaptureFault, Limit};
use crate::progress::{begin_capture, end_capture};
use crate::reading::PhaseList;
use node_head::Head;
use relay_base::limits::MOST_BYTES;
use std::alloc::Global;

/// What a capture holds.
#[derive(Drop)]
pub struct Capture {
    pub head: Head,
    pub phases: PhaseList,
}

/// The capture of an input of at most 67,108,864 bytes.
fn capture_within(alloc: Global, bytes: &[u8]) -> Result<Capture, CaptureFault>
    requires few { length bytes.now ≤ MOST_BYTES }
    ensures value { Reads result (capture_within bytes.now) }
    ensures addable { IfOk result (λ c. IsTrue (are_addable [] c.head.row)) }
    ensures range { IfOk result (λ c. IsHead c.head) }
{
    let (head, progress) = begin_capture(alloc, bytes)?;
    end_capture(alloc, head, progress)
}

/// The capture that an input is, or the first of its faults.
///
/// An input has at most 67,108,864 bytes, 200,000 event lines, 20,000 tick lines among them, and 1,000 barriers.
#[tactic(auto, unfolding(crate::specs::Capture::capture_of))]
pub fn read_capture(alloc: Global, bytes: &[u8]) -> Result<Capture, CaptureFault>
    ensures value { Reads result (capture_of bytes.now) }
    ensures stamped { IfOk result (λ c. IsStamped c.head c.phases) }
    ensures linked { IfOk result (λ c. AreLinked c.phases) }
    ensures few { IfOk result (λ c. length (all_events c.phases) ≤ MOST_LINES) }
    ensures addable { IfOk result (λ c. IsTrue (are_addable [] c.head.row)) }
    ensures range { IfOk result (λ c. IsHead c.head) }
{
    if bytes.len() > MOST_BYTES {
        return Err(CaptureFault::TooLong(Limit::Bytes));
    }
    capture_within(alloc, bytes)
}
