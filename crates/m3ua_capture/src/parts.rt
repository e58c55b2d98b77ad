//! The head of an input, and where its stream begins.
ghost use Rattle.std.specs.Prelude.{◌≡◌, ◌≤◌, [], length, take, IsTrue, IfOk, IfSome, Some};
ghost use Rattle.node_head.specs.Addable.{are_addable};
ghost use Rattle.node_head.specs.Ranges.{IsHead};
ghost use Rattle.node_head.specs.Refusals.{fault};
ghost use Rattle.capture_form.specs.Capture.{Reads};
ghost use Rattle.m3ua_capture.specs.Streams.{is_mark, stream_start, head_before};

use crate::one_link::read_one_link_head;
use capture_form::CaptureFault;
use node_head::{Head, HeadFault, HeadKind, HeadRefused};
use relay_base::{Memory, Octets};
use std::alloc::Global;

/// Whether a line ends the head.
fn is_mark(line: &[u8]) -> bool
    ensures { result ≡ is_mark line.now }
{
    line == b"%%".as_slice() || line == b"%%\r".as_slice()
}

/// How many octets stand up to the first mark and its line feed.
#[tactic(auto, unfolding(crate::specs::Streams::stream_start))]
pub fn stream_start(bytes: &[u8]) -> Option<usize>
    ensures value { result ≡ stream_start bytes.now }
    ensures within { IfSome result (λ start. start ≤ length bytes.now) }
{
    let mut line = 0;
    for (index, octet) in bytes.iter().enumerate() {
        if *octet == b'\n' {
            if is_mark(&bytes[line..index]) {
                return Some(index + 1);
            }
            line = index + 1;
        }
    }
    None
}

/// A fault of the head.
pub fn head_fault(alloc: Global, kind: HeadKind, key: &str) -> Result<CaptureFault, Memory>
    ensures { IfOk result (λ f. f ≡ CaptureFault.Head (fault kind key.now)) }
{
    let key = Octets::from_slice(alloc, key.as_bytes())?;
    Ok(CaptureFault::Head(HeadFault { kind, key }))
}

/// The head of an input whose stream begins at a place.
pub fn head_before(alloc: Global, start: usize, bytes: &[u8]) -> Result<Head, CaptureFault>
    requires { start ≤ length bytes.now }
    ensures value { Reads result (head_before (Some start) bytes.now) }
    ensures addable { IfOk result (λ h. IsTrue (are_addable [] h.row)) }
    ensures range { IfOk result IsHead }
    ensures one { IfOk result (λ h. h.links ≡ 1) }
{
    match read_one_link_head(alloc, &bytes[..start]) {
        Ok(head) => Ok(head),
        Err(HeadRefused::Fault(fault)) => Err(CaptureFault::Head(fault)),
        Err(HeadRefused::Memory) => Err(CaptureFault::Memory),
    }
}
