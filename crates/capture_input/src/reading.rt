//! A capture, and the text behind it.
ghost use Rattle.std.specs.Prelude.{◌≡◌, ◌≤◌, [], length, IsTrue, IfOk};
ghost use Rattle.relay_base.specs.Giving.{RefusesOrMemory};
ghost use Rattle.relay_base.specs.declared.limits.TheConstants.{MOST_BYTES};
ghost use Rattle.node_head.specs.Addable.{are_addable};
ghost use Rattle.node_head.specs.Ranges.{IsHead};
ghost use Rattle.capture_form.specs.Events.{all_events, IsStamped};
ghost use Rattle.capture_form.specs.Links.{AreLinked};
ghost use Rattle.capture_form.specs.declared.steps.TheConstants.{MOST_LINES};
ghost use Rattle.capture_input.specs.Audit.{Reads, fault_in, unparted, of_parts, audit_of};

use crate::audit_fault::AuditFault;
use crate::parts::parts_of;
use capture_form::{Capture, CaptureFault, Limit, read_capture};
use node_head::{HeadRefused, read_head};
use relay_base::Octets;
use relay_base::limits::MOST_BYTES;
use std::alloc::Global;

/// A capture, and the octets of the text behind it.
#[derive(Drop)]
pub struct AuditInput {
    pub capture: Capture,
    pub text: Octets,
}

/// What is wrong with an input that no line parts: the fault of its head, if it has one.
fn unparted(alloc: Global, bytes: &[u8]) -> AuditFault
    ensures { RefusesOrMemory (fault_in result) (unparted bytes.now) }
{
    match read_head(alloc, bytes) {
        Ok(_) => AuditFault::NoJournal,
        Err(HeadRefused::Fault(fault)) => AuditFault::Capture(CaptureFault::Head(fault)),
        Err(HeadRefused::Memory) => AuditFault::Capture(CaptureFault::Memory),
    }
}

/// The capture that some octets are, with the text behind it.
fn of_parts(alloc: Global, capture: &[u8], text: &[u8]) -> Result<AuditInput, AuditFault>
    ensures value { Reads result (of_parts (capture.now, text.now)) }
    ensures text { IfOk result (λ a. a.text ≡ text.now) }
    ensures stamped { IfOk result (λ a. IsStamped a.capture.head a.capture.phases) }
    ensures linked { IfOk result (λ a. AreLinked a.capture.phases) }
    ensures few { IfOk result (λ a. length (all_events a.capture.phases) ≤ MOST_LINES) }
    ensures addable { IfOk result (λ a. IsTrue (are_addable [] a.capture.head.row)) }
    ensures range { IfOk result (λ a. IsHead a.capture.head) }
{
    let capture = read_capture(alloc, capture)?;
    let text = Octets::from_slice(alloc, text)?;
    Ok(AuditInput { capture, text })
}

/// The capture that an input begins with and the text behind it, or the first of its faults.
///
/// The line `%%%` that parts them is the first one behind the head's mark `%%`. An input has at most 67,108,864 bytes,
/// and its capture the limits of any.
#[tactic(auto, unfolding(crate::specs::Audit::audit_of))]
pub fn read_audit(alloc: Global, bytes: &[u8]) -> Result<AuditInput, AuditFault>
    ensures value { Reads result (audit_of bytes.now) }
    ensures short { IfOk result (λ a. length a.text ≤ MOST_BYTES) }
    ensures stamped { IfOk result (λ a. IsStamped a.capture.head a.capture.phases) }
    ensures linked { IfOk result (λ a. AreLinked a.capture.phases) }
    ensures few { IfOk result (λ a. length (all_events a.capture.phases) ≤ MOST_LINES) }
    ensures addable { IfOk result (λ a. IsTrue (are_addable [] a.capture.head.row)) }
    ensures range { IfOk result (λ a. IsHead a.capture.head) }
{
    if bytes.len() > MOST_BYTES {
        return Err(AuditFault::Capture(CaptureFault::TooLong(Limit::Bytes)));
    }
    match parts_of(bytes) {
        Some((capture, text)) => of_parts(alloc, capture, text),
        None => Err(unparted(alloc, bytes)),
    }
}
