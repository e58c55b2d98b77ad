//! A head of one link.
ghost use Rattle.std.specs.Prelude.{◌≡◌, [], IsTrue, IfOk, IfSome};
ghost use Rattle.node_head.specs.Addable.{are_addable};
ghost use Rattle.node_head.specs.Ranges.{IsHead};
ghost use Rattle.node_head.specs.Refusals.{Reads, fault_in};
ghost use Rattle.m3ua_capture.specs.OneLink.{many_links, is_of_value, is_up_to_links, is_behind_links, with_one_link, first_fault, one_link_head};

use crate::links::states_many_links;
use node_head::{Head, HeadFault, HeadKind, HeadRefused, read_head};
use relay_base::Octets;
use std::alloc::Global;

/// The refusal of more links than one.
fn many_links(alloc: Global) -> HeadRefused
    ensures { IfSome (fault_in result) (λ f. f ≡ many_links) }
{
    match Octets::from_slice(alloc, b"links") {
        Ok(key) => HeadRefused::Fault(HeadFault {
            kind: HeadKind::Range,
            key,
        }),
        Err(_) => HeadRefused::Memory,
    }
}

fn is_of_value(kind: HeadKind) -> bool
    ensures { result ≡ is_of_value kind }
{
    match kind {
        HeadKind::Missing | HeadKind::Kind | HeadKind::Range => true,
        HeadKind::End | HeadKind::Text | HeadKind::Unknown => false,
    }
}

fn is_up_to_links(key: &[u8]) -> bool
    ensures { result ≡ is_up_to_links key.now }
{
    key == b"point".as_slice()
        || key == b"users".as_slice()
        || key == b"conn_lanes".as_slice()
        || key == b"data_lanes".as_slice()
        || key == b"links".as_slice()
}

/// Whether a fault is found once the number of links is known.
fn is_behind_links(fault: &HeadFault) -> bool
    ensures { result ≡ is_behind_links fault.now }
{
    is_of_value(fault.kind) && !is_up_to_links(fault.key.as_slice())
}

/// The refusal of an input whose head has this first fault.
fn refusal(alloc: Global, bytes: &[u8], fault: HeadFault) -> HeadRefused
    ensures { IfSome (fault_in result) (λ f. f ≡ first_fault bytes.now fault) }
{
    if !is_behind_links(&fault) {
        return HeadRefused::Fault(fault);
    }
    match states_many_links(alloc, bytes) {
        Ok(true) => many_links(alloc),
        Ok(false) => HeadRefused::Fault(fault),
        Err(_) => HeadRefused::Memory,
    }
}

/// A head of one link.
fn with_one_link(alloc: Global, head: Head) -> Result<Head, HeadRefused>
    ensures value { Reads result (with_one_link head) }
    ensures same { IfOk result (λ h. h ≡ head) }
    ensures one { IfOk result (λ h. h.links ≡ 1) }
{
    if head.links == 1 {
        Ok(head)
    } else {
        Err(many_links(alloc))
    }
}

/// The head of an input, whose events come on one link, or the first of its faults.
#[tactic(auto, unfolding(crate::specs::OneLink::one_link_head))]
pub fn read_one_link_head(alloc: Global, bytes: &[u8]) -> Result<Head, HeadRefused>
    ensures value { Reads result (one_link_head bytes.now) }
    ensures addable { IfOk result (λ h. IsTrue (are_addable [] h.row)) }
    ensures range { IfOk result IsHead }
    ensures one { IfOk result (λ h. h.links ≡ 1) }
{
    match read_head(alloc, bytes) {
        Ok(head) => with_one_link(alloc, head),
        Err(HeadRefused::Fault(fault)) => Err(refusal(alloc, bytes, fault)),
        Err(HeadRefused::Memory) => Err(HeadRefused::Memory),
    }
}
