//! Why an input is refused, and what an operator is told of it.
ghost use Rattle.std.specs.Prelude.{◌≡◌, IfOk};
ghost use Rattle.m3ua_capture.specs.declared.fault.StreamFault.TheVariants as stream;
ghost use Rattle.capture_input.specs.declared.fault.InputFault.TheVariants.{Stream};
ghost use Rattle.capture_input.specs.Input.{chain_refusal, audit_refusal, input_note};

use crate::audit_fault::AuditFault;
use capture_form::CaptureFault;
use chain_form::ChainFault;
use m3ua_capture::{StreamFault, stream_note};
use relay_base::{Memory, Octets};
use std::alloc::Global;

/// Why an input is not taken.
#[derive(Drop)]
pub enum InputFault {
    /// What a node hears, or what nodes in a row do, is faulty; a limit is passed; or memory ran out.
    Stream(StreamFault),
    /// No line parts the text of a journal from a capture whose head is right.
    NoJournal,
}

impl From<StreamFault> for InputFault {
    ghost from_gives = { λ f e. e ≡ Stream f };

    fn from(fault: StreamFault) -> InputFault {
        InputFault::Stream(fault)
    }
}

impl From<CaptureFault> for InputFault {
    ghost from_gives = { λ f e. e ≡ Stream (stream.Capture f) };

    fn from(fault: CaptureFault) -> InputFault {
        InputFault::Stream(StreamFault::Capture(fault))
    }
}

/// The fault of steps as that of what a node hears.
fn chain_refusal(fault: ChainFault) -> StreamFault
    ensures { result ≡ chain_refusal fault }
{
    let fault = match fault {
        ChainFault::Line(fault) => CaptureFault::Line(fault),
        ChainFault::TooLong(limit) => CaptureFault::TooLong(limit),
        ChainFault::Memory => CaptureFault::Memory,
    };
    StreamFault::Capture(fault)
}

impl From<ChainFault> for InputFault {
    ghost from_gives = { λ f e. e ≡ Stream (chain_refusal f) };

    fn from(fault: ChainFault) -> InputFault {
        InputFault::Stream(chain_refusal(fault))
    }
}

impl From<AuditFault> for InputFault {
    ghost from_gives = { λ f e. e ≡ audit_refusal f };

    fn from(fault: AuditFault) -> InputFault {
        match fault {
            AuditFault::Capture(fault) => InputFault::Stream(StreamFault::Capture(fault)),
            AuditFault::NoJournal => InputFault::NoJournal,
        }
    }
}

/// The line that tells an operator why an input is refused.
pub fn input_note(alloc: Global, fault: &InputFault) -> Result<Octets, Memory>
    ensures { IfOk result (λ note. note ≡ input_note fault.now) }
{
    match fault {
        InputFault::Stream(fault) => stream_note(alloc, fault),
        InputFault::NoJournal => Octets::from_slice(alloc, b"no journal\n"),
    }
}
