//! Why a stream is refused, and what an operator is told of it.
ghost use Rattle.std.specs.Prelude.{◌≡◌, IfOk, string_bytes};
ghost use Rattle.m3ua_capture.specs.Note.{kind_word, port_text, stream_note};
ghost use Rattle.m3ua_capture.specs.declared.fault.StreamFault.TheVariants.{Capture};

use capture_form::{CaptureFault, fault_note};
use m3ua_port::{PortFault, PortKind};
use relay_base::{Memory, Octets};
use std::alloc::{AllocError, Global};

/// Why a stream is not read.
#[derive(Drop)]
pub enum StreamFault {
    /// The head is faulty, a limit is passed, or memory ran out.
    Capture(CaptureFault),
    /// A message is faulty.
    Port(PortFault),
}

impl From<CaptureFault> for StreamFault {
    ghost from_gives = { λ f e. e ≡ Capture f };

    fn from(fault: CaptureFault) -> StreamFault {
        StreamFault::Capture(fault)
    }
}

impl From<Memory> for StreamFault {
    ghost use Rattle.capture_form.specs.declared.fault.CaptureFault.TheVariants as refused;

    ghost from_gives = { λ _ e. e ≡ Capture refused.Memory };

    fn from(_: Memory) -> StreamFault {
        StreamFault::Capture(CaptureFault::Memory)
    }
}

fn kind_word(kind: PortKind) -> &'static str
    ensures { result.now ≡ kind_word kind }
{
    match kind {
        PortKind::Version => "version",
        PortKind::Length => "length",
        PortKind::End => "end",
        PortKind::Parameter => "parameter",
        PortKind::Missing => "missing",
        PortKind::Short => "short",
        PortKind::Range => "range",
    }
}

fn port_text(alloc: Global, fault: PortFault) -> Result<String, AllocError>
    ensures { IfOk result (λ text. string_bytes text ≡ port_text fault) }
{
    let PortFault { message, kind } = fault;
    let kind = kind_word(kind);
    format!(in alloc; "port {message} {kind}")
}

/// The line that tells an operator why a stream is refused: that of a capture's fault, or `port <message> <kind>`.
pub fn stream_note(alloc: Global, fault: &StreamFault) -> Result<Octets, Memory>
    ensures { IfOk result (λ note. note ≡ stream_note fault.now) }
{
    match fault {
        StreamFault::Capture(fault) => fault_note(alloc, fault),
        StreamFault::Port(fault) => {
            let mut note = Octets::from(port_text(alloc, *fault)?.into_bytes());
            note.extend(b"\n")?;
            Ok(note)
        }
    }
}
