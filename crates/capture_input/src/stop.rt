//! Why a command stops, with the status and the note of each reason.
ghost use Rattle.std.specs.Prelude.{◌≡◌};
ghost use Rattle.capture_input.specs.Input.{refusal_status};
ghost use Rattle.capture_input.specs.Stops.{StopsFor, note_of, status_of};

use crate::fault::{InputFault, input_note};
use capture_form::{CaptureFault, WriteFault};
use m3ua_capture::StreamFault;
use relay_base::Octets;
use std::alloc::Global;

/// Why a command stops. A refusal of the input has its note.
#[derive(Drop)]
pub enum Stop {
    Usage,
    Refused(InputFault, Octets),
    Bytes,
    ReadFault,
    WriteFault,
    Memory,
    /// The text of a journal is illegal, and that was written.
    Illegal,
}

impl From<WriteFault> for Stop {
    ghost use Rattle.capture_input.specs.Stops.{stop_of};

    ghost from_gives = { λ fault stop. stop ≡ stop_of fault };

    fn from(fault: WriteFault) -> Stop {
        match fault {
            WriteFault::Sink => Stop::WriteFault,
            WriteFault::Memory => Stop::Memory,
        }
    }
}

/// The stop for an input that is refused.
pub fn refusal(alloc: Global, fault: InputFault) -> Stop
    ensures { StopsFor fault result }
{
    if let InputFault::Stream(StreamFault::Capture(CaptureFault::Memory)) = &fault {
        return Stop::Memory;
    }
    match input_note(alloc, &fault) {
        Ok(note) => Stop::Refused(fault, note),
        Err(_) => Stop::Memory,
    }
}

/// What `notes` is told of a stop.
pub fn note_of(stop: &Stop) -> &[u8]
    ensures { result.now ≡ note_of stop.now }
{
    match stop {
        Stop::Usage => b"usage\n",
        Stop::Refused(_, note) => note.as_slice(),
        Stop::Bytes => b"too long bytes\n",
        Stop::ReadFault => b"read fault\n",
        Stop::WriteFault => b"write fault\n",
        Stop::Memory => b"memory\n",
        Stop::Illegal => b"",
    }
}

/// The status that a refused input ends with.
fn refusal_status(fault: &InputFault) -> u8
    ensures { result ≡ refusal_status fault.now }
{
    match fault {
        InputFault::Stream(StreamFault::Capture(CaptureFault::Head(_))) => 2,
        InputFault::Stream(StreamFault::Capture(CaptureFault::Line(_))) => 3,
        InputFault::Stream(StreamFault::Capture(CaptureFault::TooLong(_))) => 4,
        InputFault::Stream(StreamFault::Capture(CaptureFault::Memory)) => 7,
        InputFault::Stream(StreamFault::Port(_)) => 8,
        InputFault::NoJournal => 10,
    }
}

/// The status that a command which stops ends with.
pub fn status_of(stop: &Stop) -> u8
    ensures { result ≡ status_of stop.now }
{
    match stop {
        Stop::Usage => 1,
        Stop::Refused(fault, _) => refusal_status(fault),
        Stop::Bytes => 4,
        Stop::ReadFault => 5,
        Stop::WriteFault => 6,
        Stop::Memory => 7,
        Stop::Illegal => 9,
    }
}
