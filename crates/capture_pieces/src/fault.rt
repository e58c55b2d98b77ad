//! Why a capture is not taken.
ghost use Rattle.std.specs.Prelude.{◌≡◌};
ghost use Rattle.capture_pieces.specs.declared.fault.PieceFault.TheVariants.{Capture, Read};

use capture_form::CaptureFault;
use relay_base::{Memory, ReadAllFault};

/// Why a capture is not taken from a source.
#[derive(Drop)]
pub enum PieceFault {
    /// The head or a line is faulty, a limit of lines is passed, or memory ran out.
    Capture(CaptureFault),
    /// Too many octets came, the source failed, or memory ran out.
    Read(ReadAllFault),
}

impl From<CaptureFault> for PieceFault {
    ghost from_gives = { λ f e. e ≡ Capture f };

    fn from(fault: CaptureFault) -> PieceFault {
        PieceFault::Capture(fault)
    }
}

impl From<ReadAllFault> for PieceFault {
    ghost from_gives = { λ f e. e ≡ Read f };

    fn from(fault: ReadAllFault) -> PieceFault {
        PieceFault::Read(fault)
    }
}

impl From<Memory> for PieceFault {
    ghost use Rattle.relay_base.specs.declared.errors.ReadAllFault.TheVariants as read_all_fault;

    ghost from_gives = { λ _ e. e ≡ Read read_all_fault.Memory };

    fn from(_: Memory) -> PieceFault {
        PieceFault::Read(ReadAllFault::Memory)
    }
}
