//! Why an input is refused.
ghost use Rattle.std.specs.Prelude.{◌≡◌};
ghost use Rattle.capture_input.specs.declared.audit_fault.AuditFault.TheVariants.{Capture};

use capture_form::CaptureFault;
use relay_base::Memory;

/// Why a capture and the text behind it are not read.
#[derive(Drop)]
pub enum AuditFault {
    /// The capture is faulty, a limit is passed, or memory ran out.
    Capture(CaptureFault),
    /// No line parts a text from a capture whose head is right.
    NoJournal,
}

impl From<CaptureFault> for AuditFault {
    ghost from_gives = { λ f e. e ≡ Capture f };

    fn from(fault: CaptureFault) -> AuditFault {
        AuditFault::Capture(fault)
    }
}

impl From<Memory> for AuditFault {
    ghost use Rattle.capture_form.specs.declared.fault.CaptureFault.TheVariants as refused;

    ghost from_gives = { λ _ e. e ≡ Capture refused.Memory };

    fn from(_: Memory) -> AuditFault {
        AuditFault::Capture(CaptureFault::Memory)
    }
}
