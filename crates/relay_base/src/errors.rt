//! Why a call was refused.
ghost use Rattle.std.specs.Prelude.{◌≡◌};

use std::alloc::{AllocError, AllocFailed};

/// Memory ran out.
#[derive(Clone, Copy, Debug, PartialEq, Eq)]
pub struct Memory;

impl From<AllocError> for Memory {
    fn from(_: AllocError) -> Memory {
        Memory
    }
}

impl<T: Drop> From<AllocFailed<T>> for Memory {
    fn from(_: AllocFailed<T>) -> Memory {
        Memory
    }
}

/// A device failed.
#[derive(Clone, Copy, Debug, PartialEq, Eq)]
pub struct Failed;

/// Why not all bytes were read: there are more than were to be read, the source failed, or memory ran out.
#[derive(Clone, Copy, Debug, PartialEq, Eq)]
pub enum ReadAllFault {
    TooLong,
    Fault,
    Memory,
}

impl From<Failed> for ReadAllFault {
    ghost use Rattle.relay_base.specs.declared.errors.ReadAllFault.TheVariants as read_all_fault;

    ghost from_gives = { λ _ e. e ≡ read_all_fault.Fault };

    fn from(_: Failed) -> ReadAllFault {
        ReadAllFault::Fault
    }
}

impl From<Memory> for ReadAllFault {
    ghost use Rattle.relay_base.specs.declared.errors.ReadAllFault.TheVariants as read_all_fault;

    ghost from_gives = { λ _ e. e ≡ read_all_fault.Memory };

    fn from(_: Memory) -> ReadAllFault {
        ReadAllFault::Memory
    }
}
