//! Why a head is refused.
ghost use Rattle.std.specs.Prelude.{◌≡◌};
ghost use Rattle.node_head.specs.declared.fault.HeadRefused.TheVariants.{Memory};

use relay_base::Octets;
use std::alloc::{AllocError, AllocFailed};
use thiserror::Error;

/// What is wrong with a key.
#[derive(Clone, Copy, Debug)]
pub enum HeadKind {
    End,
    Text,
    Unknown,
    Missing,
    Kind,
    Range,
}

/// What is wrong with a head, and at which key.
#[derive(Debug, Drop, Error)]
#[error("{kind:?} at {key:?}")]
pub struct HeadFault {
    pub kind: HeadKind,
    pub key: Octets,
}

/// Why a head is not read.
#[derive(Debug, Drop, Error)]
pub enum HeadRefused {
    #[error(transparent)]
    Fault(HeadFault),
    #[error("memory")]
    Memory,
}

impl From<AllocError> for HeadRefused {
    ghost from_gives = { λ _ e. e ≡ Memory };

    fn from(_: AllocError) -> HeadRefused {
        HeadRefused::Memory
    }
}

impl<T: Drop> From<AllocFailed<T>> for HeadRefused {
    ghost from_gives = { λ _ e. e ≡ Memory };

    fn from(_: AllocFailed<T>) -> HeadRefused {
        HeadRefused::Memory
    }
}

impl From<relay_base::Memory> for HeadRefused {
    ghost from_gives = { λ _ e. e ≡ Memory };

    fn from(_: relay_base::Memory) -> HeadRefused {
        HeadRefused::Memory
    }
}
