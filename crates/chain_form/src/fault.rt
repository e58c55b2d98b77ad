//! Why an input is refused.
ghost use Rattle.std.specs.Prelude.{◌≡◌};
ghost use Rattle.chain_form.specs.declared.fault.ChainFault.TheVariants.{Memory};

use capture_form::{Limit, LineFault};
use std::alloc::AllocError;

/// Why the input of nodes in a row is not read.
#[derive(Drop)]
pub enum ChainFault {
    Line(LineFault),
    TooLong(Limit),
    Memory,
}

impl From<AllocError> for ChainFault {
    ghost from_gives = { λ _ e. e ≡ Memory };

    fn from(_: AllocError) -> ChainFault {
        ChainFault::Memory
    }
}

impl From<relay_base::Memory> for ChainFault {
    ghost from_gives = { λ _ e. e ≡ Memory };

    fn from(_: relay_base::Memory) -> ChainFault {
        ChainFault::Memory
    }
}
