//! Why a line is not read.
ghost use Rattle.std.specs.Prelude.{◌≡◌};
ghost use Rattle.capture_form.specs.declared.refused.LineRefused.TheVariants.{Kind, Memory};

use crate::fault::LineKind;
use std::alloc::AllocError;

/// Why a line is not read: what is wrong with it, or memory ran out.
#[derive(Drop)]
pub enum LineRefused {
    Kind(LineKind),
    Memory,
}

impl From<LineKind> for LineRefused {
    ghost from_gives = { λ kind e. e ≡ Kind kind };

    fn from(kind: LineKind) -> LineRefused {
        LineRefused::Kind(kind)
    }
}

impl From<AllocError> for LineRefused {
    ghost from_gives = { λ _ e. e ≡ Memory };

    fn from(_: AllocError) -> LineRefused {
        LineRefused::Memory
    }
}

impl From<relay_base::Memory> for LineRefused {
    ghost from_gives = { λ _ e. e ≡ Memory };

    fn from(_: relay_base::Memory) -> LineRefused {
        LineRefused::Memory
    }
}
