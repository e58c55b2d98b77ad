//! Why a stream of messages isn't read on.
ghost use Rattle.std.specs.Prelude.{◌≡◌};

use relay_base::Memory;

/// What is wrong with a message, in the order of the tests.
#[derive(Clone, Copy, Debug, PartialEq, Eq)]
pub enum PortKind {
    /// Its version isn't 1.
    Version,
    /// Its length is below that of its header, or above 131,072.
    Length,
    /// The stream ends within it.
    End,
    /// A parameter runs past it, or is shorter than its own tag and length.
    Parameter,
    /// It has no Protocol Data.
    Missing,
    /// Its Protocol Data ends within the label.
    Short,
    /// It is for SCCP at the own point, and a number of its label is out of range.
    Range,
}

/// The number of a message in its stream, from 1, and what is wrong with it.
#[derive(Clone, Copy, Debug, PartialEq, Eq)]
pub struct PortFault {
    pub message: u32,
    pub kind: PortKind,
}

/// Why a piece of a stream is refused.
#[derive(Clone, Copy, Debug, PartialEq, Eq)]
pub enum PortRefused {
    Fault(PortFault),
    Memory,
}

impl From<Memory> for PortRefused {
    ghost use Rattle.m3ua_port.specs.declared.fault.PortRefused.TheVariants as refused;

    ghost from_gives = { λ _ e. e ≡ refused.Memory };

    fn from(_: Memory) -> PortRefused {
        PortRefused::Memory
    }
}
