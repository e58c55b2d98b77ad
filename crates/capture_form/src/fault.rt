//! Why a capture is refused.
ghost use Rattle.std.specs.Prelude.{◌≡◌};
ghost use Rattle.capture_form.specs.declared.fault.CaptureFault.TheVariants.{Memory};

use crate::note::{head_word, limit_word, line_word};
use node_head::HeadFault;
use relay_base::Octets;
use std::alloc::{AllocError, AllocFailed};
use std::str;
use thiserror::Error;

/// What is wrong with a line.
#[derive(Clone, Copy, Debug)]
pub enum LineKind {
    /// No form has these words, or not so many.
    Words,
    /// The line may not stand where it does, within a group or outside, or no `e commit` ends the group.
    Group,
    /// A word is no number of 1 to 10 digits, or one out of range.
    Number,
    /// A word is not an even number of hex digits.
    Hex,
    /// The octets are no address.
    Address,
    /// There are too many octets, or too few.
    Size,
    /// A word is no list of at most 24 digits.
    Digits,
    /// A word is no entity.
    Entity,
    /// The subsystem is no user.
    User,
    /// The point is the own one.
    Point,
}

/// What is wrong with which line, counted from 1 over the whole input.
#[derive(Clone, Copy, Debug, Error)]
#[error("line {line} {word}", word = line_word(*.kind))]
pub struct LineFault {
    pub line: u32,
    pub kind: LineKind,
}

/// What there is too much of.
#[derive(Clone, Copy, Debug)]
pub enum Limit {
    /// More than 67,108,864 bytes.
    Bytes,
    /// More than 200,000 event lines.
    Lines,
    /// More than 20,000 ticks.
    Ticks,
    /// More than 1,000 barriers.
    Barriers,
}

/// Why a capture is not read.
#[derive(Debug, Drop, Error)]
pub enum CaptureFault {
    #[error("head {word} {key}", word = head_word(.0.kind), key = key_text(&.0.key))]
    Head(HeadFault),
    #[error(transparent)]
    Line(LineFault),
    #[error("too long {word}", word = limit_word(*.0))]
    TooLong(Limit),
    #[error("memory")]
    Memory,
}

/// The text of a key, which a head has from a TOML document.
fn key_text(key: &Octets) -> &str {
    str::from_utf8(key.as_slice()).unwrap_or("")
}

impl From<AllocError> for CaptureFault {
    ghost from_gives = { λ _ e. e ≡ Memory };

    fn from(_: AllocError) -> CaptureFault {
        CaptureFault::Memory
    }
}

impl<T: Drop> From<AllocFailed<T>> for CaptureFault {
    ghost from_gives = { λ _ e. e ≡ Memory };

    fn from(_: AllocFailed<T>) -> CaptureFault {
        CaptureFault::Memory
    }
}

impl From<relay_base::Memory> for CaptureFault {
    ghost from_gives = { λ _ e. e ≡ Memory };

    fn from(_: relay_base::Memory) -> CaptureFault {
        CaptureFault::Memory
    }
}
