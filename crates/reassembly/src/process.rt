//! The reassembly of one message.
ghost use Rattle.std.specs.Prelude.{◌≡◌, ◌+◌, ◌==◌, IfOk, OnOk, OnErr};
ghost use Rattle.reassembly.specs.Segments.{key_of, remaining};
ghost use Rattle.reassembly.specs.Reassembly.{is_of, process_begun, extended, is_due, aged, whole_of};

use crate::piece::Piece;
use relay_base::{Memory, Octets};
use std::alloc::Global;

/// A reassembly under way.
#[derive(Drop)]
pub struct Process {
    /// The first segment, as it came.
    pub first: Piece,
    /// The body, as far as it was put together.
    pub body: Octets,
    /// How many segments remained behind the last one that was put in.
    pub left: u8,
    /// The ticks that are left.
    pub ticks: u32,
}

impl Process {
    pub(crate) fn begun(alloc: Global, first: Piece, ticks: u32) -> Result<Process, Memory>
        ensures { IfOk result (λ process. process ≡ process_begun ticks first) }
    {
        let body = Octets::from_slice(alloc, first.body.as_slice())?;
        let left = first.remaining();
        Ok(Process {
            first,
            body,
            left,
            ticks,
        })
    }

    pub(crate) fn is_of(&self, piece: &Piece) -> bool
        ensures { result ≡ is_of (key_of piece.now) self.now }
    {
        piece.has_key_of(&self.first)
    }

    /// Whether this segment is the next one.
    pub(crate) fn awaits(&self, piece: &Piece) -> bool
        ensures { result ≡ (remaining piece.now + 1 == self.now.left) }
    {
        piece.remaining() + 1 == self.left
    }

    /// Puts a segment in.
    pub(crate) fn append(&mut self, piece: &Piece) -> Result<(), Memory>
        ensures ok { OnOk result (self.new ≡ extended self.old piece.now) }
        ensures err { OnErr result (self.new ≡ self.old) }
    {
        self.body.extend(piece.body.as_slice())?;
        self.left = piece.remaining();
        Ok(())
    }

    /// Whether the next tick is the last one.
    pub(crate) fn is_due(&self) -> bool
        ensures { result ≡ is_due self.now }
    {
        self.ticks <= 1
    }

    pub(crate) fn aged(self) -> Process
        ensures { result ≡ aged self }
    {
        Process {
            ticks: self.ticks.saturating_sub(1),
            ..self
        }
    }

    /// The first segment, with all that was put together.
    pub(crate) fn into_whole(self) -> Piece
        ensures { result ≡ whole_of self }
    {
        let Process { first, body, .. } = self;
        Piece { body, ..first }
    }
}
