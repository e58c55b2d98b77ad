//! A segment of a message, and what comes of it.
ghost use Rattle.std.specs.Prelude.{◌≡◌};
ghost use Rattle.reassembly.specs.Segments.{key_of, same_key, is_first, remaining};

use relay_base::{Octets, Pc, PlainList, Sls, Ssn};

/// A segment: where it came from, its parameters (Q.713), and the subsystem that it is for.
#[derive(Drop)]
pub struct Piece {
    pub opc: Pc,
    pub sls: Sls,
    pub class_octet: u8,
    pub called: Octets,
    pub calling: Octets,
    pub body: Octets,
    /// Bit 8 of the first octet marks a first segment, bits 4 to 1 tell how many segments remain; then
    /// the segmentation local reference.
    pub segmentation: [u8; 4],
    pub importance: Option<u8>,
    pub ssn: Ssn,
}

/// Segments.
pub type PieceList = PlainList<Piece>;

impl Piece {
    /// Whether this is the first segment of a message (Q.713, 3.17).
    pub(crate) fn is_first(&self) -> bool
        ensures { result ≡ is_first self.now }
    {
        self.segmentation[0] >= 0x80
    }

    /// How many segments remain behind this one, at most 15 (Q.713, 3.17).
    pub(crate) fn remaining(&self) -> u8
        ensures { result ≡ remaining self.now }
    {
        self.segmentation[0] % 16
    }

    /// Whether the two are segments of one message (Q.714, 4.1.1).
    pub(crate) fn has_key_of(&self, other: &Piece) -> bool
        ensures { result ≡ same_key (key_of self.now) (key_of other.now) }
    {
        self.opc.number() == other.opc.number()
            && self.segmentation[1..] == other.segmentation[1..]
            && self.calling.as_slice() == other.calling.as_slice()
    }
}

/// What comes of a segment.
#[derive(Drop)]
pub enum Now {
    /// Further segments of its message are awaited.
    Waiting,
    /// It was the last one: the first segment, with the whole body.
    Whole(Piece),
    /// It would begin a reassembly, and 256 are under way.
    NoRoom(Piece),
    /// No reassembly of its key is under way.
    Orphan,
    /// It isn't the next segment of its message, whose reassembly has failed.
    Broken,
}

/// The answer to a segment: the first segment of a reassembly that failed by it, and what comes of it.
#[derive(Drop)]
pub struct Taken {
    pub failed: Option<Piece>,
    pub now: Now,
}
