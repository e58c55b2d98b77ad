//! Data that leave in segments (Q.714, 4.1.1).
ghost use Rattle.std.specs.Prelude.{◌≡◌, ◌≤◌, ◌<◌, length, take, drop, IfOk};
ghost use Rattle.connectionless.specs.Cutting.{return_bit, importance_size, segment_size, segment_count, can_be_cut, segmentation_octets, segment_output, segment_outputs};
ghost use Rattle.connectionless.specs.Inner.Units.{seen_cut, IsCuttable};

use crate::leaving::octets_of;
use crate::unitdata::{Kind, UnitView};
use q713_codec::{LONGEST, octets3};
use relay_base::{Memory, Output, Outs, Pc, Ref24, Sls};
use std::alloc::Global;

/// What the addresses, the importance and the data of a segment have room for: an XUDT with segmentation has 17 octets beside them
/// (Q.713, 4.18).
pub const SEGMENT_ROOM: usize = LONGEST - 17;

/// The most segments: four bits tell how many remain (Q.713, 3.17).
pub const MOST_SEGMENTS: usize = 16;

/// What is cut: the point and the link selection that it leaves for, the data with their class, and what all segments have in common.
#[derive(Clone, Copy)]
pub struct CutUnit<'a> {
    pub point: Pc,
    pub sls: Sls,
    /// The class of the data, 0 or 1; each segment is of class 1.
    pub class: u8,
    /// Whether return is asked on error.
    pub ret: bool,
    pub hop: u8,
    pub called: &'a [u8],
    pub calling: &'a [u8],
    pub body: &'a [u8],
    pub importance: Option<u8>,
    pub reference: Ref24,
}

/// Bit 8 of the class octet (Q.713, 3.6).
pub fn return_bit(ret: bool) -> u8
    ensures { result ≡ return_bit ret }
{
    if ret { 0x80 } else { 0 }
}

/// The octets of an importance with its name and its length.
fn importance_size(importance: Option<u8>) -> usize
    ensures { result ≡ importance_size importance }
{
    match importance {
        Some(_) => 3,
        None => 0,
    }
}

/// At most this many octets from a place on.
fn part(body: &[u8], start: usize, size: usize) -> &[u8]
    requires { start ≤ length body.now }
    ensures { result.now ≡ take size (drop start body.now) }
{
    let rest = &body[start..];
    &rest[..size.min(rest.len())]
}

impl CutUnit<'_> {
    /// The octets of data in a full segment.
    fn segment_size(&self) -> usize
        ensures value { result ≡ segment_size (seen_cut self.now) }
        ensures most { result ≤ SEGMENT_ROOM }
    {
        SEGMENT_ROOM
            .saturating_sub(self.called.len())
            .saturating_sub(self.calling.len())
            .saturating_sub(importance_size(self.importance))
    }

    /// Whether the most segments hold the data.
    pub fn can_be_cut(&self) -> bool
        ensures { result ≡ can_be_cut (seen_cut self.now) }
    {
        let size = self.segment_size();
        size >= 1 && self.body.len() <= MOST_SEGMENTS * size
    }

    /// How many segments there are.
    fn segment_count(&self) -> usize
        requires { IsCuttable (seen_cut self.now) }
        ensures value { result ≡ segment_count (seen_cut self.now) }
        ensures most { result ≤ MOST_SEGMENTS }
    {
        let size = self.segment_size();
        (self.body.len() + size - 1) / size
    }

    /// The segmentation of the segment at a place, from 0.
    fn segmentation(&self, place: usize) -> [u8; 4]
        requires cuttable { IsCuttable (seen_cut self.now) }
        requires place { place < segment_count (seen_cut self.now) }
        ensures { result ≡ segmentation_octets (seen_cut self.now) place }
    {
        let first_bit = if place == 0 { 0x80 } else { 0 };
        let remaining = (self.segment_count() - 1 - place) as u8;
        let [low, middle, high] = octets3(self.reference);
        [first_bit + 64 * self.class + remaining, low, middle, high]
    }

    /// The segment at a place, from 0.
    #[tactic(auto, unfolding(crate::specs::Cutting::segment_output))]
    fn segment(&self, alloc: Global, place: usize) -> Result<Output, Memory>
        requires cuttable { IsCuttable (seen_cut self.now) }
        requires place { place < segment_count (seen_cut self.now) }
        ensures { IfOk result (λ output. output ≡ segment_output (seen_cut self.now) place) }
    {
        let size = self.segment_size();
        let unit = UnitView {
            kind: Kind::Extended,
            is_service: false,
            first: 1 + return_bit(self.ret),
            hop: Some(self.hop),
            called: self.called,
            calling: self.calling,
            body: part(self.body, size * place, size),
            segmentation: Some(self.segmentation(place)),
            importance: self.importance,
        };
        Ok(Output::Sent {
            point: self.point,
            sls: self.sls,
            bytes: octets_of(alloc, &unit)?,
        })
    }

    /// All segments, in their order.
    pub fn segments(&self, alloc: Global) -> Result<Outs, Memory>
        requires { IsCuttable (seen_cut self.now) }
        ensures { IfOk result (λ outs. outs ≡ segment_outputs (seen_cut self.now)) }
    {
        let mut outs = Outs::new(alloc);
        for place in 0..self.segment_count() {
            outs.push(self.segment(alloc, place)?)?;
        }
        Ok(outs)
    }
}
