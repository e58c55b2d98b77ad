//! Whole lines are read in blocks, each in a thread of its own.
ghost use Rattle.std.specs.Prelude.{◌≡◌, ◌⊎◌, ◌<◌, ◌≤◌, ◌+◌, ◌^◌, length, take, IfOk};
ghost use Rattle.std.specs.List.{AllByRecursion};
ghost use Rattle.capture_form.specs.Capture.{Reads};
ghost use Rattle.capture_form.specs.Inner.Progress.{IsOfHead, octets_read};
ghost use Rattle.capture_pieces.specs.Inner.Feeds.{EndsLine};
ghost use Rattle.capture_pieces.specs.Inner.Blocks.{AreCut, IsBlock, IsOfOctets, SayOctets, lines_in};

use crate::whole::WholeLines;
use block_threads::map_each;
use capture_form::{CaptureFault, PartRead, Progress, read_part, take_part};
use memchr::memchr;
use node_head::Head;
use relay_base::{Memory, take_spare};
use std::alloc::Global;
use std::thread::Threads;

/// The most blocks of a piece.
const MOST_BLOCKS: usize = 32;

/// The fewest octets of a block, but for the last one.
const LEAST_BLOCK: usize = 65_536;

/// How many octets of memory the lines of an octet take once they are read, more or less.
const LINE_OCTETS: usize = 2;

/// What the lines of a block say, unless memory ran out.
pub type Block = Result<PartRead, Memory>;

/// How many octets a block has, at least, of so many.
pub fn block_size(octets: usize) -> usize
    ensures { 0 < result }
{
    octets.div_ceil(MOST_BLOCKS).max(LEAST_BLOCK)
}

/// How many octets stand up to the end of the line in which the last of so many stands.
fn line_end(octets: &[u8], size: usize) -> usize
    requires { 0 < size }
    ensures within { result ≤ length octets.now }
    ensures some { 0 < length octets.now → 0 < result }
    ensures ends { (result ≡ length octets.now) ⊎ EndsLine (take result octets.now) }
{
    if octets.len() <= size {
        return octets.len();
    }
    match memchr(b'\n', &octets[size - 1..]) {
        Some(place) => size + place,
        None => octets.len(),
    }
}

/// Whole lines in blocks of about so many octets.
fn cut(alloc: Global, octets: &[u8], size: usize) -> Result<Vec<WholeLines<'_>>, Memory>
    requires size { 0 < size }
    requires few { length octets.now < 2 ^ 32 }
    ensures { IfOk result (λ v. AreCut (λ block. block.octets.now) octets.now v.items) }
{
    let mut blocks = Vec::new(alloc);
    let mut rest = octets;
    while !rest.is_empty() {
        let (octets, behind) = rest.split_at(line_end(rest, size));
        blocks.push(WholeLines { octets })?;
        rest = behind;
    }
    Ok(blocks)
}

/// What the lines of a block say, with memory at hand for them.
fn read_block(alloc: Global, head: &Head, octets: &[u8]) -> Block
    requires { length octets.now < 2 ^ 32 }
    ensures { IsOfOctets head.now octets.now result }
{
    take_spare(alloc, octets.len().saturating_mul(LINE_OCTETS));
    read_part(alloc, head, octets)
}

/// What whole lines say, in blocks of about so many octets, which threads read.
pub fn read_blocks<R: Threads + Sync>(
    rt: &R,
    alloc: Global,
    head: &Head,
    octets: &[u8],
    size: usize,
) -> Result<Vec<Block>, Memory>
    requires size { 0 < size }
    requires few { length octets.now < 2 ^ 32 }
    ensures { IfOk result (λ blocks. SayOctets head.now octets.now blocks.items) }
{
    let blocks = cut(alloc, octets, size)?;
    let said = map_each(
        rt,
        alloc,
        blocks.as_slice(),
        &|block: &WholeLines<'_>| -> Block
            ensures { IsOfOctets head.entry.now block.entry.now.octets.now result }
        { read_block(alloc, head, block.octets) },
    )?;
    Ok(said)
}

/// Takes what the lines of blocks say, one block after the other.
pub fn take_blocks(
    alloc: Global,
    head: &Head,
    mut progress: Progress,
    blocks: Vec<Block>,
) -> Result<Progress, CaptureFault>
    requires links { IsOfHead head.now progress }
    requires blocks { AllByRecursion (IsBlock head.now) blocks.items }
    requires few { progress.number + lines_in blocks.items < 2 ^ 32 }
    ensures value { (octets : _) → SayOctets head.now octets blocks.items →
        Reads result (octets_read head.now progress octets) }
    ensures links { IfOk result (IsOfHead head.now) }
    ensures number { IfOk result (λ p. p.number ≡ progress.number + lines_in blocks.items) }
{
    for block in blocks {
        take_part(alloc, head, &mut progress, block?)?;
    }
    Ok(progress)
}
