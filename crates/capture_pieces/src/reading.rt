//! A capture is taken from a source.
ghost use Rattle.std.specs.Prelude.{◌≡◌, ◌≢◌, ◌⊎◌, ◌<◌, ◌≤◌, ◌+◌, ◌^◌, true, false, [], length, IsTrue, Ok, Err, IfOk, IfErr, OnOk};
ghost use Rattle.std.specs.List.{AllByRecursion};
ghost use Rattle.std.specs.Thread.{IsSync};
ghost use Rattle.relay_base.specs.Causes.{Rose};
ghost use Rattle.relay_base.specs.declared.errors.ReadAllFault.TheVariants.{Fault};
ghost use Rattle.node_head.specs.Addable.{are_addable};
ghost use Rattle.node_head.specs.Ranges.{IsHead};
ghost use Rattle.capture_form.specs.Capture.{Reads, fault_in};
ghost use Rattle.capture_form.specs.Events.{all_events, IsStamped};
ghost use Rattle.capture_form.specs.Links.{AreLinked};
ghost use Rattle.capture_form.specs.declared.steps.TheConstants.{MOST_LINES};
ghost use Rattle.capture_form.specs.Inner.Progress.{IsOfHead, octets_read};
ghost use Rattle.capture_pieces.specs.Pieces.{States, TakesNone};
ghost use Rattle.capture_pieces.specs.Inner.Feeds.{HasCome};
ghost use Rattle.capture_pieces.specs.Inner.Blocks.{IsBlock, SayOctets, lines_in};
ghost use Rattle.capture_pieces.specs.Inner.Reading.{FailsBy, IsFaulty, IsReadOn, IsReadTo, IsReadWhole, IsSmall, IsWaiting, IsWholeCapture, StepReads, Stops};

use crate::blocks::{Block, block_size, read_blocks, take_blocks};
use crate::fault::PieceFault;
use crate::feed::Feed;
use capture_form::{Capture, CaptureFault, Progress, begin_capture, end_capture};
use node_head::Head;
use relay_base::{Memory, Source};
use std::alloc::Global;
use std::thread;
use std::thread::Threads;

/// How many octets of a piece come, at least, before its lines are read in threads.
const PIECE: usize = 4_194_304;

/// The head, and what the lines say that came with it.
fn begin<S: Source>(
    alloc: Global,
    source: &mut S,
    feed: &mut Feed,
) -> Result<(Head, Progress), PieceFault>
    ensures ok { (first : _) → HasCome first (S.left source.old) feed.old [] →
        IfOk result (λ t. IsReadTo first (S.left source.new) t.0 feed.new t.1) }
    ensures err { (first : _) → HasCome first (S.left source.old) feed.old [] →
        IfErr result (Stops first (S.left source.new) feed.new) }
    ensures small { IfOk result (λ t. IsSmall feed.new t.1) }
    ensures links { IfOk result (λ t. IsOfHead t.0 t.1) }
    ensures addable { IfOk result (λ t. IsTrue (are_addable [] t.0.row)) }
    ensures range { IfOk result (λ t. IsHead t.0) }
    ensures failed { FailsBy (S.faults source.old) (S.faults source.new) result }
{
    let whole = feed.with_mark(source)?;
    let begun = begin_capture(alloc, feed.front(whole))?;
    feed.go_on(whole)?;
    Ok(begun)
}

/// Takes what the lines of blocks say, while whole lines are read, in blocks too.
fn step_beside<R: Threads + Sync>(
    rt: &R,
    alloc: Global,
    head: &Head,
    progress: Progress,
    blocks: Vec<Block>,
    octets: &[u8],
) -> Result<(Progress, Vec<Block>), CaptureFault>
    requires links { IsOfHead head.now progress }
    requires blocks { AllByRecursion (IsBlock head.now) blocks.items }
    requires few { progress.number + lines_in blocks.items < 2 ^ 32 }
    requires octets { length octets.now < 2 ^ 32 }
    ensures value { (taken : _) → SayOctets head.now taken blocks.items →
        StepReads result (octets_read head.now progress taken) }
    ensures says { IfOk result (λ t. SayOctets head.now octets.now t.1.items) }
    ensures links { IfOk result (λ t. IsOfHead head.now t.0) }
    ensures number { IfOk result (λ t. t.0.number ≡ progress.number + lines_in blocks.items) }
{
    let taking = move || -> Result<Progress, CaptureFault>
        requires { IsOfHead head.now progress × AllByRecursion (IsBlock head.now) blocks.items
            × (progress.number + lines_in blocks.items < 2 ^ 32) }
        ensures { ((taken : _) → SayOctets head.entry.now taken blocks.items →
            Reads result (octets_read head.entry.now progress taken))
            × IfOk result (IsOfHead head.entry.now)
            × IfOk result (λ p. p.number ≡ progress.number + lines_in blocks.items) }
    { take_blocks(alloc, head, progress, blocks) };
    let reading = move || -> Result<Vec<Block>, Memory>
        requires { IsSync R.row × (length octets.now < 2 ^ 32) }
        ensures { IfOk result (λ said. SayOctets head.entry.now octets.entry.now said.items) }
    { read_blocks(rt, alloc, head, octets, block_size(octets.len())) };
    let (progress, said) = thread::join(rt, taking, reading);
    Ok((progress?, said?))
}

/// Takes what the lines say that wait, while those of the next piece are read.
fn read_piece<R: Threads + Sync, S: Source>(
    rt: &R,
    alloc: Global,
    head: &Head,
    source: &mut S,
    feed: &mut Feed,
    progress: Progress,
    blocks: Vec<Block>,
) -> Result<(Progress, Vec<Block>), PieceFault>
    requires open { feed.old.ended ≡ false }
    requires waits { IsWaiting head.now feed.old progress blocks.items }
    ensures ok { (first : _) →
        IsReadOn first (S.left source.old) head.now feed.old progress blocks.items →
        IfOk result (λ t. IsReadOn first (S.left source.new) head.now feed.new t.0 t.1.items) }
    ensures err { (first : _) →
        IsReadOn first (S.left source.old) head.now feed.old progress blocks.items →
        IfErr result (Stops first (S.left source.new) feed.new) }
    ensures waits { IfOk result (λ t. IsWaiting head.now feed.new t.0 t.1.items) }
    ensures more { OnOk result ((feed.new.ended ≡ true) ⊎ (feed.old.came < feed.new.came)) }
    ensures failed { FailsBy (S.faults source.old) (S.faults source.new) result }
{
    let whole = feed.whole_lines(source, PIECE)?;
    let read = step_beside(rt, alloc, head, progress, blocks, feed.front(whole))?;
    feed.go_on(whole)?;
    Ok(read)
}

/// What all lines say that come behind others.
fn take_lines<R: Threads + Sync, S: Source>(
    rt: &R,
    alloc: Global,
    head: &Head,
    source: &mut S,
    feed: &mut Feed,
    mut progress: Progress,
) -> Result<Progress, PieceFault>
    requires links { IsOfHead head.now progress }
    requires small { IsSmall feed.old progress }
    ensures ok { (first : _) → IsReadTo first (S.left source.old) head.now feed.old progress →
        IfOk result (IsReadWhole first (S.left source.new) head.now feed.new) }
    ensures err { (first : _) → IsReadTo first (S.left source.old) head.now feed.old progress →
        IfErr result (Stops first (S.left source.new) feed.new) }
    ensures failed { FailsBy (S.faults source.old) (S.faults source.new) result }
{
    let mut blocks = Vec::new(alloc);
    while !feed.has_ended() {
        (progress, blocks) = read_piece(rt, alloc, head, source, feed, progress, blocks)?;
    }
    Ok(take_blocks(alloc, head, progress, blocks)?)
}

/// The capture that comes, up to the first fault of what came.
fn take_pieces<R: Threads + Sync, S: Source>(
    rt: &R,
    alloc: Global,
    source: &mut S,
    feed: &mut Feed,
) -> Result<Capture, PieceFault>
    ensures ok { (first : _) → HasCome first (S.left source.old) feed.old [] →
        IfOk result (IsWholeCapture first (S.left source.new)) }
    ensures err { (first : _) → HasCome first (S.left source.old) feed.old [] →
        IfErr result (Stops first (S.left source.new) feed.new) }
    ensures addable { IfOk result (λ c. IsTrue (are_addable [] c.head.row)) }
    ensures range { IfOk result (λ c. IsHead c.head) }
    ensures failed { FailsBy (S.faults source.old) (S.faults source.new) result }
{
    let (head, progress) = begin(alloc, source, feed)?;
    let progress = take_lines(rt, alloc, &head, source, feed, progress)?;
    Ok(end_capture(alloc, head, progress)?)
}

/// Why a capture with this fault is not taken: a fault of the source may come first, as all that is still to come is passed over.
fn refusal<S: Source>(source: &mut S, mut feed: Feed, fault: CaptureFault) -> PieceFault
    ensures none { (first : _) → IsFaulty first (S.left source.old) feed (fault_in fault) →
        TakesNone first (S.left source.new) result }
    ensures fault { result ≡ PieceFault.Read Fault → Rose (S.faults source.old) (S.faults source.new) }
    ensures kept { result ≢ PieceFault.Read Fault → S.faults source.new ≡ S.faults source.old }
{
    match feed.pass_over(source) {
        Ok(()) => PieceFault::Capture(fault),
        Err(read_fault) => PieceFault::Read(read_fault),
    }
}

/// The capture that the octets of a source are, which is read to its end, or the first of its faults. Lines are read in threads, and while others are still to come.
///
/// Of a source that gives more than 67,108,864 octets one more than these is taken. A fault of the source comes before any of what came.
pub fn take_capture<R: Threads + Sync, S: Source>(
    rt: &R,
    alloc: Global,
    source: &mut S,
) -> Result<Capture, PieceFault>
    ensures ok { IfOk result (λ c. States (S.left source.old) (S.left source.new) (Ok c)) }
    ensures err { IfErr result (TakesNone (S.left source.old) (S.left source.new)) }
    ensures stamped { IfOk result (λ c. IsStamped c.head c.phases) }
    ensures linked { IfOk result (λ c. AreLinked c.phases) }
    ensures few { IfOk result (λ c. length (all_events c.phases) ≤ MOST_LINES) }
    ensures addable { IfOk result (λ c. IsTrue (are_addable [] c.head.row)) }
    ensures range { IfOk result (λ c. IsHead c.head) }
    ensures fault { result ≡ Err (PieceFault.Read Fault) →
        Rose (S.faults source.old) (S.faults source.new) }
    ensures kept { result ≢ Err (PieceFault.Read Fault) →
        S.faults source.new ≡ S.faults source.old }
{
    let mut feed = Feed::new(alloc);
    match take_pieces(rt, alloc, source, &mut feed) {
        Ok(capture) => {
            feed.shrink();
            Ok(capture)
        }
        Err(PieceFault::Capture(fault)) => Err(refusal(source, feed, fault)),
        Err(PieceFault::Read(fault)) => Err(PieceFault::Read(fault)),
    }
}
