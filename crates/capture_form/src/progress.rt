//! A capture that is read as far as the end of a line.
ghost use Rattle.std.specs.Prelude.{◌≡◌, ◌<◌, ◌≤◌, ◌+◌, ◌^◌, [], length, IsTrue, IfOk, OnOk};
ghost use Rattle.std.specs.List.{AllByRecursion};
ghost use Rattle.relay_base.specs.declared.limits.TheConstants.{MOST_BYTES};
ghost use Rattle.node_head.specs.Lines.{lines, halves};
ghost use Rattle.node_head.specs.Addable.{are_addable};
ghost use Rattle.node_head.specs.Head.{begun};
ghost use Rattle.node_head.specs.Ranges.{IsHead};
ghost use Rattle.capture_form.specs.Capture.{Reads, at_head};
ghost use Rattle.capture_form.specs.Inner.LineRead.{IsOfPart};
ghost use Rattle.capture_form.specs.Inner.Reader.{HeadReads, Takes, AreAsMany, IsReadWithin, closed, phases_read, phases_closed, reads_at, reads_taken};
ghost use Rattle.capture_form.specs.Inner.Progress.{TakesPart, IsOfHead, capture_begun, capture_ended, first_progress, is_numbered, lines_read, octets_read};

use crate::capture::Capture;
use crate::changes::OpenGroup;
use crate::fault::{CaptureFault, LineFault, LineKind};
use crate::line_read::{LineRead, read_line};
use crate::part::PartRead;
use crate::reading::{PhaseList, Reading};
use crate::stated::next_stated;
use crate::steps::{nothing_read, take_line};
use bstr::{ByteSlice, Lines};
use node_head::{Head, HeadRefused, take_head};
use relay_base::Memory;
use std::alloc::Global;

/// How far a capture is read: what its lines brought so far, and the number of the line that comes next.
#[derive(Drop)]
pub struct Progress {
    pub read: Reading,
    pub number: u32,
}

/// The head, how many lines stand before its mark, and the lines after it.
fn head_part(alloc: Global, lines: &mut Lines<'_>) -> Result<(Head, usize), CaptureFault>
    requires { length lines.old < 2 ^ 64 }
    ensures value { HeadReads lines.new result (at_head (begun (halves lines.old))) }
    ensures addable { IfOk result (λ h. IsTrue (are_addable [] h.0.row)) }
    ensures range { IfOk result (λ h. IsHead h.0) }
{
    match take_head(alloc, lines) {
        Ok(head) => Ok(head),
        Err(HeadRefused::Fault(fault)) => Err(CaptureFault::Head(fault)),
        Err(HeadRefused::Memory) => Err(CaptureFault::Memory),
    }
}

/// What the lines behind a head bring, one after the other, of which the first has the number `first`.
#[tactic(auto, unfolding(crate::specs::Inner::Reader::all_taken))]
fn read_lines(
    alloc: Global,
    head: &Head,
    first: u32,
    mut lines: Lines<'_>,
) -> Result<Progress, CaptureFault>
    requires few { first + length lines < 2 ^ 32 }
    ensures value { Reads result (lines_read head.now (first_progress head.now first) lines.entry) }
    ensures links { IfOk result (IsOfHead head.now) }
    ensures number { IfOk result (λ p. p.number ≡ first + length lines.entry) }
{
    let mut read = nothing_read(alloc, head)?;
    let mut number = first;
    let mut words = Vec::new(alloc);
    while let Some(line) = next_stated(&mut number, &mut lines) {
        let said = read_line(alloc, head, &line, &mut words)?;
        take_line(alloc, head, &mut read, said)?;
    }
    Ok(Progress { read, number })
}

/// The head that some octets begin with, and what the lines behind it bring.
pub fn begin_capture(alloc: Global, octets: &[u8]) -> Result<(Head, Progress), CaptureFault>
    requires few { length octets.now ≤ MOST_BYTES }
    ensures value { Reads result (capture_begun octets.now) }
    ensures links { IfOk result (λ t. IsOfHead t.0 t.1) }
    ensures number { IfOk result (λ t. t.1.number ≤ length octets.now + 1) }
    ensures addable { IfOk result (λ t. IsTrue (are_addable [] t.0.row)) }
    ensures range { IfOk result (λ t. IsHead t.0) }
{
    let mut lines = octets.lines();
    let (head, count) = head_part(alloc, &mut lines)?;
    let progress = read_lines(alloc, &head, count as u32 + 2, lines)?;
    Ok((head, progress))
}

/// Takes lines of which it is known what each of them says; they are numbered from `first`.
#[tactic(auto, unfolding(crate::specs::Inner::Reader::all_taken))]
fn take_reads(
    alloc: Global,
    head: &Head,
    read: &mut Reading,
    first: u32,
    lines: Vec<LineRead>,
) -> Result<(), CaptureFault>
    requires links { length read.old.current ≡ head.now.links + 1 }
    requires within { AllByRecursion (IsReadWithin head.now.links) lines.items }
    requires few { AllByRecursion (is_numbered first) lines.items }
    ensures value { Takes read.new result (reads_taken head.now read.old (reads_at first lines.items)) }
    ensures kept { OnOk result (AreAsMany read.old read.new) }
{
    for line in lines {
        let LineRead { number, saying } = line;
        let line = LineRead {
            number: first + number,
            saying,
        };
        take_line(alloc, head, read, line)?;
    }
    Ok(())
}

/// Takes what the lines of a part say, which are the next lines of the capture.
pub fn take_part(
    alloc: Global,
    head: &Head,
    progress: &mut Progress,
    part: PartRead,
) -> Result<(), CaptureFault>
    requires links { IsOfHead head.now progress.old }
    requires few { progress.old.number + part.lines < 2 ^ 32 }
    requires part { (octets : _) × IsOfPart head.now (lines octets) part }
    ensures value { (octets : _) → IsOfPart head.now (lines octets) part →
        TakesPart progress.new result (octets_read head.now progress.old octets) }
    ensures number { OnOk result (progress.new.number ≡ progress.old.number + part.lines) }
    ensures links { OnOk result (IsOfHead head.now progress.new) }
{
    let PartRead { reads, lines } = part;
    take_reads(alloc, head, &mut progress.read, progress.number, reads)?;
    progress.number += lines;
    Ok(())
}

/// No group stands open behind the last line, or it is faulty where it began.
fn closed(group: &Option<OpenGroup>) -> Result<(), CaptureFault>
    ensures { result ≡ closed group.now }
{
    match group {
        None => Ok(()),
        Some(open) => Err(CaptureFault::Line(LineFault {
            line: open.line,
            kind: LineKind::Group,
        })),
    }
}

/// The phases that were read.
fn phases_of(alloc: Global, read: Reading) -> Result<PhaseList, Memory>
    ensures { IfOk result (λ phases. phases ≡ phases_read read) }
{
    if read.events == 0 {
        return Ok(PhaseList::new(alloc));
    }
    let Reading {
        mut phases,
        current,
        ..
    } = read;
    phases.push(current)?;
    Ok(phases)
}

/// The phases that were read, where no group stands open behind the last line.
fn phases_closed(alloc: Global, read: Reading) -> Result<PhaseList, CaptureFault>
    ensures { Reads result (phases_closed read) }
{
    closed(&read.group)?;
    Ok(phases_of(alloc, read)?)
}

/// The capture with this head, of which all lines were read.
pub fn end_capture(alloc: Global, head: Head, progress: Progress) -> Result<Capture, CaptureFault>
    ensures value { Reads result (capture_ended head progress) }
    ensures head { IfOk result (λ c. c.head ≡ head) }
{
    let Progress { read, number: _ } = progress;
    let phases = phases_closed(alloc, read)?;
    Ok(Capture { head, phases })
}
