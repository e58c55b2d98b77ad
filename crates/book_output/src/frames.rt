//! The messages of a book, one after another.
ghost use Rattle.std.specs.Prelude.{◌≡◌, ◌++◌, IfOk, OnOk};
ghost use Rattle.book_output.specs.Sending.{frame_of, frames_of_outs, sent_frames};
ghost use Rattle.book_output.specs.Inner.Pushing.{control_frames, journal_frames, lanes_frames};

use journal_text::Book;
use m3ua_port::limits::LONGEST_CARRIED;
use m3ua_port::wrap;
use plant_core::{ControlEntry, Entry, EntryList};
use relay_base::{Memory, Octets, Output, Pc};
use std::alloc::Global;

/// Puts the message of an output at the end.
fn push_frame(alloc: Global, own: Pc, frames: &mut Octets, output: &Output) -> Result<(), Memory>
    ensures { OnOk result (frames.new ≡ frames.old ++ frame_of own output.now) }
{
    let Output::Sent { point, sls, bytes } = output else {
        return Ok(());
    };
    if bytes.len() > LONGEST_CARRIED {
        return Ok(());
    }
    let frame = wrap(alloc, own, *point, *sls, bytes.as_slice())?;
    frames.extend(frame.as_slice())
}

/// Puts the messages of an entry's outputs at the end.
fn push_outs(alloc: Global, own: Pc, frames: &mut Octets, outs: &[Output]) -> Result<(), Memory>
    ensures { OnOk result (frames.new ≡ frames.old ++ frames_of_outs own outs.now) }
{
    for output in outs {
        push_frame(alloc, own, frames, output)?;
    }
    Ok(())
}

/// Puts the messages of the control lane at the end.
fn push_control(
    alloc: Global,
    own: Pc,
    frames: &mut Octets,
    journal: &[ControlEntry],
) -> Result<(), Memory>
    ensures { OnOk result (frames.new ≡ frames.old ++ control_frames own journal.now) }
{
    for entry in journal {
        push_outs(alloc, own, frames, entry.outs.as_slice())?;
    }
    Ok(())
}

/// Puts the messages of a journal at the end.
fn push_journal(
    alloc: Global,
    own: Pc,
    frames: &mut Octets,
    journal: &[Entry],
) -> Result<(), Memory>
    ensures { OnOk result (frames.new ≡ frames.old ++ journal_frames own journal.now) }
{
    for entry in journal {
        push_outs(alloc, own, frames, entry.outs.as_slice())?;
    }
    Ok(())
}

/// Puts the messages of the lanes of a kind at the end.
fn push_lanes(
    alloc: Global,
    own: Pc,
    frames: &mut Octets,
    lanes: &[EntryList],
) -> Result<(), Memory>
    ensures { OnOk result (frames.new ≡ frames.old ++ lanes_frames own lanes.now) }
{
    for journal in lanes {
        push_journal(alloc, own, frames, journal.as_slice())?;
    }
    Ok(())
}

/// The messages that carry from the own point what a book sends, one after another, in the order of its print.
#[tactic(auto, using(crate::proofs::FrameLemmas::book_frames))]
pub fn sent_frames(alloc: Global, own: Pc, book: &Book) -> Result<Octets, Memory>
    ensures { IfOk result (λ frames. frames ≡ sent_frames own book.now) }
{
    let mut frames = Octets::new(alloc);
    push_control(alloc, own, &mut frames, book.control.as_slice())?;
    push_lanes(alloc, own, &mut frames, book.conns.as_slice())?;
    push_lanes(alloc, own, &mut frames, book.units.as_slice())?;
    Ok(frames)
}
