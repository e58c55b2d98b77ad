//! The parts of a text that has the form.
ghost use Rattle.std.specs.Prelude.{◌≡◌, ◌+◌, ◌≤◌, ◌<◌, ◌^◌, drop, length, None, IfOk, IfErr, option_map};
ghost use Rattle.journal_form.specs.Form.{fault_in};
ghost use Rattle.journal_form.specs.Parts.{outs_front, entry_at, entries_size, AreEntries, IsForm, TellsFault};
ghost use Rattle.journal_form.specs.Inner.Seen.{texts, seen_part, seen_parts, seen_lane, seen_lanes};
ghost use Rattle.journal_form.specs.Inner.Reading.{HasLane, HasLanes, LacksLane, BreaksForm};

use crate::heading::{EntryLine, read_entry_line};
use crate::outputs::is_output_line;
use relay_base::Octets;
use std::alloc::{AllocError, AllocFailed, Global};

/// An entry and the lines of its outputs.
#[derive(Drop)]
pub struct EntryForm<'a> {
    /// The number of its line, from 1.
    pub number: u32,
    /// Its line.
    pub text: &'a [u8],
    /// What that line says.
    pub words: EntryLine<'a>,
    /// The lines of its outputs.
    pub outs: Vec<&'a [u8]>,
}

/// A lane and its entries.
#[derive(Drop)]
pub struct LaneForm<'a> {
    /// The number of its line, from 1.
    pub number: u32,
    /// Its line.
    pub text: &'a [u8],
    pub entries: Vec<EntryForm<'a>>,
}

/// Why a text isn't read: a line breaks its form, counted from 1, or memory ran out.
#[derive(Drop)]
pub enum FormRefused {
    Fault(u32),
    Memory,
}

impl From<AllocError> for FormRefused {
    ghost use Rattle.journal_form.specs.declared.parts.FormRefused.TheVariants.{Memory};

    ghost from_gives = { λ _ e. e ≡ Memory };

    fn from(_: AllocError) -> FormRefused {
        FormRefused::Memory
    }
}

impl From<relay_base::Memory> for FormRefused {
    ghost use Rattle.journal_form.specs.declared.parts.FormRefused.TheVariants.{Memory};

    ghost from_gives = { λ _ e. e ≡ Memory };

    fn from(_: relay_base::Memory) -> FormRefused {
        FormRefused::Memory
    }
}

impl<T: Drop> From<AllocFailed<T>> for FormRefused {
    ghost use Rattle.journal_form.specs.declared.parts.FormRefused.TheVariants.{Memory};

    ghost from_gives = { λ _ e. e ≡ Memory };

    fn from(_: AllocFailed<T>) -> FormRefused {
        FormRefused::Memory
    }
}

/// The lines of outputs from a place on.
fn read_outs<'a>(
    alloc: Global,
    lines: &[&'a [u8]],
    from: usize,
) -> Result<Vec<&'a [u8]>, AllocError>
    ensures { IfOk result (λ outs. texts outs.items ≡ outs_front (drop from (texts lines.now))) }
{
    let mut outs = Vec::new(alloc);
    for index in from..lines.len() {
        if !is_output_line(alloc, lines[index])? {
            return Ok(outs);
        }
        outs.push(lines[index])?;
    }
    Ok(outs)
}

/// The entry at a place.
fn read_entry<'a>(
    alloc: Global,
    lines: &[&'a [u8]],
    at: usize,
) -> Result<Option<EntryForm<'a>>, AllocError>
    requires { length lines.now < 2 ^ 32 }
    ensures { IfOk result (λ e. option_map seen_part e ≡ entry_at at (texts lines.now)) }
{
    if at >= lines.len() {
        return Ok(None);
    }
    let text = lines[at];
    let Some(words) = read_entry_line(alloc, text)? else {
        return Ok(None);
    };
    let outs = read_outs(alloc, lines, at + 1)?;
    Ok(Some(EntryForm {
        number: (at + 1) as u32,
        text,
        words,
        outs,
    }))
}

/// The entries from a place on, and the place behind them.
pub fn read_entries<'a>(
    alloc: Global,
    lines: &[&'a [u8]],
    from: usize,
) -> Result<(Vec<EntryForm<'a>>, usize), AllocError>
    requires few { length lines.now < 2 ^ 32 }
    requires within { from ≤ length lines.now }
    ensures entries { IfOk result (λ r. AreEntries from (texts lines.now) (seen_parts r.0.items)) }
    ensures place { IfOk result (λ r. r.1 ≡ from + entries_size (seen_parts r.0.items)) }
    ensures within { IfOk result (λ r. r.1 ≤ length lines.now) }
    ensures end { IfOk result (λ r. entry_at r.1 (texts lines.now) ≡ None) }
{
    let mut entries = Vec::new(alloc);
    let mut at = from;
    while let Some(entry) = read_entry(alloc, lines, at)? {
        at += 1 + entry.outs.len();
        entries.push(entry)?;
    }
    Ok((entries, at))
}

/// The lane of a name at a place, and the place behind it.
fn read_lane<'a>(
    alloc: Global,
    lines: &[&'a [u8]],
    at: usize,
    name: &[u8],
) -> Result<(LaneForm<'a>, usize), FormRefused>
    requires few { length lines.now + 1 < 2 ^ 32 }
    requires within { at ≤ length lines.now }
    ensures lane { IfOk result (λ r. HasLane at (texts lines.now) name.now (seen_lane r.0) r.1) }
    ensures fault { IfErr result (LacksLane at (texts lines.now) name.now) }
{
    let number = (at + 1) as u32;
    if at >= lines.len() {
        return Err(FormRefused::Fault(number));
    }
    let text = lines[at];
    if text != name {
        return Err(FormRefused::Fault(number));
    }
    let (entries, next) = read_entries(alloc, lines, at + 1)?;
    let lane = LaneForm {
        number,
        text,
        entries,
    };
    Ok((lane, next))
}

/// The lanes of these names, and the place behind them.
pub fn read_lanes<'a>(
    alloc: Global,
    lines: &[&'a [u8]],
    names: &[Octets],
) -> Result<(Vec<LaneForm<'a>>, usize), FormRefused>
    requires { length lines.now + 1 < 2 ^ 32 }
    ensures lanes { IfOk result (λ r.
        HasLanes names.now (texts lines.now) (length names.now) (seen_lanes r.0.items) r.1) }
    ensures fault { IfErr result (BreaksForm names.now (texts lines.now)) }
{
    let mut lanes = Vec::new(alloc);
    let mut at = 0usize;
    for name in names {
        let (lane, next) = read_lane(alloc, lines, at, name.as_slice())?;
        lanes.push(lane)?;
        at = next;
    }
    Ok((lanes, at))
}

/// A text that has the form of a journal.
#[derive(Drop)]
pub struct Form<'a> {
    pub lanes: Vec<LaneForm<'a>>,
}

/// The form of a text that its line feeds part into these pieces.
pub fn read_pieces<'a>(
    alloc: Global,
    pieces: &[&'a [u8]],
    names: &[Octets],
) -> Result<Form<'a>, FormRefused>
    requires some { 0 < length pieces.now }
    requires few { length pieces.now < 2 ^ 32 }
    ensures form { IfOk result (λ f. IsForm names.now (texts pieces.now) (seen_lanes f.lanes.items)) }
    ensures fault { IfErr result (TellsFault (fault_in names.now (texts pieces.now))) }
{
    let end = pieces.len() - 1;
    let (lanes, at) = read_lanes(alloc, &pieces[..end], names)?;
    let behind = (at + 1) as u32;
    if at < end {
        return Err(FormRefused::Fault(behind));
    }
    if !pieces[end].is_empty() {
        return Err(FormRefused::Fault(behind));
    }
    Ok(Form { lanes })
}
