//! The lines of an entry beside those that it would have.
ghost use Rattle.std.specs.Prelude.{◌≡◌, ◌&&◌, map, IfOk};
ghost use Rattle.journal_form.specs.Words.{same};
ghost use Rattle.journal_form.specs.Inner.Seen.{texts, seen_part};
ghost use Rattle.book_output.specs.Print.{line_of_control, line_of_entry, line_of_output};
ghost use Rattle.journal_finding.specs.Entries.{same_lines};

use journal_form::EntryForm;
use journal_text::{Text, put_asked, put_output, put_published, put_stamp};
use plant_core::{ControlEntry, Entry};
use relay_base::{Memory, Output};
use std::alloc::Global;

/// Whether a line is that of an output. The text is room for it.
fn is_output_written(text: &mut Text, output: &Output, line: &[u8]) -> Result<bool, Memory>
    ensures { IfOk result (λ b. b ≡ same (line_of_output output.now) line.now) }
{
    text.clear();
    put_output(text, output)?;
    let octets = text.as_slice();
    Ok(&octets[..octets.len() - 1] == line)
}

/// Whether lines are those of outputs, one each.
fn are_outs_written(text: &mut Text, outs: &[Output], lines: &[&[u8]]) -> Result<bool, Memory>
    ensures { IfOk result (λ b. b ≡ same_lines (map line_of_output outs.now) (texts lines.now)) }
{
    if outs.len() != lines.len() {
        return Ok(false);
    }
    for at in 0..outs.len() {
        if !is_output_written(text, &outs[at], lines[at])? {
            return Ok(false);
        }
    }
    Ok(true)
}

/// Whether the line of a part is the text, and those below it are those of outputs.
fn is_part_written(text: &mut Text, outs: &[Output], part: &EntryForm<'_>) -> Result<bool, Memory>
    ensures { let seen = seen_part part.now in
        let lines = map line_of_output outs.now in
        IfOk result (λ b. b ≡ (same text.old seen.text && same_lines lines seen.outs)) }
{
    if text.as_slice() != part.text {
        return Ok(false);
    }
    are_outs_written(text, outs, part.outs.as_slice())
}

/// Whether the lines of a part are those of an entry.
pub fn is_entry_written(alloc: Global, entry: &Entry, part: &EntryForm<'_>) -> Result<bool, Memory>
    ensures { let seen = seen_part part.now in
        let lines = map line_of_output entry.now.outs in
        IfOk result (λ b.
        b ≡ (same (line_of_entry entry.now) seen.text && same_lines lines seen.outs)) }
{
    let mut text = Text::of(alloc, "")?;
    put_stamp(&mut text, entry.stamp)?;
    put_asked(&mut text, &entry.asked)?;
    is_part_written(&mut text, entry.outs.as_slice(), part)
}

/// Whether the lines of a part are those of an entry of the control lane.
pub fn is_control_entry_written(
    alloc: Global,
    entry: &ControlEntry,
    part: &EntryForm<'_>,
) -> Result<bool, Memory>
    ensures { let seen = seen_part part.now in
        let lines = map line_of_output entry.now.outs in
        IfOk result (λ b.
        b ≡ (same (line_of_control entry.now) seen.text && same_lines lines seen.outs)) }
{
    let mut text = Text::of(alloc, "")?;
    put_stamp(&mut text, entry.stamp)?;
    put_published(&mut text, entry.published)?;
    is_part_written(&mut text, entry.outs.as_slice(), part)
}
