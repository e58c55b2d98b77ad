//! The form of a journal's text.
ghost use Rattle.std.specs.Prelude.{◌≡◌, ◌+◌, ◌<◌, ◌^◌, ◌++◌, length, IfOk, IfErr, OnOk};
ghost use Rattle.journal_form.specs.Form.{lane_line, kind_lines, lane_lines, form_fault};
ghost use Rattle.journal_form.specs.Parts.{HasForm, TellsFault};
ghost use Rattle.journal_form.specs.Inner.Seen.{seen_lanes};

use crate::parts::{Form, FormRefused, read_pieces};
use crate::words::parted;
use relay_base::{Memory, Octets, PlainList};
use std::alloc::{AllocError, Global};

/// The line of a lane.
fn lane_line(alloc: Global, name: &str, number: u8) -> Result<Octets, AllocError>
    ensures { IfOk result (λ l. l ≡ lane_line name.now number) }
{
    let line = format!(in alloc; "= {name} {number}")?;
    Ok(Octets::from(line.into_bytes()))
}

/// Puts the lines of the lanes of a kind at the end.
fn put_kind(
    alloc: Global,
    lines: &mut PlainList<Octets>,
    name: &str,
    count: u8,
) -> Result<(), Memory>
    ensures { OnOk result (lines.new ≡ lines.old ++ kind_lines name.now 0 count) }
{
    for number in 0..count {
        lines.push(lane_line(alloc, name, number)?)?;
    }
    Ok(())
}

/// The lines of the lanes of a node with so many connection lanes and data lanes.
#[tactic(auto, unfolding(crate::specs::Form::lane_lines))]
fn lane_lines(alloc: Global, conns: u8, units: u8) -> Result<PlainList<Octets>, Memory>
    ensures { IfOk result (λ l. l ≡ lane_lines conns units) }
{
    let mut lines = PlainList::new(alloc);
    lines.push(Octets::from_slice(alloc, b"= control")?)?;
    put_kind(alloc, &mut lines, "conn", conns)?;
    put_kind(alloc, &mut lines, "data", units)?;
    Ok(lines)
}

/// The form of the text of a journal with so many connection lanes and data lanes, or the first line that breaks it.
#[tactic(auto, unfolding(crate::specs::Form::form_fault))]
pub fn read_form(alloc: Global, conns: u8, units: u8, text: &[u8]) -> Result<Form<'_>, FormRefused>
    requires { length text.now + 1 < 2 ^ 32 }
    ensures form { IfOk result (λ f.
        HasForm (lane_lines conns units) text.now (seen_lanes f.lanes.items)) }
    ensures fault { IfErr result (TellsFault (form_fault (lane_lines conns units) text.now)) }
{
    let names = lane_lines(alloc, conns, units)?;
    let pieces = parted(alloc, b'\n', text)?;
    read_pieces(alloc, &pieces, names.as_slice())
}
