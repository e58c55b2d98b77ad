//! What an operator is told of a capture that is refused.
ghost use Rattle.std.specs.Prelude.{◌≡◌, IfOk, string_bytes};
ghost use Rattle.capture_form.specs.Note.{head_word, line_word, limit_word, head_text, line_text, limit_text, fault_text, fault_note};

use crate::fault::{CaptureFault, Limit, LineKind};
use node_head::{HeadFault, HeadKind};
use relay_base::{Memory, Octets};
use std::alloc::{AllocError, Global};

pub(crate) fn head_word(kind: HeadKind) -> &'static str
    ensures { result.now ≡ head_word kind }
{
    match kind {
        HeadKind::End => "end",
        HeadKind::Text => "text",
        HeadKind::Unknown => "unknown",
        HeadKind::Missing => "missing",
        HeadKind::Kind => "kind",
        HeadKind::Range => "range",
    }
}

pub(crate) fn line_word(kind: LineKind) -> &'static str
    ensures { result.now ≡ line_word kind }
{
    match kind {
        LineKind::Words => "words",
        LineKind::Group => "group",
        LineKind::Number => "number",
        LineKind::Hex => "hex",
        LineKind::Address => "address",
        LineKind::Size => "size",
        LineKind::Digits => "digits",
        LineKind::Entity => "entity",
        LineKind::User => "user",
        LineKind::Point => "point",
    }
}

pub(crate) fn limit_word(limit: Limit) -> &'static str
    ensures { result.now ≡ limit_word limit }
{
    match limit {
        Limit::Bytes => "bytes",
        Limit::Lines => "lines",
        Limit::Ticks => "ticks",
        Limit::Barriers => "barriers",
    }
}

fn head_text(alloc: Global, fault: &HeadFault) -> Result<Octets, Memory>
    ensures { IfOk result (λ text. text ≡ head_text fault.now) }
{
    let mut text = Octets::new(alloc);
    text.extend(b"head ")?;
    text.extend(head_word(fault.kind).as_bytes())?;
    text.extend(b" ")?;
    text.extend(fault.key.as_slice())?;
    Ok(text)
}

fn line_text(alloc: Global, line: u32, kind: LineKind) -> Result<String, AllocError>
    ensures { IfOk result (λ text. string_bytes text ≡ line_text line kind) }
{
    let kind = line_word(kind);
    format!(in alloc; "line {line} {kind}")
}

fn limit_text(alloc: Global, limit: Limit) -> Result<String, AllocError>
    ensures { IfOk result (λ text. string_bytes text ≡ limit_text limit) }
{
    let limit = limit_word(limit);
    format!(in alloc; "too long {limit}")
}

fn fault_text(alloc: Global, fault: &CaptureFault) -> Result<Octets, Memory>
    ensures { IfOk result (λ text. text ≡ fault_text fault.now) }
{
    match fault {
        CaptureFault::Head(fault) => head_text(alloc, fault),
        CaptureFault::Line(fault) => {
            let text = line_text(alloc, fault.line, fault.kind)?;
            Ok(Octets::from(text.into_bytes()))
        }
        CaptureFault::TooLong(limit) => {
            let text = limit_text(alloc, *limit)?;
            Ok(Octets::from(text.into_bytes()))
        }
        CaptureFault::Memory => Octets::from_slice(alloc, b"memory"),
    }
}

/// The line that tells an operator why a capture is refused: `head <kind> <key>`, `line <number> <kind>`,
/// `too long <what>` or `memory`.
pub fn fault_note(alloc: Global, fault: &CaptureFault) -> Result<Octets, Memory>
    ensures { IfOk result (λ note. note ≡ fault_note fault.now) }
{
    let mut note = fault_text(alloc, fault)?;
    note.extend(b"\n")?;
    Ok(note)
}
