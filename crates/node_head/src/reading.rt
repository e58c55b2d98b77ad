//! The head of an input.
ghost use Rattle.std.specs.Prelude.{◌≡◌, ◌<◌, ◌^◌, [], length, IsTrue, IfOk, option_map, codes};
ghost use Rattle.node_head.specs.Addable.{are_addable};
ghost use Rattle.node_head.specs.Head.{begun, head_of};
ghost use Rattle.node_head.specs.Ranges.{IsHead};
ghost use Rattle.node_head.specs.Refusals.{Reads, ReadsAs};
ghost use Rattle.node_head.specs.Lines.{lines, halves};

use crate::fault::{HeadKind, HeadRefused};
use crate::head::Head;
use crate::lines::take_text;
use crate::section::refuse;
use crate::table::head_of_text;
use bstr::{ByteSlice, Lines};
use std::alloc::Global;

/// Takes the lines of a head and the mark `%%` that ends it, and gives the head and how many lines stand before the mark.
pub fn take_head(alloc: Global, lines: &mut Lines<'_>) -> Result<(Head, usize), HeadRefused>
    requires { length lines.old < 2 ^ 64 }
    ensures value { ReadsAs (λ h. (h.0, h.1, lines.new)) result (begun (halves lines.old)) }
    ensures addable { IfOk result (λ h. IsTrue (are_addable [] h.0.row)) }
    ensures range { IfOk result (λ h. IsHead h.0) }
{
    let Some(head) = take_text(alloc, lines)? else {
        return Err(refuse(alloc, HeadKind::End, "-"));
    };
    let count = head.count;
    let head = head_of_text(alloc, head.text.as_slice())?;
    Ok((head, count))
}

/// The head of an input, or the first of its faults.
#[tactic(auto, unfolding(crate::specs::Head::head_of))]
pub fn read_head(alloc: Global, bytes: &[u8]) -> Result<Head, HeadRefused>
    ensures value { Reads result (head_of bytes.now) }
    ensures addable { IfOk result (λ h. IsTrue (are_addable [] h.row)) }
    ensures range { IfOk result IsHead }
{
    let mut lines = bytes.lines();
    let (head, _) = take_head(alloc, &mut lines)?;
    Ok(head)
}
