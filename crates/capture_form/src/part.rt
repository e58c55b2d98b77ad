//! What the lines of a part of a capture say, whatever stands above it.
ghost use Rattle.std.specs.Prelude.{◌<◌, ◌^◌, length, IfOk};
ghost use Rattle.node_head.specs.Lines.{lines};
ghost use Rattle.capture_form.specs.Inner.LineRead.{IsOfPart};

use crate::line_read::{LineRead, read_line};
use crate::stated::next_stated;
use bstr::ByteSlice;
use node_head::Head;
use relay_base::Memory;
use std::alloc::Global;

/// What the lines of a part say that state something, each with its number among the lines of the part, from 0, and how many lines the part has.
#[derive(Drop)]
pub struct PartRead {
    pub reads: Vec<LineRead>,
    pub lines: u32,
}

/// What the lines of a part say.
pub fn read_part(alloc: Global, head: &Head, part: &[u8]) -> Result<PartRead, Memory>
    requires few { length part.now < 2 ^ 32 }
    ensures { IfOk result (IsOfPart head.now (lines part.now)) }
{
    let mut lines = part.lines();
    let mut number = 0;
    let mut words = Vec::new(alloc);
    let mut reads = Vec::new(alloc);
    while let Some(line) = next_stated(&mut number, &mut lines) {
        let read = read_line(alloc, head, &line, &mut words)?;
        reads.push(read)?;
    }
    Ok(PartRead {
        reads,
        lines: number,
    })
}
