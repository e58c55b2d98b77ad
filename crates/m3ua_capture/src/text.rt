//! The text of a head.
ghost use Rattle.std.specs.Prelude.{◌≡◌, IfOk};
ghost use Rattle.m3ua_capture.specs.OneLink.{head_text};

use bstr::ByteSlice;
use std::alloc::{AllocError, Global};

/// The text of the head of an input: the lines before its mark, each ended by a line feed.
pub fn head_text(alloc: Global, bytes: &[u8]) -> Result<Vec<u8>, AllocError>
    ensures { IfOk result (λ text. text.items ≡ head_text bytes.now) }
{
    let mut text = Vec::new(alloc);
    let mut lines = bytes.lines();
    while let Some(line) = lines.next() {
        if line == b"%%".as_slice() {
            return Ok(text);
        }
        text.extend_from_slice(line)?;
        text.push(b'\n')?;
    }
    Ok(text)
}
