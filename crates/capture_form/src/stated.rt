//! The lines that state something, each with its number.
ghost use Rattle.std.specs.Prelude.{◌≡◌, ◌<◌, ◌+◌, ◌^◌, [], None, length};
ghost use Rattle.std.specs.Option.{option_map};
ghost use Rattle.std.specs.List.{cons_option};
ghost use Rattle.capture_form.specs.Capture.{is_skipped};
ghost use Rattle.capture_form.specs.Inner.Stated.{numbered, seen_line};

use bstr::Lines;

/// A line that is neither empty nor a comment, and its number.
#[derive(Clone, Copy)]
pub struct StatedLine<'a> {
    pub number: u32,
    pub octets: &'a [u8],
}

/// An empty line, or a comment.
pub fn is_skipped(line: &[u8]) -> bool
    ensures { result ≡ is_skipped line.now }
{
    line.is_empty() || line[0] == b'#'
}

/// The next line that states something, if there is one; the first of the lines has the number `number`.
pub fn next_stated<'a>(number: &mut u32, lines: &mut Lines<'a>) -> Option<StatedLine<'a>>
    requires few { number.old + length lines.old < 2 ^ 32 }
    ensures lines { let line = option_map seen_line result in
        cons_option line (numbered number.new lines.new) ≡ numbered number.old lines.old }
    ensures end { result ≡ None → lines.new ≡ [] }
    ensures few { number.new + length lines.new ≡ number.old + length lines.old }
{
    while let Some(octets) = lines.next() {
        let line = StatedLine {
            number: *number,
            octets,
        };
        *number += 1;
        if !is_skipped(octets) {
            return Some(line);
        }
    }
    None
}
