//! The octets of a capture, and those of the text behind it.
ghost use Rattle.std.specs.Prelude.{◌≡◌, ◌≤◌, length, IfSome};
ghost use Rattle.std.specs.Option.{option_map};
ghost use Rattle.bstr.specs.Text.{without_terminator};
ghost use Rattle.capture_input.specs.Audit.{is_line, parts_of};

use bstr::ByteSlice;

/// A line without its line feed and a carriage return before it.
fn without_end(line: &[u8]) -> &[u8]
    ensures { result.now ≡ without_terminator line.now }
{
    let n = line.len();
    if n == 0 || line[n - 1] != b'\n' {
        return line;
    }
    if n == 1 || line[n - 2] != b'\r' {
        return &line[..n - 1];
    }
    &line[..n - 2]
}

/// A line, without its end, is this one.
fn is_line(word: &[u8], line: &[u8]) -> bool
    ensures { result ≡ is_line word.now line.now }
{
    without_end(line) == word
}

/// The octets before the first line `%%%` behind the first line `%%`, and those behind that line.
pub fn parts_of(bytes: &[u8]) -> Option<(&[u8], &[u8])>
    ensures value { option_map (λ p. (p.0.now, p.1.now)) result ≡ parts_of bytes.now }
    ensures short { IfSome result (λ p. length p.1.now ≤ length bytes.now) }
{
    let mut lines = bytes.lines_with_terminator();
    let mut headed = false;
    let mut at = 0usize;
    while let Some(line) = lines.next() {
        let next = at + line.len();
        if headed && is_line(b"%%%", line) {
            return Some((&bytes[..at], &bytes[next..]));
        }
        headed |= is_line(b"%%", line);
        at = next;
    }
    None
}
