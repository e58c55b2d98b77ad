//! The lines of outputs.
ghost use Rattle.std.specs.Prelude.{◌≡◌, IfOk, map};
ghost use Rattle.journal_form.specs.Outputs.{told_shapes, lost_shapes, fit_any, is_output, is_output_line};
ghost use Rattle.journal_form.specs.Inner.Seen.{texts, seen_shape};

use crate::field::Field::{self, Is, Number, Octets, Reason, Way};
use crate::field::fit;
use crate::words::parted;
use std::alloc::{AllocError, Global};

/// The words of a message that is sent, and of what a user is told.
const TOLD_SHAPES: [&[Field]; 18] = [
    &[Is(b">"), Number, Number, Octets],
    &[
        Is(b"<"),
        Number,
        Is(b"unit"),
        Number,
        Octets,
        Octets,
        Octets,
    ],
    &[
        Is(b"<"),
        Number,
        Is(b"notice"),
        Number,
        Octets,
        Octets,
        Octets,
    ],
    &[
        Is(b"<"),
        Number,
        Is(b"conn"),
        Number,
        Number,
        Number,
        Octets,
        Octets,
        Octets,
    ],
    &[Is(b"<"), Number, Is(b"ref"), Number, Number],
    &[Is(b"<"), Number, Is(b"not-made"), Number, Number],
    &[
        Is(b"<"),
        Number,
        Is(b"confirm"),
        Number,
        Number,
        Number,
        Octets,
        Octets,
    ],
    &[Is(b"<"), Number, Is(b"text"), Number, Octets],
    &[Is(b"<"), Number, Is(b"ed"), Number, Octets],
    &[Is(b"<"), Number, Is(b"reset"), Number, Number],
    &[Is(b"<"), Number, Is(b"reset-done"), Number],
    &[Is(b"<"), Number, Is(b"disc"), Number, Number, Octets],
    &[Is(b"<"), Number, Is(b"state"), Number, Number, Way],
    &[Is(b"<"), Number, Is(b"point"), Number, Way],
    &[Is(b"<"), Number, Is(b"coord"), Number],
    &[Is(b"<"), Number, Is(b"granted"), Number],
    &[Is(b"<"), Number, Is(b"denied"), Number],
    &[Is(b"<"), Number, Is(b"no"), Reason],
];

/// The words of what was lost.
const LOST_SHAPES: [&[Field]; 18] = [
    &[Is(b"."), Is(b"read"), Is(b"1")],
    &[Is(b"."), Is(b"read"), Is(b"2"), Number],
    &[Is(b"."), Is(b"read"), Is(b"3")],
    &[Is(b"."), Is(b"read"), Is(b"4"), Number],
    &[Is(b"."), Is(b"read"), Is(b"5"), Number],
    &[Is(b"."), Is(b"cause"), Number],
    &[Is(b"."), Is(b"long")],
    &[Is(b"."), Is(b"address")],
    &[Is(b"."), Is(b"class")],
    &[Is(b"."), Is(b"point")],
    &[Is(b"."), Is(b"state")],
    &[Is(b"."), Is(b"stray")],
    &[Is(b"."), Is(b"segment")],
    &[Is(b"."), Is(b"manage")],
    &[Is(b"."), Is(b"same")],
    &[Is(b"."), Is(b"duplicate")],
    &[Is(b"."), Is(b"rows-full")],
    &[Is(b"."), Is(b"no-row")],
];

/// Whether words are of one of the shapes.
fn fit_any(shapes: &[&[Field]], words: &[&[u8]]) -> bool
    ensures { result ≡ fit_any (map (λ s. seen_shape s.now) shapes.now) (texts words.now) }
{
    for shape in shapes {
        if fit(shape, words) {
            return true;
        }
    }
    false
}

#[tactic(auto, unfolding(crate::specs::Outputs::told_shapes))]
fn is_told(words: &[&[u8]]) -> bool
    ensures { result ≡ fit_any told_shapes (texts words.now) }
{
    fit_any(&TOLD_SHAPES, words)
}

#[tactic(auto, unfolding(crate::specs::Outputs::lost_shapes))]
fn is_lost(words: &[&[u8]]) -> bool
    ensures { result ≡ fit_any lost_shapes (texts words.now) }
{
    fit_any(&LOST_SHAPES, words)
}

#[tactic(auto, unfolding(crate::specs::Outputs::is_output))]
fn is_output(words: &[&[u8]]) -> bool
    ensures { result ≡ is_output (texts words.now) }
{
    is_told(words) || is_lost(words)
}

/// Whether a line is that of an output.
#[tactic(auto, unfolding(crate::specs::Outputs::is_output_line))]
pub fn is_output_line(alloc: Global, line: &[u8]) -> Result<bool, AllocError>
    ensures { IfOk result (λ is. is ≡ is_output_line line.now) }
{
    let words = parted(alloc, b' ', line)?;
    Ok(!words.is_empty() && words[0].is_empty() && is_output(&words[1..]))
}
