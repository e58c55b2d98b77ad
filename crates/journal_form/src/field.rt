//! The fields of an output's line.
ghost use Rattle.std.specs.Prelude.{◌≡◌};
ghost use Rattle.journal_form.specs.Outputs.{is_way, is_reason, is_in, fit};
ghost use Rattle.journal_form.specs.Inner.Seen.{texts, seen_field, seen_shape};

use crate::words::{is_number, is_octets};

/// What a word of an output's line may be.
#[derive(Clone, Copy)]
pub enum Field {
    Is(&'static [u8]),
    Number,
    /// Octets in hex, or a dash for none.
    Octets,
    /// Whether a point or a subsystem is in service.
    Way,
    /// Why a request was refused.
    Reason,
}

fn is_way(word: &[u8]) -> bool
    ensures { result ≡ is_way word.now }
{
    word == b"in".as_slice() || word == b"out".as_slice()
}

fn is_reason(word: &[u8]) -> bool
    ensures { result ≡ is_reason word.now }
{
    word == b"owner".as_slice()
        || word == b"state".as_slice()
        || word == b"class".as_slice()
        || word == b"full".as_slice()
        || word == b"expedited".as_slice()
        || word == b"unknown".as_slice()
        || word == b"replicate".as_slice()
}

impl Field {
    /// Whether a word may stand in this field.
    fn has(self, word: &[u8]) -> bool
        ensures { result ≡ is_in (seen_field self) word.now }
    {
        match self {
            Field::Is(text) => word == text,
            Field::Number => is_number(word),
            Field::Octets => is_octets(word),
            Field::Way => is_way(word),
            Field::Reason => is_reason(word),
        }
    }
}

/// Whether there is a word for each field.
pub fn fit(fields: &[Field], words: &[&[u8]]) -> bool
    ensures { result ≡ fit (seen_shape fields.now) (texts words.now) }
{
    if fields.len() != words.len() {
        return false;
    }
    for index in 0..fields.len() {
        if !fields[index].has(words[index]) {
            return false;
        }
    }
    true
}
