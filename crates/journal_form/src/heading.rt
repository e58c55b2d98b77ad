//! The lines of entries.
ghost use Rattle.std.specs.Prelude.{◌≡◌, IfOk, option_map};
ghost use Rattle.journal_form.specs.Headings.{is_cause, is_answer, edition_of, routing_of, published_of, stamped_of, publishing, asking, entry_with, entry_in, heading_of};
ghost use Rattle.journal_form.specs.Stamps.{number_below, stamp_of};
ghost use Rattle.journal_form.specs.Inner.Seen.{texts, seen_routing, seen_entry};

use crate::words::{is_number, parted};
use relay_base::{Stamp, number_of};
use std::alloc::{AllocError, Global};

/// The words of a routing.
#[derive(Clone, Copy)]
pub struct Routing<'a> {
    /// The digits of its edition.
    pub edition: &'a [u8],
    /// `local`, `to` or `no`.
    pub way: &'a [u8],
    /// The digits of a subsystem or a point, or the word of a cause.
    pub value: &'a [u8],
}

/// The words of an entry's line.
#[derive(Clone, Copy)]
pub struct EntryLine<'a> {
    /// The digits of its phase.
    pub phase: &'a [u8],
    /// The digits of its link.
    pub link: &'a [u8],
    /// The digits of its line.
    pub line: &'a [u8],
    /// The routing that it asked for.
    pub asked: Option<Routing<'a>>,
    /// The digits of the edition that it published.
    pub published: Option<&'a [u8]>,
}

/// A phase or a line.
fn long_number(word: &[u8]) -> Option<u32>
    ensures { result ≡ number_below 4294967296 word.now }
{
    match u32::try_from(number_of(word)?) {
        Ok(number) => Some(number),
        Err(_) => None,
    }
}

/// A link.
fn short_number(word: &[u8]) -> Option<u8>
    ensures { result ≡ number_below 256 word.now }
{
    match u8::try_from(number_of(word)?) {
        Ok(number) => Some(number),
        Err(_) => None,
    }
}

impl EntryLine<'_> {
    /// The stamp of its numbers. None where one of them is too large for the stamp of a capture.
    pub fn stamp(&self) -> Option<Stamp>
        ensures { result ≡ stamp_of (seen_entry self.now) }
    {
        let phase = long_number(self.phase)?;
        let link = short_number(self.link)?;
        let line = long_number(self.line)?;
        Some(Stamp { phase, link, line })
    }
}

fn is_cause(word: &[u8]) -> bool
    ensures { result ≡ is_cause word.now }
{
    word == b"nature".as_slice()
        || word == b"address".as_slice()
        || word == b"point".as_slice()
        || word == b"subsystem".as_slice()
        || word == b"unequipped".as_slice()
        || word == b"hop".as_slice()
}

/// `local <ssn>`, `to <dpc>` or `no <cause>`
fn is_answer(way: &[u8], value: &[u8]) -> bool
    ensures { result ≡ is_answer way.now value.now }
{
    if way == b"local".as_slice() || way == b"to".as_slice() {
        is_number(value)
    } else {
        way == b"no".as_slice() && is_cause(value)
    }
}

/// The digits of `e<edition>`.
fn read_edition(word: &[u8]) -> Option<&[u8]>
    ensures { option_map (λ w. w.now) result ≡ edition_of word.now }
{
    if word.is_empty() || word[0] != b'e' {
        return None;
    }
    let digits = &word[1..];
    if is_number(digits) {
        Some(digits)
    } else {
        None
    }
}

/// `e<edition>` and an answer
fn read_routing<'a>(number: &'a [u8], way: &'a [u8], value: &'a [u8]) -> Option<Routing<'a>>
    ensures { option_map seen_routing result ≡ routing_of number.now way.now value.now }
{
    let edition = read_edition(number)?;
    if is_answer(way, value) {
        Some(Routing {
            edition,
            way,
            value,
        })
    } else {
        None
    }
}

/// `new e<edition>`
fn read_published<'a>(word: &[u8], number: &'a [u8]) -> Option<&'a [u8]>
    ensures { option_map (λ w. w.now) result ≡ published_of word.now number.now }
{
    if word == b"new".as_slice() {
        read_edition(number)
    } else {
        None
    }
}

/// The entry whose stamp has these parts.
fn stamped<'a>(
    stamp: &[&'a [u8]],
    asked: Option<Routing<'a>>,
    published: Option<&'a [u8]>,
) -> Option<EntryLine<'a>>
    ensures { option_map seen_entry result ≡ stamped_of (texts stamp.now)
        (option_map seen_routing asked.entry) (option_map (λ w. w.now) published.entry) }
{
    if stamp.len() != 3 {
        return None;
    }
    let (phase, link, line) = (stamp[0], stamp[1], stamp[2]);
    if is_number(phase) && is_number(link) && is_number(line) {
        Some(EntryLine {
            phase,
            link,
            line,
            asked,
            published,
        })
    } else {
        None
    }
}

/// The entry with this stamp and routing, by the words behind them.
#[tactic(auto, using(crate::proofs::HeadingLemmas::publishing_other))]
fn publishing<'a>(
    stamp: &[&'a [u8]],
    asked: Option<Routing<'a>>,
    more: &[&'a [u8]],
) -> Option<EntryLine<'a>>
    ensures { option_map seen_entry result
        ≡ publishing (texts stamp.now) (option_map seen_routing asked.entry) (texts more.now) }
{
    if more.is_empty() {
        return stamped(stamp, asked, None);
    }
    if more.len() != 2 {
        return None;
    }
    let published = read_published(more[0], more[1])?;
    stamped(stamp, asked, Some(published))
}

/// The entry with this stamp, by the words of its routing and those behind them.
fn asking<'a>(
    stamp: &[&'a [u8]],
    edition: &'a [u8],
    way: &'a [u8],
    value: &'a [u8],
    more: &[&'a [u8]],
) -> Option<EntryLine<'a>>
    ensures { option_map seen_entry result
        ≡ asking (texts stamp.now) edition.now way.now value.now (texts more.now) }
{
    let asked = read_routing(edition, way, value)?;
    publishing(stamp, Some(asked), more)
}

/// The entry with a stamp of these parts, by the words behind it.
#[tactic(auto, using(crate::proofs::HeadingLemmas::entry_with_few))]
fn entry_with<'a>(stamp: &[&'a [u8]], more: &[&'a [u8]]) -> Option<EntryLine<'a>>
    ensures { option_map seen_entry result ≡ entry_with (texts stamp.now) (texts more.now) }
{
    if more.len() < 3 {
        return publishing(stamp, None, more);
    }
    asking(stamp, more[0], more[1], more[2], &more[3..])
}

/// What the line of an entry says. None for any other line.
#[tactic(auto, unfolding(crate::specs::Headings::heading_of))]
pub fn read_entry_line(alloc: Global, line: &[u8]) -> Result<Option<EntryLine<'_>>, AllocError>
    ensures { IfOk result (λ e. option_map seen_entry e ≡ heading_of line.now) }
{
    let words = parted(alloc, b' ', line)?;
    if words.is_empty() {
        return Ok(None);
    }
    let stamp = parted(alloc, b'.', words[0])?;
    Ok(entry_with(&stamp, &words[1..]))
}
