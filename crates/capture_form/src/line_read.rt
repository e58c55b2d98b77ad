//! What a line says, whatever stands above it.
ghost use Rattle.std.specs.Prelude.{◌≡◌, IfOk};
ghost use Rattle.capture_form.specs.Inner.Words.{texts};
ghost use Rattle.capture_form.specs.Inner.LineRead.{words_read, line_read};
ghost use Rattle.capture_form.specs.Inner.Stated.{seen_line};
ghost use Rattle.capture_form.specs.Capture.{begins, barrier_form};
ghost use Rattle.capture_form.specs.Line.{meaning_of};

use crate::fault::LineKind;
use crate::groups::{Standing, standing_of};
use crate::line::meaning_of;
use crate::meaning::Meaning;
use crate::refused::LineRefused;
use crate::stated::StatedLine;
use crate::text::split_words;
use node_head::Head;
use relay_base::Memory;
use std::alloc::Global;

/// How an event line may stand, whether it is a tick line, and what it means.
#[derive(Drop)]
pub struct EventRead {
    pub standing: Standing,
    pub is_tick: bool,
    pub meaning: Result<Meaning, LineKind>,
}

/// What the words of a line say.
#[derive(Drop)]
pub enum Saying {
    /// A phase ends. How the barrier may stand, and whether its form is right.
    Barrier(Standing, Result<(), LineKind>),
    /// What an event line says.
    Event(EventRead),
}

/// What a line says, and its number.
#[derive(Drop)]
pub struct LineRead {
    pub number: u32,
    pub saying: Saying,
}

/// Whether the first of the words is this one.
fn begins(word: &[u8], words: &[&[u8]]) -> bool
    ensures { result ≡ begins word.now (texts words.now) }
{
    match words {
        [] => false,
        [first, ..] => *first == word,
    }
}

/// What is wrong with a barrier, which is one word.
fn barrier_form(words: &[&[u8]]) -> Result<(), LineKind>
    ensures { result ≡ barrier_form (texts words.now) }
{
    if words.len() == 1 {
        Ok(())
    } else {
        Err(LineKind::Words)
    }
}

/// What a line means that is no barrier, or what is wrong with it.
fn meaning_read(
    alloc: Global,
    head: &Head,
    words: &[&[u8]],
) -> Result<Result<Meaning, LineKind>, Memory>
    ensures { IfOk result (λ form. form ≡ meaning_of head.now (texts words.now)) }
{
    match meaning_of(alloc, head, words) {
        Ok(meaning) => Ok(Ok(meaning)),
        Err(LineRefused::Kind(kind)) => Ok(Err(kind)),
        Err(LineRefused::Memory) => Err(Memory),
    }
}

/// What the words of a line say.
fn read_words(alloc: Global, head: &Head, words: &[&[u8]]) -> Result<Saying, Memory>
    ensures { IfOk result (λ saying. saying ≡ words_read head.now (texts words.now)) }
{
    let standing = standing_of(words);
    if begins(b"w", words) {
        return Ok(Saying::Barrier(standing, barrier_form(words)));
    }
    let is_tick = begins(b"t", words);
    let meaning = meaning_read(alloc, head, words)?;
    Ok(Saying::Event(EventRead {
        standing,
        is_tick,
        meaning,
    }))
}

/// What a line says, of which the words take the memory of those of the line before it.
pub fn read_line<'a>(
    alloc: Global,
    head: &Head,
    line: &StatedLine<'a>,
    words: &mut Vec<&'a [u8]>,
) -> Result<LineRead, Memory>
    ensures { IfOk result (λ read. read ≡ line_read head.now (seen_line line.now)) }
{
    split_words(words, line.octets)?;
    let saying = read_words(alloc, head, words.as_slice())?;
    Ok(LineRead {
        number: line.number,
        saying,
    })
}
