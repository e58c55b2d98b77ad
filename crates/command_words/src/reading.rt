//! The command that the words state: what the parser found, where these are the words.
ghost use Rattle.std.specs.Prelude.{◌≡◌, ◌≢◌, None, IfOk, map, string_bytes};
ghost use Rattle.std.specs.List.{list_any};
ghost use Rattle.clap.specs.Words.{kind_of, subcommand_rows_of};
ghost use Rattle.command_words.specs.Commands.{generate_in, stream_in, command_of_word, command_in};
ghost use Rattle.command_words.specs.Inner.Parser.{given, texts, is_given, word_found, stream_found, generate_found, command_found, command_of_rows, is_dashed, asks_help, is_refused};

use crate::command::Command;
use crate::number::number_in;
use crate::parser::parser;
use clap::error::ErrorKind;
use clap::{ArgMatches, Error};
use relay_base::Memory;
use relay_base::limits::MOST_GENERATED_LINES;
use std::alloc::Global;

fn is_dashed(word: &str) -> bool
    ensures { result ≡ is_dashed word.now }
{
    match word.as_bytes() {
        [] => false,
        [first, ..] => *first == b'-',
    }
}

fn has_dashed(words: &[String]) -> bool
    ensures { result ≡ list_any (λ word. is_dashed (string_bytes word)) words.now }
{
    words.iter().any(|word| is_dashed(word.as_str()))
}

fn asks_help(words: &[String]) -> bool
    ensures { result ≡ asks_help (texts words.now) }
{
    match words {
        [] => false,
        [word, ..] => word.as_str() == "help",
    }
}

/// Whether the words are refused before they are parsed: one begins with a dash, or the first is `help`.
fn is_refused(words: &[String]) -> bool
    ensures { result ≡ is_refused (texts words.now) }
{
    has_dashed(words) || asks_help(words)
}

/// What `gen` is given.
fn generate_in(number: &str, lines: &str) -> Option<Command>
    ensures { result ≡ generate_in number.now lines.now }
{
    let number = number_in(0, 4_294_967_295, number)?;
    let lines = number_in(1, MOST_GENERATED_LINES, lines)?;
    Some(Command::Generate { number, lines })
}

fn is_given(found: Option<&str>, word: &str) -> bool
    ensures { result ≡ is_given (given found.entry) word.now }
{
    match found {
        Some(text) => word == text,
        None => false,
    }
}

/// The command of one word.
fn command_of_word(word: &str) -> Option<Command>
    ensures { result ≡ command_of_word word.now }
{
    if word == "run" {
        Some(Command::Run)
    } else if word == "m3ua" {
        Some(Command::Stream)
    } else if word == "chain" {
        Some(Command::Chain)
    } else if word == "audit" {
        Some(Command::Audit)
    } else {
        None
    }
}

/// What `m3ua` is given.
fn stream_in(output: &str) -> Option<Command>
    ensures { result ≡ stream_in output.now }
{
    if output == "frames" {
        Some(Command::Frames)
    } else {
        None
    }
}

/// The command of a subcommand's name, where this is the word.
fn word_found(name: &str, word: &str) -> Option<Command>
    ensures { result ≡ word_found name.now word.now }
{
    if word == name {
        command_of_word(name)
    } else {
        None
    }
}

/// The command of a subcommand's name and its value, where these are the words.
fn stream_found(name: &str, output: Option<&str>, word: &str, second: &str) -> Option<Command>
    ensures { result ≡ stream_found name.now (given output.entry) word.now second.now }
{
    if name == "m3ua" && word == name && is_given(output, second) {
        stream_in(second)
    } else {
        None
    }
}

/// The command of a subcommand's name and its two values, where these are the words.
fn generate_found(
    name: &str,
    number: Option<&str>,
    lines: Option<&str>,
    word: &str,
    first: &str,
    second: &str,
) -> Option<Command>
    ensures { let asked = given number.entry in let most = given lines.entry
        in result ≡ generate_found name.now asked most word.now first.now second.now }
{
    if name == "gen" && word == name && is_given(number, first) && is_given(lines, second) {
        generate_in(first, second)
    } else {
        None
    }
}

/// The command of a subcommand's name and its values, where these are the words.
#[tactic(auto, using(crate::proofs::ParseLemmas::long_none))]
fn command_found(
    name: &str,
    number: Option<&str>,
    lines: Option<&str>,
    output: Option<&str>,
    words: &[String],
) -> Option<Command>
    ensures { let asked = given number.entry in let most = given lines.entry in
        let written = given output.entry in
        result ≡ command_found name.now asked most written (texts words.now) }
{
    match words {
        [word] => word_found(name, word.as_str()),
        [word, second] => stream_found(name, output, word.as_str(), second.as_str()),
        [word, first, second] => {
            generate_found(
                name,
                number,
                lines,
                word.as_str(),
                first.as_str(),
                second.as_str(),
            )
        }
        _ => None,
    }
}

/// The command of what the parser found.
fn command_of_matches(matches: &ArgMatches<'_>, words: &[String]) -> Option<Command>
    ensures { result ≡ command_of_rows (subcommand_rows_of matches.now) (texts words.now) }
{
    let (name, found) = matches.subcommand()?;
    let number = found.get_str("number");
    let lines = found.get_str("lines");
    command_found(name, number, lines, found.get_str("output"), words)
}

/// What comes of an error of the parser: no command, or want of memory.
fn refusal(error: &Error) -> Result<Option<Command>, Memory>
    ensures { IfOk result (λ command.
        (command ≡ None) × (kind_of error.now ≢ ErrorKind.OutOfMemory)) }
{
    match error.kind() {
        ErrorKind::OutOfMemory => Err(Memory),
        _ => Ok(None),
    }
}

/// The command that the words are parsed to.
fn parsed(alloc: Global, words: &[String]) -> Result<Option<Command>, Memory>
    ensures { IfOk result (λ command. command ≡ command_in (map string_bytes words.now)) }
{
    match parser(alloc)?.try_get_matches_from(words) {
        Ok(matches) => Ok(command_of_matches(&matches, words)),
        Err(error) => refusal(&error),
    }
}

/// The command that the words state. There is one exactly where they are `run`; or `gen`, a number, 0 to 4,294,967,295, and
/// lines, 1 to 199,000, each in 1 to 10 decimal digits; or `m3ua`; or `m3ua frames`; or `chain`; or `audit`.
///
/// Words of which one begins with a dash, or the first is `help`, are refused before they are parsed.
pub fn command_of(alloc: Global, words: &[String]) -> Result<Option<Command>, Memory>
    ensures { IfOk result (λ command. command ≡ command_in (map string_bytes words.now)) }
{
    if is_refused(words) {
        return Ok(None);
    }
    parsed(alloc, words)
}
