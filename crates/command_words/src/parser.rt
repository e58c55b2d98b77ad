//! The parser of the words: one level of subcommands.
ghost use Rattle.std.specs.Prelude.{◌≡◌, false, IfOk};
ghost use Rattle.clap.specs.Words.{app_of, new_app, rule_of, with_subcommand};
ghost use Rattle.clap.specs.declared.builder.Command.TheViews.{out-Command};
ghost use Rattle.command_words.specs.Inner.Parser.{required_rule, generate_app, stream_app, top_app, plain_app, relay_app};

use clap::{Arg, Command};
use std::alloc::{AllocError, Global};

/// An argument that has to be given.
fn required<'a>(alloc: Global, id: &'a str) -> Arg<'a>
    ensures rule { rule_of result ≡ required_rule id.entry.now }
    ensures local { result.global ≡ false }
{
    Arg::new(alloc, id).required(true)
}

/// `gen <number> <lines>`
fn generate_parser<'a>(alloc: Global) -> Result<Command<'a>, AllocError>
    ensures app { IfOk result (λ r. app_of r ≡ generate_app) }
    ensures local { IfOk result (λ r. (out-Command r).has_globals ≡ false) }
{
    Command::new(alloc, "gen")
        .arg(required(alloc, "number"))?
        .arg(required(alloc, "lines"))
}

/// `m3ua [<output>]`
fn stream_parser<'a>(alloc: Global) -> Result<Command<'a>, AllocError>
    ensures app { IfOk result (λ r. app_of r ≡ stream_app) }
    ensures local { IfOk result (λ r. (out-Command r).has_globals ≡ false) }
{
    Command::new(alloc, "m3ua").arg(Arg::new(alloc, "output"))
}

/// The parser without its subcommands. No program's name stands before the words.
fn top_parser<'a>(alloc: Global) -> Command<'a>
    ensures { app_of result ≡ top_app }
{
    Command::new(alloc, "relay")
        .no_binary_name(true)
        .subcommand_required(true)
}

/// A parser with a subcommand without arguments.
fn with_plain<'a>(
    alloc: Global,
    parser: Command<'a>,
    name: &'a str,
) -> Result<Command<'a>, AllocError>
    ensures { let plain = new_app name.entry.now
        in IfOk result (λ r. app_of r ≡ with_subcommand (app_of parser.entry) plain.top) }
{
    parser.subcommand(Command::new(alloc, name))
}

/// The parser of the subcommands without arguments, `run`, `chain` and `audit`.
fn plain_parser<'a>(alloc: Global) -> Result<Command<'a>, AllocError>
    ensures { IfOk result (λ r. app_of r ≡ plain_app) }
{
    let run = with_plain(alloc, top_parser(alloc), "run")?;
    let chain = with_plain(alloc, run, "chain")?;
    with_plain(alloc, chain, "audit")
}

/// A parser with `gen`.
fn with_generate<'a>(alloc: Global, parser: Command<'a>) -> Result<Command<'a>, AllocError>
    ensures { IfOk result (λ r. app_of r ≡ with_subcommand (app_of parser.entry) generate_app.top) }
{
    parser.subcommand(generate_parser(alloc)?)
}

/// A parser with `m3ua`.
fn with_stream<'a>(alloc: Global, parser: Command<'a>) -> Result<Command<'a>, AllocError>
    ensures { IfOk result (λ r. app_of r ≡ with_subcommand (app_of parser.entry) stream_app.top) }
{
    parser.subcommand(stream_parser(alloc)?)
}

/// The parser of `run`, `chain`, `audit`, `gen` and `m3ua`.
pub fn parser<'a>(alloc: Global) -> Result<Command<'a>, AllocError>
    ensures { IfOk result (λ r. app_of r ≡ relay_app) }
{
    let plain = plain_parser(alloc)?;
    let generate = with_generate(alloc, plain)?;
    with_stream(alloc, generate)
}
