//! The lines that are printed of a run.
ghost use Rattle.std.specs.Prelude.{◌≡◌};
ghost use Rattle.journal_text.specs.Inner.Texts.{Puts};
ghost use Rattle.chain_text.specs.Print.{named_node, tell_line, tells_text, none_line, waiting_line};

use chain_step::Step;
use journal_text::{Text, put_tell};
use relay_base::Tell;
use std::alloc::AllocError;

/// The node that a step names.
pub fn named_node(step: &Step) -> u8
    ensures { result ≡ named_node step.now }
{
    match step {
        Step::Ask { node, .. } => *node,
        Step::Pass { node, .. } => *node,
        Step::Tick { node } => *node,
    }
}

/// Appends the line of what the user of a node is told.
fn put_told(text: &mut Text, line: u32, node: u8, tell: &Tell) -> Result<(), AllocError>
    ensures { Puts result text.old text.new (tell_line line (node, tell.now)) }
{
    text.digits(line)?;
    text.number(node)?;
    put_tell(text, tell)?;
    text.put("\n")
}

/// Appends a line for each thing that users are told at the step of a line.
pub fn put_tells(text: &mut Text, line: u32, tells: &[(u8, Tell)]) -> Result<(), AllocError>
    ensures { Puts result text.old text.new (tells_text line tells.now) }
{
    for (node, tell) in tells {
        put_told(text, line, *node, tell)?;
    }
    Ok(())
}

/// Appends the line of a step that found no message from a node.
pub fn put_none(text: &mut Text, line: u32, node: u8) -> Result<(), AllocError>
    ensures { Puts result text.old text.new (none_line line node) }
{
    text.digits(line)?;
    text.number(node)?;
    text.word("none")?;
    text.put("\n")
}

/// Appends the line of how many messages wait.
pub fn put_waiting(text: &mut Text, count: u128) -> Result<(), AllocError>
    ensures { Puts result text.old text.new (waiting_line count) }
{
    text.put("waiting")?;
    text.number(count)?;
    text.put("\n")
}
