//! The run of an input, whose print is written to a sink as it comes.
ghost use Rattle.std.specs.Prelude.{◌≡◌, ◌≢◌, ◌<◌, ◌≤◌, ◌+◌, ◌++◌, [], length, Err, IsTrue, OnOk, OnErr};
ghost use Rattle.std.specs.Io.KnownBytes.{Appends};
ghost use Rattle.relay_base.specs.Causes.{Rose};
ghost use Rattle.relay_base.specs.Streams.{AppendedPart};
ghost use Rattle.journal_text.specs.Inner.Texts.{Puts};
ghost use Rattle.journal_text.specs.Inner.Writing.{Writes, Joins};
ghost use Rattle.chain_step.specs.Chains.{run_in};
ghost use Rattle.chain_step.specs.Steps.{is_step};
ghost use Rattle.chain_form.specs.Chain.{AreSteps, IsInput};
ghost use Rattle.chain_text.specs.Print.{step_text, text_from, run_text};
ghost use Rattle.chain_text.specs.Inner.Running.{after_line};

use crate::print::{named_node, put_none, put_tells, put_waiting};
use chain_form::{ChainInput, StepLine};
use journal_text::{Text, WriteFault, write_if_long, write_text};
use relay_base::{Memory, Sink};
use relay_chain::{Chain, TellList};
use std::alloc::Global;

/// Takes the step of a line, and appends its print.
fn put_step(
    alloc: Global,
    chain: &mut Chain,
    line: &StepLine,
    text: &mut Text,
) -> Result<(), Memory>
    requires step { IsTrue (is_step chain.old.nodes line.now.step) }
    requires few { length chain.old.steps < 4_294_967_295 }
    ensures chain { OnOk result (chain.new ≡ after_line chain.old line.now) }
    ensures text { Puts result text.old text.new (step_text (run_in chain.old) line.now) }
{
    let mut tells = TellList::new(alloc);
    if chain.step(&line.step, &mut tells)? {
        put_tells(text, line.line, tells.as_slice())?;
    } else {
        put_none(text, line.line, named_node(&line.step))?;
    }
    Ok(())
}

/// Takes the step of a line, and its print joins the text that waits.
fn carry_step<K: Sink>(
    alloc: Global,
    out: &mut K,
    text: &mut Text,
    chain: &mut Chain,
    line: &StepLine,
) -> Result<(), WriteFault>
    requires step { IsTrue (is_step chain.old.nodes line.now.step) }
    requires few { length chain.old.steps < 4_294_967_295 }
    ensures chain { OnOk result (chain.new ≡ after_line chain.old line.now) }
    ensures text { let print = step_text (run_in chain.old) line.now in
        Joins K.held K.faults out.old out.new text.old text.new print result }
{
    put_step(alloc, chain, line, text)?;
    write_if_long(out, text)
}

/// Takes the steps of lines, and their print joins the text that waits.
fn carry_steps<K: Sink>(
    alloc: Global,
    out: &mut K,
    text: &mut Text,
    chain: &mut Chain,
    lines: &[StepLine],
) -> Result<(), WriteFault>
    requires steps { AreSteps chain.old.nodes lines.now }
    requires few { length chain.old.steps + length lines.now ≤ 4_294_967_295 }
    ensures { let waits = text.new ++ text_from (run_in chain.new) [] in
        Joins K.held K.faults out.old out.new text.old waits (text_from (run_in chain.old) lines.now) result }
{
    for line in lines {
        carry_step(alloc, out, text, chain, line)?;
    }
    Ok(())
}

/// Takes the steps of lines, and writes what is printed of them and how many messages wait then.
fn write_run<K: Sink>(
    alloc: Global,
    out: &mut K,
    chain: &mut Chain,
    lines: &[StepLine],
) -> Result<(), WriteFault>
    requires steps { AreSteps chain.old.nodes lines.now }
    requires few { length chain.old.steps + length lines.now ≤ 4_294_967_295 }
    ensures { Writes (K.held out.old) (K.held out.new) (K.faults out.old) (K.faults out.new)
        (text_from (run_in chain.old) lines.now) result }
{
    let mut text = Text::of(alloc, "")?;
    carry_steps(alloc, out, &mut text, chain, lines)?;
    put_waiting(&mut text, chain.waiting())?;
    write_text(out, &text)
}

/// Takes the steps of an input, and writes what is printed of them to a sink, in parts, as soon as enough of it waits. After an error a front of the
/// print was written.
pub fn run_chain<K: Sink>(alloc: Global, input: &ChainInput, out: &mut K) -> Result<(), WriteFault>
    requires { IsInput input.now }
    ensures ok { OnOk result (Appends (K.held out.old) (K.held out.new) (run_text input.now)) }
    ensures err { let text = run_text input.now in
        OnErr result (AppendedPart (K.held out.old) (K.held out.new) text) }
    ensures fault { result ≡ Err WriteFault.Sink → Rose (K.faults out.old) (K.faults out.new) }
    ensures kept { result ≢ Err WriteFault.Sink → K.faults out.new ≡ K.faults out.old }
{
    let mut chain = Chain::new(alloc, input.nodes)?;
    write_run(alloc, out, &mut chain, input.steps.as_slice())
}
