//! The number of nodes, and their steps.
ghost use Rattle.std.specs.Prelude.{◌≡◌, ◌<◌, ◌+◌, ◌^◌, [], length, IfOk, IsTrue, OnOk};
ghost use Rattle.relay_base.specs.Decimal.{number_of};
ghost use Rattle.capture_form.specs.Inner.Words.{texts};
ghost use Rattle.capture_form.specs.Text.{words};
ghost use Rattle.node_head.specs.Lines.{lines};
ghost use Rattle.plant_core.specs.Terms.{IsWithin};
ghost use Rattle.chain_form.specs.Inner.Reader.{Takes};
ghost use Rattle.chain_form.specs.Line.{step_of};
ghost use Rattle.chain_step.specs.Steps.{is_step};
ghost use Rattle.chain_form.specs.Chain.{AreInputSteps, IsInput, Reads, at_line, count_in, nodes_of, counted_step, with_line, with_lines, chain_in, chain_of};

use crate::fault::ChainFault;
use crate::line::step_of;
use bstr::{ByteSlice, Lines};
use capture_form::{Limit, LineFault, LineKind, LineRefused, MOST_LINES, is_skipped, split_words};
use chain_step::Step;
use relay_base::limits::MOST_BYTES;
use relay_base::{PlainList, number_of};
use std::alloc::Global;

/// The fewest nodes in a row.
pub const LEAST_NODES: u8 = 2;

/// The most nodes in a row.
pub const MOST_NODES: u8 = 8;

/// A step, and the number of the line that states it.
pub struct StepLine {
    pub line: u32,
    pub step: Step,
}

impl Drop for StepLine {
    fn drop(self) {
        let Self {
            line: _,
            step: _step,
        } = self;
    }
}

/// Steps in the order of their lines.
pub type StepList = PlainList<StepLine>;

/// How many nodes there are, and their steps.
pub struct ChainInput {
    pub nodes: u8,
    pub steps: StepList,
}

impl Drop for ChainInput {
    fn drop(self) {
        let Self {
            nodes: _,
            steps: _steps,
        } = self;
    }
}

/// 2 to 8 nodes.
fn count_of(word: &[u8]) -> Result<u8, LineKind>
    ensures value { result ≡ count_in (number_of word.now) }
    ensures nodes { IfOk result (λ n. IsWithin LEAST_NODES n MOST_NODES) }
{
    match number_of(word) {
        Some(n) if u64::from(LEAST_NODES) <= n && n <= u64::from(MOST_NODES) => Ok(n as u8),
        _ => Err(LineKind::Number),
    }
}

/// `nodes <n>`
fn nodes_of(words: &[&[u8]]) -> Result<u8, LineKind>
    ensures value { result ≡ nodes_of (texts words.now) }
    ensures nodes { IfOk result (λ n. IsWithin LEAST_NODES n MOST_NODES) }
{
    if words.len() == 2 && words[0] == b"nodes".as_slice() {
        count_of(words[1])
    } else {
        Err(LineKind::Words)
    }
}

/// The number of nodes that the first line states.
fn first_line(alloc: Global, line: &[u8]) -> Result<u8, ChainFault>
    ensures value { Reads result (at_line 1 (nodes_of (words line.now))) }
    ensures nodes { IfOk result (λ n. IsWithin LEAST_NODES n MOST_NODES) }
{
    let mut words = Vec::new(alloc);
    split_words(&mut words, line)?;
    match nodes_of(words.as_slice()) {
        Ok(nodes) => Ok(nodes),
        Err(kind) => Err(ChainFault::Line(LineFault { line: 1, kind })),
    }
}

/// The step that the line of this number states.
fn step_at(alloc: Global, nodes: u8, number: u32, line: &[u8]) -> Result<Step, ChainFault>
    ensures value { Reads result (at_line number (step_of nodes (words line.now))) }
    ensures step { IfOk result (λ step. IsTrue (is_step nodes step)) }
{
    let mut words = Vec::new(alloc);
    split_words(&mut words, line)?;
    match step_of(alloc, nodes, words.as_slice()) {
        Ok(step) => Ok(step),
        Err(LineRefused::Kind(kind)) => Err(ChainFault::Line(LineFault { line: number, kind })),
        Err(LineRefused::Memory) => Err(ChainFault::Memory),
    }
}

/// Puts the step of a line that has one behind those above it.
fn take_step(
    alloc: Global,
    nodes: u8,
    number: u32,
    line: &[u8],
    steps: &mut StepList,
) -> Result<(), ChainFault>
    requires { AreInputSteps nodes steps.old }
    ensures value { Takes steps.new result (counted_step nodes number steps.old (words line.now)) }
    ensures steps { OnOk result (AreInputSteps nodes steps.new) }
{
    if steps.len() >= MOST_LINES as usize {
        return Err(ChainFault::TooLong(Limit::Lines));
    }
    let step = step_at(alloc, nodes, number, line)?;
    steps.push(StepLine { line: number, step })?;
    Ok(())
}

/// Takes a line, which may be empty or a comment.
fn take_line(
    alloc: Global,
    nodes: u8,
    number: u32,
    line: &[u8],
    steps: &mut StepList,
) -> Result<(), ChainFault>
    requires { AreInputSteps nodes steps.old }
    ensures value { Takes steps.new result (with_line nodes number steps.old line.now) }
    ensures steps { OnOk result (AreInputSteps nodes steps.new) }
{
    if is_skipped(line) {
        Ok(())
    } else {
        take_step(alloc, nodes, number, line, steps)
    }
}

/// The steps of the lines after the first.
#[tactic(auto, unfolding(crate::specs::Chain::with_lines))]
fn take_lines(alloc: Global, nodes: u8, lines: &mut Lines<'_>) -> Result<StepList, ChainFault>
    requires { 2 + length lines.old < 2 ^ 32 }
    ensures value { Reads result (with_lines nodes 2 [] lines.old) }
    ensures steps { IfOk result (λ steps. AreInputSteps nodes steps) }
{
    let mut steps = StepList::new(alloc);
    let mut number = 2u32;
    while let Some(line) = lines.next() {
        take_line(alloc, nodes, number, line, &mut steps)?;
        number += 1;
    }
    Ok(steps)
}

/// What the lines of an input state.
fn chain_in(alloc: Global, lines: &mut Lines<'_>) -> Result<ChainInput, ChainFault>
    requires { 2 + length lines.old < 2 ^ 32 }
    ensures value { Reads result (chain_in lines.old) }
    ensures within { IfOk result IsInput }
{
    let Some(first) = lines.next() else {
        return Err(ChainFault::Line(LineFault {
            line: 1,
            kind: LineKind::Words,
        }));
    };
    let nodes = first_line(alloc, first)?;
    let steps = take_lines(alloc, nodes, lines)?;
    Ok(ChainInput { nodes, steps })
}

/// How many nodes an input has and which steps it states, or the first of its faults.
///
/// An input has at most 67,108,864 bytes, and 200,000 step lines.
#[tactic(auto, unfolding(crate::specs::Chain::chain_of))]
pub fn read_chain(alloc: Global, bytes: &[u8]) -> Result<ChainInput, ChainFault>
    ensures value { Reads result (chain_of bytes.now) }
    ensures within { IfOk result IsInput }
{
    if bytes.len() > MOST_BYTES {
        return Err(ChainFault::TooLong(Limit::Bytes));
    }
    chain_in(alloc, &mut bytes.lines())
}
