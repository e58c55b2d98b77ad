//! The step that a line states.
ghost use Rattle.std.specs.Prelude.{◌≡◌, ◌==◌, ◌||◌, Some, IfOk, IfSome, IsTrue};
ghost use Rattle.capture_form.specs.Inner.Words.{texts, States};
ghost use Rattle.capture_form.specs.Requests.{form_of};
ghost use Rattle.chain_form.specs.Line.{node_of, end_of, on_connection, whole, asked_form, ask_form, pass_from, pass_form, tick_form, unasked_form, step_of};
ghost use Rattle.chain_step.specs.Steps.{is_node, has_neighbour, is_step};

use capture_form::{LineKind, LineRefused, RequestForm};
use chain_step::Step;
use relay_base::number_of;
use std::alloc::{AllocError, Global};

/// The word of the called address, which a line doesn't have: subsystem 8, and the title 491712 with indicator 4.
const TITLE_WORD: &[u8] = b"1208001204947121";

/// A node, from 1.
fn node_of(nodes: u8, word: &[u8]) -> Result<u8, LineKind>
    ensures value { result ≡ node_of nodes word.now }
    ensures node { IfOk result (λ node. IsTrue (is_node nodes node)) }
{
    match number_of(word) {
        Some(n) if 1 <= n && n <= u64::from(nodes) => Ok(n as u8),
        _ => Err(LineKind::Number),
    }
}

/// The first node or the last, which have the users.
fn end_of(nodes: u8, word: &[u8]) -> Result<u8, LineKind>
    ensures value { result ≡ end_of nodes word.now }
    ensures end { IfOk result (λ node. IsTrue (node == 1 || node == nodes)) }
{
    let node = node_of(nodes, word)?;
    if node == 1 || node == nodes {
        Ok(node)
    } else {
        Err(LineKind::Number)
    }
}

/// The form of a request on a connection, by its first word.
fn form_of(word: &[u8]) -> Option<RequestForm>
    ensures value { result ≡ on_connection (form_of word.now) }
    ensures kept { IfSome result (λ form. on_connection (Some form) ≡ Some form) }
{
    match RequestForm::of(word) {
        Some(RequestForm::Unit | RequestForm::Coord | RequestForm::Grant) => None,
        form => form,
    }
}

/// The words of a request as a capture has them: `conn` with its called address.
fn whole<'a>(
    alloc: Global,
    form: RequestForm,
    words: &[&'a [u8]],
) -> Result<Vec<&'a [u8]>, AllocError>
    ensures { IfOk result (λ v. texts v.items ≡ whole form (texts words.now)) }
{
    let mut all = Vec::from_slice(alloc, words)?;
    if matches!(form, RequestForm::Conn) && all.len() >= 3 {
        all.insert(3, TITLE_WORD)?;
    }
    Ok(all)
}

/// What the user of a node asks for, in a request of this form.
fn asked_form(
    alloc: Global,
    nodes: u8,
    word: &[u8],
    form: RequestForm,
    words: &[&[u8]],
) -> Result<Step, LineRefused>
    requires { on_connection (Some form) ≡ Some form }
    ensures value { States result (asked_form nodes word.now (Some form) (texts words.now)) }
    ensures step { IfOk result (λ step. IsTrue (is_step nodes step)) }
{
    let whole = whole(alloc, form, words)?;
    if !form.has(whole.as_slice()) {
        return Err(LineRefused::Kind(LineKind::Words));
    }
    let node = end_of(nodes, word)?;
    let request = form.request(alloc, whole.as_slice())?;
    Ok(Step::Ask { node, request })
}

/// `u <node> <request>`, of which the words after `u`.
#[tactic(auto, using(crate::proofs::LineForms::ask_short))]
fn ask_form(alloc: Global, nodes: u8, words: &[&[u8]]) -> Result<Step, LineRefused>
    ensures value { States result (ask_form nodes (texts words.now)) }
    ensures step { IfOk result (λ step. IsTrue (is_step nodes step)) }
{
    if words.len() < 2 {
        return Err(LineRefused::Kind(LineKind::Words));
    }
    match form_of(words[1]) {
        Some(form) => asked_form(alloc, nodes, words[0], form, &words[2..]),
        None => Err(LineRefused::Kind(LineKind::Words)),
    }
}

/// Whether a node has a neighbour, the next one or the one before.
fn has_neighbour(nodes: u8, forward: bool, node: u8) -> bool
    ensures { result ≡ has_neighbour nodes forward node }
{
    if forward { node < nodes } else { node > 1 }
}

/// What passes from a node that has a neighbour there.
fn pass_from(nodes: u8, word: &[u8], forward: bool) -> Result<Step, LineKind>
    ensures value { result ≡ pass_from nodes word.now forward }
    ensures step { IfOk result (λ step. IsTrue (is_step nodes step)) }
{
    let node = node_of(nodes, word)?;
    if has_neighbour(nodes, forward, node) {
        Ok(Step::Pass { node, forward })
    } else {
        Err(LineKind::Number)
    }
}

/// `d <node> f` or `d <node> b`, of which the words after `d`.
fn pass_form(nodes: u8, words: &[&[u8]]) -> Result<Step, LineKind>
    ensures value { result ≡ pass_form nodes (texts words.now) }
    ensures step { IfOk result (λ step. IsTrue (is_step nodes step)) }
{
    if words.len() != 2 {
        return Err(LineKind::Words);
    }
    if words[1] == b"f".as_slice() {
        pass_from(nodes, words[0], true)
    } else if words[1] == b"b".as_slice() {
        pass_from(nodes, words[0], false)
    } else {
        Err(LineKind::Words)
    }
}

/// `t <node>`, of which the words after `t`.
fn tick_form(nodes: u8, words: &[&[u8]]) -> Result<Step, LineKind>
    ensures value { result ≡ tick_form nodes (texts words.now) }
    ensures step { IfOk result (λ step. IsTrue (is_step nodes step)) }
{
    if words.len() != 1 {
        return Err(LineKind::Words);
    }
    let node = node_of(nodes, words[0])?;
    Ok(Step::Tick { node })
}

/// A line that begins with `d` or `t`, by its first word and those after it.
fn unasked_form(nodes: u8, first: &[u8], words: &[&[u8]]) -> Result<Step, LineKind>
    ensures value { result ≡ unasked_form nodes first.now (texts words.now) }
    ensures step { IfOk result (λ step. IsTrue (is_step nodes step)) }
{
    if first == b"d".as_slice() {
        pass_form(nodes, words)
    } else if first == b"t".as_slice() {
        tick_form(nodes, words)
    } else {
        Err(LineKind::Words)
    }
}

/// The step that the words of a line state.
pub fn step_of(alloc: Global, nodes: u8, words: &[&[u8]]) -> Result<Step, LineRefused>
    ensures value { States result (step_of nodes (texts words.now)) }
    ensures step { IfOk result (λ step. IsTrue (is_step nodes step)) }
{
    if words.is_empty() {
        return Err(LineRefused::Kind(LineKind::Words));
    }
    if words[0] == b"u".as_slice() {
        return ask_form(alloc, nodes, &words[1..]);
    }
    Ok(unasked_form(nodes, words[0], &words[1..])?)
}
