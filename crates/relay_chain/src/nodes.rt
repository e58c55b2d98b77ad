//! The nodes of a chain.
ghost use Rattle.std.specs.Prelude.{◌≡◌, ◌≤◌, ◌<◌, ◌*◌, ◌^◌, ◌++◌, true, not, is_some, Some, None, length, sum_by, IsTrue, IfOk, OnOk, OnErr};
ghost use Rattle.chain_step.specs.Run.{start, neighbour, waiting, queue_length, waiting_count, node_at, with_node, after_giving, taking, passing, after_step, tells_at, tells_by_pass, tells_by, has_none, is_idle};
ghost use Rattle.relay_base.specs.declared.words.Event.TheVariants.{Asked};
ghost use Rattle.chain_step.specs.declared.terms.TheConstants.{USER};
ghost use Rattle.chain_step.specs.Steps.{is_step};
ghost use Rattle.chain_step.specs.Fresh.{all_fresh};

use chain_node::{Node, TellList};
use chain_step::{Step, USER};
use plant_core::EntryList;
use relay_base::{Event, Memory, Request, Ssn};
use std::alloc::Global;
use std::marker::Model;

/// The nodes of a chain, from node 1 on, and how many steps they took.
#[derive(Drop)]
pub struct Nodes {
    nodes: Vec<Node>,
    taken: u32,
}

impl Model for Nodes {
    ghost use Rattle.chain_step.specs.Run.{RunState};
    ghost use Rattle.relay_chain.specs.Inner.Chains.{AreShort};

    ghost Value = { RunState };

    ghost view = { λ n. record { taken = n.taken; nodes = n.nodes.items } };

    ghost invariant = { λ n. AreShort n.taken n.nodes.items };
}

/// The number of the next node, or of the one before.
fn neighbour_of(number: u8, forward: bool) -> u8
    requires least { 1 ≤ number }
    requires most { number ≤ 8 }
    ensures { result ≡ neighbour forward number }
{
    if forward { number + 1 } else { number - 1 }
}

/// What the user of a node asks for, as its event.
fn asked(request: &Request) -> Result<Event, Memory>
    ensures { IfOk result (λ event. event ≡ Asked USER request.now) }
{
    Ok(Event::Asked {
        ssn: Ssn::from(USER),
        request: request.clone()?,
    })
}

/// How many messages wait from these nodes to the next ones, or to the ones before.
fn waiting_from(nodes: &[Node], forward: bool) -> u128
    requires { length nodes.now ≤ 7 }
    ensures value { result ≡ sum_by (queue_length forward) nodes.now }
    ensures most { result ≤ 7 * 2 ^ 64 }
{
    let mut count = 0;
    for node in nodes {
        count += node.queue_len(forward) as u128;
    }
    count
}

impl Nodes {
    /// So many nodes before the first step.
    pub fn new(alloc: Global, count: u8) -> Result<Nodes, Memory>
        requires { count ≤ 8 }
        ensures { IfOk result (λ nodes. nodes ≡ start count) }
    {
        let mut nodes = Vec::new(alloc);
        for before in 0..count {
            nodes.push(Node::new(alloc, count, before + 1)?)?;
        }
        Ok(Nodes { nodes, taken: 0 })
    }

    /// A copy of the first message that waits to the next node, or to the one before.
    fn waiting(&self, number: u8, forward: bool) -> Result<Option<Event>, Memory>
        requires least { 1 ≤ number }
        requires most { number ≤ length self.now.nodes }
        ensures { IfOk result (λ message. message ≡ waiting forward (node_at number self.now.nodes)) }
    {
        match self.nodes[usize::from(number - 1)].waiting(forward) {
            Some(message) => Ok(Some(message.copied()?)),
            None => Ok(None),
        }
    }

    /// A node takes an event.
    fn take(&mut self, number: u8, event: &Event, tells: &mut TellList) -> Result<(), Memory>
        requires least { 1 ≤ number }
        requires most { number ≤ length self.old.nodes }
        requires few { self.old.taken < 4_294_967_295 }
        ensures ok { OnOk result (self.new ≡ taking number event.now self.old) }
        ensures tells { OnOk result (tells.new ≡ tells.old ++ tells_at number event.now self.old) }
        ensures err { OnErr result ((self.new ≡ self.old) × (tells.new ≡ tells.old)) }
    {
        let step = self.taken + 1;
        let node = &mut self.nodes[usize::from(number - 1)];
        node.take(step, event, tells)?;
        self.taken = step;
        Ok(())
    }

    /// The first message that waits is given.
    fn give(&mut self, number: u8, forward: bool)
        requires least { 1 ≤ number }
        requires most { number ≤ length self.old.nodes }
        requires some { is_some (waiting forward (node_at number self.old.nodes)) ≡ true }
        ensures { let nodes = with_node number (after_giving forward) self.old.nodes in
            self.new ≡ record self.old { nodes = nodes } }
    {
        let node = &mut self.nodes[usize::from(number - 1)];
        node.give(forward);
    }

    /// A step that finds no message.
    fn idle(&mut self)
        requires few { self.old.taken < 4_294_967_295 }
        ensures { self.new ≡ passing 1 true None self.old }
    {
        self.taken += 1;
    }

    /// A copy of the first message that waits arrives at the next node, or at the one before, and the message is given.
    fn carry(
        &mut self,
        number: u8,
        forward: bool,
        message: &Event,
        tells: &mut TellList,
    ) -> Result<(), Memory>
        requires least { 1 ≤ number }
        requires most { number ≤ length self.old.nodes }
        requires least_next { 1 ≤ neighbour forward number }
        requires most_next { neighbour forward number ≤ length self.old.nodes }
        requires count { length self.old.nodes ≤ 8 }
        requires few { self.old.taken < 4_294_967_295 }
        requires waits { waiting forward (node_at number self.old.nodes) ≡ Some message.now }
        ensures ok { OnOk result (self.new ≡ passing number forward (Some message.now) self.old) }
        ensures tells { let told = tells_at (neighbour forward number) message.now self.old in
            OnOk result (tells.new ≡ tells.old ++ told) }
        ensures err { OnErr result ((self.new ≡ self.old) × (tells.new ≡ tells.old)) }
    {
        self.take(neighbour_of(number, forward), message, tells)?;
        self.give(number, forward);
        Ok(())
    }

    /// The first message that waits arrives at the next node, or at the one before. False where none waits.
    fn pass(&mut self, number: u8, forward: bool, tells: &mut TellList) -> Result<bool, Memory>
        requires least { 1 ≤ number }
        requires most { number ≤ length self.old.nodes }
        requires least_next { 1 ≤ neighbour forward number }
        requires most_next { neighbour forward number ≤ length self.old.nodes }
        requires count { length self.old.nodes ≤ 8 }
        requires few { self.old.taken < 4_294_967_295 }
        ensures ok { let message = waiting forward (node_at number self.old.nodes) in
            OnOk result (self.new ≡ passing number forward message self.old) }
        ensures given { let message = waiting forward (node_at number self.old.nodes) in
            IfOk result (λ given. given ≡ not (has_none message)) }
        ensures tells { let message = waiting forward (node_at number self.old.nodes) in
            let told = tells_by_pass (neighbour forward number) message self.old in
            OnOk result (tells.new ≡ tells.old ++ told) }
        ensures err { OnErr result ((self.new ≡ self.old) × (tells.new ≡ tells.old)) }
    {
        let Some(message) = self.waiting(number, forward)? else {
            self.idle();
            return Ok(false);
        };
        self.carry(number, forward, &message, tells)?;
        Ok(true)
    }

    /// The user of a node asks for something.
    fn ask(&mut self, number: u8, request: &Request, tells: &mut TellList) -> Result<(), Memory>
        requires least { 1 ≤ number }
        requires most { number ≤ length self.old.nodes }
        requires few { self.old.taken < 4_294_967_295 }
        ensures ok { OnOk result (self.new ≡ taking number (Asked USER request.now) self.old) }
        ensures tells { OnOk result
            (tells.new ≡ tells.old ++ tells_at number (Asked USER request.now) self.old) }
        ensures err { OnErr result ((self.new ≡ self.old) × (tells.new ≡ tells.old)) }
    {
        let event = asked(request)?;
        self.take(number, &event, tells)
    }

    /// Takes a step. False where it finds no message.
    #[tactic(auto, unfolding(chain_step::specs::Run::after_step, chain_step::specs::Run::tells_by, chain_step::specs::Run::is_idle))]
    pub fn step(&mut self, step: &Step, tells: &mut TellList) -> Result<bool, Memory>
        requires step { IsTrue (is_step (length self.old.nodes) step.now) }
        requires least { 2 ≤ length self.old.nodes }
        requires most { length self.old.nodes ≤ 8 }
        requires few { self.old.taken < 4_294_967_295 }
        ensures ok { OnOk result (self.new ≡ after_step self.old step.now) }
        ensures given { IfOk result (λ given. given ≡ not (is_idle step.now self.old)) }
        ensures tells { OnOk result (tells.new ≡ tells.old ++ tells_by step.now self.old) }
        ensures err { OnErr result ((self.new ≡ self.old) × (tells.new ≡ tells.old)) }
    {
        match step {
            Step::Ask { node, request } => self.ask(*node, request, tells)?,
            Step::Pass { node, forward } => return self.pass(*node, *forward, tells),
            Step::Tick { node } => self.take(*node, &Event::Tick, tells)?,
        }
        Ok(true)
    }

    /// The journal of the node of this number.
    pub fn journal(&self, number: u8) -> &EntryList
        requires least { 1 ≤ number }
        requires most { number ≤ length self.now.nodes }
        ensures { result.now ≡ (node_at number self.now.nodes).journal }
    {
        self.nodes[usize::from(number - 1)].journal()
    }

    /// How many messages wait in all queues.
    pub fn waiting_count(&self) -> u128
        requires least { 1 ≤ length self.now.nodes }
        requires most { length self.now.nodes ≤ 8 }
        ensures { result ≡ waiting_count self.now }
    {
        let last = self.nodes.len() - 1;
        waiting_from(&self.nodes[..last], true) + waiting_from(&self.nodes[1..], false)
    }

    /// Whether no node's journal gave a reference twice.
    pub fn is_fresh(&self) -> bool
        ensures { result ≡ all_fresh self.now }
    {
        self.nodes.iter().all(|node| node.is_fresh())
    }
}
