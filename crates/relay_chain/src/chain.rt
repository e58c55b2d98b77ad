//! A chain of nodes.
ghost use Rattle.std.specs.Prelude.{◌≡◌, ◌≤◌, ◌<◌, ◌++◌, ◌∷◌, [], not, length, IsTrue, IfOk, OnOk, OnErr};
ghost use Rattle.chain_step.specs.Run.{node_at, waiting_count, tells_by, is_idle};
ghost use Rattle.chain_step.specs.Steps.{is_step};
ghost use Rattle.chain_step.specs.Fresh.{all_fresh};
ghost use Rattle.chain_step.specs.Chains.{run_in};
ghost use Rattle.passage_law.specs.TrailLaw.{HopsAlong, TextsAlong};

use crate::nodes::Nodes;
use chain_node::TellList;
use chain_step::Step;
use mark::Mark;
use plant_core::EntryList;
use relay_base::{Memory, PlainList};
use std::alloc::Global;
use std::marker::Model;

/// Nodes in a row. A clause sees how many there are, and the steps that were taken: all else is what the run of these gives.
#[derive(Drop)]
pub struct Chain {
    count: u8,
    nodes: Nodes,
    steps: Mark<PlainList<Step>>,
}

impl Model for Chain {
    ghost use Rattle.chain_step.specs.Chains.{ChainState};
    ghost use Rattle.relay_chain.specs.Inner.Chains.{IsChain};

    ghost Value = { ChainState };

    ghost view = { λ c. record { nodes = c.count; steps = c.steps.value } };

    ghost invariant = { λ c. IsChain c.count c.steps.value c.nodes };
}

/// No step was taken.
fn no_steps() -> Mark<PlainList<Step>>
    ensures { result.value ≡ [] }
{
    Mark::after(&0u8)
}

impl Chain {
    /// From 2 to 8 nodes, before the first step.
    pub fn new(alloc: Global, nodes: u8) -> Result<Chain, Memory>
        requires least { 2 ≤ nodes }
        requires most { nodes ≤ 8 }
        ensures { IfOk result (λ chain. chain ≡ record { nodes = nodes; steps = [] }) }
    {
        Ok(Chain {
            count: nodes,
            nodes: Nodes::new(alloc, nodes)?,
            steps: no_steps(),
        })
    }

    /// The steps with one more.
    fn steps_with(&self, step: &Step) -> Mark<PlainList<Step>>
        ensures { result.value ≡ self.now.steps ++ step.now ∷ [] }
    {
        Mark::after(&(self, step))
    }

    /// Takes a step, and puts what users are told at the end of a list. False exactly where the step is to pass a message and none waits: such a
    /// step is taken, and nothing else comes of it. After want of memory the chain and the list are as before.
    ///
    /// After each step, as long as no node gave a local reference twice, this is known of each connection that the user at the first node asked for
    /// and whose nodes sent no RSR in it (Q.714, 3.5): between every two neighbours, as far as it went, what came in at the one begins what left at
    /// the other, and the rest waits (`hops`); and if it goes to the user at the last node, what one user was told are the first of the texts that
    /// the other one gave (`texts`).
    pub fn step(&mut self, step: &Step, tells: &mut TellList) -> Result<bool, Memory>
        requires step { IsTrue (is_step self.old.nodes step.now) }
        requires few { length self.old.steps < 4_294_967_295 }
        ensures ok { let steps = self.old.steps ++ step.now ∷ [] in
            OnOk result (self.new ≡ record self.old { steps = steps }) }
        ensures given { IfOk result (λ given. given ≡ not (is_idle step.now (run_in self.old))) }
        ensures tells { OnOk result
            (tells.new ≡ tells.old ++ tells_by step.now (run_in self.old)) }
        ensures hops { OnOk result (HopsAlong (run_in self.new)) }
        ensures texts { OnOk result (TextsAlong (run_in self.new)) }
        ensures err { OnErr result ((self.new ≡ self.old) × (tells.new ≡ tells.old)) }
    {
        let steps = self.steps_with(step);
        let given = self.nodes.step(step, tells)?;
        self.steps = steps;
        Ok(given)
    }

    /// The journal of the node of this number, from 1 on.
    pub fn journal(&self, node: u8) -> &EntryList
        requires least { 1 ≤ node }
        requires most { node ≤ self.now.nodes }
        ensures { result.now ≡ (node_at node (run_in self.now).nodes).journal }
    {
        self.nodes.journal(node)
    }

    /// How many messages wait in all queues.
    pub fn waiting(&self) -> u128
        ensures { result ≡ waiting_count (run_in self.now) }
    {
        self.nodes.waiting_count()
    }

    /// Whether no node's journal gave a local reference twice.
    pub fn fresh(&self) -> bool
        ensures { result ≡ all_fresh (run_in self.now) }
    {
        self.nodes.is_fresh()
    }
}
