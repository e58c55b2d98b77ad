//! A node of a row.
ghost use Rattle.std.specs.Prelude.{◌≡◌, ◌≤◌, ◌<◌, ◌+◌, ◌^◌, ◌++◌, [], true, is_some, length, option_map, IfOk, OnOk, OnErr};
ghost use Rattle.section_model.specs.Journals.{IsConnJournal};
ghost use Rattle.conn_journal.specs.Lanes.{ConnLaneTakes};
ghost use Rattle.chain_step.specs.Run.{head_of, first_node, waiting, queue_length, tells_by_event, after_event, after_giving};
ghost use Rattle.chain_step.specs.Fresh.{is_fresh};

use crate::coming::{Coming, prepare};
use crate::kept::Kept;
use crate::start::{lane_of, plant_of};
use crate::tells::TellList;
use conn_lane::ConnLane;
use plant_core::{EntryList, Plant};
use relay_base::{Event, Memory, Stamp, Tell};
use std::alloc::Global;
use std::marker::Model;

/// A node: its number, its routing data, its lane, and what it keeps beside that.
#[derive(Drop)]
pub struct Node {
    alloc: Global,
    number: u8,
    plant: Plant,
    lane: ConnLane,
    kept: Kept,
}

impl Model for Node {
    ghost use Rattle.chain_step.specs.Run.{NodeState};
    ghost use Rattle.chain_node.specs.Inner.Kept.{IsNode};

    ghost Value = { NodeState };

    ghost view = { λ n. record {
      head = n.lane.head;
      routing = n.plant.routing;
      journal = n.lane.journal;
      ahead = n.kept.ahead.given;
      back = n.kept.back.given;
    } };

    ghost invariant = { λ n. IsNode n.number n.plant n.lane n.kept };
}

/// The journal of a lane is a legal one.
fn recall_legal(lane: &ConnLane)
    ensures { IsConnJournal lane.now.head lane.now.number lane.now.journal }
{
    let _journal = lane.journal();
}

/// A lane takes an event, of which this is told. After want of memory the lane and what was told are as before.
fn enter(
    lane: &mut ConnLane,
    plant: &Plant,
    stamp: Stamp,
    event: &Event,
    told: Vec<(u8, Tell)>,
    tells: &mut TellList,
) -> Result<(), Memory>
    requires few { length lane.old.journal < 2 ^ 32 }
    ensures takes { OnOk result (ConnLaneTakes plant.now stamp event.now lane.old lane.new) }
    ensures legal { OnOk result (IsConnJournal lane.new.head lane.new.number lane.new.journal) }
    ensures tells { OnOk result (tells.new ≡ tells.old ++ told.items) }
    ensures err { OnErr result ((lane.new ≡ lane.old) × (tells.new ≡ tells.old)) }
{
    let count = tells.len();
    tells.append(told)?;
    match lane.step(plant, stamp, event) {
        Ok(()) => {
            recall_legal(lane);
            Ok(())
        }
        Err(memory) => {
            tells.truncate(count);
            Err(memory)
        }
    }
}

impl Node {
    /// The node of this number with these routing data, before its first event.
    fn with_plant(alloc: Global, number: u8, plant: Plant) -> Result<Node, Memory>
        requires least { 1 ≤ number }
        requires most { number ≤ 8 }
        requires edition { plant.edition ≡ 0 }
        ensures { let routing = plant.routing in IfOk result (λ node. node ≡
            record { head = head_of number; routing = routing; journal = []; ahead = 0; back = 0 }) }
    {
        let lane = lane_of(alloc, number)?;
        Ok(Node {
            alloc,
            number,
            plant,
            lane,
            kept: Kept::new(alloc),
        })
    }

    /// The node of this number, of so many, at the start.
    pub fn new(alloc: Global, count: u8, number: u8) -> Result<Node, Memory>
        requires least { 1 ≤ number }
        requires within { number ≤ count }
        requires most { count ≤ 8 }
        ensures { IfOk result (λ node. node ≡ first_node count number) }
    {
        let plant = plant_of(alloc, count, number)?;
        Node::with_plant(alloc, number, plant)
    }

    /// How many messages wait to the next node, or to the one before.
    pub fn queue_len(&self, forward: bool) -> usize
        ensures { result ≡ queue_length forward self.now }
    {
        if forward {
            self.kept.ahead.len()
        } else {
            self.kept.back.len()
        }
    }

    /// The first message that waits to the next node, or to the one before.
    pub fn waiting(&self, forward: bool) -> Option<&Event>
        ensures { option_map (λ e. e.now) result ≡ waiting forward self.now }
    {
        if forward {
            self.kept.ahead.first()
        } else {
            self.kept.back.first()
        }
    }

    /// It is given.
    pub fn give(&mut self, forward: bool)
        requires { is_some (waiting forward self.old) ≡ true }
        ensures { self.new ≡ after_giving forward self.old }
    {
        if forward {
            self.kept.ahead.give();
        } else {
            self.kept.back.give();
        }
    }

    /// Takes an event, as the step of this number. After want of memory the node and what users were told are as before.
    pub fn take(&mut self, step: u32, event: &Event, tells: &mut TellList) -> Result<(), Memory>
        requires few { length self.old.journal < 2 ^ 32 }
        ensures ok { OnOk result (self.new ≡ after_event step event.now self.old) }
        ensures tells { OnOk result
            (tells.new ≡ tells.old ++ tells_by_event event.now self.old) }
        ensures err { OnErr result ((self.new ≡ self.old) × (tells.new ≡ tells.old)) }
    {
        let Coming { mail, this, that } = prepare(
            self.alloc,
            self.number,
            &self.lane,
            &self.plant,
            event,
            &mut self.kept,
        )?;
        let stamp = Stamp {
            phase: 1,
            link: 0,
            line: step,
        };
        enter(&mut self.lane, &self.plant, stamp, event, mail.tells, tells)?;
        self.kept.put(mail.ahead, mail.back, this, that);
        Ok(())
    }

    /// The journal of its lane.
    pub fn journal(&self) -> &EntryList
        ensures value { result.now ≡ self.now.journal }
        ensures legal { IsConnJournal self.now.head 0 self.now.journal }
    {
        self.lane.journal()
    }

    /// Whether its journal gave no reference twice.
    pub fn is_fresh(&self) -> bool
        ensures { result ≡ is_fresh self.now }
    {
        !self.kept.references.is_twice()
    }
}
