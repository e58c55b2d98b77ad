//! The running timers in a tree, from left to right by rising connection and timer. Each node has a rank that is scattered over all
//! numbers, and none below it a higher one, so that the depth is about a logarithm of the timers, in whatever order they are started.
ghost use Rattle.std.specs.Prelude.{◌≡◌, ◌+◌, ◌<◌, ◌≤◌, ◌∷◌, ◌++◌, ◌^◌, [], All, filter, length, min, vec_len, map, OnOk};
ghost use Rattle.std.specs.Vec.{vec_capacity};
ghost use Rattle.timer_wheel.specs.Order.{is_before};
ghost use Rattle.timer_wheel.specs.Inner.Tree.{alarms, before, behind, count_beside, nodes_in, with_alarm, due_by, not_fires, recounted, started_again, IsSound, Rises};

use crate::due::{Alarm, Due};
use relay_base::Memory;
use std::mem;

/// A node and what is below it, or nothing.
#[cycle(tree)]
#[derive(Drop)]
pub enum Tree {
    Leaf,
    Fork(Box<Node>),
}

/// A running timer, with those before it on its left and those behind it on its right.
#[cycle(tree)]
#[derive(Drop)]
pub struct Node {
    left: Tree,
    alarm: Alarm,
    /// No node below has a higher rank.
    rank: u32,
    /// No timer here or below fires earlier.
    soonest: u64,
    right: Tree,
}

impl Node {
    /// A node of no timer.
    pub(crate) fn spare() -> Node {
        Node {
            left: Tree::Leaf,
            alarm: Alarm {
                due: Due { conn: 0, timer: 0 },
                tick: 0,
                interval: 0,
            },
            rank: 0,
            soonest: 0,
            right: Tree::Leaf,
        }
    }
}

impl Tree {
    /// No timer fires before this tick.
    fn soonest(&self) -> u64
        requires { IsSound self.now }
        ensures { All (λ alarm. result ≤ alarm.tick) (alarms self.now) }
    {
        match self {
            Tree::Leaf => u64::MAX,
            Tree::Fork(node) => node.soonest,
        }
    }

    pub(crate) fn take(&mut self) -> Tree
        ensures { result ≡ self.old }
    {
        mem::replace(self, Tree::Leaf)
    }
}

/// No timer of these fires before this tick.
fn soonest_of(left: &Tree, alarm: Alarm, right: &Tree) -> u64
    requires left { IsSound left.now }
    requires right { IsSound right.now }
    ensures { All (λ a. result ≤ a.tick) (alarms left.now ++ alarm ∷ alarms right.now) }
{
    alarm.tick.min(left.soonest()).min(right.soonest())
}

/// A node without its sides, and these.
fn open(mut node: Box<Node>) -> (Tree, Box<Node>, Tree)
    ensures left { result.0 ≡ node.value.left }
    ensures alarm { result.1.value.alarm ≡ node.value.alarm }
    ensures soonest { result.1.value.soonest ≡ node.value.soonest }
    ensures right { result.2 ≡ node.value.right }
{
    let left = node.left.take();
    let right = node.right.take();
    (left, node, right)
}

/// A node with these sides.
fn fork(mut node: Box<Node>, left: Tree, right: Tree) -> Tree
    requires left { IsSound left }
    requires right { IsSound right }
    ensures alarms { alarms result ≡ alarms left ++ node.value.alarm ∷ alarms right }
    ensures sound { IsSound result }
{
    node.soonest = soonest_of(&left, node.alarm, &right);
    node.left = left;
    node.right = right;
    Tree::Fork(node)
}

/// A node with these sides, one of which was changed: a timer came that fires at one tick, and one went that fired at another.
fn fork_again(mut node: Box<Node>, left: Tree, right: Tree, came: u64, went: u64) -> Tree
    requires left { IsSound left }
    requires right { IsSound right }
    requires soonest { let alarm = node.value.alarm
        in All (λ a. min node.value.soonest came ≤ a.tick) (alarms left ++ alarm ∷ alarms right) }
    ensures alarms { alarms result ≡ alarms left ++ node.value.alarm ∷ alarms right }
    ensures sound { IsSound result }
{
    if went <= node.soonest {
        return fork(node, left, right);
    }
    node.soonest = node.soonest.min(came);
    node.left = left;
    node.right = right;
    Tree::Fork(node)
}

/// One tree of two, of which the first comes before the second.
fn join(left: Tree, right: Tree) -> Tree
    requires left { IsSound left }
    requires right { IsSound right }
    ensures alarms { alarms result ≡ alarms left ++ alarms right }
    ensures sound { IsSound result }
{
    match left {
        Tree::Leaf => right,
        Tree::Fork(mut node) => match right {
            Tree::Leaf => Tree::Fork(node),
            Tree::Fork(mut other) => {
                if node.rank >= other.rank {
                    let (before, behind) = (node.left.take(), node.right.take());
                    let behind = join(behind, Tree::Fork(other));
                    fork(node, before, behind)
                } else {
                    let (before, behind) = (other.left.take(), other.right.take());
                    let before = join(Tree::Fork(node), before);
                    fork(other, before, behind)
                }
            }
        },
    }
}

/// Takes the tree apart into the timers before this one and those behind it. The node of this one becomes spare.
fn part(tree: Tree, due: Due, spare: &mut Vec<Box<Node>>) -> (Tree, Tree)
    requires sound { IsSound tree }
    requires rising { Rises (alarms tree) }
    requires room { nodes_in (vec_len spare.old) tree ≤ vec_capacity spare.old }
    ensures before { alarms result.0 ≡ before due (alarms tree) }
    ensures behind { alarms result.1 ≡ behind due (alarms tree) }
    ensures sound { IsSound result.0 × IsSound result.1 }
    ensures nodes { let parted = length (alarms result.0) + length (alarms result.1)
        in vec_len spare.new + parted ≡ nodes_in (vec_len spare.old) tree }
    ensures capacity { vec_capacity spare.new ≡ vec_capacity spare.old }
{
    match tree {
        Tree::Leaf => (Tree::Leaf, Tree::Leaf),
        Tree::Fork(node) => {
            let (left, node, right) = open(node);
            if node.alarm.due.is_before(due) {
                let (before, behind) = part(right, due, spare);
                (fork(node, left, before), behind)
            } else if due.is_before(node.alarm.due) {
                let (before, behind) = part(left, due, spare);
                (before, fork(node, behind, right))
            } else {
                spare.push_reserved(node);
                (left, right)
            }
        }
    }
}

/// A tree of this timer at the top, in the place of an earlier start, and of the others below it.
fn crown(tree: Tree, alarm: Alarm, rank: u32, spare: &mut Vec<Box<Node>>) -> Tree
    requires sound { IsSound tree }
    requires rising { Rises (alarms tree) }
    requires nodes { nodes_in (vec_len spare.old) tree ≤ vec_capacity spare.old }
    requires room { count_beside alarm.due (alarms tree) < nodes_in (vec_len spare.old) tree }
    ensures alarms { alarms result ≡ with_alarm alarm (alarms tree) }
    ensures sound { IsSound result }
    ensures nodes { nodes_in (vec_len spare.new) result ≡ nodes_in (vec_len spare.old) tree }
    ensures capacity { vec_capacity spare.new ≡ vec_capacity spare.old }
{
    let (before, behind) = part(tree, alarm.due, spare);
    let mut node = taken(spare);
    node.alarm = alarm;
    node.rank = rank;
    fork(node, before, behind)
}

/// Starts a timer in the place of an earlier start, and says when that would have fired. Nodes of a rank as high stay as they stand, and
/// only what is below them is taken apart. The same timer has the same rank, so that none but its own node takes its place.
pub(crate) fn with(tree: Tree, alarm: Alarm, rank: u32, spare: &mut Vec<Box<Node>>) -> (Tree, u64)
    requires sound { IsSound tree }
    requires rising { Rises (alarms tree) }
    requires nodes { nodes_in (vec_len spare.old) tree ≤ vec_capacity spare.old }
    requires room { count_beside alarm.due (alarms tree) < nodes_in (vec_len spare.old) tree }
    ensures alarms { alarms result.0 ≡ with_alarm alarm (alarms tree) }
    ensures sound { IsSound result.0 }
    ensures nodes { nodes_in (vec_len spare.new) result.0 ≡ nodes_in (vec_len spare.old) tree }
    ensures capacity { vec_capacity spare.new ≡ vec_capacity spare.old }
{
    match tree {
        Tree::Leaf => (crown(Tree::Leaf, alarm, rank, spare), u64::MAX),
        Tree::Fork(node) => {
            if node.rank < rank {
                return (crown(Tree::Fork(node), alarm, rank, spare), u64::MAX);
            }
            let (left, mut node, right) = open(node);
            if node.alarm.due.is_before(alarm.due) {
                let (right, went) = with(right, alarm, rank, spare);
                (fork_again(node, left, right, alarm.tick, went), went)
            } else if alarm.due.is_before(node.alarm.due) {
                let (left, went) = with(left, alarm, rank, spare);
                (fork_again(node, left, right, alarm.tick, went), went)
            } else {
                let went = mem::replace(&mut node.alarm, alarm).tick;
                (fork(node, left, right), went)
            }
        }
    }
}

/// Takes a timer out, whose node becomes spare, and says when it would have fired.
pub(crate) fn without(tree: Tree, due: Due, spare: &mut Vec<Box<Node>>) -> (Tree, u64)
    requires sound { IsSound tree }
    requires rising { Rises (alarms tree) }
    requires room { nodes_in (vec_len spare.old) tree ≤ vec_capacity spare.old }
    ensures alarms { alarms result.0 ≡ before due (alarms tree) ++ behind due (alarms tree) }
    ensures sound { IsSound result.0 }
    ensures nodes { nodes_in (vec_len spare.new) result.0 ≡ nodes_in (vec_len spare.old) tree }
    ensures capacity { vec_capacity spare.new ≡ vec_capacity spare.old }
{
    match tree {
        Tree::Leaf => (Tree::Leaf, u64::MAX),
        Tree::Fork(node) => {
            let (left, node, right) = open(node);
            if node.alarm.due.is_before(due) {
                let (right, went) = without(right, due, spare);
                (fork_again(node, left, right, u64::MAX, went), went)
            } else if due.is_before(node.alarm.due) {
                let (left, went) = without(left, due, spare);
                (fork_again(node, left, right, u64::MAX, went), went)
            } else {
                let went = node.alarm.tick;
                spare.push_reserved(node);
                (join(left, right), went)
            }
        }
    }
}

/// A node with these sides; or the sides alone, where its timer fires up to this tick, and the node becomes spare.
fn fork_unless_due(
    node: Box<Node>,
    left: Tree,
    right: Tree,
    tick: u64,
    spare: &mut Vec<Box<Node>>,
) -> Tree
    requires left { IsSound left }
    requires right { IsSound right }
    requires room { vec_len spare.old < vec_capacity spare.old }
    ensures alarms { let own = filter (not_fires tick) (node.value.alarm ∷ [])
        in alarms result ≡ alarms left ++ own ++ alarms right }
    ensures sound { IsSound result }
    ensures nodes { let sides = length (alarms left) + length (alarms right)
        in nodes_in (vec_len spare.new) result ≡ vec_len spare.old + 1 + sides }
    ensures capacity { vec_capacity spare.new ≡ vec_capacity spare.old }
{
    if node.alarm.tick <= tick {
        spare.push_reserved(node);
        join(left, right)
    } else {
        fork(node, left, right)
    }
}

/// Drops the timers that fire up to this tick. Their nodes become spare.
pub(crate) fn without_due(tree: Tree, tick: u64, spare: &mut Vec<Box<Node>>) -> Tree
    requires sound { IsSound tree }
    requires room { nodes_in (vec_len spare.old) tree ≤ vec_capacity spare.old }
    ensures alarms { alarms result ≡ filter (not_fires tick) (alarms tree) }
    ensures sound { IsSound result }
    ensures nodes { nodes_in (vec_len spare.new) result ≡ nodes_in (vec_len spare.old) tree }
    ensures capacity { vec_capacity spare.new ≡ vec_capacity spare.old }
{
    match tree {
        Tree::Leaf => Tree::Leaf,
        Tree::Fork(node) => {
            if node.soonest > tick {
                return Tree::Fork(node);
            }
            let (left, node, right) = open(node);
            let left = without_due(left, tick, spare);
            let right = without_due(right, tick, spare);
            fork_unless_due(node, left, right, tick, spare)
        }
    }
}

/// Puts the timers that fire up to this tick at the end of a list.
#[tactic(auto, using(crate::proofs::Order::none_fires))]
pub(crate) fn list_due(tree: &Tree, tick: u64, list: &mut Vec<Due>) -> Result<(), Memory>
    requires sound { IsSound tree.now }
    ensures { OnOk result (list.new.items ≡ list.old.items ++ due_by tick (alarms tree.now)) }
{
    if let Tree::Fork(node) = tree {
        if node.soonest > tick {
            return Ok(());
        }
        list_due(&node.left, tick, list)?;
        if node.alarm.tick <= tick {
            list.push(node.alarm.due)?;
        }
        list_due(&node.right, tick, list)?;
    }
    Ok(())
}

/// Starts the timers that fire up to this tick again from it, with twice their intervals, but no more than the most.
pub(crate) fn start_again(tree: &mut Tree, tick: u64, most: u32)
    requires sound { IsSound tree.old }
    requires within { tick ≤ 2 ^ 63 }
    ensures alarms { alarms tree.new ≡ map (started_again tick most) (alarms tree.old) }
    ensures sound { IsSound tree.new }
{
    if let Tree::Fork(node) = tree {
        if node.soonest > tick {
            return;
        }
        start_again(&mut node.left, tick, most);
        start_again(&mut node.right, tick, most);
        node.alarm = node.alarm.started_again(tick, most);
        node.soonest = soonest_of(&node.left, node.alarm, &node.right);
    }
}

/// Counts the ticks at which the timers fire from so many ticks later.
pub(crate) fn recount(tree: &mut Tree, ticks: u64)
    requires sound { IsSound tree.old }
    ensures alarms { alarms tree.new ≡ map (recounted ticks) (alarms tree.old) }
    ensures sound { IsSound tree.new }
{
    if let Tree::Fork(node) = tree {
        node.soonest = node.soonest.saturating_sub(ticks);
        node.alarm.tick = node.alarm.tick.saturating_sub(ticks);
        recount(&mut node.left, ticks);
        recount(&mut node.right, ticks);
    }
}

/// A number that is the same for the same timer, and scattered over all numbers.
pub(crate) fn rank(due: Due) -> u32 {
    let mixed = due.conn.wrapping_mul(0x9e37_79b9) ^ u32::from(due.timer).wrapping_mul(0x85eb_ca6b);
    let mixed = (mixed ^ mixed >> 16).wrapping_mul(0x7feb_352d);
    let mixed = (mixed ^ mixed >> 15).wrapping_mul(0x846c_a68b);
    mixed ^ mixed >> 16
}

/// Takes a node from where there is one.
fn taken(spare: &mut Vec<Box<Node>>) -> Box<Node>
    requires some { 0 < vec_len spare.old }
    ensures len { vec_len spare.new + 1 ≡ vec_len spare.old }
    ensures capacity { vec_capacity spare.new ≡ vec_capacity spare.old }
{
    spare.pop().unwrap()
}
