//! Passes of gates are dealt to hands, one for each link, and taken back.
ghost use Rattle.std.specs.Prelude.{◌≡◌, ℕ, ◌+◌, ◌<◌, ◌≤◌, [], length, map, All, IfOk, OnOk};
ghost use Rattle.lane_gate.specs.Gates.{origin_of, callers_of};
ghost use Rattle.lane_gate.specs.declared.gate.TheConstants.{MOST_CALLERS};
ghost use Rattle.link_threads.specs.Pairs.{PairsFrom};
ghost use Rattle.link_threads.specs.Gates.{AreDealt, AreNew, GetsPass, GivePasses, IsAtOpening};

use crate::arrivals::Arrivals;
use crate::door::Door;
use crate::lane_name::Named;
use lane_gate::{Gate, LaneState, Pass, PassList};
use relay_base::Memory;
use std::alloc::Global;

/// Empty hands.
fn new_hands(alloc: Global, count: usize) -> Result<Vec<Vec<Pass>>, Memory>
    ensures count { IfOk result (λ v. length v.items ≡ count) }
    ensures empty { IfOk result (λ v. All (λ h. h.items ≡ []) v.items) }
{
    let mut hands = Vec::with_capacity(alloc, count)?;
    for _ in 0..count {
        hands.push_reserved(Vec::new(alloc));
    }
    Ok(hands)
}

/// Each hand gets its pass of a gate.
fn deal<L: LaneState>(
    gate: &Gate<L>,
    hands: &mut [Vec<Pass>],
    passes: PassList,
) -> Result<(), Memory>
    requires passes { AreNew gate.now passes }
    requires count { length passes ≡ length hands.old }
    ensures { OnOk result (PairsFrom (GetsPass gate.now) 0 hands.old hands.new) }
{
    let mut passes = passes.into_vec();
    while let Some(pass) = passes.pop() {
        let link = passes.len();
        hands[link].push(pass)?;
    }
    Ok(())
}

/// Each hand gives its last pass.
pub fn take_back(alloc: Global, hands: &mut [Vec<Pass>]) -> Result<PassList, Memory>
    requires { All (λ h. 0 < length h.items) hands.old }
    ensures { IfOk result (GivePasses hands.old hands.new) }
{
    let mut passes = Vec::with_capacity(alloc, hands.len())?;
    for hand in hands.iter_mut() {
        passes.push_reserved(hand.pop().unwrap());
    }
    Ok(PassList::from(passes))
}

/// A gate round a lane, and a pass of it in each hand.
fn open_one<L: LaneState>(
    alloc: Global,
    lane: L,
    hands: &mut [Vec<Pass>],
) -> Result<Gate<L>, Memory>
    requires callers { (0 < length hands.old) × (length hands.old ≤ MOST_CALLERS) }
    requires fresh { (link : ℕ) → L.taken lane link ≡ 0 }
    ensures origin { IfOk result (λ gate. origin_of gate ≡ lane) }
    ensures callers { IfOk result (λ gate. callers_of gate ≡ length hands.old) }
    ensures dealt { IfOk result (λ gate. PairsFrom (GetsPass gate) 0 hands.old hands.new) }
{
    let (gate, passes) = Gate::make(alloc, lane, hands.len() as u8)?;
    deal(&gate, hands, passes)?;
    Ok(gate)
}

/// The door of a lane, and a pass of its gate in each hand.
fn door<L: LaneState + Named>(
    alloc: Global,
    lane: L,
    hands: &mut [Vec<Pass>],
) -> Result<Door<L>, Memory>
    requires callers { (0 < length hands.old) × (length hands.old ≤ MOST_CALLERS) }
    requires fresh { (link : ℕ) → L.taken lane link ≡ 0 }
    ensures name { IfOk result (λ door. door.name ≡ L.name_of lane) }
    ensures origin { IfOk result (λ door. origin_of door.gate ≡ lane) }
    ensures callers { IfOk result (λ door. callers_of door.gate ≡ length hands.old) }
    ensures dealt { IfOk result (λ door. PairsFrom (GetsPass door.gate) 0 hands.old hands.new) }
{
    let name = lane.name();
    let gate = open_one(alloc, lane, hands)?;
    Ok(Door { name, gate })
}

/// The doors of lanes, and a pass of each gate in each hand.
fn doors<L: LaneState + Named, A: Arrivals<L::Event>>(
    alloc: Global,
    _links: &[A],
    lanes: Vec<L>,
    hands: &mut [Vec<Pass>],
) -> Result<Vec<Door<L>>, Memory>
    requires some { 0 < length _links.now }
    requires few { length _links.now ≤ MOST_CALLERS }
    requires lanes { All (IsAtOpening L.plan L.taken L.name_of (map A.left _links.now)) lanes.items }
    requires empty { AreDealt L.plan (map A.left _links.now) [] hands.old }
    ensures origins { IfOk result (λ v. map (λ door. origin_of door.gate) v.items ≡ lanes.items) }
    ensures dealt { IfOk result (λ v. AreDealt L.plan (map A.left _links.now) v.items hands.new) }
{
    let mut doors = Vec::with_capacity(alloc, lanes.len())?;
    for lane in lanes {
        let door = door(alloc, lane, hands)?;
        doors.push_reserved(door);
    }
    Ok(doors)
}

/// A gate round each lane, and a pass of each gate in the hand of each link.
pub fn open<L: LaneState + Named, A: Arrivals<L::Event>>(
    alloc: Global,
    links: &[A],
    lanes: Vec<L>,
) -> Result<(Vec<Door<L>>, Vec<Vec<Pass>>), Memory>
    requires some { 0 < length links.now }
    requires few { length links.now ≤ MOST_CALLERS }
    requires lanes { All (IsAtOpening L.plan L.taken L.name_of (map A.left links.now)) lanes.items }
    ensures origins { IfOk result (λ r.
        map (λ door. origin_of door.gate) r.0.items ≡ lanes.items) }
    ensures dealt { IfOk result (λ r. AreDealt L.plan (map A.left links.now) r.0.items r.1.items) }
{
    let mut hands = new_hands(alloc, links.len())?;
    let doors = doors(alloc, links, lanes, hands.as_mut_slice())?;
    Ok((doors, hands))
}
