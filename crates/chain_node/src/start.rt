//! What the nodes are told at the start.
ghost use Rattle.std.specs.Prelude.{◌≡◌, ◌≤◌, ◌<◌, ◌+◌, ◌-◌, ◌∷◌, [], IfOk, OnOk};
ghost use Rattle.plant_core.specs.Plant.{start_of};
ghost use Rattle.chain_step.specs.Run.{head_of, users_of, row_to, rows_of, routing_of};

use crate::mail::Place;
use chain_step::{CREDIT, USER};
use conn_lane::ConnLane;
use gtt_table::{AddFault, Entity, Row};
use plant_core::{LaneHead, Plant, Terms, USUAL_TICKS};
use relay_base::{Digits, Memory, Pc, PcList, Ssn, SsnList};
use sccp_address::Selector;
use std::alloc::Global;

/// The point of the node of this number.
fn point_of(number: u8) -> Pc
    ensures { result ≡ number }
{
    Pc::new(u32::from(number)).unwrap()
}

/// The node's number, and the points of it and of its neighbours.
pub fn place_of(number: u8) -> Place
    requires least { 1 ≤ number }
    requires most { number ≤ 8 }
    ensures number { result.number ≡ number }
    ensures own { result.own ≡ number }
    ensures ahead { result.ahead ≡ number + 1 }
    ensures back { result.back ≡ number - 1 }
{
    Place {
        number,
        own: point_of(number),
        ahead: point_of(number + 1),
        back: point_of(number - 1),
    }
}

/// What the lane of a node is told.
fn head_of(alloc: Global, number: u8) -> LaneHead
    ensures { result ≡ head_of number }
{
    LaneHead {
        terms: Terms {
            own: point_of(number),
            credit: CREDIT,
            ticks: USUAL_TICKS,
        },
        reassembly: USUAL_TICKS.reassembly,
        short: PcList::new(alloc),
    }
}

/// The lane of a node, before its first event.
pub fn lane_of(alloc: Global, number: u8) -> Result<ConnLane, Memory>
    ensures { IfOk result (λ lane. lane ≡
        record { head = head_of number; number = 0; journal = [] }) }
{
    ConnLane::new(alloc, &head_of(alloc, number), 0)
}

/// The users of a node.
fn users_of(alloc: Global, count: u8, number: u8) -> Result<SsnList, Memory>
    ensures { IfOk result (λ users. users ≡ users_of count number) }
{
    let mut users = SsnList::new(alloc);
    if number == 1 || number == count {
        users.push(Ssn::from(USER))?;
    }
    Ok(users)
}

/// The row by which titles lead to the next node.
fn row_to(count: u8, next: u8) -> Row
    ensures { result ≡ row_to count next }
{
    let selector = Selector {
        gti: 4,
        tt: 0,
        np: 1,
        nai: 4,
    };
    let first = Entity {
        point: point_of(next),
        ssn: Some(Ssn::from(USER)),
        on_ssn: next == count,
    };
    Row {
        selector,
        prefix: Digits::new(),
        first,
        second: None,
    }
}

/// Adds a row to routing data that have none.
#[tactic(auto, unfolding(gtt_table::specs::Adding::add_refusal))]
fn add_first(plant: &mut Plant, row: Row) -> Result<(), Memory>
    requires edition { plant.old.edition ≡ 0 }
    requires none { plant.old.routing.rows ≡ [] }
    ensures edition { plant.new.edition ≡ 0 }
    ensures rows { OnOk result (plant.new.routing ≡ record plant.old.routing { rows = row ∷ [] }) }
{
    match plant.add(row) {
        Ok(()) => Ok(()),
        Err(AddFault::Memory) => Err(Memory),
        Err(AddFault::Duplicate | AddFault::RowsFull) => unreachable!(),
    }
}

/// The routing data of a node before a row is added.
fn start_of(alloc: Global, count: u8, number: u8) -> Result<Plant, Memory>
    ensures routing { IfOk result (λ plant. plant.routing ≡
        start_of number (users_of count number)) }
    ensures edition { IfOk result (λ plant. plant.edition ≡ 0) }
{
    let users = users_of(alloc, count, number)?;
    Plant::start(alloc, point_of(number), users.as_slice())
}

/// Adds the row of each node but the last.
fn add_rows(plant: &mut Plant, count: u8, number: u8) -> Result<(), Memory>
    requires count { count ≤ 8 }
    requires edition { plant.old.edition ≡ 0 }
    requires none { plant.old.routing.rows ≡ [] }
    ensures edition { plant.new.edition ≡ 0 }
    ensures rows { OnOk result
        (plant.new.routing ≡ record plant.old.routing { rows = rows_of count number }) }
{
    if number < count {
        add_first(plant, row_to(count, number + 1))
    } else {
        Ok(())
    }
}

/// The routing data of a node.
pub fn plant_of(alloc: Global, count: u8, number: u8) -> Result<Plant, Memory>
    requires { count ≤ 8 }
    ensures routing { IfOk result (λ plant. plant.routing ≡ routing_of count number) }
    ensures edition { IfOk result (λ plant. plant.edition ≡ 0) }
{
    let mut plant = start_of(alloc, count, number)?;
    add_rows(&mut plant, count, number)?;
    Ok(plant)
}
