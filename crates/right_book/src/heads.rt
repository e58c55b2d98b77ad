//! What is told of a head.
ghost use Rattle.std.specs.Prelude.{◌≡◌, ◌++◌, [], IsTrue, IfOk, OnOk};
ghost use Rattle.node_head.specs.Addable.{are_addable};
ghost use Rattle.node_head.specs.Ranges.{IsHead};
ghost use Rattle.plant_core.specs.Terms.{IsLaneHead};
ghost use Rattle.right_book.specs.Heads.{routing_of, lane_head_of, control_head_of};

use gtt_table::{AddFault, Row};
use node_head::Head;
use plant_core::{LaneHead, Plant, ReplicateList, Terms};
use relay_base::{Memory, PcList, SsnList};
use scmg::ControlHead;
use std::alloc::Global;

/// What a connection lane or a data lane is told of a head.
pub fn lane_head_of(alloc: Global, head: &Head) -> Result<LaneHead, Memory>
    ensures value { IfOk result (λ told. told ≡ lane_head_of head.now) }
    ensures range { IsHead head.now → IfOk result IsLaneHead }
{
    Ok(LaneHead {
        terms: Terms {
            own: head.point,
            credit: head.credit,
            ticks: head.timers,
        },
        reassembly: head.timers.reassembly,
        short: PcList::from_slice(alloc, head.short.as_slice())?,
    })
}

/// What the control lane is told of a head.
pub fn control_head_of(alloc: Global, head: &Head) -> Result<ControlHead, Memory>
    ensures { IfOk result (λ told. told ≡ control_head_of head.now) }
{
    Ok(ControlHead {
        users: SsnList::from_slice(alloc, head.users.as_slice())?,
        concerned: PcList::from_slice(alloc, head.concerned.as_slice())?,
        replicates: ReplicateList::from_slice(alloc, head.replicate.as_slice())?,
        ticks: head.timers,
    })
}

/// Adds rows that can be added one after the other.
fn add_rows(plant: &mut Plant, rows: &[Row]) -> Result<(), Memory>
    requires edition { plant.old.edition ≡ 0 }
    requires addable { IsTrue (are_addable plant.old.routing.rows rows.now) }
    ensures edition { plant.new.edition ≡ 0 }
    ensures rows { let old = plant.old.routing in
        OnOk result (plant.new.routing ≡ record old { rows = old.rows ++ rows.now }) }
{
    for row in rows {
        match plant.add(*row) {
            Ok(()) => (),
            Err(AddFault::Memory) => return Err(Memory),
            Err(AddFault::Duplicate | AddFault::RowsFull) => unreachable!(),
        }
    }
    Ok(())
}

/// The routing data of a head, at edition 0.
pub fn plant_of(alloc: Global, head: &Head) -> Result<Plant, Memory>
    requires { IsTrue (are_addable [] head.now.row) }
    ensures routing { IfOk result (λ plant. plant.routing ≡ routing_of head.now) }
    ensures edition { IfOk result (λ plant. plant.edition ≡ 0) }
{
    let mut plant = Plant::start(alloc, head.point, head.users.as_slice())?;
    add_rows(&mut plant, head.row.as_slice())?;
    Ok(plant)
}
