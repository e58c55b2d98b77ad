//! What comes of an event in a node.
ghost use Rattle.std.specs.Prelude.{◌≤◌, ◌<◌, ◌^◌, length, IfOk};
ghost use Rattle.chain_node.specs.Inner.Coming.{IsComing, IsSameKept, HasRoom};

use crate::kept::Kept;
use crate::mail::Mail;
use crate::start::place_of;
use conn_lane::{ConnLane, Outcome};
use plant_core::Plant;
use relay_base::{Event, Memory, Ref24};
use std::alloc::Global;

/// What comes of an event: its outputs by where they go, and the references that the ends take of a connection which it opens.
#[derive(Drop)]
pub struct Coming {
    pub mail: Mail,
    pub this: Option<Ref24>,
    pub that: Option<Ref24>,
}

/// What comes of an event in the lane of the node of this number.
fn come(
    alloc: Global,
    number: u8,
    lane: &ConnLane,
    plant: &Plant,
    event: &Event,
) -> Result<Coming, Memory>
    requires least { 1 ≤ number }
    requires most { number ≤ 8 }
    requires few { length lane.now.journal < 2 ^ 32 }
    ensures { IfOk result (IsComing number lane.now plant.now event.now) }
{
    let Outcome { outs, this, that } = lane.outcome(plant, event)?;
    let mail = Mail::sorted(alloc, &place_of(number), outs)?;
    Ok(Coming { mail, this, that })
}

/// The same, with memory taken to keep it.
pub fn prepare(
    alloc: Global,
    number: u8,
    lane: &ConnLane,
    plant: &Plant,
    event: &Event,
    kept: &mut Kept,
) -> Result<Coming, Memory>
    requires least { 1 ≤ number }
    requires most { number ≤ 8 }
    requires few { length lane.now.journal < 2 ^ 32 }
    ensures coming { IfOk result (IsComing number lane.now plant.now event.now) }
    ensures room { IfOk result (λ coming. HasRoom coming.mail kept.new) }
    ensures kept { IsSameKept kept.old kept.new }
{
    let coming = come(alloc, number, lane, plant, event)?;
    kept.make_room(&coming.mail)?;
    Ok(coming)
}
