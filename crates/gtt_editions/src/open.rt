//! The opening.
ghost use Rattle.std.specs.Prelude.{◌≡◌, ◌<◌, [], false, length, All, IfOk};
ghost use Rattle.gtt_editions.specs.Standing.{IsNewPlace, IsOpenedOn};

use crate::moves::{PlantWriter, note_opening};
use crate::place::Place;
use crate::publisher::Publisher;
use crate::store::Store;
use left_right::writer::Writer;
use plant_core::Plant;
use relay_base::Memory;
use std::alloc::Global;
use std::sync::Wait;

/// The places of one publisher.
pub type PlaceList<'r, R> = Vec<Place<'r, R>>;

/// A copy to which nothing was published.
fn unopened(alloc: Global, plant: Plant) -> Store
    ensures plant { result.plant ≡ plant }
    ensures shut { (result.opened ≡ false) × (result.ended ≡ false) }
    ensures empty { result.changes.items ≡ [] }
{
    Store {
        plant,
        changes: Vec::new(alloc),
        opened: false,
        ended: false,
    }
}

fn open_publisher<'r, R: Wait>(
    rt: &'r R,
    alloc: Global,
    plant: Plant,
    places: u8,
) -> Result<Publisher<'r, R>, Memory>
    requires { 0 < places }
    ensures { IfOk result (IsOpenedOn plant) }
{
    let second = unopened(alloc, plant.copy()?);
    let first = unopened(alloc, plant);
    let writer: PlantWriter = Writer::new(alloc, first, second, usize::from(places))?;
    let (writer, opened) = note_opening(rt, writer);
    match opened {
        Ok(()) => Ok(Publisher {
            rt,
            writer,
            spent: false,
        }),
        Err(_) => {
            writer.take(rt);
            Err(Memory)
        }
    }
}

/// Opens an edition of the routing data to changes, and to looks from so many places. A place that is refused is asked for again until it
/// is given, so it may wait.
pub fn editions<'r, R: Wait>(
    rt: &'r R,
    alloc: Global,
    plant: Plant,
    places: u8,
) -> Result<(Publisher<'r, R>, PlaceList<'r, R>), Memory>
    requires { 0 < places }
    ensures opened { IfOk result (λ t. IsOpenedOn plant t.0) }
    ensures count { IfOk result (λ t. length t.1.items ≡ places) }
    ensures places { IfOk result (λ t. All (IsNewPlace t.0) t.1.items) }
{
    let mut publisher = open_publisher(rt, alloc, plant, places)?;
    let mut list = Vec::new(alloc);
    for _ in 0..places {
        list.push(publisher.place())?;
    }
    Ok((publisher, list))
}
