//! A data lane that is lent its events, as a program lends them that keeps them.
use data_lane::DataLane;
use plant_core::{LaneHead, Plant, Terms, USUAL_TICKS};
use relay_base::{Event, Memory, Pc, PcList, Ssn, Stamp};
use std::alloc::Global;
use std::test::Fail;

fn own() -> Pc {
    Pc::new(100).unwrap()
}

/// The first lane of point 100.
fn lane(alloc: Global) -> Result<DataLane, Memory> {
    let head = LaneHead {
        terms: Terms {
            own: own(),
            credit: 7,
            ticks: USUAL_TICKS,
        },
        reassembly: USUAL_TICKS.reassembly,
        short: PcList::new(alloc),
    };
    DataLane::new(alloc, &head, 0)
}

/// Lends a lane a tick.
fn lend(alloc: Global, lane: &mut DataLane) -> Result<(), Memory> {
    let plant = Plant::start(alloc, own(), &[Ssn::from(8)])?;
    let stamp = Stamp {
        phase: 1,
        link: 0,
        line: 4,
    };
    lane.step(&plant, stamp, &Event::Tick)
}

/// A tick is an entry of the lane.
#[test]
fn takes_a_lent_event(rt: HostRuntime) -> Result<(), Fail> {
    let mut lane = lane(rt.alloc())?;
    lend(rt.alloc(), &mut lane)?;
    assert_eq!(rt; lane.journal().len(), 1);
    Ok(())
}
