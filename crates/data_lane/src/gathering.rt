//! The reassemblies' part in what comes of an event (Q.714, 4.1.1).
ghost use Rattle.std.specs.Prelude.{◌≡◌, ◌++◌, ◌≤◌, ◌+◌, true, map, take, length, vec_len, vec_capacity, IfOk, OnOk, OnErr};
ghost use Rattle.reassembly.specs.Laws.{IsWithinBounds};
ghost use Rattle.reassembly.specs.Reassembly.{takes, ended_by_tick, after_tick};
ghost use Rattle.data_lane.specs.Legal.{failure, failures, whole_told, of_now, is_no_room, of_taken, worked};

use crate::effect::Work;
use connectionless::return_outs;
use plant_core::LaneHead;
use reassembly::{Bench, Now, Piece};
use relay_base::causes::{RETURN_LOCAL_PROCESSING, RETURN_SEGMENTATION_FAILURE};
use relay_base::{BoxedOctets, Lost, Memory, Octets, Output, Outs, Pc, Tell};
use std::alloc::Global;

/// Room for what a user is told of a message: its octets take no more memory then.
#[derive(Drop)]
struct TellRoom {
    called: BoxedOctets,
    calling: BoxedOctets,
    body: BoxedOctets,
}

impl TellRoom {
    fn new(alloc: Global) -> Result<TellRoom, Memory> {
        Ok(TellRoom {
            called: BoxedOctets::new(alloc, Octets::new(alloc))?,
            calling: BoxedOctets::new(alloc, Octets::new(alloc))?,
            body: BoxedOctets::new(alloc, Octets::new(alloc))?,
        })
    }

    /// What a user is told of a message that is whole: it has the class of its first segment.
    fn whole_told(mut self, piece: Piece) -> Output
        ensures { result ≡ whole_told piece }
    {
        self.called.put(piece.called);
        self.calling.put(piece.calling);
        self.body.put(piece.body);
        Output::Told {
            ssn: piece.ssn,
            tell: Tell::Unit {
                class: piece.segmentation[0] / 64 % 2,
                called: self.called,
                calling: self.calling,
                body: self.body,
            },
        }
    }
}

/// Puts the return of the reassembly that this segment ends as failed at the end.
fn put_ended(
    alloc: Global,
    own: Pc,
    bench: &Bench,
    piece: &Piece,
    outs: &mut Outs,
) -> Result<(), Memory>
    ensures { let after = takes bench.now.ticks bench.now.processes piece.now
        in OnOk result (outs.new ≡ outs.old ++ failures own after.1.failed) }
{
    let Some(first) = bench.ending(piece) else {
        return Ok(());
    };
    return_outs(alloc, own, first, RETURN_SEGMENTATION_FAILURE, outs)
}

/// Puts what comes of a segment at the end, where there is room for one output. Only the return of one without room can lack memory.
fn put_now(
    alloc: Global,
    own: Pc,
    now: Now,
    room: TellRoom,
    mut outs: Vec<Output>,
) -> Result<Outs, Memory>
    requires { vec_len outs + 1 ≤ vec_capacity outs }
    ensures ok { IfOk result (λ all. all ≡ outs.items ++ of_now own now) }
    ensures err { OnErr result (is_no_room now ≡ true) }
{
    let output = match now {
        Now::Waiting => return Ok(Outs::from(outs)),
        Now::NoRoom(piece) => {
            let mut outs = Outs::from(outs);
            return_outs(alloc, own, &piece, RETURN_LOCAL_PROCESSING, &mut outs)?;
            return Ok(outs);
        }
        Now::Orphan | Now::Broken => Output::Lost(Lost::Segment),
        Now::Whole(whole) => room.whole_told(whole),
    };
    outs.push_reserved(output);
    Ok(Outs::from(outs))
}

/// Takes a segment, and puts what comes of it at the end. After `Memory` the reassemblies are as before.
fn take(
    alloc: Global,
    own: Pc,
    bench: &mut Bench,
    piece: Piece,
    mut outs: Outs,
) -> Result<Outs, Memory>
    requires { IsWithinBounds bench.old.processes }
    ensures outs { let after = takes bench.old.ticks bench.old.processes piece
        in IfOk result (λ all. all ≡ outs ++ (of_taken own after).outs) }
    ensures processes { let after = takes bench.old.ticks bench.old.processes piece
        in OnOk result (bench.new.processes ≡ after.0) }
    ensures ticks { bench.new.ticks ≡ bench.old.ticks }
    ensures err { OnErr result (bench.new ≡ bench.old) }
    ensures bounds { IsWithinBounds bench.new.processes }
{
    put_ended(alloc, own, bench, &piece, &mut outs)?;
    let mut outs = outs.into_vec();
    outs.reserve(1)?;
    let room = TellRoom::new(alloc)?;
    let taken = bench.take(piece)?;
    put_now(alloc, own, taken.now, room, outs)
}

/// A tick goes by: puts the returns of those that fail at the end, in the order in which these began. After `Memory` the
/// reassemblies are as before.
fn tick(alloc: Global, own: Pc, bench: &mut Bench, mut outs: Outs) -> Result<Outs, Memory>
    requires { IsWithinBounds bench.old.processes }
    ensures outs { let ended = ended_by_tick bench.old.processes
        in IfOk result (λ all. all ≡ outs ++ map (failure own RETURN_SEGMENTATION_FAILURE) ended) }
    ensures processes { OnOk result (bench.new.processes ≡ after_tick bench.old.processes) }
    ensures ticks { bench.new.ticks ≡ bench.old.ticks }
    ensures err { OnErr result (bench.new ≡ bench.old) }
    ensures bounds { IsWithinBounds bench.new.processes }
{
    let mut at = 0;
    while let Some(first) = bench.due(at) {
        return_outs(alloc, own, first, RETURN_SEGMENTATION_FAILURE, &mut outs)?;
        at += 1;
    }
    bench.tick()?;
    Ok(outs)
}

/// Does what is left to do with the reassemblies, and puts what comes of it at the end. After `Memory` they are as before.
pub fn work_off(
    alloc: Global,
    own: Pc,
    bench: &mut Bench,
    work: Work,
    outs: Outs,
) -> Result<Outs, Memory>
    requires { IsWithinBounds bench.old.processes }
    ensures outs { let done = worked own bench.old.ticks bench.old.processes work
        in IfOk result (λ all. all ≡ outs ++ done.outs) }
    ensures processes { let done = worked own bench.old.ticks bench.old.processes work
        in OnOk result (bench.new.processes ≡ done.processes) }
    ensures ticks { bench.new.ticks ≡ bench.old.ticks }
    ensures err { OnErr result (bench.new ≡ bench.old) }
    ensures bounds { IsWithinBounds bench.new.processes }
{
    match work {
        Work::Nothing => Ok(outs),
        Work::Segment(piece) => take(alloc, own, bench, piece, outs),
        Work::Tick => tick(alloc, own, bench, outs),
    }
}
