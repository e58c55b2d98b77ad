//! A lane at its place, from which it looks at the published routing data.
ghost use Rattle.std.specs.Prelude.{◌≡◌, IfOk};
ghost use Rattle.gtt_editions.specs.Standing.{LooksFrom};
ghost use Rattle.gtt_editions.specs.Published.{Begins};

use gtt_editions::{Notice, Place};
use relay_base::Memory;
use std::alloc::Global;
use std::marker::Model;
use std::sync::Wait;

/// A lane at its place. The lane has memory of its own, so that little moves when it goes from hand to hand.
pub struct Seat<'r, R: Wait, L: Drop> {
    lane: Box<L>,
    place: Place<'r, R>,
}

impl<'r, R: Wait, L: Drop> Drop for Seat<'r, R, L> {
    fn drop(self) {
        let Self {
            lane: _lane,
            place: _place,
        } = self;
    }
}

impl<'r, R: Wait, L: Drop> Model for Seat<'r, R, L> {
    ghost use Rattle.lane_seats.specs.Seats.{SeatState};

    ghost Value = { SeatState L };

    ghost view = { λ s. record { lane = s.lane.value; place = s.place } };
}

impl<'r, R: Wait, L: Drop> Seat<'r, R, L> {
    pub fn new(alloc: Global, lane: L, place: Place<'r, R>) -> Result<Seat<'r, R, L>, Memory>
        ensures { IfOk result (λ seat. seat ≡ record { lane = lane; place = place.entry }) }
    {
        let lane = Box::new(alloc, lane)?;
        Ok(Seat { lane, place })
    }

    /// A lane in its own memory, at a place.
    pub fn joined(lane: Box<L>, place: Place<'r, R>) -> Seat<'r, R, L>
        ensures { result ≡ record { lane = lane.value; place = place.entry } }
    {
        Seat { lane, place }
    }

    /// The lane in its own memory, and its place.
    pub fn parted(self) -> (Box<L>, Place<'r, R>)
        ensures lane { result.0.value ≡ self.entry.lane }
        ensures place { result.1 ≡ self.entry.place }
    {
        let Self { lane, place } = self;
        (lane, place)
    }

    /// The lane and its place.
    pub fn into_parts(self) -> (L, Place<'r, R>)
        ensures lane { result.0 ≡ self.entry.lane }
        ensures place { result.1 ≡ self.entry.place }
    {
        let (lane, place) = self.parted();
        (Box::into_inner(lane), place)
    }

    /// Learns what is published.
    pub fn learn(&mut self, notice: Notice<'_>)
        ensures lane { self.new.lane ≡ self.old.lane }
        ensures looks { LooksFrom self.old.place self.new.place }
        ensures learnt { Begins self.new.place.seen notice.entry }
    {
        self.place.learn(notice);
    }
}
