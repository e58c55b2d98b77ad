//! The control lane with its publisher.
ghost use Rattle.std.specs.Prelude.{◌≡◌, ◌<◌, length, IfOk, OnOk, OnErr};
ghost use Rattle.lane_seats.specs.Controls.{ControlTakes, IsOpen, IsUnchanged};

use crate::publisher::PhasePublisher;
use plant_core::ControlEvent;
use relay_base::{Memory, Stamp};
use scmg::ControlLane;
use std::alloc::Global;
use std::marker::Model;
use std::sync::Wait;

/// The control lane, and the publisher of its changes. Both have memory of their own, so that little moves when they go from hand to hand.
pub struct ControlSeat<'r, R: Wait> {
    lane: Box<ControlLane>,
    publisher: Box<PhasePublisher<'r, R>>,
}

impl<'r, R: Wait> Drop for ControlSeat<'r, R> {
    fn drop(self) {
        let Self {
            lane: _lane,
            publisher: _publisher,
        } = self;
    }
}

impl<'r, R: Wait> Model for ControlSeat<'r, R> {
    ghost use Rattle.lane_seats.specs.Controls.{ControlSeatState};

    ghost Value = { ControlSeatState };

    ghost view = { λ s.
        record { lane = s.lane.value; publisher = s.publisher.value.publisher } };
}

impl<'r, R: Wait> ControlSeat<'r, R> {
    pub fn new(
        alloc: Global,
        lane: ControlLane,
        publisher: PhasePublisher<'r, R>,
    ) -> Result<ControlSeat<'r, R>, Memory>
        ensures { let publisher = publisher.entry.publisher in
            IfOk result (λ seat. seat ≡ record { lane = lane; publisher = publisher }) }
    {
        let lane = Box::new(alloc, lane)?;
        let publisher = Box::new(alloc, publisher)?;
        Ok(ControlSeat { lane, publisher })
    }

    /// The lane and its publisher.
    pub fn into_parts(self) -> (ControlLane, PhasePublisher<'r, R>)
        ensures lane { result.0 ≡ self.entry.lane }
        ensures publisher { result.1.publisher ≡ self.entry.publisher }
    {
        let Self { lane, publisher } = self;
        (Box::into_inner(lane), Box::into_inner(publisher))
    }

    /// Takes an event. After want of memory the lane is as before, and nothing was published.
    pub fn step(&mut self, stamp: Stamp, event: ControlEvent) -> Result<(), Memory>
        requires few { length self.old.lane.journal < 4294967295 }
        requires open { IsOpen self.old.publisher self.old.lane }
        ensures ok { OnOk result (ControlTakes stamp event self.old self.new) }
        ensures err { OnErr result (IsUnchanged self.old self.new) }
    {
        self.lane.step_owned(&mut *self.publisher, stamp, event)
    }
}
