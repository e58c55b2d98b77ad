//! Taking turns.
ghost use Rattle.std.specs.Prelude.{◌≡◌, ◌≢◌, ◌+◌, ◌<◌, [], ◌∷◌, Some, None, IfOk, IfErr, OnOk, OnErr};
ghost use Rattle.atomic_table.specs.Table.{Allows};
ghost use Rattle.lane_gate.specs.Gates.{origin_of, callers_of, IsPassOf};
ghost use Rattle.lane_gate.specs.Passes.{view_of, done_of, HadItsTurn, IsSamePass, TellsWhy};
ghost use Rattle.lane_gate.specs.Plan.{IsNext};
ghost use Rattle.lane_gate.specs.Inner.Rule.{IsKept, HasEntered, holding, turn_given_back};
ghost use Rattle.lane_gate.specs.Inner.Turns.{HasTried, HasHadIts};
ghost use Rattle.lane_gate.specs.Inner.Views.{IsIdle, tried_view, done_in};

use super::{Gate, Place};
use crate::lane::LaneState;
use crate::pass::{Pass, Refused, Waiting};
use crate::table::{Abandon, Enter, Finish, Known, View};
use atomic_table::{Badge, Play};
use relay_base::{Memory, Stamp};
use std::marker::Brand;
use std::sync::Wait;
use std::sync::atomic::Ordering;
use std::{hint, mem, thread};

/// How often a caller that waits looks for the end of a turn before it lets other threads run.
const LOOKS: u32 = 40;

/// How often it lets other threads run before it sleeps.
const YIELDS: u32 = 100;

impl<L: LaneState> Gate<L> {
    // Takes the turn, and the lane with it, or tells who has it.
    fn enter<K: Known<L>>(&self, seat: &mut Place<L>, number: u8) -> Result<L, u8>
        requires own { seat.old.table_id ≡ self.now.table.shared.table_id }
        requires idle { IsIdle seat.old.me number }
        requires known { (lane : L) →
            L.plan lane ≡ L.plan (origin_of self.now) → K.known lane }
        requires callers { K.callers ≡ callers_of self.now }
        ensures own { seat.new.table_id ≡ seat.old.table_id }
        ensures ok { IfOk result (λ lane.
            HasEntered L.taken seat.old.me seat.new.me lane × K.known lane) }
        ensures busy { IfErr result (λ holder.
            (seat.new.me ≡ (tried_view seat.old.me.0 (holder + 1) None, [])) × (holder ≢ number)
            × (holder < K.callers)) }
    {
        let shared = &self.table.shared;
        let found = shared.compare_exchange::<Enter<L, K>>(seat, 0, 0, u64::from(number) + 1);
        if found != 0 {
            return Err((found - 1) as u8);
        }
        let Some(lane) = shared.exchange(seat, 0, None) else {
            unreachable!()
        };
        Ok(lane)
    }

    // Gives the lane and the turn back.
    fn leave<M: Play<Option<L>, View>>(&self, seat: &mut Place<L>, lane: L)
        requires own { seat.old.table_id ≡ self.now.table.shared.table_id }
        requires empty { seat.old.me.1 ≡ (0, None) ∷ [] }
        requires kept { let held = holding seat.old.me lane in
            Allows (IsKept L.plan L.taken self.now.table.shared.key) 1 seat.old.id held 0 (λ _. 0)
            (λ _. M.then turn_given_back held 0) }
        ensures own { seat.new.table_id ≡ seat.old.table_id }
        ensures then { M.then turn_given_back (holding seat.old.me lane) 0 seat.new.me }
    {
        let shared = &self.table.shared;
        let left = shared.exchange(seat, 0, Some(lane));
        let None = left else { unreachable!() };
        shared.store::<M>(seat, 0, 0);
        if self.sleeping.load(Ordering::SeqCst) != 0 {
            shared.wake_one(0);
        }
    }

    // One turn of the caller at this place.
    fn turn(
        &self,
        seat: &mut Place<L>,
        number: u8,
        stamp: Stamp,
        event: L::Event,
    ) -> Result<(), Refused<L::Event>>
        requires own { seat.old.table_id ≡ self.now.table.shared.table_id }
        requires idle { IsIdle seat.old.me number }
        requires link { stamp.link ≡ number }
        requires next { let done = done_in seat.old.me.0 in
            IsNext (L.plan (origin_of self.now)) (λ _. done) stamp event }
        ensures own { seat.new.table_id ≡ seat.old.table_id }
        ensures idle { IsIdle seat.new.me number }
        ensures ok { OnOk result (done_in seat.new.me.0 ≡ done_in seat.old.me.0 + 1) }
        ensures err { OnErr result (done_in seat.new.me.0 ≡ done_in seat.old.me.0) }
        ensures why { let callers = callers_of self.now in
            IfErr result (TellsWhy callers number seat.old.me.0 seat.new.me.0 event) }
    {
        match self.enter::<Brand>(seat, number) {
            Err(holder) => Err(Refused::Busy { event, holder }),
            Ok(mut lane) => match lane.take_turn(stamp, &event) {
                Ok(()) => {
                    self.leave::<Finish>(seat, lane);
                    Ok(())
                }
                Err(Memory) => {
                    self.leave::<Abandon>(seat, lane);
                    Err(Refused::Memory { event })
                }
            },
        }
    }

    // The same, but the event goes to the lane: it comes back only where the lane was busy.
    fn hand_over_in_turn(
        &self,
        seat: &mut Place<L>,
        number: u8,
        stamp: Stamp,
        event: L::Event,
    ) -> Result<Option<Waiting<L::Event>>, Memory>
        requires own { seat.old.table_id ≡ self.now.table.shared.table_id }
        requires idle { IsIdle seat.old.me number }
        requires link { stamp.link ≡ number }
        requires next { let done = done_in seat.old.me.0 in
            IsNext (L.plan (origin_of self.now)) (λ _. done) stamp event }
        ensures own { seat.new.table_id ≡ seat.old.table_id }
        ensures idle { IsIdle seat.new.me number }
        ensures ok { IfOk result (HasTried seat.old.me.0 seat.new.me.0 event) }
        ensures err { OnErr result (HasHadIts seat.old.me.0 seat.new.me.0) }
    {
        match self.enter::<Brand>(seat, number) {
            Err(holder) => Ok(Some(Waiting { event, holder })),
            Ok(mut lane) => match lane.take_owned(stamp, event) {
                Ok(()) => {
                    self.leave::<Finish>(seat, lane);
                    Ok(None)
                }
                Err(Memory) => {
                    self.leave::<Abandon>(seat, lane);
                    Err(Memory)
                }
            },
        }
    }

    // Whether this caller has the turn.
    fn is_held_by(&self, holder: u8) -> bool {
        self.table.shared.peek(0) == u64::from(holder) + 1
    }

    // Whether the turn of this caller ended within so many looks.
    fn ends_soon(&self, holder: u8) -> bool {
        for _ in 0..LOOKS {
            if !self.is_held_by(holder) {
                return true;
            }
            hint::spin_loop();
        }
        false
    }

    // Whether it ended while other threads ran: one of them may be its caller, where there are more threads than processors.
    fn ends_meanwhile(&self, holder: u8) -> bool {
        for _ in 0..YIELDS {
            if !self.is_held_by(holder) {
                return true;
            }
            thread::yield_now();
        }
        false
    }

    // Waits for the end of this caller's turn. It may end early.
    fn wait_for<R: Wait>(&self, rt: &R, holder: u8) {
        if !self.ends_soon(holder) && !self.ends_meanwhile(holder) {
            self.sleeping.fetch_add(1, Ordering::SeqCst);
            self.table.shared.park(rt, 0, u32::from(holder) + 1);
            self.sleeping.fetch_sub(1, Ordering::SeqCst);
        }
    }

    /// Delivers the next event of the pass's link, or gives it back: the lane was busy, or memory ran out. It waits for nobody, but for what the lane's own turn waits for.
    pub fn try_turn(
        &self,
        pass: &mut Pass,
        stamp: Stamp,
        event: L::Event,
    ) -> Result<(), Refused<L::Event>>
        requires own { IsPassOf self.now pass.old }
        requires link { stamp.link ≡ pass.old.number }
        requires next { IsNext (L.plan (origin_of self.now)) (λ _. done_of pass.old) stamp event }
        ensures same { IsSamePass pass.old pass.new }
        ensures ok { OnOk result (done_of pass.new ≡ done_of pass.old + 1) }
        ensures err { OnErr result (done_of pass.new ≡ done_of pass.old) }
        ensures why { let callers = callers_of self.now in let number = pass.old.number in
            IfErr result (TellsWhy callers number (view_of pass.old) (view_of pass.new) event) }
    {
        let number = pass.number();
        let mut seat = mem::replace(&mut pass.badge, Badge::blank()).into_seat();
        let outcome = self.turn(&mut seat, number, stamp, event);
        pass.badge = seat.into_badge();
        outcome
    }

    // Delivers the next event of the pass's link, or gives it back where the lane was busy.
    fn hand_over(
        &self,
        pass: &mut Pass,
        stamp: Stamp,
        event: L::Event,
    ) -> Result<Option<Waiting<L::Event>>, Memory>
        requires own { IsPassOf self.now pass.old }
        requires link { stamp.link ≡ pass.old.number }
        requires next { IsNext (L.plan (origin_of self.now)) (λ _. done_of pass.old) stamp event }
        ensures same { IsSamePass pass.old pass.new }
        ensures ok { IfOk result (HasTried (view_of pass.old) (view_of pass.new) event) }
        ensures err { OnErr result (HasHadIts (view_of pass.old) (view_of pass.new)) }
    {
        let number = pass.number();
        let mut seat = mem::replace(&mut pass.badge, Badge::blank()).into_seat();
        let outcome = self.hand_over_in_turn(&mut seat, number, stamp, event);
        pass.badge = seat.into_badge();
        outcome
    }

    /// Delivers the next event of the pass's link, and waits for the turn. It tells want of memory only where it had the turn; the pass then counts what it did, and the lane
    /// has taken what it had.
    pub fn deliver<R: Wait>(
        &self,
        rt: &R,
        pass: &mut Pass,
        stamp: Stamp,
        event: L::Event,
    ) -> Result<(), Memory>
        requires own { IsPassOf self.now pass.old }
        requires link { stamp.link ≡ pass.old.number }
        requires next { IsNext (L.plan (origin_of self.now)) (λ _. done_of pass.old) stamp event }
        ensures same { IsSamePass pass.old pass.new }
        ensures ok { OnOk result (done_of pass.new ≡ done_of pass.old + 1) }
        ensures err { OnErr result (done_of pass.new ≡ done_of pass.old) }
        ensures why { OnErr result (HadItsTurn (view_of pass.old) (view_of pass.new)) }
    {
        let mut event = event;
        for _ in rt.forever() {
            let Some(waiting) = self.hand_over(pass, stamp, event)? else {
                return Ok(());
            };
            event = waiting.event;
            self.wait_for(rt, waiting.holder);
        }
        unreachable!()
    }
}
