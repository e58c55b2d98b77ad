//! Making a gate, and closing it.
ghost use Rattle.std.specs.Prelude.{◌≡◌, ◌≢◌, ℕ, ◌<◌, ◌≤◌, [], map, vec_capacity, None, IfOk, All};
ghost use Rattle.lane_gate.specs.declared.gate.TheConstants.{MOST_CALLERS};
ghost use Rattle.lane_gate.specs.Gates.{origin_of, callers_of, AreAllPasses, AreNumbered};
ghost use Rattle.lane_gate.specs.Passes.{count_of, done_of};
ghost use Rattle.lane_gate.specs.Inner.Rule.{whole_view};

use super::{Gate, Place};
use crate::lane::LaneState;
use crate::pass::{Pass, PassList};
use crate::table::{FirstAlone, Opening, Together};
use atomic_table::Table;
use relay_base::Memory;
use std::alloc::Global;
use std::snapshot::Snapshot;
use std::sync::atomic::AtomicUsize;

impl<L: LaneState> Gate<L> {
    // A gate round the lane, and one seat for all callers. Without memory the lane is let go.
    fn open(alloc: Global, lane: L, callers: u8) -> Result<(Gate<L>, Place<L>), Memory>
        requires callers { (0 < callers) × (callers ≤ MOST_CALLERS) }
        requires fresh { (link : ℕ) → L.taken lane link ≡ 0 }
        ensures origin { IfOk result (λ made. origin_of made.0 ≡ lane) }
        ensures callers { IfOk result (λ made. callers_of made.0 ≡ callers) }
        ensures seat { IfOk result (λ made. let shared = made.0.table.shared in
            (made.1.table_id ≡ shared.table_id) × (made.1.me ≡ (whole_view shared.key, []))) }
    {
        let opening = Opening {
            lane: Snapshot::of(&lane),
            callers,
        };
        let mut slots = Vec::with_capacity(alloc, 1)?;
        slots.push_reserved(Some(lane));
        let Ok((table, seat)) = Table::new(alloc, &[0], slots, &opening) else {
            return Err(Memory);
        };
        let sleeping = AtomicUsize::new(0);
        Ok((Gate { table, sleeping }, seat))
    }

    /// A gate round the lane, and a pass for each of 1 to 9 callers. The passes are numbered from 0, as the links of the lane's plan. Only want of memory refuses it, and the lane is then let go.
    pub fn make(alloc: Global, lane: L, callers: u8) -> Result<(Gate<L>, PassList), Memory>
        requires callers { (0 < callers) × (callers ≤ MOST_CALLERS) }
        requires fresh { (link : ℕ) → L.taken lane link ≡ 0 }
        ensures gate { IfOk result (λ made.
            (origin_of made.0 ≡ lane) × (callers_of made.0 ≡ callers)) }
        ensures passes { IfOk result (λ made.
            AreAllPasses made.0 made.1 × AreNumbered callers made.1) }
        ensures unused { IfOk result (λ made. All (λ p. done_of p ≡ 0) made.1) }
    {
        let mut passes = Vec::with_capacity(alloc, usize::from(callers))?;
        let (gate, seat) = Gate::open(alloc, lane, callers)?;
        gate.hand_out(seat, callers, &mut passes);
        Ok((gate, PassList::from(passes)))
    }

    // Gives each caller its pass.
    fn hand_out(&self, seat: Place<L>, callers: u8, passes: &mut Vec<Pass>)
        requires seat { let shared = self.now.table.shared in
            (seat.table_id ≡ shared.table_id) × (seat.me ≡ (whole_view shared.key, [])) }
        requires callers { callers ≡ callers_of self.now }
        requires room { (passes.old.items ≡ []) × (callers ≤ vec_capacity passes.old) }
        ensures all { AreAllPasses self.now passes.new.items }
        ensures numbered { AreNumbered callers passes.new.items }
        ensures unused { All (λ p. done_of p ≡ 0) passes.new.items }
    {
        let mut seat = seat;
        for number in 0..callers - 1 {
            let rest = self.table.shared.split_seat::<FirstAlone>(&mut seat);
            passes.push_reserved(Pass::new(number, seat));
            seat = rest;
        }
        passes.push_reserved(Pass::new(callers - 1, seat));
    }

    // One seat for all callers.
    fn gather(&self, passes: Vec<Pass>) -> Place<L>
        requires { AreAllPasses self.now passes.items }
        ensures table { result.table_id ≡ self.now.table.shared.table_id }
        ensures idle { result.me.0.noted ≡ None }
        ensures counts { result.me.0.counts ≡ map count_of passes.items }
    {
        let mut passes = passes;
        let mut all = passes.pop().unwrap().into_seat();
        while let Some(pass) = passes.pop() {
            let seat = pass.into_seat();
            self.table.shared.join_seat::<Together>(&mut all, seat);
        }
        all
    }

    /// The lane, with the plan that it had at making. Of each pass's link it has taken what was delivered through the pass, and of other links nothing.
    pub fn close(self, passes: PassList) -> L
        requires { AreAllPasses self passes }
        ensures plan { L.plan result ≡ L.plan (origin_of self) }
        ensures taken { All (λ p. L.taken result p.number ≡ done_of p) passes }
        ensures others { (link : ℕ) →
            All (λ p. p.number ≢ link) passes → L.taken result link ≡ 0 }
    {
        let seat = self.gather(passes.into_vec());
        let Gate { table, sleeping: _ } = self;
        let mut closed = table.close_with(seat);
        let lane = closed.take(0);
        closed.free();
        lane.unwrap()
    }
}
