//! The slots of a lane.
ghost use Rattle.std.specs.Prelude.{◌≡◌, ◌<◌, ◌≤◌, ◌+◌, ◌-◌, [], ◌∷◌, replicate, length, Some, slice_get, IfOk, IfSome, OnErr};
ghost use Rattle.section_model.specs.References.{generation_after, slot_of};
ghost use Rattle.local_refs.specs.Slots.{free_from, next_reference, free_references, IsHeld, with_state, with_taken, frozen_for, after_tick};
ghost use Rattle.local_refs.specs.declared.state.SlotState.TheVariants.{Free, Held};

use crate::state::{LONGEST, SlotState, first_free, free_slot, soonest_in, sweep};
use relay_base::limits::{MOST_LANES, SLOTS};
use relay_base::{Below, Memory, Ref24};
use section_model::limits::GENERATIONS;
use std::alloc::Global;
use std::marker::Model;

/// The numbers of a lane's slots, with 0, which no slot has.
const SLOT_NUMBERS: u32 = SLOTS as u32 + 1;

/// A generation of a slot.
type Generation = Below<GENERATIONS>;

/// The generation of a slot that wasn't taken yet.
fn first_generation() -> Generation
    ensures { result ≡ 0 }
{
    Generation::new(0).unwrap()
}

/// The generation after one: behind the last one the first comes again.
fn next_generation(generation: Generation) -> Generation
    ensures { result ≡ generation_after (generation + 1) }
{
    Generation::new((generation.number() + 1) % GENERATIONS).unwrap()
}

/// All slots are held or frozen.
#[derive(Clone, Copy)]
pub struct Full;

/// The 4,095 slots of a lane.
#[derive(Drop)]
pub struct Slots {
    lane: u8,
    freeze: u32,
    /// What each slot was at the last sweep; what froze since then counts from there too.
    states: Vec<SlotState>,
    /// The generation that each slot has when it is taken next: how often it was taken, modulo 255.
    generations: Vec<Generation>,
    /// The ticks since the last sweep.
    passed: u64,
    /// No slot becomes free before this many ticks after the last sweep.
    soonest: u64,
    /// No slot before this place is free.
    first: usize,
}

impl Model for Slots {
    ghost use Rattle.std.specs.Prelude.{◌≡◌, ◌≤◌, ◌<◌, length};
    ghost use Rattle.relay_base.specs.declared.limits.TheConstants.{MOST_LANES, SLOTS};
    ghost use Rattle.local_refs.specs.declared.state.TheConstants.{LONGEST};
    ghost use Rattle.local_refs.specs.Slots.{LaneSlots};
    ghost use Rattle.local_refs.specs.Inner.Swept.{swept_all, soonest_in, AreTaken};

    ghost Value = { LaneSlots };

    ghost view = { λ s. record {
      lane = s.lane;
      freeze = s.freeze;
      states = swept_all s.passed s.states.items;
      generations = s.generations.items;
    } };

    ghost invariant = { λ s. (length s.states.items ≡ SLOTS) × (s.lane < MOST_LANES)
        × (s.passed < s.soonest) × (s.soonest ≤ LONGEST) × (s.soonest ≤ soonest_in s.states.items)
        × AreTaken s.first s.states.items × (length s.generations.items ≡ SLOTS) };
}

impl Slots {
    /// All slots are free. The lane is 0 to 15, and a slot that is given up stays frozen for `freeze` ticks.
    pub fn new(alloc: Global, lane: u8, freeze: u32) -> Result<Slots, Memory>
        requires lane { lane < MOST_LANES }
        ensures { let states = replicate SLOTS Free in
            IfOk result (λ slots.
            slots ≡ record {
              lane = lane;
              freeze = freeze;
              states = states;
              generations = replicate SLOTS 0;
            }) }
    {
        let mut states = Vec::new(alloc);
        states.resize(SLOTS as usize, SlotState::Free)?;
        let mut generations = Vec::new(alloc);
        generations.resize(SLOTS as usize, first_generation())?;
        Ok(Slots {
            lane,
            freeze,
            states,
            generations,
            passed: 0,
            soonest: LONGEST,
            first: 0,
        })
    }

    /// The free slot that stands at this place, from 0, among all by rising number.
    fn free_slot(&self, at: usize) -> Option<usize>
        ensures value { result ≡ slice_get (free_from 1 self.now.states) at }
        ensures within { IfSome result (λ slot. (1 ≤ slot) × (slot ≤ SLOTS)) }
    {
        free_slot(&self.states, self.first, at)
    }

    /// The local reference that a slot has when it is taken next.
    fn reference(&self, slot: usize) -> Ref24
        requires some { 1 ≤ slot }
        requires within { slot ≤ SLOTS }
        ensures { result ≡ next_reference self.now slot }
    {
        let generation = self.generations[slot - 1].number();
        let number = generation * SLOT_NUMBERS + slot as u32;
        Ref24::new(number * u32::from(MOST_LANES) + u32::from(self.lane)).unwrap()
    }

    /// How many slots are free.
    pub fn free(&self) -> u16
        ensures { result ≡ length (free_references self.now) }
    {
        let mut free = 0;
        for state in &self.states {
            if state.is_free() {
                free += 1;
            }
        }
        free
    }

    /// The reference of the free slot that stands at this place, from 0, among all by rising number; None where no more are free.
    pub fn peek(&self, at: u8) -> Option<Ref24>
        ensures { result ≡ slice_get (free_references self.now) at }
    {
        let slot = self.free_slot(usize::from(at))?;
        Some(self.reference(slot))
    }

    /// Takes the lowest free slot, which is then held, and has another generation when it is taken again; `Full` exactly where none is free.
    pub fn take_lowest(&mut self) -> Result<Ref24, Full>
        ensures lowest { IfOk result (λ mine.
            free_references self.old ≡ mine ∷ free_references self.new) }
        ensures held { IfOk result (λ mine. IsHeld self.new mine) }
        ensures rest { IfOk result (λ mine. self.new ≡ with_taken self.old (slot_of mine)) }
        ensures full { OnErr result ((free_references self.old ≡ []) × (self.new ≡ self.old)) }
    {
        let slot = self.free_slot(0).ok_or(Full)?;
        let mine = self.reference(slot);
        self.states[slot - 1] = SlotState::Held;
        self.generations[slot - 1] = next_generation(self.generations[slot - 1]);
        self.first = first_free(&self.states, self.first);
        Ok(mine)
    }

    /// The place among the states of the slot of a reference that is held.
    fn place(&self, mine: Ref24) -> usize
        requires { IsHeld self.now mine }
        ensures value { result ≡ slot_of mine - 1 }
        ensures within { result < length self.now.states }
    {
        (mine.number() / u32::from(MOST_LANES) % SLOT_NUMBERS) as usize - 1
    }

    /// A side gives the slot of its reference up, and it is frozen; where the lane freezes for no ticks, it is free at once.
    pub fn freeze(&mut self, mine: Ref24)
        requires held { IsHeld self.old mine }
        ensures { let left = frozen_for self.old.freeze in
            self.new ≡ with_state self.old (slot_of mine) left }
    {
        let place = self.place(mine);
        if self.freeze == 0 {
            self.states[place] = SlotState::Free;
            self.first = self.first.min(place);
        } else {
            let until = self.passed + u64::from(self.freeze);
            self.states[place] = SlotState::Frozen(until);
            self.soonest = self.soonest.min(until);
        }
    }

    /// A tick lowers what is left of each freezing, and at its last one the slot is free.
    pub fn tick(&mut self)
        ensures { self.new ≡ after_tick self.old }
    {
        if self.passed + 1 < self.soonest {
            self.passed += 1;
            return;
        }
        sweep(&mut self.states, self.passed + 1);
        self.passed = 0;
        self.soonest = soonest_in(&self.states);
        self.first = 0;
    }
}
