//! What a slot is.
ghost use Rattle.std.specs.Prelude.{◌≡◌, ◌≤◌, length, slice_get, IfSome};
ghost use Rattle.local_refs.specs.Slots.{is_free, free_from};
ghost use Rattle.local_refs.specs.Inner.Swept.{swept, swept_all, soonest_in, left_of, AreTaken};

/// A sweep is due no later than this many ticks after the last one.
pub(crate) const LONGEST: u64 = 4_294_967_295;

/// Whether a slot is free, held by a side of a connection, or frozen with so many ticks left, 1 and more.
#[derive(Clone, Copy)]
pub enum SlotState {
    Free,
    Held,
    Frozen(u64),
}

impl SlotState {
    pub(crate) fn is_free(self) -> bool
        ensures { result ≡ is_free self }
    {
        matches!(self, SlotState::Free)
    }

    /// The ticks after which a slot becomes free, or the longest.
    fn left(self) -> u64
        ensures { result ≡ left_of self }
    {
        match self {
            SlotState::Frozen(left) => left,
            SlotState::Free | SlotState::Held => LONGEST,
        }
    }

    /// The state after so many ticks.
    fn swept(self, ticks: u64) -> SlotState
        ensures { result ≡ swept ticks self }
    {
        match self {
            SlotState::Frozen(left) if left > ticks => SlotState::Frozen(left - ticks),
            SlotState::Frozen(_) => SlotState::Free,
            state => state,
        }
    }
}

/// Takes so many ticks at each slot.
pub(crate) fn sweep(states: &mut [SlotState], ticks: u64)
    ensures { states.new ≡ swept_all ticks states.old }
{
    for state in states.iter_mut() {
        *state = state.swept(ticks);
    }
}

/// The least number of ticks after which a slot becomes free, if it isn't above the longest.
pub(crate) fn soonest_in(states: &[SlotState]) -> u64
    ensures { result ≡ soonest_in states.now }
{
    let mut soonest = LONGEST;
    for state in states {
        soonest = soonest.min(state.left());
    }
    soonest
}

/// The place of the first free slot from a place on before which none is free, or how many slots there are.
pub(crate) fn first_free(states: &[SlotState], from: usize) -> usize
    requires { AreTaken from states.now }
    ensures { AreTaken result states.now }
{
    for place in from..states.len() {
        if states[place].is_free() {
            return place;
        }
    }
    states.len()
}

/// The number of the free slot that stands at this one's place among all by rising number, found from a place on before which none is free.
pub(crate) fn free_slot(states: &[SlotState], first: usize, at: usize) -> Option<usize>
    requires { AreTaken first states.now }
    ensures value { result ≡ slice_get (free_from 1 states.now) at }
    ensures within { IfSome result (λ slot. (1 ≤ slot) × (slot ≤ length states.now)) }
{
    let mut before = at;
    for place in first..states.len() {
        if states[place].is_free() {
            if before == 0 {
                return Some(place + 1);
            }
            before -= 1;
        }
    }
    None
}
