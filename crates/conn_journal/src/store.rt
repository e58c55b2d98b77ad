//! Where the connections of a lane are kept.
use crate::change::Next;
use crate::kept::Kept;
use relay_base::Memory;
use std::alloc::Global;

/// Where the connections of a lane are kept by their numbers in its journal, each until it is over; and which of them the next tick wakes.
pub trait Store: Drop {
    ghost use Rattle.std.specs.Prelude.{◌≡◌, ◌≤◌, ◌+◌, ◌++◌, ◌∷◌, [], ℕ, Bool, true, List, Option, Some, None, is_some, length, get_or, slice_set, IfOk, OnOk};
    ghost use Rattle.std.specs.Option.{option_map};
    ghost use Rattle.section_coupling.specs.Duos.{DuoState};
    ghost use Rattle.conn_journal.specs.Inner.Ticking.{put_lives, AllAreKept};
    ghost use Rattle.conn_journal.specs.Inner.Waking.{AreQuiet, WakesAll, AllWoken, is_in};

    /// How many ticks the lane has taken.
    ghost taken: { Self → ℕ };

    /// The connections by their numbers, each until it is over.
    ghost kept: { Self → List (Option DuoState) };

    /// Which of them the next tick wakes.
    ghost due: { Self → ℕ → Bool };

    /// There is memory for so many connections that are opened, or that are put as they are next.
    ghost has_room: { Self → ℕ → Type 0 };

    /// Before the first event of the lane.
    fn new(alloc: Global) -> Self
        ensures taken { taken result ≡ 0 }
        ensures kept { kept result ≡ [] };

    /// How many ticks the lane has taken.
    fn taken(&self) -> u64
        ensures { result ≡ taken self.now };

    /// How many connections were opened.
    fn opened(&self) -> usize
        ensures { result ≡ length (kept self.now) };

    /// The connection of this number, unless it is over.
    fn get(&self, number: usize) -> Option<&Kept>
        ensures { option_map (λ k. k.now) result ≡ get_or (kept self.now) number None };

    /// The connections that the next tick wakes, by rising number. For all others it only brings timers nearer.
    fn due(&self, alloc: Global) -> Result<Vec<usize>, Memory>
        requires quiet { AreQuiet (taken self.now) (kept self.now) }
        ensures wakes { IfOk result (λ numbers.
            WakesAll (taken self.now) (kept self.now) 0 numbers.items) }
        ensures due { IfOk result (λ numbers.
            (number : ℕ) → is_in number numbers.items ≡ due self.now number) };

    /// Takes memory for so many connections that are opened, or that are put as they are next.
    fn reserve(&mut self, count: usize) -> Result<(), Memory>
        ensures taken { taken self.new ≡ taken self.old }
        ensures kept { kept self.new ≡ kept self.old }
        ensures due { (number : ℕ) → due self.new number ≡ due self.old number }
        ensures room { OnOk result (has_room self.new count) };

    /// The next connection is opened.
    fn open(&mut self, one: Kept)
        requires opened { length (kept self.old) ≤ 4_294_967_295 }
        requires room { has_room self.old 1 }
        ensures taken { taken self.new ≡ taken self.old }
        ensures kept { kept self.new ≡ kept self.old ++ Some one ∷ [] };

    /// The connection of this number as it is next, None once it is over. It wasn't over before.
    fn put(&mut self, number: usize, one: Option<Kept>)
        requires opened { length (kept self.old) ≤ 4_294_967_295 }
        requires alive { is_some (get_or (kept self.old) number None) ≡ true }
        requires room { has_room self.old 1 }
        ensures taken { taken self.new ≡ taken self.old }
        ensures kept { kept self.new ≡ slice_set (kept self.old) number one };

    /// A tick, and the connections that it changes as they are next. All that it wakes are among them.
    fn advance(&mut self, nexts: Vec<Next>)
        requires taken { taken self.old ≤ 4_294_967_295 }
        requires opened { length (kept self.old) ≤ 4_294_967_295 }
        requires alive { AllAreKept nexts.items (kept self.old) }
        requires woken { AllWoken (due self.old) (kept self.old) nexts.items }
        requires room { has_room self.old (length nexts.items) }
        ensures taken { taken self.new ≡ taken self.old + 1 }
        ensures kept { kept self.new ≡ put_lives nexts.items (kept self.old) };
}
