//! How many ticks a lane has taken.
use std::marker::Model;

/// How many ticks a lane has taken, 0 to 4,294,967,296: so the tick at which a timer fires has a number of 64 bits.
#[derive(Clone, Copy)]
pub struct Taken {
    count: u64,
}

impl Model for Taken {
    ghost use Rattle.std.specs.Prelude.{◌≤◌, ℕ};

    ghost Value = { ℕ };

    ghost view = { λ t. t.count };

    ghost invariant = { λ t. t.count ≤ 4294967296 };

    ghost inverse = { λ n. record { count = n } };
}

impl Taken {
    ghost use Rattle.std.specs.Prelude.{◌≡◌, ◌≤◌, ◌+◌};

    /// So many ticks, and none upon the event.
    pub fn before(now: u32) -> Taken
        ensures { result ≡ now }
    {
        Taken {
            count: u64::from(now),
        }
    }

    /// So many ticks, and one more.
    pub fn with_tick(now: u32) -> Taken
        ensures { result ≡ now + 1 }
    {
        Taken {
            count: u64::from(now) + 1,
        }
    }

    pub fn number(self) -> u64
        ensures value { result ≡ self }
        ensures few { result ≤ 4_294_967_296 }
    {
        self.count
    }
}
