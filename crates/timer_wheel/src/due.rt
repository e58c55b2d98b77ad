//! The timers, and when they fire.
ghost use Rattle.std.specs.Prelude.{◌≡◌, ◌≤◌, ◌^◌};
ghost use Rattle.timer_wheel.specs.Order.{is_before};
ghost use Rattle.timer_wheel.specs.Inner.Tree.{started_again};

/// A timer of a connection, by the connection's number and the timer's.
#[derive(Clone, Copy, Debug, PartialEq, Eq)]
pub struct Due {
    pub conn: u32,
    pub timer: u8,
}

impl Due {
    /// Whether this timer comes before another, by connection and then by timer.
    pub(crate) fn is_before(self, other: Due) -> bool
        ensures { result ≡ is_before self other }
    {
        self.conn < other.conn || self.conn == other.conn && self.timer < other.timer
    }
}

/// A running timer: the tick at which it fires, by the wheel's count, and with how many ticks it was started.
#[derive(Clone, Copy)]
pub struct Alarm {
    pub due: Due,
    pub tick: u64,
    pub interval: u32,
}

impl Alarm {
    /// The timer, where it fires up to this tick, started again from it with twice its interval, but no more than the most.
    pub(crate) fn started_again(self, tick: u64, most: u32) -> Alarm
        requires { tick ≤ 2 ^ 63 }
        ensures { result ≡ started_again tick most self }
    {
        if self.tick > tick {
            return self;
        }
        let interval = self.interval.saturating_mul(2).min(most);
        Alarm {
            due: self.due,
            tick: tick + u64::from(interval.max(1)),
            interval,
        }
    }
}
