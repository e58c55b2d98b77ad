//! The clock of a lane.
ghost use Rattle.std.specs.Prelude.{◌≡◌, ◌+◌, Some};
ghost use Rattle.section_coupling.specs.Duos.{taken_after};
ghost use Rattle.section_coupling.specs.Views.{left_at};

use crate::taken::Taken;
use plant_core::Ticks;
use relay_base::Event;

/// The ticks of the timers, and how many ticks a lane has taken.
#[derive(Clone, Copy)]
pub struct Clock {
    pub ticks: Ticks,
    pub taken: Taken,
}

impl Clock {
    /// The tick at which a timer fires that is armed now with so many ticks.
    pub fn deadline(&self, ticks: u32) -> Option<u64>
        ensures { left_at self.now.taken result ≡ Some ticks }
    {
        Some(self.taken.number() + u64::from(ticks))
    }
}

/// How many ticks a lane has taken after an event, before which it took so many.
pub fn taken_after(now: u32, event: &Event) -> Taken
    ensures { result ≡ taken_after now event.now }
{
    match event {
        Event::Message { .. } | Event::Asked { .. } => Taken::before(now),
        Event::Tick => Taken::with_tick(now),
    }
}
