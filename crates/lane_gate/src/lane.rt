//! What stands in a gate.
use relay_base::{Memory, Stamp};

/// A lane takes the events of its plan, in order for each link.
pub trait LaneState: Drop {
    ghost use Rattle.std.specs.Prelude.{◌≡◌, ℕ, OnOk, OnErr};
    ghost use Rattle.lane_gate.specs.Plan.{Plan, IsNext, Raises, Stays};

    type Event: Drop;

    /// The plain data that a plan has beside its lists.
    ghost Base: { Type 0 };

    /// What the lane is to take, which no call changes.
    ghost plan: { Self → Plan Base Self.Event };

    /// How many events of each link it has taken.
    ghost taken: { Self → ℕ → ℕ };

    /// Takes the event that is the next one of its link, or leaves the lane as it was for want of memory.
    fn take_turn(&mut self, stamp: Stamp, event: &Self::Event) -> Result<(), Memory>
        requires { IsNext (plan self.old) (taken self.old) stamp event.now }
        ensures plan { plan self.new ≡ plan self.old }
        ensures ok { OnOk result (Raises (taken self.old) (taken self.new) stamp.link) }
        ensures err { OnErr result (Stays (taken self.old) (taken self.new)) };

    /// The same with an event that the lane may keep. For want of memory the event is let go.
    fn take_owned(&mut self, stamp: Stamp, event: Self::Event) -> Result<(), Memory>
        requires { IsNext (plan self.old) (taken self.old) stamp event }
        ensures plan { plan self.new ≡ plan self.old }
        ensures ok { OnOk result (Raises (taken self.old) (taken self.new) stamp.link) }
        ensures err { OnErr result (Stays (taken self.old) (taken self.new)) }
    {
        self.take_turn(stamp, &event)
    }
}
