//! The status tests of all subsystems of other points that are out of service (Q.714, 5.3.4).
ghost use Rattle.std.specs.Prelude.{◌≡◌, ◌<◌, [], map, filter, not, IsTrue, IfOk, OnOk};
ghost use Rattle.std.specs.List.{All};
ghost use Rattle.relay_base.specs.declared.limits.TheConstants.{POINT_CODES};
ghost use Rattle.scmg.specs.Control.{is_due_test, is_test_of, subsystem_of, test_begun, test_after_tick, with_test};
ghost use Rattle.scmg.specs.Inner.Tests.{subsystem_at};

use plant_core::{RemoteSubsystem, Ticks};
use relay_base::{Memory, Pc, Ssn};
use std::alloc::Global;
use std::marker::Model;
use timer_wheel::{Due, Wheel};

/// The status tests, each of which is a timer by the numbers of its point and subsystem.
#[derive(Drop)]
pub struct StatusTests {
    wheel: Wheel,
}

impl Model for StatusTests {
    ghost use Rattle.std.specs.Prelude.{◌<◌, length, map, nat_lt};
    ghost use Rattle.std.specs.List.{All};
    ghost use Rattle.relay_base.specs.declared.limits.TheConstants.{POINT_CODES};
    ghost use Rattle.scmg.specs.Inner.Tests.{TestsState, test_of};

    ghost Value = { TestsState };

    ghost view = { λ s. record {
      tests = map test_of s.wheel.armed;
      has_room = nat_lt (length s.wheel.armed) s.wheel.room;
    } };

    ghost invariant = { λ s. All (λ a. a.due.conn < POINT_CODES) s.wheel.armed };
}

/// The subsystems of timers that are due.
fn subsystems_of(alloc: Global, due: &[Due]) -> Result<Vec<RemoteSubsystem>, Memory>
    requires { All (λ d. d.conn < POINT_CODES) due.now }
    ensures { IfOk result (λ subsystems. subsystems.items ≡ map subsystem_at due.now) }
{
    let mut subsystems = Vec::with_capacity(alloc, due.len())?;
    for timer in due {
        subsystems.push(RemoteSubsystem {
            point: Pc::new(timer.conn).unwrap(),
            ssn: Ssn::from(timer.timer),
        })?;
    }
    Ok(subsystems)
}

impl StatusTests {
    /// No tests.
    pub fn new(alloc: Global) -> StatusTests
        ensures { result.tests ≡ [] }
    {
        StatusTests {
            wheel: Wheel::new(alloc),
        }
    }

    /// Takes memory for one test: the next one that begins needs none.
    pub fn make_room(&mut self) -> Result<(), Memory>
        ensures tests { self.new.tests ≡ self.old.tests }
        ensures room { OnOk result (IsTrue self.new.has_room) }
    {
        self.wheel.reserve_more(1)
    }

    /// Begins a test that is sent after these ticks, for which room was made.
    pub fn begin(&mut self, point: Pc, ssn: Ssn, interval: u32)
        requires { IsTrue self.old.has_room }
        ensures { let test = test_begun interval point ssn
            in self.new.tests ≡ with_test test self.old.tests }
    {
        self.wheel
            .arm_interval(point.number(), ssn.number() as u8, interval);
    }

    /// Ends the test of a subsystem.
    pub fn end(&mut self, point: Pc, ssn: Ssn)
        ensures { self.new.tests ≡ filter (λ t. not (is_test_of point ssn t)) self.old.tests }
    {
        self.wheel.cancel(point.number(), ssn.number() as u8);
    }

    /// The subsystems to which the next tick sends tests, by rising point and subsystem.
    pub fn due(&self, alloc: Global) -> Result<Vec<RemoteSubsystem>, Memory>
        ensures { let due = filter is_due_test self.now.tests
            in IfOk result (λ subsystems. subsystems.items ≡ map subsystem_of due) }
    {
        let due = self.wheel.due(alloc)?;
        subsystems_of(alloc, due.as_slice())
    }

    /// A tick goes by, after which those that it sent begin again.
    pub fn tick(&mut self, ticks: &Ticks)
        ensures { self.new.tests ≡ map (test_after_tick ticks.now) self.old.tests }
    {
        self.wheel.advance_again(ticks.status_max);
    }
}
