//! What the control lane keeps, and what an act does with it (Q.714, 5.2 and 5.3).
ghost use Rattle.std.specs.Prelude.{◌≡◌, ◌+◌, ◌^◌, ◌<◌, ◌≤◌, filter, map, vec_len, Some, IsTrue, IsOk, IfOk, OnOk};
ghost use Rattle.std.specs.Vec.{vec_capacity};
ghost use Rattle.scmg.specs.Control.{is_due_test, subsystem_of, tests_after, without_grant, with_grant};
ghost use Rattle.scmg.specs.Inner.Kept.{in_order, HasPlantRoom, HasRoomToDo};

use crate::effect::Act;
use crate::groups::only_among;
use crate::known::in_order;
use crate::status_tests::StatusTests;
use crate::timed::{Coordination, drop_coordination, put_coordination, tick_coordinations};
use plant_core::{Change, Group, Plant, RemoteSubsystem, Replicate, Ticks};
use relay_base::{Memory, Pc, Ssn};
use std::alloc::Global;
use std::marker::Model;

/// The routing data with their users in order, the status tests, the coordinated changes under way, and the requests that a user may grant.
pub struct Kept {
    plant: Plant,
    /// The users by rising number.
    users: Vec<Ssn>,
    tests: StatusTests,
    coordinations: Vec<Coordination>,
    grants: Vec<RemoteSubsystem>,
}

impl Drop for Kept {
    fn drop(self) {
        let Self {
            plant: _plant,
            users: _users,
            tests: _tests,
            coordinations: _coordinations,
            grants: _grants,
        } = self;
    }
}

impl Model for Kept {
    ghost use Rattle.std.specs.Prelude.{◌≡◌, ◌&&◌, nat_lt, vec_len};
    ghost use Rattle.std.specs.Vec.{vec_capacity};
    ghost use Rattle.scmg.specs.Inner.Kept.{KeptState, in_order};

    ghost Value = { KeptState };

    ghost view = { λ k. record {
      control = record {
        routing = k.plant.routing;
        tests = k.tests.tests;
        coordinations = k.coordinations.items;
        grants = k.grants.items;
      };
      plant = k.plant;
      has_room = k.tests.has_room
          && nat_lt (vec_len k.coordinations) (vec_capacity k.coordinations)
          && nat_lt (vec_len k.grants) (vec_capacity k.grants);
    } };

    ghost invariant = { λ k. k.users.items ≡ in_order k.plant.routing.users };
}

/// Takes memory for what an act does with the routing data.
fn make_plant_room(plant: &mut Plant, act: &Act) -> Result<(), Memory>
    ensures routing { plant.new.routing ≡ plant.old.routing }
    ensures edition { plant.new.edition ≡ plant.old.edition }
    ensures room { OnOk result (HasPlantRoom act.now plant.new) }
{
    match act {
        Act::Publish(group) => plant.make_room(group),
        _ => Ok(()),
    }
}

/// Takes a request away that a user could grant.
fn drop_grant(grants: &mut Vec<RemoteSubsystem>, grant: &RemoteSubsystem)
    ensures items { grants.new.items ≡ without_grant grant.now grants.old.items }
    ensures len { vec_len grants.new ≤ vec_len grants.old }
    ensures capacity { vec_capacity grants.new ≡ vec_capacity grants.old }
{
    grants.retain(|other| !(other.point == grant.point && other.ssn == grant.ssn));
}

/// Puts a request that a user may grant at the end, once.
fn put_grant(grants: &mut Vec<RemoteSubsystem>, grant: &RemoteSubsystem)
    requires room { vec_len grants.old < vec_capacity grants.old }
    ensures items { grants.new.items ≡ with_grant grant.now grants.old.items }
{
    drop_grant(grants, grant);
    grants.push_reserved(*grant);
}

/// Begins a test where a subsystem of another point is barred, and ends it where it is freed.
fn change_tests(tests: &mut StatusTests, ticks: &Ticks, change: Change)
    requires { IsTrue tests.old.has_room }
    ensures { tests.new.tests ≡ tests_after ticks.now (Some change) tests.old.tests }
{
    match change {
        Change::BarSub(point, ssn) => tests.begin(point, ssn, ticks.status),
        Change::FreeSub(point, ssn) => tests.end(point, ssn),
        _ => {}
    }
}

impl Kept {
    ghost use Rattle.scmg.specs.Control.{start_of_control, control_after, change_of, count_after, may_grant, is_under_way, is_asked_of};
    ghost use Rattle.scmg.specs.declared.effect.Act.TheVariants.{Publish, Begin};
    ghost use Rattle.plant_core.specs.Changes.{HasRoomFor};

    /// What is kept at the start, with these routing data and their users.
    pub fn start(alloc: Global, users: &[Ssn], plant: Plant) -> Result<Kept, Memory>
        requires users { plant.routing.users ≡ users.now }
        ensures control { IfOk result (λ kept. kept.control ≡ start_of_control plant.routing) }
        ensures edition { IfOk result (λ kept. kept.plant.edition ≡ plant.edition) }
    {
        Ok(Kept {
            plant,
            users: in_order(alloc, users)?,
            tests: StatusTests::new(alloc),
            coordinations: Vec::new(alloc),
            grants: Vec::new(alloc),
        })
    }

    /// The routing data.
    pub fn plant(&self) -> &Plant
        ensures routing { result.now.routing ≡ self.now.control.routing }
        ensures edition { result.now.edition ≡ self.now.plant.edition }
    {
        &self.plant
    }

    /// The users, each once, by rising number.
    pub fn users(&self) -> &[Ssn]
        ensures { result.now ≡ in_order self.now.control.routing.users }
    {
        self.users.as_slice()
    }

    /// The subsystems to which the next tick sends tests, by rising point and subsystem.
    pub fn due_tests(&self, alloc: Global) -> Result<Vec<RemoteSubsystem>, Memory>
        ensures { let due = filter is_due_test self.now.control.tests
            in IfOk result (λ subsystems. subsystems.items ≡ map subsystem_of due) }
    {
        self.tests.due(alloc)
    }

    /// The coordinated changes under way, by rising subsystem.
    pub fn coordinations(&self) -> &[Coordination]
        ensures { result.now ≡ self.now.control.coordinations }
    {
        self.coordinations.as_slice()
    }

    /// Whether a user may grant that this subsystem goes out of service.
    pub fn may_grant(&self, point: Pc, ssn: Ssn) -> bool
        ensures { result ≡ may_grant self.now.control point ssn }
    {
        self.grants
            .iter()
            .any(|grant| grant.point == point && grant.ssn == ssn)
    }

    /// Whether a user's coordinated change is under way.
    pub fn is_under_way(&self, ssn: Ssn) -> bool
        ensures { result ≡ is_under_way self.now.control ssn }
    {
        self.coordinations.iter().any(|one| one.ssn == ssn)
    }

    /// Whether a user's coordinated change was asked of this point.
    pub fn is_asked_of(&self, point: Pc, ssn: Ssn) -> bool
        ensures { result ≡ is_asked_of self.now.control point ssn }
    {
        self.coordinations
            .iter()
            .any(|one| one.ssn == ssn && one.point == point)
    }

    /// Takes memory for an act, which isn't refused then.
    pub fn make_room(&mut self, act: &Act) -> Result<(), Memory>
        ensures control { self.new.control ≡ self.old.control }
        ensures edition { self.new.plant.edition ≡ self.old.plant.edition }
        ensures room { OnOk result (HasRoomToDo act.now self.new) }
    {
        make_plant_room(&mut self.plant, act)?;
        self.tests.make_room()?;
        self.coordinations.reserve(1)?;
        self.grants.reserve(1)?;
        Ok(())
    }

    /// Makes a group of changes of the routing data, for which room was made. Where it is one change alone, a test may begin or end with it.
    #[tactic(auto, unfolding(crate::specs::Control::control_after))]
    fn publish(&mut self, ticks: &Ticks, group: &Group) -> Result<(), Memory>
        requires plant { HasRoomFor group.now.changes self.old.plant }
        requires room { IsTrue self.old.has_room }
        requires few { self.old.plant.edition + 1 < 2 ^ 64 }
        ensures control { let after = control_after ticks.now self.old.control (Publish group.now)
            in OnOk result (self.new.control ≡ after) }
        ensures edition { OnOk result (self.new.plant.edition ≡ self.old.plant.edition + 1) }
        ensures memory { IsOk result }
    {
        self.plant.absorb(group)?;
        if let Some(change) = only_among(group) {
            change_tests(&mut self.tests, ticks, change);
        }
        Ok(())
    }

    #[tactic(auto, unfolding(crate::specs::Control::control_after))]
    fn begin(&mut self, ticks: &Ticks, replicate: Replicate) -> Result<(), Memory>
        requires room { IsTrue self.old.has_room }
        ensures control { let after = control_after ticks.now self.old.control (Begin replicate)
            in OnOk result (self.new.control ≡ after) }
        ensures edition { OnOk result (self.new.plant.edition ≡ self.old.plant.edition) }
        ensures memory { IsOk result }
    {
        put_coordination(
            &mut self.coordinations,
            Coordination {
                ssn: replicate.ssn,
                point: replicate.point,
                left: ticks.coord,
            },
        )
    }

    /// Does an act, for which room was made.
    #[tactic(auto, unfolding(crate::specs::Control::control_after))]
    pub fn act(&mut self, ticks: &Ticks, act: &Act) -> Result<(), Memory>
        requires room { HasRoomToDo act.now self.old }
        requires few { self.old.plant.edition + 1 < 2 ^ 64 }
        ensures control { let after = control_after ticks.now self.old.control act.now
            in OnOk result (self.new.control ≡ after) }
        ensures edition { let count = count_after self.old.plant.edition (change_of act.now)
            in OnOk result (self.new.plant.edition ≡ count) }
        ensures memory { IsOk result }
    {
        match act {
            Act::Nothing => {}
            Act::Publish(group) => return self.publish(ticks, group),
            Act::Remember(grant) => put_grant(&mut self.grants, grant),
            Act::Forget(grant) => drop_grant(&mut self.grants, grant),
            Act::Begin(replicate) => return self.begin(ticks, *replicate),
            Act::End(ssn) => drop_coordination(&mut self.coordinations, *ssn),
            Act::Tick => {
                self.tests.tick(ticks);
                tick_coordinations(&mut self.coordinations);
            }
        }
        Ok(())
    }
}
