//! The routing data, and its changes.
ghost use Rattle.std.specs.Prelude.{◌≡◌, ◌&&◌, ◌+◌, ◌^◌, ◌<◌, ◌++◌, ◌∷◌, [], List, length, IsTrue, IsOk, None, IfOk, OnOk, OnErr};
ghost use Rattle.plant_core.specs.Changes.{alters_if};
ghost use Rattle.plant_core.specs.Inner.Subjects.{stands};
ghost use Rattle.gtt_table.specs.Adding.{add_refusal, Refuses, HasMemory};
ghost use Rattle.gtt_table.specs.Translation.{seen_look, translation_of};
ghost use Rattle.sccp_address.specs.Form.{seen};

use crate::answer::{Answer, Ask, Origin, Rewrite, RouteCause};
use crate::change::{Change, Group, Verdict};
use crate::marks::Members;
use crate::statuses::{BarredSubsystems, POINTS, SUBSYSTEMS};
use crate::subject::{Subject, puts};
use gtt_table::{AddFault, Entity, Look, Row, Table};
use relay_base::{Digits, Memory, Pc, Ssn};
use sccp_address::Selector;
use std::alloc::Global;
use std::marker::Model;

/// The routing data of a node: its point and users, the rows of the translation, and which points, subsystems of other points
/// and users are out of service; with the number of the edition.
pub struct Plant {
    own: Pc,
    users: Vec<Ssn>,
    rows: Table,
    barred_points: Members,
    barred_subsystems: BarredSubsystems,
    out_of_service: Members,
    edition: u64,
}

impl Drop for Plant {
    fn drop(self) {
        let Self {
            own: _,
            users: _users,
            rows: _rows,
            barred_points: _barred_points,
            barred_subsystems: _barred_subsystems,
            out_of_service: _out_of_service,
            edition: _,
        } = self;
    }
}

impl Model for Plant {
    ghost use Rattle.std.specs.Prelude.{◌≡◌, ◌&&◌};
    ghost use Rattle.relay_base.specs.declared.limits.TheConstants.{POINT_CODES, SUBSYSTEM_NUMBERS};
    ghost use Rattle.plant_core.specs.Plant.{PlantState};

    ghost Value = { PlantState };

    ghost view = { λ p. record {
      routing = record {
        own = p.own;
        users = p.users.items;
        rows = p.rows.rows;
        barred_points = p.barred_points.members;
        barred_subsystems = p.barred_subsystems.members;
        out_of_service = p.out_of_service.members;
      };
      edition = p.edition;
      row_room = p.rows.room;
      subsystem_room = p.barred_subsystems.room;
      has_room = p.barred_points.has_room && p.out_of_service.has_room;
    } };

    ghost invariant = { λ p.
        (p.barred_points.size ≡ POINT_CODES) × (p.out_of_service.size ≡ SUBSYSTEM_NUMBERS) };
}

impl Plant {
    ghost use Rattle.plant_core.specs.Plant.{start_of, is_among, is_barred_subsystem, is_in_service};
    ghost use Rattle.plant_core.specs.Changes.{verdict_on, changed, changed_all, first_verdict, group_verdict, plant_after, HasRoomFor};
    ghost use Rattle.plant_core.specs.Routing.{local_answer, is_barred_at, remote_answer, availability_of, route_of};
    ghost use Rattle.plant_core.specs.declared.change.Change.{Change};
    ghost use Rattle.plant_core.specs.declared.change.Change.TheVariants as change;
    ghost use Rattle.plant_core.specs.declared.change.Verdict.TheVariants as verdict;

    /// The routing data at edition 0: no rows, all users in service, and nothing barred.
    pub fn start(alloc: Global, point: Pc, users: &[Ssn]) -> Result<Plant, Memory>
        ensures routing { IfOk result (λ p. p.routing ≡ start_of point users.now) }
        ensures edition { IfOk result (λ p. p.edition ≡ 0) }
    {
        Ok(Plant {
            own: point,
            users: Vec::from_slice(alloc, users)?,
            rows: Table::new(alloc),
            barred_points: Members::new(alloc, POINTS),
            barred_subsystems: BarredSubsystems::new(alloc),
            out_of_service: Members::new(alloc, SUBSYSTEMS),
            edition: 0,
        })
    }

    /// Adds a row before any change, and leaves the edition. `Duplicate`: a row with its selector and prefix is there;
    /// else `RowsFull`: 4,096 rows are there. The routing data is as before after each refusal.
    pub fn add(&mut self, row: Row) -> Result<(), AddFault>
        requires { self.old.edition ≡ 0 }
        ensures ok { let rows = self.old.routing.rows ++ row ∷ []
            in OnOk result (self.new.routing ≡ record self.old.routing { rows = rows }) }
        ensures err { OnErr result (self.new.routing ≡ self.old.routing) }
        ensures refusal { Refuses result (add_refusal self.old.routing.rows row) }
        ensures edition { self.new.edition ≡ 0 }
    {
        self.rows.add(row)
    }

    /// The own point code.
    pub fn own(&self) -> Pc
        ensures { result ≡ self.now.routing.own }
    {
        self.own
    }

    /// The number of the edition.
    pub fn edition(&self) -> u64
        ensures { result ≡ self.now.edition }
    {
        self.edition
    }

    /// This plant, with these users and rows.
    fn copy_with(&self, users: Vec<Ssn>, rows: Table) -> Result<Plant, Memory>
        ensures routing { let routing = record self.now.routing { users = users.items; rows = rows.rows }
            in IfOk result (λ p. p.routing ≡ routing) }
        ensures edition { IfOk result (λ p. p.edition ≡ self.now.edition) }
    {
        let barred_points = self.barred_points.copy()?;
        Ok(Plant {
            own: self.own,
            users,
            rows,
            barred_points,
            barred_subsystems: self.barred_subsystems.copy()?,
            out_of_service: self.out_of_service.copy()?,
            edition: self.edition,
        })
    }

    /// An equal plant.
    pub fn copy(&self) -> Result<Plant, Memory>
        ensures routing { IfOk result (λ p. p.routing ≡ self.now.routing) }
        ensures edition { IfOk result (λ p. p.edition ≡ self.now.edition) }
    {
        let users = self.users.clone()?;
        self.copy_with(users, self.rows.copy()?)
    }

    /// The row that translates these digits (Q.714, 2.4).
    pub fn look(&self, selector: &Selector, digits: &Digits) -> Look<'_>
        ensures { seen_look result ≡ translation_of self.now.routing.rows selector.now digits.now }
    {
        self.rows.look(selector, digits)
    }

    fn is_user(&self, ssn: Ssn) -> bool
        ensures { result ≡ is_among ssn self.now.routing.users }
    {
        self.users.contains(&ssn)
    }

    fn is_out(&self, ssn: Ssn) -> bool
        ensures { result ≡ is_among ssn self.now.routing.out_of_service }
    {
        self.out_of_service.has(ssn.number() as usize)
    }

    /// Whether a subsystem number is that of a user in service (Q.714, 2.3).
    pub fn is_in_service(&self, ssn: Ssn) -> bool
        ensures { result ≡ is_in_service self.now.routing ssn }
    {
        self.is_user(ssn) && !self.is_out(ssn)
    }

    fn is_barred_point(&self, point: Pc) -> bool
        ensures { result ≡ is_among point self.now.routing.barred_points }
    {
        self.barred_points.has(point.number() as usize)
    }

    fn is_barred_subsystem(&self, point: Pc, ssn: Ssn) -> bool
        ensures { result ≡ is_barred_subsystem self.now.routing point ssn }
    {
        self.barred_subsystems.has(point, ssn)
    }

    fn is_barred_at(&self, point: Pc, ssn: Option<Ssn>) -> bool
        ensures { result ≡ is_barred_at self.now.routing point ssn }
    {
        match ssn {
            Some(ssn) => self.is_barred_subsystem(point, ssn),
            None => false,
        }
    }

    /// Whether a subject stands in its list.
    fn stands_now(&self, subject: Subject) -> bool
        ensures { result ≡ stands self.now.routing subject }
    {
        match subject {
            Subject::Row(selector, prefix) => self.rows.has_row(&selector, &prefix),
            Subject::Point(point) => self.is_barred_point(point),
            Subject::Subsystem(point, ssn) => self.is_barred_subsystem(point, ssn),
            Subject::User(ssn) => self.is_out(ssn),
        }
    }

    /// Whether a subject would stand in its list after these changes.
    fn stands_after(&self, changes: &[Change], subject: Subject) -> bool
        ensures { result ≡ stands (changed_all self.now.routing changes.now) subject }
    {
        let mut there = self.stands_now(subject);
        for change in changes {
            if subject.is_of(change) {
                there = puts(change);
            }
        }
        there
    }

    /// How many rows there would be after these changes.
    fn rows_after(&self, changes: &[Change]) -> usize
        requires { first_verdict self.now.routing changes.now ≡ verdict.Alters }
        ensures { result ≡ length (changed_all self.now.routing changes.now).rows }
    {
        let mut count = self.rows.len();
        for change in changes {
            match change {
                Change::AddRow(_) => count += 1,
                Change::DelRow(..) => count -= 1,
                _ => {}
            }
        }
        count
    }

    /// What it would do that a user's service begins or ends.
    fn service_verdict(&self, ssn: Ssn, alters: bool) -> Verdict
        ensures { result ≡ alters_if (is_among ssn self.now.routing.users && alters) }
    {
        alters_if(self.is_user(ssn) && alters)
    }

    /// What a change would do after others that each alter the routing data.
    #[tactic(auto, unfolding(crate::specs::Changes::verdict_on, gtt_table::specs::Adding::add_refusal))]
    fn verdict_after(&self, changes: &[Change], change: &Change) -> Verdict
        requires { first_verdict self.now.routing changes.now ≡ verdict.Alters }
        ensures { let routing = changed_all self.now.routing changes.now
            in result ≡ verdict_on routing change.now }
    {
        let there = self.stands_after(changes, Subject::of(change));
        match change {
            Change::AddRow(_) if there => Verdict::Duplicate,
            Change::AddRow(_) if self.rows_after(changes) >= Table::MOST => Verdict::RowsFull,
            Change::AddRow(_) => Verdict::Alters,
            Change::DelRow(..) if !there => Verdict::NoRow,
            Change::DelRow(..) => Verdict::Alters,
            Change::BarPoint(_) | Change::BarSub(..) => alters_if(!there),
            Change::FreePoint(_) | Change::FreeSub(..) => alters_if(there),
            Change::LocalUp(ssn) => self.service_verdict(*ssn, there),
            Change::LocalDown(ssn) => self.service_verdict(*ssn, !there),
        }
    }

    /// What this group would do: the verdict on its first change that doesn't alter the routing data that those before it left,
    /// or else that it alters them. An empty one does nothing.
    #[tactic(auto, unfolding(crate::specs::Changes::group_verdict))]
    pub fn verdict(&self, group: &Group) -> Verdict
        ensures { result ≡ group_verdict self.now.routing group.now }
    {
        let changes = group.changes.as_slice();
        if changes.is_empty() {
            return Verdict::Same;
        }
        for (at, change) in changes.iter().enumerate() {
            match self.verdict_after(&changes[..at], change) {
                Verdict::Alters => {}
                refused => return refused,
            }
        }
        Verdict::Alters
    }

    /// Takes memory for one group: the next that is absorbed isn't refused.
    pub fn make_room(&mut self, group: &Group) -> Result<(), Memory>
        ensures routing { self.new.routing ≡ self.old.routing }
        ensures edition { self.new.edition ≡ self.old.edition }
        ensures room { OnOk result (HasRoomFor group.now.changes self.new) }
        ensures memory { HasRoomFor group.now.changes self.old → IsOk result }
    {
        self.rows.make_room(group.rows_added())?;
        self.barred_subsystems.make_room(group.subsystems_barred())?;
        self.barred_points.make_room()?;
        self.out_of_service.make_room()
    }

    #[tactic(auto, unfolding(crate::specs::Changes::changed))]
    fn add_row(&mut self, row: &Row) -> Result<(), Memory>
        requires { add_refusal self.old.routing.rows row.now ≡ None }
        ensures ok { let routing = changed self.old.routing (change.AddRow row.now)
            in OnOk result (self.new.routing ≡ routing) }
        ensures err { OnErr result (self.new.routing ≡ self.old.routing) }
        ensures edition { self.new.edition ≡ self.old.edition }
        ensures room { OnOk result ((more : List Change)
            → HasRoomFor (change.AddRow row.now ∷ more) self.old → HasRoomFor more self.new) }
        ensures memory { HasRoomFor (change.AddRow row.now ∷ []) self.old → IsOk result }
    {
        match self.rows.add(*row) {
            Ok(()) => Ok(()),
            Err(_) => Err(Memory),
        }
    }

    #[tactic(auto, unfolding(crate::specs::Changes::changed))]
    fn bar_point(&mut self, point: Pc) -> Result<(), Memory>
        ensures ok { let routing = changed self.old.routing (change.BarPoint point)
            in OnOk result (self.new.routing ≡ routing) }
        ensures err { OnErr result (self.new.routing ≡ self.old.routing) }
        ensures edition { self.new.edition ≡ self.old.edition }
        ensures room { OnOk result ((more : List Change)
            → HasRoomFor (change.BarPoint point ∷ more) self.old → HasRoomFor more self.new) }
        ensures memory { HasRoomFor (change.BarPoint point ∷ []) self.old → IsOk result }
    {
        self.barred_points.put(point.number() as usize)
    }

    #[tactic(auto, unfolding(crate::specs::Changes::changed))]
    fn bar_subsystem(&mut self, point: Pc, ssn: Ssn) -> Result<(), Memory>
        ensures ok { let routing = changed self.old.routing (change.BarSub point ssn)
            in OnOk result (self.new.routing ≡ routing) }
        ensures err { OnErr result (self.new.routing ≡ self.old.routing) }
        ensures edition { self.new.edition ≡ self.old.edition }
        ensures room { OnOk result ((more : List Change)
            → HasRoomFor (change.BarSub point ssn ∷ more) self.old → HasRoomFor more self.new) }
        ensures memory { HasRoomFor (change.BarSub point ssn ∷ []) self.old → IsOk result }
    {
        self.barred_subsystems.put(point, ssn)
    }

    /// Makes a single change that alters the routing data.
    #[tactic(auto, unfolding(crate::specs::Changes::changed, crate::specs::Changes::verdict_on, gtt_table::specs::Adding::add_refusal))]
    fn apply(&mut self, change: &Change) -> Result<(), Memory>
        requires { verdict_on self.old.routing change.now ≡ verdict.Alters }
        ensures ok { OnOk result (self.new.routing ≡ changed self.old.routing change.now) }
        ensures edition { self.new.edition ≡ self.old.edition }
        ensures room { OnOk result ((more : List Change)
            → HasRoomFor (change.now ∷ more) self.old → HasRoomFor more self.new) }
        ensures memory { HasRoomFor (change.now ∷ []) self.old → IsOk result }
    {
        match change {
            Change::AddRow(row) => return self.add_row(row),
            Change::DelRow(selector, prefix) => {
                let _ = self.rows.remove(selector, prefix);
            }
            Change::BarPoint(point) => return self.bar_point(*point),
            Change::FreePoint(point) => self.barred_points.take(point.number() as usize),
            Change::BarSub(point, ssn) => return self.bar_subsystem(*point, *ssn),
            Change::FreeSub(point, ssn) => self.barred_subsystems.take(*point, *ssn),
            Change::LocalUp(ssn) => self.out_of_service.take(ssn.number() as usize),
            Change::LocalDown(ssn) => return self.out_of_service.put(ssn.number() as usize),
        }
        Ok(())
    }

    /// Makes changes that each alter the routing data, and for which room was made.
    fn apply_all(&mut self, changes: &[Change])
        requires alters { first_verdict self.old.routing changes.now ≡ verdict.Alters }
        requires room { HasRoomFor changes.now self.old }
        ensures routing { self.new.routing ≡ changed_all self.old.routing changes.now }
        ensures edition { self.new.edition ≡ self.old.edition }
    {
        for change in changes {
            let Ok(()) = self.apply(change) else {
                unreachable!()
            };
        }
    }

    /// Raises the edition by one, and makes all changes of a group that alters the routing data. After want of memory all is as before.
    #[tactic(auto, unfolding(crate::specs::Changes::plant_after))]
    pub fn absorb(&mut self, group: &Group) -> Result<(), Memory>
        requires { self.old.edition + 1 < 2 ^ 64 }
        ensures routing { OnOk result (self.new.routing ≡ plant_after self.old.routing group.now) }
        ensures edition { OnOk result (self.new.edition ≡ self.old.edition + 1) }
        ensures err { let routing = self.new.routing ≡ self.old.routing
            in OnErr result (routing × (self.new.edition ≡ self.old.edition)) }
        ensures memory { HasRoomFor group.now.changes self.old → IsOk result }
    {
        if let Verdict::Alters = self.verdict(group) {
            self.make_room(group)?;
            self.apply_all(group.changes.as_slice());
        }
        self.edition += 1;
        Ok(())
    }

    /// Whether this entity is available, and else why not (Q.714, 2.4 and 2.6).
    #[tactic(auto, unfolding(crate::specs::Routing::availability_of))]
    pub fn stands(&self, entity: &Entity) -> Result<(), RouteCause>
        ensures { result ≡ availability_of self.now.routing entity.now }
    {
        if entity.point == self.own {
            return match entity.ssn {
                Some(ssn) if !self.is_user(ssn) => Err(RouteCause::Unequipped),
                Some(ssn) if self.is_out(ssn) => Err(RouteCause::SubsystemBarred),
                Some(_) => Ok(()),
                None => Err(RouteCause::Unequipped),
            };
        }
        if self.is_barred_point(entity.point) {
            Err(RouteCause::PointBarred)
        } else if entity.on_ssn && self.is_barred_at(entity.point, entity.ssn) {
            Err(RouteCause::SubsystemBarred)
        } else {
            Ok(())
        }
    }

    #[tactic(auto, unfolding(crate::specs::Routing::local_answer))]
    fn local(&self, ssn: Ssn) -> Answer
        ensures { result ≡ local_answer self.now.routing ssn }
    {
        if !self.is_user(ssn) {
            Answer::Refused {
                cause: RouteCause::Unequipped,
                local: None,
            }
        } else if self.is_out(ssn) {
            Answer::Refused {
                cause: RouteCause::SubsystemBarred,
                local: Some(ssn),
            }
        } else {
            Answer::Local(ssn)
        }
    }

    fn remote(&self, point: Pc, ssn: Option<Ssn>, hop: Option<u8>) -> Answer
        ensures { result ≡ remote_answer self.now.routing point ssn hop }
    {
        if self.is_barred_point(point) {
            return Answer::Refused {
                cause: RouteCause::PointBarred,
                local: None,
            };
        }
        if self.is_barred_at(point, ssn) {
            return Answer::Refused {
                cause: RouteCause::SubsystemBarred,
                local: None,
            };
        }
        Answer::Forward {
            dpc: point,
            rewrite: Rewrite::Keep,
            hop,
        }
    }

    /// The answer for an address that routes on its subsystem number (Q.714, 2.3).
    #[tactic(auto, unfolding(crate::specs::Routing::route_of, crate::specs::Routing::ssn_answer))]
    pub fn answer(&self, ask: &Ask<'_>) -> Answer
        requires { IsTrue ask.now.called.on_ssn }
        ensures { let called = seen ask.now.called
            in result ≡ route_of self.now.routing called ask.now.hop ask.now.origin }
    {
        match (ask.origin, ask.called.point) {
            (Origin::User, Some(point)) if point != self.own => {
                self.remote(point, ask.called.ssn, ask.hop)
            }
            _ => self.local(ask.called.ssn.unwrap_or(Ssn::from(0))),
        }
    }
}

fn alters_if(alters: bool) -> Verdict
    ensures { result ≡ alters_if alters }
{
    if alters {
        Verdict::Alters
    } else {
        Verdict::Same
    }
}
