//! The subsystems of other points that are barred.
ghost use Rattle.std.specs.List.{list_any};
ghost use Rattle.std.specs.Prelude.{◌≡◌, ◌+◌, ◌<◌, ◌≤◌, [], All, false, filter, get_or, length, not, set, vec_len, IsOk, IfOk, OnOk, OnErr};
ghost use Rattle.std.specs.Vec.{vec_capacity};
ghost use Rattle.relay_base.specs.declared.limits.TheConstants.{POINT_CODES, SUBSYSTEM_NUMBERS};
ghost use Rattle.plant_core.specs.Plant.{is_same_subsystem};
ghost use Rattle.plant_core.specs.Changes.{with_subsystem};
ghost use Rattle.plant_core.specs.Inner.Members.{IsWhole, IsCleared, marked_from, subsystem, subsystems_from};

use crate::marks::Marks;
use relay_base::limits::{POINT_CODES, SUBSYSTEM_NUMBERS};
use relay_base::{Memory, Pc, Ssn};
use std::alloc::Global;
use std::marker::Model;

/// How many points there are.
pub const POINTS: usize = POINT_CODES as usize;

/// How many subsystems a point has.
pub const SUBSYSTEMS: usize = SUBSYSTEM_NUMBERS as usize;

/// A subsystem of another point.
#[derive(Clone, Copy)]
pub struct RemoteSubsystem {
    pub point: Pc,
    pub ssn: Ssn,
}

/// Subsystems of other points.
#[derive(Drop)]
pub struct BarredSubsystems {
    /// The marks of each point's subsystems, by the number of the point. Points of which none was barred have none.
    rows: Vec<Marks>,
    /// The marks of the next points that have none.
    spare: Vec<Marks>,
    alloc: Global,
}

impl Model for BarredSubsystems {
    ghost use Rattle.std.specs.Prelude.{◌≤◌, All, cond, length, nat_le, vec_len};
    ghost use Rattle.std.specs.Vec.{vec_capacity};
    ghost use Rattle.relay_base.specs.declared.limits.TheConstants.{POINT_CODES, SUBSYSTEM_NUMBERS};
    ghost use Rattle.plant_core.specs.Inner.Members.{SubsystemsState, IsWhole, IsCleared, subsystems_from};

    ghost Value = { SubsystemsState };

    ghost view = { λ s. record {
      members = subsystems_from 0 s.rows.items;
      room = cond (nat_le POINT_CODES (vec_capacity s.rows)) (vec_len s.spare) 0;
    } };

    ghost invariant = { λ s. (length s.rows.items ≤ POINT_CODES) × All IsWhole s.rows.items
        × All IsCleared s.spare.items };
}

/// Lets rows reach up to a point.
fn reach(alloc: Global, rows: &mut Vec<Marks>, point: Pc)
    requires room { POINT_CODES ≤ vec_capacity rows.old }
    requires few { vec_len rows.old ≤ POINT_CODES }
    requires whole { All IsWhole rows.old.items }
    ensures members { subsystems_from 0 rows.new.items ≡ subsystems_from 0 rows.old.items }
    ensures whole { All IsWhole rows.new.items }
    ensures reaches { point < vec_len rows.new }
    ensures few { vec_len rows.new ≤ POINT_CODES }
    ensures room { POINT_CODES ≤ vec_capacity rows.new }
{
    for _ in rows.len()..point.number() as usize + 1 {
        rows.push_reserved(Marks::none(alloc));
    }
}

/// Gives a point marks for its subsystems, where it has none.
fn begin(row: &mut Marks, spare: &mut Vec<Marks>)
    requires whole { IsWhole row.old }
    requires cleared { All IsCleared spare.old.items }
    requires room { 0 < vec_len spare.old }
    ensures members { marked_from 0 row.new ≡ marked_from 0 row.old }
    ensures len { length row.new ≡ SUBSYSTEM_NUMBERS }
    ensures cleared { All IsCleared spare.new.items }
    ensures count { vec_len spare.old ≤ vec_len spare.new + 1 }
{
    if row.is_none() {
        let Some(marks) = spare.pop() else {
            unreachable!()
        };
        *row = marks;
    }
}

/// Gives a point that rows reach marks for its subsystems, where it has none.
fn open(rows: &mut Vec<Marks>, spare: &mut Vec<Marks>, point: Pc)
    requires reaches { point < vec_len rows.old }
    requires whole { All IsWhole rows.old.items }
    requires cleared { All IsCleared spare.old.items }
    requires room { 0 < vec_len spare.old }
    ensures members { subsystems_from 0 rows.new.items ≡ subsystems_from 0 rows.old.items }
    ensures whole { All IsWhole rows.new.items }
    ensures row { length (get_or rows.new.items point []) ≡ SUBSYSTEM_NUMBERS }
    ensures len { vec_len rows.new ≡ vec_len rows.old }
    ensures capacity { vec_capacity rows.new ≡ vec_capacity rows.old }
    ensures cleared { All IsCleared spare.new.items }
    ensures count { vec_len spare.old ≤ vec_len spare.new + 1 }
{
    begin(&mut rows[point.number() as usize], spare);
}

/// Takes spare marks, until there are so many.
fn clear(alloc: Global, spare: &mut Vec<Marks>, count: usize) -> Result<(), Memory>
    requires { All IsCleared spare.old.items }
    ensures cleared { All IsCleared spare.new.items }
    ensures count { OnOk result (count ≤ vec_len spare.new) }
    ensures kept { vec_len spare.old ≤ vec_len spare.new }
    ensures memory { count ≤ vec_len spare.old → IsOk result }
{
    for _ in spare.len()..count {
        spare.push(Marks::cleared(alloc, SUBSYSTEMS)?)?;
    }
    Ok(())
}

fn is_marked(rows: &[Marks], point: usize, ssn: usize) -> bool
    ensures { result ≡ get_or (get_or rows.now point []) ssn false }
{
    match rows.get(point) {
        Some(row) => row.has(ssn),
        None => false,
    }
}

fn take_from(rows: &mut Vec<Marks>, point: usize, ssn: usize)
    ensures items { let row = get_or rows.old.items point []
        in rows.new.items ≡ set rows.old.items point (set row ssn false) }
    ensures capacity { vec_capacity rows.new ≡ vec_capacity rows.old }
{
    if point < rows.len() {
        rows[point].take(ssn);
    }
}

fn copy_of(alloc: Global, rows: &[Marks]) -> Result<Vec<Marks>, Memory>
    ensures { IfOk result (λ copy. copy.items ≡ rows.now) }
{
    let mut copy = Vec::with_capacity(alloc, rows.len())?;
    for row in rows {
        copy.push(row.copy()?)?;
    }
    Ok(copy)
}

impl BarredSubsystems {
    /// No subsystems.
    pub fn new(alloc: Global) -> BarredSubsystems
        ensures { result.members ≡ [] }
    {
        BarredSubsystems {
            rows: Vec::new(alloc),
            spare: Vec::new(alloc),
            alloc,
        }
    }

    /// The same subsystems.
    pub fn copy(&self) -> Result<BarredSubsystems, Memory>
        ensures { IfOk result (λ copy. copy.members ≡ self.now.members) }
    {
        Ok(BarredSubsystems {
            rows: copy_of(self.alloc, &self.rows)?,
            spare: Vec::new(self.alloc),
            alloc: self.alloc,
        })
    }

    /// Whether a subsystem is among them.
    pub fn has(&self, point: Pc, ssn: Ssn) -> bool
        ensures { result ≡ list_any (is_same_subsystem point ssn) self.now.members }
    {
        is_marked(&self.rows, point.number() as usize, ssn.number() as usize)
    }

    /// Takes memory: so many that are put in next aren't refused.
    pub fn make_room(&mut self, count: usize) -> Result<(), Memory>
        ensures members { self.new.members ≡ self.old.members }
        ensures room { OnOk result (count ≤ self.new.room) }
        ensures kept { OnOk result (self.old.room ≤ self.new.room) }
        ensures memory { count ≤ self.old.room → IsOk result }
    {
        if count == 0 {
            return Ok(());
        }
        self.rows.reserve(POINTS - self.rows.len())?;
        clear(self.alloc, &mut self.spare, count)
    }

    /// Puts a subsystem in its place, for which room was made.
    fn mark(&mut self, point: Pc, ssn: Ssn)
        requires { 0 < self.old.room }
        ensures members { let members = with_subsystem (subsystem point ssn) self.old.members
            in self.new.members ≡ members }
        ensures room { self.old.room ≤ self.new.room + 1 }
    {
        reach(self.alloc, &mut self.rows, point);
        open(&mut self.rows, &mut self.spare, point);
        self.rows[point.number() as usize].put(ssn.number() as usize);
    }

    /// Puts a subsystem in its place.
    pub fn put(&mut self, point: Pc, ssn: Ssn) -> Result<(), Memory>
        ensures ok { let members = with_subsystem (subsystem point ssn) self.old.members
            in OnOk result (self.new.members ≡ members) }
        ensures err { OnErr result (self.new.members ≡ self.old.members) }
        ensures room { OnOk result (self.old.room ≤ self.new.room + 1) }
        ensures memory { 0 < self.old.room → IsOk result }
    {
        self.make_room(1)?;
        self.mark(point, ssn);
        Ok(())
    }

    /// Takes a subsystem out.
    pub fn take(&mut self, point: Pc, ssn: Ssn)
        ensures members { let others = filter (λ x. not (is_same_subsystem point ssn x)) self.old.members
            in self.new.members ≡ others }
        ensures room { self.new.room ≡ self.old.room }
    {
        take_from(
            &mut self.rows,
            point.number() as usize,
            ssn.number() as usize,
        );
    }
}
