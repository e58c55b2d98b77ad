//! The value of which there are two copies.
ghost use Rattle.std.specs.Prelude.{◌≡◌, ◌++◌, List, length, true, IsTrue, IfOk};
ghost use Rattle.plant_core.specs.declared.change.Group.{Group};
ghost use Rattle.gtt_editions.specs.Published.{Begins};
ghost use Rattle.gtt_editions.specs.Marked.{list_of, shown_by};

use crate::step::Step;
use crate::view::Common;
use left_right::Absorb;
use plant_core::{Group, Plant};
use std::alloc::AllocError;

/// The routing data, with the groups of changes since the opening.
#[derive(Drop)]
pub struct Store {
    pub plant: Plant,
    pub changes: Vec<Group>,
    pub opened: bool,
    pub ended: bool,
}

impl Absorb<Step> for Store {
    ghost use Rattle.gtt_editions.specs.Marked.{shown_by, marked};

    type State = Common;

    ghost state = { shown_by };

    ghost applied = { marked };

    fn absorb_first(&mut self, operation: &Step, _other: &Store) -> Result<(), AllocError> {
        match operation {
            Step::Open => {
                self.opened = true;
                Ok(())
            }
            Step::Room(group) => self.make_room(group),
            Step::Change(group) => self.absorb_group(group),
            Step::End => {
                self.ended = true;
                Ok(())
            }
        }
    }

    fn absorb_second(&mut self, operation: Step, other: &Store) -> Result<(), Step> {
        match operation {
            Step::Change(group) => self.take_group(group),
            step => match self.absorb_first(&step, other) {
                Ok(()) => Ok(()),
                Err(_) => Err(step),
            },
        }
    }
}

/// An equal group.
pub fn copied(group: &Group) -> Result<Group, AllocError>
    ensures { IfOk result (λ copy. copy ≡ group.now) }
{
    group.clone()
}

impl Store {
    ghost use Rattle.gtt_editions.specs.Editions.{edition_of, edition_after};
    ghost use Rattle.std.specs.Prelude.{[], ◌∷◌, MatchResult};
    ghost use Rattle.gtt_editions.specs.Marked.{marked};
    ghost use Rattle.gtt_editions.specs.declared.step.Step.TheVariants as step;

    /// Takes memory for a group, which changes nothing that is shown.
    fn make_room(&mut self, group: &Group) -> Result<(), AllocError>
        ensures { shown_by self.new ≡ shown_by self.old }
    {
        self.changes.reserve(1)?;
        match self.plant.make_room(group) {
            Ok(()) => Ok(()),
            Err(_) => Err(AllocError),
        }
    }

    /// Makes the changes of a group and keeps it, without memory where room was made for it. A group that is refused comes back.
    fn take_group(&mut self, group: Group) -> Result<(), Step>
        ensures { MatchResult result
            (λ _. shown_by self.new ≡ marked (shown_by self.old) (step.Change group))
            (λ back. (back ≡ step.Change group) × (shown_by self.new ≡ shown_by self.old)) }
    {
        if self.plant.edition() == u64::MAX || self.changes.reserve(1).is_err() {
            return Err(Step::Change(group));
        }
        if self.plant.absorb(&group).is_err() {
            return Err(Step::Change(group));
        }
        self.changes.push_reserved(group);
        Ok(())
    }

    /// The same by a copy of the group.
    fn absorb_group(&mut self, group: &Group) -> Result<(), AllocError>
        ensures { MatchResult result
            (λ _. shown_by self.new ≡ marked (shown_by self.old) (step.Change group.now))
            (λ _. shown_by self.new ≡ shown_by self.old) }
    {
        match self.take_group(copied(group)?) {
            Ok(()) => Ok(()),
            Err(_) => Err(AllocError),
        }
    }

    fn has_beginning(&self, short: &Store) -> bool
        ensures { IsTrue result →
            (rest : List Group) × (self.now.changes.items ≡ short.now.changes.items ++ rest) }
    {
        self.changes
            .as_slice()
            .starts_with(short.changes.as_slice())
    }

    fn is_closed_over(&self, short: &Store) -> bool
        ensures { let long = self.now.changes.items in let part = short.now.changes.items in
            IsTrue result → short.now.ended ≡ true →
            (self.now.ended ≡ true) × (length long ≡ length part) }
    {
        !short.ended || (self.ended && self.changes.len() == short.changes.len())
    }

    /// Whether what is published here begins with what is published there, and is the same where its end is marked.
    pub fn begins_with(&self, short: &Store) -> bool
        ensures { let long = shown_by self.now in let part = shown_by short.now in
            IsTrue result → Begins (list_of long) (list_of part) }
    {
        self.has_beginning(short) && self.is_closed_over(short)
    }
}
