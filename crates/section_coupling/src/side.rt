//! An end of a connection.
ghost use Rattle.std.specs.Prelude.{◌≡◌, ◌≤◌, IfOk, ℕ};
ghost use Rattle.section_model.specs.Acting.{end_takes, section_takes, section_takes_by, user_takes_by};
ghost use Rattle.section_model.specs.Views.{section_of};
ghost use Rattle.section_model.specs.Ends.{wire as section, owner};
ghost use Rattle.section_model.specs.UserEnd.{user_takes};
ghost use Rattle.section_model.specs.Lane.{reference_of};
ghost use Rattle.section_model.specs.Step.{end_is_gone, is_named};
ghost use Rattle.section_coupling.specs.Views.{end_at, end_by, section_by, user_at, IsAct, IsEndAct};
ghost use Rattle.section_coupling.specs.Sound.{SoundSide, SoundWire, SoundOwner, IsGranted, SoundActed, HasComeAt};
ghost use Rattle.section_model.specs.Lengths.{HandWithin};
ghost use Rattle.section_coupling.specs.declared.side.Side.TheVariants as side;

use crate::boxed::Boxed;
use crate::clock::Clock;
use crate::owner::Owner;
use crate::wire::Wire;
use relay_base::{Memory, Ref24};
use section_grid::{
    Acted, Cell, Hand, Input, Occasion, SectionState, UserOccasion, UserState, section_cell,
    user_cell,
};
use std::alloc::Global;

/// An end of a connection: a section of the network, or a user of this node.
pub enum Side {
    Wire(Boxed<Wire>),
    User(Boxed<Owner>),
}

impl Drop for Side {
    fn drop(self) {
        match self {
            Side::Wire(_wire) => {}
            Side::User(_user) => {}
        }
    }
}

/// What an effect of the other end is to a section.
fn section_takes_by(state: SectionState, hand: &Hand) -> Cell
    ensures { result ≡ section_takes_by state hand.now }
{
    match hand {
        Hand::Accept { .. } => section_cell(state, Occasion::AcceptComes),
        Hand::Refuse { .. } => section_cell(state, Occasion::RefuseComes),
        Hand::End { .. } => section_cell(state, Occasion::EndComes),
        Hand::Unit { .. } => section_cell(state, Occasion::UnitComes),
        Hand::Expedited { .. } => section_cell(state, Occasion::ExpeditedComes),
        Hand::Reset { .. } => section_cell(state, Occasion::ResetComes),
        Hand::Done => section_cell(state, Occasion::DoneComes),
        Hand::Left { .. } => Cell::Left,
    }
}

/// What an effect of the section is to a user's end.
fn user_takes_by(state: UserState, hand: &Hand) -> Cell
    ensures { result ≡ user_takes_by state hand.now }
{
    match hand {
        Hand::Accept { .. } => user_cell(state, UserOccasion::AcceptTold),
        Hand::Refuse { .. } => user_cell(state, UserOccasion::RefuseTold),
        Hand::End { .. } => user_cell(state, UserOccasion::EndTold),
        Hand::Unit { .. } => user_cell(state, UserOccasion::UnitTold),
        Hand::Expedited { .. } => user_cell(state, UserOccasion::ExpeditedTold),
        Hand::Reset { .. } => user_cell(state, UserOccasion::ResetTold),
        Hand::Done => user_cell(state, UserOccasion::DoneTold),
        Hand::Left { .. } => Cell::Left,
    }
}

/// A section takes an effect of the other end.
#[tactic(auto, unfolding(section_model::specs::Acting::section_takes))]
fn wire_takes(alloc: Global, clock: &Clock, wire: &mut Wire, hand: &Hand) -> Result<Acted, Memory>
    requires section { SoundWire wire.old }
    requires granted { IsGranted hand.now }
    requires within { HandWithin hand.now }
    requires left { HasComeAt hand.now (section (section_by clock.now wire.old)) }
    ensures takes { let cell = section_takes_by (section_of wire.old.head).state hand.now in
        let x = section_by clock.now wire.old in
        IfOk result (IsAct clock.now (section_takes clock.now.ticks cell hand.now x) wire.new) }
    ensures sound { IfOk result (λ acted. SoundWire wire.new × SoundActed acted) }
{
    let cell = section_takes_by(wire.head.state(), hand);
    wire.act(alloc, clock, cell, &Input::Hand(hand))
}

/// A user's end takes an effect of the section.
fn user_takes(alloc: Global, user: &mut Owner, hand: &Hand) -> Result<Acted, Memory>
    requires user { SoundOwner user.old }
    requires granted { IsGranted hand.now }
    ensures takes { let cell = user_takes_by user.old.side.state hand.now in
        IfOk result (λ acted.
        user_takes cell hand.now (user_at user.old) ≡ (user_at user.new, acted)) }
    ensures sound { IfOk result (λ acted. SoundOwner user.new × SoundActed acted) }
{
    let cell = user_takes_by(user.side.state, hand);
    user.take(alloc, cell, hand)
}

impl Side {
    /// A section.
    pub fn of_wire(alloc: Global, wire: Wire) -> Result<Side, Memory>
        ensures { IfOk result (λ s. s ≡ side.Wire wire) }
    {
        Ok(Side::Wire(Boxed::new(alloc, wire)?))
    }

    /// A user's end.
    pub fn of_user(alloc: Global, user: Owner) -> Result<Side, Memory>
        ensures { IfOk result (λ s. s ≡ side.User user) }
    {
        Ok(Side::User(Boxed::new(alloc, user)?))
    }

    /// Takes an effect of the other end.
    pub fn take(&mut self, alloc: Global, clock: &Clock, hand: &Hand) -> Result<Acted, Memory>
        requires end { SoundSide self.old }
        requires granted { IsGranted hand.now }
        requires within { HandWithin hand.now }
        requires left { HasComeAt hand.now (end_by clock.now self.old) }
        ensures takes { let e = end_by clock.now self.old in
            IfOk result (IsEndAct clock.now (end_takes clock.now.ticks hand.now e) self.new) }
        ensures sound { IfOk result (λ acted. SoundSide self.new × SoundActed acted) }
    {
        match self {
            Side::Wire(wire) => wire_takes(alloc, clock, wire.get_mut(), hand),
            Side::User(user) => user_takes(alloc, user.get_mut(), hand),
        }
    }

    /// An equal end.
    pub fn copy(&self, alloc: Global) -> Result<Side, Memory>
        ensures { IfOk result (λ copy. copy ≡ self.now) }
    {
        match self {
            Side::Wire(wire) => Side::of_wire(alloc, wire.get().copy()?),
            Side::User(user) => Side::of_user(alloc, user.get().copy()?),
        }
    }

    /// Whether a reference is that of a section that isn't gone.
    pub fn is_named(&self, reference: Ref24) -> bool
        ensures { (now : ℕ) → result ≡ is_named reference (end_at now self.now) }
    {
        match self {
            Side::Wire(wire) => {
                let head = &wire.get().head;
                head.mine == reference && head.state() != SectionState::Gone
            }
            Side::User(_) => false,
        }
    }

    /// The local reference of a section; None for a user's end.
    pub fn reference(&self) -> Option<Ref24>
        ensures { (now : ℕ) → result ≡ reference_of (end_at now self.now) }
    {
        match self {
            Side::Wire(wire) => Some(wire.get().head.mine),
            Side::User(_) => None,
        }
    }

    /// Whether the end is gone.
    pub fn is_gone(&self) -> bool
        ensures { (now : ℕ) → result ≡ end_is_gone (end_at now self.now) }
    {
        match self {
            Side::Wire(wire) => wire.get().head.state() == SectionState::Gone,
            Side::User(user) => user.get().side.state == UserState::Gone,
        }
    }
}
