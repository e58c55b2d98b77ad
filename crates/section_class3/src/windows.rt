//! The windows of a connection section.
ghost use Rattle.std.specs.Prelude.{◌≡◌, ◌≤◌, ◌==◌, not, IfOk, OnErr, length, is_some};
ghost use Rattle.section_model.specs.Ends.{cleared};
ghost use Rattle.section_model.specs.Lengths.{ActedWithin, InputWithin, WindowsWithin};
ghost use Rattle.section_model.specs.Windowed.{windowed_fires};
ghost use Rattle.relay_base.specs.declared.limits.TheConstants.{GREATEST_CREDIT};
ghost use Rattle.section_flow.specs.Held.{IsWithinWindows};
ghost use Rattle.section_class3.specs.Windows.{windowed_of, counts_of, InputHasCome, TakesItsData, windows_act};

use crate::sending::test;
use relay_base::{Memory, Octets};
use section_flow::Flow;
use section_model::{Acted, Cell, Input, WireHead, copied};
use std::alloc::Global;
use std::marker::Model;

/// The flow control of a section of class 3, and its expedited data.
pub struct Windows {
    pub(crate) flow: Flow,
    /// Expedited data of the other end that has not left.
    pub(crate) waiting: Option<Octets>,
    /// Expedited data left, and its EA has not come.
    pub(crate) is_unanswered: bool,
    /// Expedited data came, and its EA has not left.
    pub(crate) is_owed: bool,
}

impl Drop for Windows {
    fn drop(self) {
        let Self {
            flow: _flow,
            waiting: _waiting,
            is_unanswered: _,
            is_owed: _,
        } = self;
    }
}

impl Model for Windows {
    ghost use Rattle.section_class3.specs.Windows.{WindowsState, windows_state_of};

    ghost Value = { WindowsState };

    ghost view = { λ w. windows_state_of w.flow w.waiting w.is_unanswered w.is_owed };
}

impl Windows {
    /// The windows of a section that agreed on a credit (0 to 127): all counts are 0, and nothing waits.
    pub fn new(alloc: Global, credit: u8) -> Windows
        requires { credit ≤ GREATEST_CREDIT }
        ensures { result ≡ record { agreed = credit; windows = cleared credit } }
    {
        Windows {
            flow: Flow::new(alloc, credit),
            waiting: None,
            is_unanswered: false,
            is_owed: false,
        }
    }

    /// What a section does upon an input by the cell that the table has for it, as far as class 3 alone has it. Other cells than
    /// those of windows, and those upon another kind of input, have no effect. After `Memory` the section is as before.
    ///
    /// The units and the expedited data that wait, and those of a hand that comes in, have the lengths of Q.713, and so have those
    /// that it answers and keeps; where data are taken, the message is the one that carries them. A hand that tells how many units left
    /// names no more than came in here and have not left.
    pub fn act(
        &mut self,
        alloc: Global,
        wire: &mut WireHead,
        cell: Cell,
        input: &Input<'_>,
    ) -> Result<Acted, Memory>
        requires agreed { self.old.agreed ≡ wire.old.credit }
        requires waits { WindowsWithin self.old.windows }
        requires input { InputWithin input.now }
        requires left { InputHasCome input.now self.old.windows }
        ensures ok { IfOk result (λ done.
            windows_act cell input.now (windowed_of wire.old self.old) ≡
            (windowed_of wire.new self.new, done)) }
        ensures err { OnErr result ((wire.new ≡ wire.old) × (self.new ≡ self.old)) }
        ensures agreed { self.new.agreed ≡ wire.new.credit }
        ensures waits { WindowsWithin self.new.windows }
        ensures hands { TakesItsData cell input.now → IfOk result ActedWithin }
    {
        match *input {
            Input::Event(event) => self.hear_event(alloc, wire, cell, event),
            Input::Timer(_) => self.fire(alloc, wire),
            Input::Hand(hand) => self.take(alloc, wire, cell, hand),
            Input::Turn => self.turn(alloc, wire, cell),
        }
    }

    /// How many units wait.
    pub fn waiting_units(&self) -> usize
        ensures { result ≡ length self.now.windows.waits }
    {
        self.flow.waiting()
    }

    /// Whether expedited data wait.
    pub fn has_waiting_expedited(&self) -> bool
        ensures { result ≡ is_some self.now.windows.waiting }
    {
        self.waiting.is_some()
    }

    /// Whether units left on the other end that no P(R) has told yet.
    pub fn owes_acknowledgement(&self) -> bool
        ensures { result ≡ not (self.now.windows.passed == self.now.windows.told) }
    {
        self.flow.due().is_some()
    }

    /// The window law: the units that came in stay within the window, and at most 127 units are sent beyond the last P(R) received.
    pub fn keeps_windows(&self)
        ensures { IsWithinWindows self.now.agreed (counts_of self.now.windows) }
    {
        self.flow.keeps_windows();
    }

    /// Equal windows.
    pub fn copy(&self) -> Result<Windows, Memory>
        ensures { IfOk result (λ copy. copy ≡ self.now) }
    {
        Ok(Windows {
            flow: self.flow.copy()?,
            waiting: copied(&self.waiting)?,
            is_unanswered: self.is_unanswered,
            is_owed: self.is_owed,
        })
    }

    /// The counts begin again, and nothing waits.
    pub(crate) fn clear(&mut self)
        ensures { self.new ≡
            record { agreed = self.old.agreed; windows = cleared self.old.agreed } }
    {
        self.flow.clear();
        self.waiting = None;
        self.is_unanswered = false;
        self.is_owed = false;
    }

    /// The timer of inactivity fires.
    #[tactic(auto, unfolding(section_model::specs::Windowed::windowed_fires))]
    fn fire(&self, alloc: Global, wire: &WireHead) -> Result<Acted, Memory>
        ensures { IfOk result (λ done. windowed_fires (windowed_of wire.now self.now) ≡
            (windowed_of wire.now self.now, done)) }
    {
        let (ps, pr) = (self.flow.send_number(), self.flow.receive_number());
        Acted::giving(alloc, test(alloc, wire, ps, pr)?)
    }
}
