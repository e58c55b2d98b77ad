//! A connection section with its timers.
ghost use Rattle.std.specs.Prelude.{◌≡◌, ◌≤◌, ◌==◌, ◌&&◌, false, ℕ, IfOk};
ghost use Rattle.std.specs.List.{list_any};
ghost use Rattle.section_model.specs.Ends.{wire, is_connected};
ghost use Rattle.section_class3.specs.Windows.{InputHasCome, windows_act};
ghost use Rattle.section_class2.specs.Lines.{line_acts};
ghost use Rattle.section_model.specs.Views.{section_of};
ghost use Rattle.section_model.specs.Acting.{is_sent, is_by_class, in_windows, by_line, by_windows, timed};
ghost use Rattle.section_model.specs.Timing.{timers_after};
ghost use Rattle.section_model.specs.declared.input.Input.TheVariants as input;
ghost use Rattle.section_coupling.specs.Views.{section_at, section_by, IsAct};
ghost use Rattle.section_coupling.specs.Sound.{IsCredit, SoundWire, SoundInput, SoundActed};
ghost use Rattle.section_coupling.specs.Inner.Acts.{untimed_acts, section_acts, windows_begun, came_begun, TakesData, CanAct};

use crate::clock::Clock;
use crate::timers::Timers;
use mark::Mark;
use relay_base::{Memory, Output, Outs};
use section_class2::Line;
use section_class3::Windows;
use section_grid::{Acted, Cell, Input, SectionState, WireHead};
use std::alloc::Global;

/// A connection section of the network.
pub struct Wire {
    pub head: WireHead,
    pub line: Line,
    pub windows: Windows,
    pub timers: Timers,
}

impl Drop for Wire {
    fn drop(self) {
        let Self {
            head: _head,
            line: _line,
            windows: _windows,
            timers: _timers,
        } = self;
    }
}

/// Whether an output is a message.
pub fn is_sent(output: &Output) -> bool
    ensures { result ≡ is_sent output.now }
{
    match output {
        Output::Sent { .. } => true,
        Output::Told { .. } | Output::Lost(_) => false,
    }
}

/// Whether a message is among the outputs.
fn has_sent(outs: &Outs) -> bool
    ensures { result ≡ list_any is_sent outs.now }
{
    outs.as_slice().iter().any(|output| is_sent(output))
}

/// Whether the class decides what a cell does.
fn is_by_class(cell: Cell) -> bool
    ensures { result ≡ is_by_class cell }
{
    match cell {
        Cell::TakeData | Cell::TakeNumberedData | Cell::TakeAcknowledgement => true,
        Cell::TakeExpedited | Cell::TakeExpeditedAcknowledgement => true,
        Cell::ResetByPeer | Cell::ResetComplete | Cell::SendTest => true,
        Cell::PassUnit | Cell::PassExpedited | Cell::PassReset => true,
        Cell::ClearCounts | Cell::Left => true,
        _ => false,
    }
}

/// Whether data may pass in a state, now or after a reset.
fn is_connected(state: SectionState) -> bool
    ensures { result ≡ is_connected state }
{
    matches!(state, SectionState::Up | SectionState::Resetting)
}

/// What follows an act of the line: where the section is set up the counts begin, with the credit that was agreed on.
fn begin(alloc: Global, old: SectionState, head: &WireHead, line: &mut Line, windows: &mut Windows)
    requires { IsCredit head.now.credit }
    ensures kept { line.new.kept ≡ line.old.kept }
    ensures came { line.new.came.value ≡ came_begun old head.now line.old.came.value }
    ensures windows { windows.new ≡ windows_begun old head.now windows.old }
{
    let is_set_up = head.state() == SectionState::Up && !is_connected(old);
    if is_set_up {
        line.clear();
        *windows = Windows::new(alloc, head.credit);
    }
}

impl Wire {
    /// An equal section.
    pub fn copy(&self) -> Result<Wire, Memory>
        ensures { IfOk result (λ copy. copy ≡ self.now) }
    {
        Ok(Wire {
            head: self.head,
            line: self.line.copy()?,
            windows: self.windows.copy()?,
            timers: self.timers,
        })
    }

    /// Whether a cell is one of class 3 here.
    fn in_windows(&self, cell: Cell) -> bool
        ensures { (now : ℕ) → result ≡ in_windows cell (section_at now self.now) }
    {
        is_by_class(cell) && self.head.class == 3
    }

    /// An act of the line; the timers stay.
    #[tactic(auto, using(crate::proofs::SoundLines::line_acts_granted))]
    fn by_line(&mut self, alloc: Global, cell: Cell, input: &Input<'_>) -> Result<Acted, Memory>
        requires sound { SoundWire self.old }
        requires can { CanAct cell input.now self.old }
        requires class { (is_by_class cell && self.old.head.class == 3) ≡ false }
        ensures acts { let act = line_acts cell input.now in IfOk result (λ acted. (now : ℕ) →
            by_line act (section_at now self.old) ≡ (section_at now self.new, acted)) }
        ensures sound { IfOk result (λ acted. SoundWire self.new × SoundActed acted) }
    {
        let old = self.head.state();
        let acted = self.line.act(alloc, &mut self.head, cell, input)?;
        begin(alloc, old, &self.head, &mut self.line, &mut self.windows);
        Ok(acted)
    }

    /// An act of the windows; the timers stay.
    #[tactic(auto, using(crate::proofs::SoundWindows::windows_act_granted))]
    fn by_windows(&mut self, alloc: Global, cell: Cell, input: &Input<'_>) -> Result<Acted, Memory>
        requires sound { SoundWire self.old }
        requires input { SoundInput input.now }
        requires data { TakesData cell input.now }
        requires class { self.old.head.class ≡ 3 }
        requires left { InputHasCome input.now self.old.windows.windows }
        ensures acts { let act = windows_act cell input.now in IfOk result (λ acted. (now : ℕ) →
            by_windows act (section_at now self.old) ≡ (section_at now self.new, acted)) }
        ensures sound { IfOk result (λ acted. SoundWire self.new × SoundActed acted) }
    {
        let acted = self.windows.act(alloc, &mut self.head, cell, input)?;
        self.line.came = Mark::after(&self.windows);
        Ok(acted)
    }

    /// An act, but for the timers.
    fn untimed(&mut self, alloc: Global, cell: Cell, input: &Input<'_>) -> Result<Acted, Memory>
        requires sound { SoundWire self.old }
        requires can { CanAct cell input.now self.old }
        ensures acts { IfOk result (λ acted. (now : ℕ) →
            untimed_acts cell input.now (section_at now self.old) ≡
            (section_at now self.new, acted)) }
        ensures sound { IfOk result (λ acted. SoundWire self.new × SoundActed acted) }
    {
        if self.in_windows(cell) {
            self.by_windows(alloc, cell, input)
        } else {
            self.by_line(alloc, cell, input)
        }
    }

    /// Sets the timers after an act in which the section was in this state before and gave these outputs.
    fn set_timers(&mut self, clock: &Clock, old: SectionState, outs: &Outs)
        ensures timers { let x = section_by clock.now self.old in
            let sent = list_any is_sent outs.now in
            section_by clock.now self.new ≡ record x {
              timers = timers_after clock.now.ticks old x.head.state sent x.timers;
            } }
        ensures sound { SoundWire self.old → SoundWire self.new }
    {
        self.timers = self
            .timers
            .after(clock, old, self.head.state(), has_sent(outs));
    }

    /// Acts by the table's cell for an input.
    pub fn act(
        &mut self,
        alloc: Global,
        clock: &Clock,
        cell: Cell,
        input: &Input<'_>,
    ) -> Result<Acted, Memory>
        requires sound { SoundWire self.old }
        requires can { CanAct cell input.now self.old }
        ensures acts { let x = section_by clock.now self.old in IfOk result (IsAct clock.now
            (section_acts clock.now.ticks cell input.now x) self.new) }
        ensures sound { IfOk result (λ acted. SoundWire self.new × SoundActed acted) }
    {
        let old = self.head.state();
        let acted = self.untimed(alloc, cell, input)?;
        self.set_timers(clock, old, &acted.outs);
        Ok(acted)
    }

    /// Does a part of what follows each event in class 3: what waits leaves, or what left on the other end is acknowledged.
    pub fn take_turn(&mut self, alloc: Global, clock: &Clock, cell: Cell) -> Result<Acted, Memory>
        requires sound { SoundWire self.old }
        requires class { self.old.head.class ≡ 3 }
        ensures acts { let x = section_by clock.now self.old in
            let turn = by_windows (windows_act cell input.Turn) x in
            IfOk result (IsAct clock.now (timed clock.now.ticks x turn) self.new) }
        ensures sound { IfOk result (λ acted. SoundWire self.new × SoundActed acted) }
    {
        let old = self.head.state();
        let acted = self.by_windows(alloc, cell, &Input::Turn)?;
        self.set_timers(clock, old, &acted.outs);
        Ok(acted)
    }
}
