//! The flow control of a section.
ghost use Rattle.std.specs.Prelude.{◌≡◌, true, false, ◌≤◌, ◌<◌, ◌+◌, ◌-◌, ◌%◌, ◌++◌, [], ◌∷◌, Some, None, drop, length, min, suc, IfOk, IfErr, IfSome, IfNone, OnOk, OnErr};
ghost use Rattle.std.specs.Option.{option_map};
ghost use Rattle.section_flow.specs.Windows.{count_of, is_valid, may_leave, wrong_number};
ghost use Rattle.section_flow.specs.Flow.{cleared_flow, no_counts, windows_of, unit_refusal, counts_after_unit, counts_after_acknowledgement, counts_after_sending, counts_after_leaving, counts_after_telling, due_of, IsWithinWindows};

use crate::counts::{Counts, Remainders};
use crate::limits::SEQUENCE_NUMBERS;
use crate::unit::Unit;
use mark::Mark;
use relay_base::Memory;
use relay_base::causes::{
    RESET_INCORRECT_FIRST_NUMBER, RESET_INCORRECT_RECEIVE_NUMBER, RESET_INCORRECT_SEND_NUMBER,
    RESET_OUT_OF_WINDOW,
};
use relay_base::limits::GREATEST_CREDIT;
use std::alloc::Global;
use std::collections::VecDeque;
use std::marker::Model;

/// The flow control of a section: its credits, its counts, and the units of the other end that wait.
pub struct Flow {
    agreed: u8,
    credit: u8,
    held: Remainders,
    counts: Mark<Counts>,
    waits: VecDeque<Unit>,
}

impl Drop for Flow {
    fn drop(self) {
        let Self {
            agreed: _,
            credit: _,
            held: _held,
            counts: _counts,
            waits: _waits,
        } = self;
    }
}

impl Model for Flow {
    ghost use Rattle.std.specs.Prelude.{◌-◌};
    ghost use Rattle.std.specs.VecDeque.{deque_len, deque_capacity};
    ghost use Rattle.section_flow.specs.Flow.{FlowState};
    ghost use Rattle.section_flow.specs.Held.{Stands};

    ghost Value = { FlowState };

    ghost view = { λ f. record {
      agreed = f.agreed;
      credit = f.credit;
      counts = f.counts.value;
      waits = f.waits.items;
      room = deque_capacity f.waits - deque_len f.waits;
    } };

    ghost invariant = { λ f. Stands f.agreed f.credit f.held f.counts.value };
}

/// A unit that comes in, and the flow until then.
#[derive(Clone, Copy)]
struct Arriving<'a> {
    flow: &'a Flow,
    pr: u8,
    more: bool,
    body: &'a [u8],
}

/// A P(R) that comes in, or a number of units that left on the other end, and the flow until then.
#[derive(Clone, Copy)]
struct Counting<'a> {
    flow: &'a Flow,
    number: u8,
}

/// The counts when they begin.
fn no_counts() -> Mark<Counts>
    ensures { result.value ≡ no_counts }
{
    Mark::after(&0u8)
}

/// An equal unit.
fn copied(unit: &Unit) -> Result<Unit, Memory>
    ensures { IfOk result (λ copy. copy ≡ unit.now) }
{
    Ok(Unit {
        more: unit.more,
        body: unit.body.clone()?,
    })
}

/// Equal units.
fn copied_units(units: &VecDeque<Unit>) -> Result<VecDeque<Unit>, Memory>
    ensures { IfOk result (λ copies. copies.items ≡ units.now.items) }
{
    let mut copies = VecDeque::new(*units.allocator());
    for unit in units.iter() {
        copies.push_back(copied(unit)?)?;
    }
    Ok(copies)
}

impl Flow {
    /// The flow control of a section that agreed on a credit (0 to 127): all counts are 0, and nothing waits.
    pub fn new(alloc: Global, credit: u8) -> Flow
        requires { credit ≤ GREATEST_CREDIT }
        ensures { result ≡ cleared_flow credit result.room }
    {
        Flow {
            agreed: credit,
            credit,
            held: Remainders::none(),
            counts: no_counts(),
            waits: VecDeque::new(alloc),
        }
    }

    /// Takes memory for so many more units that wait.
    pub fn reserve(&mut self, units: u8) -> Result<(), Memory>
        ensures flow { self.new ≡ record self.old { room = self.new.room } }
        ensures ok { OnOk result (units ≤ self.new.room) }
    {
        self.waits.reserve(usize::from(units))?;
        Ok(())
    }

    /// How many units wait.
    pub fn waiting(&self) -> usize
        ensures { result ≡ length self.now.waits }
    {
        self.waits.len()
    }

    /// The P(S) that the next unit is sent with, 0 to 127.
    pub fn send_number(&self) -> u8
        ensures { result ≡ self.now.counts.sent % SEQUENCE_NUMBERS }
    {
        (self.held.acked + self.held.outstanding) % SEQUENCE_NUMBERS
    }

    /// The P(R) that is sent next, 0 to 127.
    pub fn receive_number(&self) -> u8
        ensures { result ≡ self.now.counts.passed % SEQUENCE_NUMBERS }
    {
        (self.held.expected + SEQUENCE_NUMBERS - self.held.unleft) % SEQUENCE_NUMBERS
    }

    /// How far the count that a P(R) stands for is ahead of the last one received; None where it stands for no count up to the units
    /// sent.
    fn ahead(&self, pr: u8) -> Option<u8>
        ensures count { option_map (λ ahead. self.now.counts.acked + ahead) result ≡
            count_of pr self.now.counts.acked self.now.counts.sent }
        ensures sent { IfSome result (λ ahead.
            self.now.counts.acked + ahead ≤ self.now.counts.sent) }
    {
        let ahead = (pr % SEQUENCE_NUMBERS + SEQUENCE_NUMBERS - self.held.acked) % SEQUENCE_NUMBERS;
        if ahead <= self.held.outstanding {
            Some(ahead)
        } else {
            None
        }
    }

    /// The reset cause where another P(S) is expected.
    fn wrong_number(&self) -> u8
        ensures { result ≡ wrong_number (windows_of self.now) }
    {
        if self.held.has_accepted {
            RESET_INCORRECT_SEND_NUMBER
        } else {
            RESET_INCORRECT_FIRST_NUMBER
        }
    }

    /// How far the P(R) of a unit that is accepted is ahead of the last one received. The error is the cause of the reset.
    fn tested(&self, ps: u8, pr: u8) -> Result<u8, u8>
        ensures ok { IfOk result (λ ahead. (unit_refusal ps pr self.now ≡ None)
            × (count_of pr self.now.counts.acked self.now.counts.sent ≡
            Some (self.now.counts.acked + ahead))) }
        ensures window { IfOk result (λ ahead.
            length self.now.counts.got < self.now.counts.told + self.now.agreed) }
        ensures sent { IfOk result (λ ahead.
            self.now.counts.acked + ahead ≤ self.now.counts.sent) }
        ensures err { IfErr result (λ cause. unit_refusal ps pr self.now ≡ Some cause) }
    {
        if ps != self.held.expected {
            return Err(self.wrong_number());
        }
        if self.held.untold == self.agreed {
            return Err(RESET_OUT_OF_WINDOW);
        }
        match self.ahead(pr) {
            Some(ahead) => Ok(ahead),
            None => Err(RESET_INCORRECT_RECEIVE_NUMBER),
        }
    }

    /// Takes a unit with P(S) and P(R) that comes in; of the unit itself only the contract keeps anything. The error is the cause of the
    /// reset: P(S) isn't the next one, the window is used up, or P(R) stands for no count, in this order; the flow is then as before.
    pub fn accept(&mut self, ps: u8, pr: u8, more: bool, body: &[u8]) -> Result<(), u8>
        ensures ok { IfOk result (λ _. (unit_refusal ps pr self.old ≡ None)
            × (self.new ≡ record self.old {
              counts = counts_after_unit pr more body.now self.old.counts;
            })) }
        ensures err { IfErr result (λ cause.
            (unit_refusal ps pr self.old ≡ Some cause) × (self.new ≡ self.old)) }
    {
        let ahead = match self.tested(ps, pr) {
            Ok(ahead) => ahead,
            Err(cause) => return Err(cause),
        };
        let counts = Mark::after(&Arriving {
            flow: self,
            pr,
            more,
            body,
        });
        self.held.acknowledge(ahead);
        self.held.accept();
        self.counts = counts;
        Ok(())
    }

    /// Takes a P(R) that comes in, and how many units may be sent beyond it, at most the greatest credit. The error is the cause of the
    /// reset, where P(R) stands for no count; the flow is then as before.
    pub fn acknowledge(&mut self, pr: u8, credit: u8) -> Result<(), u8>
        ensures ok { IfOk result (λ _. (is_valid pr (windows_of self.old) ≡ true)
            × (self.new ≡ record self.old {
              credit = min credit GREATEST_CREDIT;
              counts = counts_after_acknowledgement pr self.old.counts;
            })) }
        ensures err { IfErr result (λ cause.
            (is_valid pr (windows_of self.old) ≡ false)
            × (cause ≡ RESET_INCORRECT_RECEIVE_NUMBER) × (self.new ≡ self.old)) }
    {
        let Some(ahead) = self.ahead(pr) else {
            return Err(RESET_INCORRECT_RECEIVE_NUMBER);
        };
        let counts = Mark::after(&Counting {
            flow: self,
            number: pr,
        });
        self.held.acknowledge(ahead);
        self.credit = credit.min(GREATEST_CREDIT);
        self.counts = counts;
        Ok(())
    }

    /// Puts a unit behind those that wait. Room was reserved.
    pub fn wait(&mut self, unit: Unit)
        requires { 0 < self.old.room }
        ensures { self.new ≡
            record self.old { waits = self.old.waits ++ unit ∷ []; room = self.old.room - 1 } }
    {
        self.waits.push_back_reserved(unit);
    }

    /// How many waiting units may be sent now.
    pub fn sendable(&self) -> u8
        ensures { result ≡ may_leave (windows_of self.now) }
    {
        let free = self.credit.saturating_sub(self.held.outstanding);
        match u8::try_from(self.waits.len()) {
            Ok(waiting) => waiting.min(free),
            Err(_) => free,
        }
    }

    /// The next unit that is sent, with its P(S) and P(R); None exactly where nothing waits or the window is full.
    pub fn next(&mut self) -> Option<(u8, u8, Unit)>
        ensures some { IfSome result (λ sent.
            (may_leave (windows_of self.old) ≡ suc (may_leave (windows_of self.new)))
            × (sent.0 ≡ self.old.counts.sent % SEQUENCE_NUMBERS)
            × (sent.1 ≡ self.old.counts.passed % SEQUENCE_NUMBERS)
            × (self.old.waits ≡ sent.2 ∷ self.new.waits)) }
        ensures left { IfSome result (λ sent. self.new ≡ record self.old {
          waits = self.new.waits;
          counts = counts_after_sending self.old.counts;
          room = self.old.room + 1;
        }) }
        ensures none { IfNone result
            ((may_leave (windows_of self.old) ≡ 0) × (self.new ≡ self.old)) }
    {
        if self.held.outstanding >= self.credit {
            return None;
        }
        let ps = self.send_number();
        let pr = self.receive_number();
        let counts = Mark::after(&*self);
        let unit = self.waits.pop_front()?;
        self.held.outstanding += 1;
        self.held.untold = self.held.unleft;
        self.counts = counts;
        Some((ps, pr, unit))
    }

    /// So many of the units that came in, and had not left, left on the other end.
    pub fn left(&mut self, units: u8)
        requires { units ≤ length self.old.counts.got - self.old.counts.passed }
        ensures { self.new ≡
            record self.old { counts = counts_after_leaving units self.old.counts } }
    {
        let counts = Mark::after(&Counting {
            flow: self,
            number: units,
        });
        self.held.unleft -= units;
        self.counts = counts;
    }

    /// The P(R) that is to be sent: None exactly where it is the last one sent.
    pub fn due(&self) -> Option<u8>
        ensures { result ≡ due_of self.now.counts }
    {
        if self.held.unleft == self.held.untold {
            return None;
        }
        Some(self.receive_number())
    }

    /// The P(R) that was to be sent is sent.
    pub fn tell(&mut self)
        ensures { self.new ≡ record self.old { counts = counts_after_telling self.old.counts } }
    {
        let counts = Mark::after(&*self);
        self.held.untold = self.held.unleft;
        self.counts = counts;
    }

    /// All counts are 0 again, the credit is the one agreed on, and nothing waits.
    pub fn clear(&mut self)
        ensures { self.new ≡ cleared_flow self.old.agreed (self.old.room + length self.old.waits) }
    {
        self.credit = self.agreed;
        self.held = Remainders::none();
        self.counts = no_counts();
        self.waits.clear();
    }

    /// The counts as they are.
    fn same_counts(&self) -> Mark<Counts>
        ensures { result.value ≡ self.now.counts }
    {
        Mark::after(self)
    }

    /// An equal flow, but for its room.
    pub fn copy(&self) -> Result<Flow, Memory>
        ensures { IfOk result (λ copy. copy ≡ record self.now { room = copy.room }) }
    {
        Ok(Flow {
            agreed: self.agreed,
            credit: self.credit,
            held: self.held,
            counts: self.same_counts(),
            waits: copied_units(&self.waits)?,
        })
    }

    /// The window law: the units that came in stay within the window, and at most 127 units are sent beyond the last P(R) received.
    pub fn keeps_windows(&self)
        ensures { IsWithinWindows self.now.agreed self.now.counts }
    {
        let _ = &self.held;
    }
}
