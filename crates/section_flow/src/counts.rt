//! The counts of a section, as whole numbers and as the code holds them.
ghost use Rattle.std.specs.Prelude.{◌≡◌, ◌≤◌, ◌<◌, ◌+◌, ◌-◌, ◌%◌, true, false};

use crate::limits::SEQUENCE_NUMBERS;
use crate::unit::Unit;
use relay_base::PlainList;

/// Units of data, in order.
pub type UnitList = PlainList<Unit>;

/// The counts of a section as whole numbers, since they were last cleared: what clauses read where the code holds remainders.
#[derive(Drop)]
pub struct Counts {
    /// The units that came in.
    pub got: UnitList,
    /// How many of them left on the other end.
    pub passed: u64,
    /// The last P(R) sent.
    pub told: u64,
    /// The units sent.
    pub sent: u64,
    /// The last P(R) received.
    pub acked: u64,
}

/// What the code holds of the counts: remainders modulo 128, and differences of at most 127.
#[derive(Clone, Copy)]
pub struct Remainders {
    /// The last P(R) received, modulo 128.
    pub acked: u8,
    /// The units sent beyond it.
    pub outstanding: u8,
    /// The units that came in, modulo 128: the P(S) that comes next.
    pub expected: u8,
    /// How many of them came in beyond the last P(R) sent.
    pub untold: u8,
    /// How many of them have not left on the other end.
    pub unleft: u8,
    /// Whether any unit came in.
    pub has_accepted: bool,
}

impl Remainders {
    /// What is held of counts of 0.
    pub fn none() -> Remainders
        ensures { result ≡ record {
          acked = 0;
          outstanding = 0;
          expected = 0;
          untold = 0;
          unleft = 0;
          has_accepted = false;
        } }
    {
        Remainders {
            acked: 0,
            outstanding: 0,
            expected: 0,
            untold: 0,
            unleft: 0,
            has_accepted: false,
        }
    }

    /// One more unit came in.
    pub fn accept(&mut self)
        requires { (self.old.expected < SEQUENCE_NUMBERS) × (self.old.untold < SEQUENCE_NUMBERS)
            × (self.old.unleft < SEQUENCE_NUMBERS) }
        ensures { self.new ≡ record self.old {
          expected = (self.old.expected + 1) % SEQUENCE_NUMBERS;
          untold = self.old.untold + 1;
          unleft = self.old.unleft + 1;
          has_accepted = true;
        } }
    {
        self.expected = (self.expected + 1) % SEQUENCE_NUMBERS;
        self.untold += 1;
        self.unleft += 1;
        self.has_accepted = true;
    }

    /// A P(R) came in that stands so far ahead of the last one.
    pub fn acknowledge(&mut self, ahead: u8)
        requires { (self.old.acked < SEQUENCE_NUMBERS) × (self.old.outstanding < SEQUENCE_NUMBERS)
            × (ahead ≤ self.old.outstanding) }
        ensures { self.new ≡ record self.old {
          acked = (self.old.acked + ahead) % SEQUENCE_NUMBERS;
          outstanding = self.old.outstanding - ahead;
        } }
    {
        self.acked = (self.acked + ahead) % SEQUENCE_NUMBERS;
        self.outstanding -= ahead;
    }
}
