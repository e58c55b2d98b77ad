//! What a caller holds, and why it is refused.
ghost use Rattle.lane_gate.specs.Inner.Views.{IsAlone};

use crate::table::View;
use atomic_table::{Badge, Seat};
use relay_base::PlainList;

/// A caller's right to the turn of one gate. It has a number, and counts what was delivered through it.
pub struct Pass {
    number: u8,
    pub(crate) badge: Badge<View>,
    ghost alone: { IsAlone badge.views number },
}

impl Pass {
    ghost use Rattle.std.specs.Prelude.{◌≡◌, [], ◌∷◌};
    ghost use Rattle.lane_gate.specs.Inner.Views.{IsIdle};

    /// The number of the pass, which is that of its link.
    pub fn number(&self) -> u8
        ensures { result ≡ self.now.number }
    {
        self.number
    }

    pub(crate) fn new<S>(number: u8, seat: Seat<S, View>) -> Pass
        requires { IsIdle seat.me number }
        ensures { (result.number ≡ number) × (result.badge.table_id ≡ seat.table_id)
            × (result.badge.views ≡ seat.me.0 ∷ []) }
    {
        Pass {
            number,
            badge: seat.into_badge(),
        }
    }

    pub(crate) fn into_seat<S>(self) -> Seat<S, View>
        ensures table { result.table_id ≡ self.badge.table_id }
        ensures view { (self.badge.views ≡ result.me.0 ∷ []) × IsIdle result.me self.number }
    {
        let Pass { number: _, badge } = self;
        badge.into_seat()
    }
}

impl Drop for Pass {
    fn drop(self) {
        let Self {
            number: _,
            badge: _,
        } = self;
    }
}

/// The passes of a gate.
pub type PassList = PlainList<Pass>;

/// An event that waits until the turn of the caller `holder` ends.
#[derive(Drop)]
pub(crate) struct Waiting<E> {
    pub event: E,
    pub holder: u8,
}

/// Why an event wasn't delivered. It comes back.
#[derive(Clone, Debug, PartialEq, Eq, Drop)]
pub enum Refused<E> {
    /// The caller `holder` was in mid-call in this lane.
    Busy { event: E, holder: u8 },
    /// Memory ran out.
    Memory { event: E },
}
