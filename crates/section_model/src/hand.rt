//! What one end of a connection hands to the other.
ghost use Rattle.std.specs.Prelude.{◌≡◌, [], ◌∷◌, IfOk};
ghost use Rattle.section_model.specs.Ends.{no_effect, gives, gives_then, only_cause};

use relay_base::{Memory, Octets, Output, Outs, PlainList};
use section_flow::Unit;
use std::alloc::Global;

/// The units that came in at an end since its counts were last cleared, in both classes, and how many of them left on the other end. Where the
/// code doesn't hold them, clauses alone count them.
pub struct Came {
    pub got: PlainList<Unit>,
    pub passed: u64,
}

impl Drop for Came {
    fn drop(self) {
        let Self {
            got: _got,
            passed: _,
        } = self;
    }
}

/// An effect on the other end. Called addresses have 0 to 255 octets, the data of `Accept`, `Refuse` and `End` 1 to 128, those of a unit
/// 1 to 255, expedited data 1 to 32.
pub enum Hand {
    Accept {
        class: u8,
        credit: u8,
        called: Option<Octets>,
        body: Option<Octets>,
        importance: Option<u8>,
    },
    Refuse {
        cause: u8,
        called: Option<Octets>,
        body: Option<Octets>,
        importance: Option<u8>,
    },
    End {
        cause: u8,
        body: Option<Octets>,
        importance: Option<u8>,
    },
    Unit {
        more: bool,
        body: Octets,
    },
    Expedited {
        body: Octets,
    },
    Reset {
        cause: u8,
    },
    Done,
    /// So many of its units left, and whether its expedited data did.
    Left {
        units: u8,
        expedited: bool,
    },
}

impl Drop for Hand {
    fn drop(self) {
        match self {
            Hand::Accept {
                class: _,
                credit: _,
                called: _called,
                body: _body,
                importance: _,
            } => {}
            Hand::Refuse {
                cause: _,
                called: _called,
                body: _body,
                importance: _,
            } => {}
            Hand::End {
                cause: _,
                body: _body,
                importance: _,
            } => {}
            Hand::Unit {
                more: _,
                body: _body,
            } => {}
            Hand::Expedited { body: _body } => {}
            Hand::Reset { cause: _ } | Hand::Done => {}
            Hand::Left {
                units: _,
                expedited: _,
            } => {}
        }
    }
}

/// Effects on the other end, in order.
pub type HandList = PlainList<Hand>;

/// What an end does: the effects that the other end takes before its outputs, the outputs, and the effects that it takes after them.
pub struct Acted {
    pub first: HandList,
    pub outs: Outs,
    pub then: HandList,
}

impl Drop for Acted {
    fn drop(self) {
        let Self {
            first: _first,
            outs: _outs,
            then: _then,
        } = self;
    }
}

impl Acted {
    /// No effect.
    pub fn nothing(alloc: Global) -> Acted
        ensures { result ≡ no_effect }
    {
        Acted {
            first: HandList::new(alloc),
            outs: Outs::new(alloc),
            then: HandList::new(alloc),
        }
    }

    /// What the other end takes before, the outputs, and what it takes after them.
    pub fn into_parts(self) -> (HandList, Outs, HandList)
        ensures { result ≡ (self.first, self.outs, self.then) }
    {
        let Acted { first, outs, then } = self;
        (first, outs, then)
    }

    /// One output.
    pub fn giving(alloc: Global, output: Output) -> Result<Acted, Memory>
        ensures { IfOk result (λ acted. acted ≡ gives (output ∷ [])) }
    {
        let mut acted = Acted::nothing(alloc);
        acted.outs.push(output)?;
        Ok(acted)
    }

    /// One effect on the other end.
    pub fn handing(alloc: Global, hand: Hand) -> Result<Acted, Memory>
        ensures { IfOk result (λ acted. acted ≡ gives_then [] (hand ∷ [])) }
    {
        let mut acted = Acted::nothing(alloc);
        acted.then.push(hand)?;
        Ok(acted)
    }

    /// One output, and then one effect on the other end.
    pub fn giving_then(alloc: Global, output: Output, hand: Hand) -> Result<Acted, Memory>
        ensures { IfOk result (λ acted. acted ≡ gives_then (output ∷ []) (hand ∷ [])) }
    {
        let mut acted = Acted::giving(alloc, output)?;
        acted.then.push(hand)?;
        Ok(acted)
    }
}

/// What a repeated release says: its cause, its data of 1 to 128 octets, and its importance.
pub struct KeptRelease {
    pub cause: u8,
    pub body: Option<Octets>,
    pub importance: Option<u8>,
}

impl Drop for KeptRelease {
    fn drop(self) {
        let Self {
            cause: _,
            body: _body,
            importance: _importance,
        } = self;
    }
}

impl KeptRelease {
    /// A cause alone.
    pub fn with_cause(cause: u8) -> KeptRelease
        ensures { result ≡ only_cause cause }
    {
        KeptRelease {
            cause,
            body: None,
            importance: None,
        }
    }
}
