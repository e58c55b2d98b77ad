//! Octets, which a clause sees as their list.
ghost use Rattle.std.specs.Prelude.{◌≡◌, ◌==◌, ◌++◌, ◌∷◌, [], length, nat_eq, IfOk, OnOk, OnErr};
ghost use Rattle.std.specs.Option.{option_map};
ghost use Rattle.std.specs.Cmp.{partial_equiv_from_equiv};
ghost use Rattle.std.specs.Cmp.Lexicographic.{pointwise, nat_list_eq_equiv};

use crate::errors::Memory;
use smallvec::SmallVec;
use std::alloc::{AllocError, Global};
use std::marker::Model;

/// How many octets are kept in place.
const IN_PLACE: usize = 24;

/// Octets: up to 24 are kept in place, as most addresses and short messages are, and more take memory.
#[derive(Debug)]
pub struct Octets {
    octets: SmallVec<u8, IN_PLACE>,
}

impl Drop for Octets {
    fn drop(self) {
        let Octets { octets } = self;
        drop(octets);
    }
}

impl Model for Octets {
    ghost use Rattle.std.specs.Prelude.{ℕ, List};

    ghost Value = { List ℕ };

    ghost view = { λ o. o.octets.items };
}

impl Octets {
    /// No octets.
    pub fn new(alloc: Global) -> Octets
        ensures { result ≡ [] }
    {
        Octets {
            octets: SmallVec::new(alloc),
        }
    }

    /// No octets, with room for so many.
    pub fn with_capacity(alloc: Global, count: usize) -> Result<Octets, Memory>
        ensures { IfOk result (λ o. o ≡ []) }
    {
        Ok(Octets {
            octets: SmallVec::with_capacity(alloc, count)?,
        })
    }

    /// A copy of the octets.
    pub fn from_slice(alloc: Global, octets: &[u8]) -> Result<Octets, Memory>
        ensures { IfOk result (λ o. o ≡ octets.now) }
    {
        Ok(Octets {
            octets: SmallVec::from_slice(alloc, octets)?,
        })
    }

    /// A copy of octets where they are there.
    pub fn from_optional(alloc: Global, octets: Option<&[u8]>) -> Result<Option<Octets>, Memory>
        ensures { IfOk result (λ o. o ≡ option_map (λ b. b.now) octets.entry) }
    {
        match octets {
            Some(octets) => Ok(Some(Octets::from_slice(alloc, octets)?)),
            None => Ok(None),
        }
    }

    /// Puts an octet at the end.
    pub fn push(&mut self, octet: u8) -> Result<(), Memory>
        ensures ok { OnOk result (self.new ≡ self.old ++ octet ∷ []) }
        ensures err { OnErr result (self.new ≡ self.old) }
    {
        self.octets.push(octet)?;
        Ok(())
    }

    /// Puts a copy of the octets at the end.
    pub fn extend(&mut self, octets: &[u8]) -> Result<(), Memory>
        ensures ok { OnOk result (self.new ≡ self.old ++ octets.now) }
        ensures err { OnErr result (self.new ≡ self.old) }
    {
        self.octets.extend_from_slice(octets)?;
        Ok(())
    }

    pub fn as_slice(&self) -> &[u8]
        ensures { result.now ≡ self.now }
    {
        self.octets.as_slice()
    }

    pub fn len(&self) -> usize
        ensures { result ≡ length self.now }
    {
        self.octets.len()
    }

    pub fn is_empty(&self) -> bool
        ensures { result ≡ (length self.now == 0) }
    {
        self.octets.is_empty()
    }
}

impl From<Vec<u8>> for Octets {
    ghost from_gives = { λ v o. o ≡ v.items };

    /// The same octets, in no more memory than they take.
    fn from(octets: Vec<u8>) -> Octets {
        let mut octets = SmallVec::from_vec(octets);
        octets.shrink_to_fit();
        Octets { octets }
    }
}

impl Clone for Octets {
    ghost is_clone = { λ o copy. copy ≡ o };

    fn clone(&self) -> Result<Octets, AllocError> {
        Ok(Octets {
            octets: SmallVec::from_slice(*self.octets.allocator(), self.as_slice())?,
        })
    }
}

impl PartialEq for Octets {
    ghost eq = { pointwise nat_eq };

    ghost laws = { partial_equiv_from_equiv nat_list_eq_equiv };

    fn eq(&self, other: &Octets) -> bool {
        self.as_slice() == other.as_slice()
    }
}

impl Eq for Octets {
    ghost laws = { nat_list_eq_equiv };
}

/// Octets in a place of their own, so that what holds several of them stays small.
#[derive(Debug)]
pub struct BoxedOctets {
    octets: Box<Octets>,
}

impl Drop for BoxedOctets {
    fn drop(self) {
        let BoxedOctets { octets } = self;
        drop(octets);
    }
}

impl Model for BoxedOctets {
    ghost use Rattle.std.specs.Prelude.{ℕ, List};

    ghost Value = { List ℕ };

    ghost view = { λ o. o.octets.value };
}

impl BoxedOctets {
    /// These octets.
    pub fn new(alloc: Global, octets: Octets) -> Result<BoxedOctets, Memory>
        ensures { IfOk result (λ o. o ≡ octets) }
    {
        Ok(BoxedOctets {
            octets: Box::new(alloc, octets)?,
        })
    }

    /// A copy of the octets.
    pub fn from_slice(alloc: Global, octets: &[u8]) -> Result<BoxedOctets, Memory>
        ensures { IfOk result (λ o. o ≡ octets.now) }
    {
        BoxedOctets::new(alloc, Octets::from_slice(alloc, octets)?)
    }

    /// A copy of octets where they are there.
    pub fn from_optional(
        alloc: Global,
        octets: Option<&[u8]>,
    ) -> Result<Option<BoxedOctets>, Memory>
        ensures { IfOk result (λ o. o ≡ option_map (λ b. b.now) octets.entry) }
    {
        match octets {
            Some(octets) => Ok(Some(BoxedOctets::from_slice(alloc, octets)?)),
            None => Ok(None),
        }
    }

    /// Puts other octets in their place.
    pub fn put(&mut self, octets: Octets)
        ensures { self.new ≡ octets }
    {
        *self.octets = octets;
    }

    pub fn as_slice(&self) -> &[u8]
        ensures { result.now ≡ self.now }
    {
        self.octets.as_slice()
    }
}

impl Clone for BoxedOctets {
    ghost is_clone = { λ o copy. copy ≡ o };

    fn clone(&self) -> Result<BoxedOctets, AllocError> {
        let octets: &Octets = &self.octets;
        Ok(BoxedOctets {
            octets: Box::new(*Box::allocator(&self.octets), octets.clone()?)?,
        })
    }
}

impl PartialEq for BoxedOctets {
    ghost eq = { pointwise nat_eq };

    ghost laws = { partial_equiv_from_equiv nat_list_eq_equiv };

    fn eq(&self, other: &BoxedOctets) -> bool {
        self.as_slice() == other.as_slice()
    }
}

impl Eq for BoxedOctets {
    ghost laws = { nat_list_eq_equiv };
}
