//! A value that only clauses read, as std's `Snapshot`, but one that clauses may choose: with it a type keeps in its contracts what
//! its bytes no longer tell, such as whole numbers of which it holds remainders.
#![tactic(auto)]

ghost use Rattle.std.specs.Prelude.{◌≡◌};
ghost use base.Fml.{ftrue};

use std::fmt;
use std::fmt::{Debug, Formatter, Write};
use std::marker::{Model, PhantomData};

/// A `T` as clauses see it. It has no bytes, and owns nothing.
pub struct Mark<T> {
    marker: PhantomData<T>,
    pub ghost value: { T },
}

impl<T> Model for Mark<T> {
    ghost also_owns = { λ _. ftrue };
}

impl<T> Mark<T> {
    /// A mark of a value that a proof chooses.
    fn chosen() -> Mark<T>
        ghost v: { T }
        ensures { result.value ≡ v }
    {
        Mark {
            marker: PhantomData,
        }
    }

    /// A mark of a value that a proof chooses by what is seen.
    pub fn after<A>(seen: &A) -> Mark<T>
        ghost v: { T }
        ensures { result.value ≡ v }
    {
        let _ = seen;
        Mark::chosen()
    }
}

unsafe impl<T> Send for Mark<T> {}

unsafe impl<T> Sync for Mark<T> {}

impl<T> Debug for Mark<T> {
    fn fmt<W: Write>(&self, f: &mut Formatter<W>) -> fmt::Result {
        f.debug_struct("Mark").finish_non_exhaustive()
    }
}

impl<T> Drop for Mark<T> {
    fn drop(self) {
        let Self { marker: _ } = self;
    }
}
