//! What an event changes in what a lane keeps.
ghost use Rattle.std.specs.Prelude.{◌≡◌};
ghost use Rattle.conn_journal.specs.Inner.Waking.{count_of};
ghost use Rattle.conn_journal.specs.Inner.Changes.{this_taken, that_taken};

use crate::kept::Kept;
use relay_base::Ref24;

/// A connection as it is next, None once it is over, its number in the lane's journal, and the references that its ends give up.
#[derive(Drop)]
pub struct Next {
    pub number: usize,
    pub one: Option<Kept>,
    pub this: Option<Ref24>,
    pub that: Option<Ref24>,
}

/// A connection that was just opened, and the references that its ends take.
#[derive(Drop)]
pub struct NewConnection {
    pub one: Kept,
    pub this: Option<Ref24>,
    pub that: Option<Ref24>,
}

/// What an event changes in what a lane keeps. It is made apart, so that memory runs out before anything changes, or not at all.
#[derive(Drop)]
pub enum Change {
    /// Nobody hears the event, and no connection comes of it.
    Nothing,
    /// A connection hears it.
    Heard(Next),
    /// A connection is opened.
    Opened(NewConnection),
    /// A tick, and the connections for which it does more than bring timers nearer.
    Ticked(Vec<Next>),
}

impl Change {
    /// How many connections it changes.
    pub fn count(&self) -> usize
        ensures { result ≡ count_of self.now }
    {
        match self {
            Change::Nothing => 0,
            Change::Heard(_) | Change::Opened(_) => 1,
            Change::Ticked(nexts) => nexts.len(),
        }
    }

    /// The local references that the ends take of a connection which it opens.
    pub fn taken(&self) -> (Option<Ref24>, Option<Ref24>)
        ensures this { result.0 ≡ this_taken self.now }
        ensures that { result.1 ≡ that_taken self.now }
    {
        match self {
            Change::Opened(new) => (new.this, new.that),
            _ => (None, None),
        }
    }
}
