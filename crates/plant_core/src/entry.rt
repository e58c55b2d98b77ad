//! The entries of the journals.
ghost use Rattle.std.specs.Prelude.{◌≡◌};

use crate::answer::Answer;
use crate::change::Group;
use relay_base::{Event, Outs, PlainList, Stamp};

/// A routing, with the edition of the routing data that it read.
#[derive(Clone, Copy)]
pub struct Asked {
    pub edition: u64,
    pub answer: Answer,
}

/// What a lane did with one event: the routing where it asked for one, and what came of it.
pub struct Entry {
    pub stamp: Stamp,
    pub event: Event,
    pub asked: Option<Asked>,
    pub outs: Outs,
}

impl Drop for Entry {
    fn drop(self) {
        let Self {
            stamp: _,
            event: _event,
            asked: _asked,
            outs: _outs,
        } = self;
    }
}

/// What the control lane takes.
#[derive(Clone, Drop)]
pub enum ControlEvent {
    Plain(Event),
    /// Changes that are made together.
    Change(Group),
}

/// What the control lane did with one event: the number of the edition that it published, where it did, and what came of it.
pub struct ControlEntry {
    pub stamp: Stamp,
    pub event: ControlEvent,
    pub published: Option<u64>,
    pub outs: Outs,
}

impl Drop for ControlEntry {
    fn drop(self) {
        let Self {
            stamp: _,
            event: _event,
            published: _published,
            outs: _outs,
        } = self;
    }
}

/// The journal of a lane.
pub type EntryList = PlainList<Entry>;

/// The journal of the control lane.
pub type ControlList = PlainList<ControlEntry>;

/// The journals of several lanes.
pub type JournalList = PlainList<EntryList>;

/// The same outputs, in no more memory than they take.
pub fn fitted(outs: Outs) -> Outs
    ensures { result ≡ outs }
{
    let mut items = outs.into_vec();
    items.shrink_to_fit();
    Outs::from(items)
}
