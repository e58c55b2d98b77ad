//! A lane that does again what a journal says that it did.
use journal_form::EntryForm;
use plant_core::{ControlEvent, Plant};
use relay_base::{Memory, Stamp};

/// What is known of an entry that a lane made.
#[derive(Clone, Copy)]
pub struct Judged {
    /// Whether its event asks for a routing.
    pub asks: bool,
    /// Whether the lines beside it are its own.
    pub is_written: bool,
}

/// A lane that takes events again, one after another.
pub trait Replay {
    ghost use Rattle.std.specs.Prelude.{◌≡◌, ◌<◌, List, length, true, is_some, IfOk, OnOk};
    ghost use Rattle.node_head.specs.declared.head.Head.{Head};
    ghost use Rattle.journal_form.specs.Inner.Seen.{seen_part};
    ghost use Rattle.journal_finding.specs.Entries.{LaneRules};
    ghost use Rattle.lane_audit.specs.Follows.{Takes};

    /// An event as the lane takes it.
    type Event;

    /// An entry of its journal.
    type Entry;

    /// The head of the capture whose events it takes.
    ghost head: { Self → Head };

    /// What the lane has to do.
    ghost rules: { Self → LaneRules Self.Event Self.Entry };

    /// The entries so far.
    ghost journal: { Self → List Self.Entry };

    /// Whether the lane takes such events.
    fn takes(&self, event: &ControlEvent) -> bool
        ensures { result ≡ is_some ((rules self.now).event event.now) };

    /// Takes an event with this routing data, and compares its entry with the lines of one.
    fn take(
        &mut self,
        plant: &Plant,
        stamp: Stamp,
        event: &ControlEvent,
        part: &EntryForm<'_>,
    ) -> Result<Judged, Memory>
        requires event { is_some ((rules self.old).event event.now) ≡ true }
        requires few { length (journal self.old) < 4_294_967_295 }
        ensures taken { IfOk result (λ judged. Takes (rules self.old) (journal self.old)
            (journal self.new) plant.now stamp event.now (seen_part part.now) judged) }
        ensures rules { OnOk result (rules self.new ≡ rules self.old) }
        ensures head { OnOk result (head self.new ≡ head self.old) };
}
