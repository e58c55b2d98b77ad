//! The lanes whose events are no changes of routing data.

use crate::listed::ListedConnections;
use conn_journal::ConnJournal;
use data_lane::UnitJournal;
use lane_events::Lane;
use plant_core::{EntryList, LaneHead, Plant};
use relay_base::{Event, Memory, Stamp};
use std::alloc::Global;

/// A lane of a kind whose events are no changes of routing data. Its journal is a legal one at all
/// times.
pub trait PlainLane: Drop {
    ghost use Rattle.std.specs.Prelude.{◌≡◌, ◌<◌, ◌^◌, ◌++◌, ◌∷◌, [], ℕ, List, length, IfOk, OnOk, OnErr};
    ghost use Rattle.relay_base.specs.declared.limits.TheConstants.{MOST_LANES};
    ghost use Rattle.plant_core.specs.Asking.{answer_in};
    ghost use Rattle.plant_core.specs.Terms.{IsLaneHead};
    ghost use Rattle.plant_core.specs.declared.entry.Entry.{Entry};
    ghost use Rattle.plant_core.specs.declared.terms.LaneHead.{LaneHead};
    ghost use Rattle.lane_events.specs.declared.placing.Lane.{Lane};
    ghost use Rattle.lane_replays.specs.Plain.{Questions, Outcomes, PlainLaneState, TakesEvent};

    /// The name of the lane of a number.
    ghost named: { ℕ → Lane };

    /// What an event asks of routing.
    ghost question: { Questions };

    /// What comes of an event with its answer.
    ghost outs: { Outcomes };

    /// A journal of the lane of a number, which was told this, is legal.
    ghost is_legal: { LaneHead → ℕ → List Entry → Type 0 };

    /// What the lane was told, its number and its journal.
    ghost state: { Self → PlainLaneState };

    /// The name of the lane of a number.
    fn lane(number: u8) -> Lane
        ensures { result ≡ named number };

    /// The lane of this number, 0 to 15, before its first event.
    fn begin(alloc: Global, told: &LaneHead, number: u8) -> Result<Self, Memory>
        requires number { number < MOST_LANES }
        requires told { IsLaneHead told.now }
        ensures { IfOk result (λ lane. state lane ≡
            record { told = told.now; number = number; journal = [] }) };

    /// Takes an event, with these routing data. After want of memory the lane is as before.
    fn take(&mut self, plant: &Plant, stamp: Stamp, event: &Event) -> Result<(), Memory>
        requires few { length (state self.old).journal < 2 ^ 32 }
        ensures ok { OnOk result
            (TakesEvent question plant.now stamp event.now (state self.old) (state self.new)) }
        ensures err { OnErr result (state self.new ≡ state self.old) };

    /// What the lane did, event by event.
    fn entries(&self) -> &EntryList
        ensures value { result.now ≡ (state self.now).journal }
        ensures legal { let lane = state self.now in
            is_legal lane.told lane.number lane.journal };

    ghost last_is_legal: { (told : LaneHead) (number : ℕ) (journal : List Entry) (entry : Entry)
        → is_legal told number (journal ++ entry ∷ [])
        → entry.outs ≡ outs told number journal entry.event (answer_in entry.asked) };
}

impl PlainLane for ConnJournal<ListedConnections> {
    ghost use Rattle.std.specs.Prelude.{[], ◌∷◌};
    ghost use Rattle.section_model.specs.Journals.{IsConnJournal, lane_of};
    ghost use Rattle.right_book.specs.Lanes.{conn_question};
    ghost use Rattle.lane_law.proofs.Splitting.{splits as conn_splits};
    ghost use Rattle.lane_events.specs.declared.placing.Lane.TheVariants.{Conn};
    ghost use Rattle.lane_replays.specs.Plain.{conn_outcomes};

    ghost named = { Conn };

    ghost question = { conn_question };

    ghost outs = { conn_outcomes };

    ghost is_legal = { IsConnJournal };

    ghost state = { λ l. record { told = l.head; number = l.number; journal = l.journal } };

    ghost last_is_legal = { λ told number journal entry legal.
        ((conn_splits (lane_of told number) [] journal (entry ∷ [])).0 legal).1.0.outputs };

    fn lane(number: u8) -> Lane {
        Lane::Conn(number)
    }

    fn begin(
        alloc: Global,
        told: &LaneHead,
        number: u8,
    ) -> Result<ConnJournal<ListedConnections>, Memory> {
        ConnJournal::new(alloc, told, number)
    }

    fn take(&mut self, plant: &Plant, stamp: Stamp, event: &Event) -> Result<(), Memory> {
        self.step(plant, stamp, event)
    }

    fn entries(&self) -> &EntryList {
        self.journal()
    }
}

impl PlainLane for UnitJournal {
    ghost use Rattle.std.specs.Prelude.{[], ◌∷◌};
    ghost use Rattle.data_lane.specs.Legal.{IsDataJournal, at_first, question_of};
    ghost use Rattle.unit_law.proofs.Splitting.{splits as data_splits};
    ghost use Rattle.lane_events.specs.declared.placing.Lane.TheVariants.{Data};
    ghost use Rattle.lane_replays.specs.Plain.{data_outcomes};

    ghost named = { Data };

    ghost question = { λ told. question_of };

    ghost outs = { data_outcomes };

    ghost is_legal = { IsDataJournal };

    ghost state = { λ l. record { told = l.head; number = l.number; journal = l.journal } };

    ghost last_is_legal = { λ told number journal entry legal.
        ((data_splits told number at_first journal (entry ∷ [])).0 legal).1.0.outputs };

    fn lane(number: u8) -> Lane {
        Lane::Data(number)
    }

    fn begin(alloc: Global, told: &LaneHead, number: u8) -> Result<UnitJournal, Memory> {
        UnitJournal::new(alloc, told, number)
    }

    fn take(&mut self, plant: &Plant, stamp: Stamp, event: &Event) -> Result<(), Memory> {
        self.step(plant, stamp, event)
    }

    fn entries(&self) -> &EntryList {
        self.journal()
    }
}
