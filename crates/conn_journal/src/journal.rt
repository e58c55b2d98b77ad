//! The journal of a connection lane, over any store of its connections.
ghost use Rattle.std.specs.Prelude.{◌≡◌, ◌≤◌, ◌<◌, ◌^◌, ◌++◌, [], ℕ, Bool, List, length, map, true, false, IfOk, IfSome, OnOk, OnErr};
ghost use Rattle.plant_core.specs.declared.terms.Terms.{Terms};
ghost use Rattle.std.specs.Option.{option_map};
ghost use Rattle.relay_base.specs.declared.limits.TheConstants.{MOST_LANES};
ghost use Rattle.plant_core.specs.Asking.{answer_in};
ghost use Rattle.section_model.specs.Opening.{wish_of, question_of, slots_needed, opened};
ghost use Rattle.relay_base.specs.declared.words.Event.TheVariants.{Tick};
ghost use Rattle.section_model.specs.Lane.{stray_answer, is_tick};
ghost use Rattle.section_coupling.specs.Duos.{duo_at};
ghost use Rattle.section_coupling.specs.Openings.{IsAnswered, is_wish};
ghost use Rattle.section_coupling.specs.Sound.{IsCredit};
ghost use Rattle.conn_journal.specs.Laws.{unheard};
ghost use Rattle.plant_core.specs.Plant.{PlantState};
ghost use Rattle.conn_journal.specs.Inner.Remnants.{Remnant};
ghost use Rattle.conn_journal.specs.Inner.Changes.{Fits, changed, this_taken, that_taken};
ghost use Rattle.conn_journal.specs.Inner.Stands.{IsStanding};
ghost use Rattle.conn_journal.specs.Inner.Waking.{AreQuiet, WakesDue};
ghost use Rattle.conn_journal.specs.Inner.Lowest.{lowest_of};
ghost use Rattle.section_model.specs.Journals.{lane_of};
ghost use Rattle.conn_journal.specs.Lanes.{conn_asked_of};
ghost use Rattle.conn_journal.specs.Inner.Grown.{StandsIn, TurnsInto, Grows};

use crate::change::Change;
use crate::openings::Openings;
use crate::outcome::Outcome;
use crate::store::Store;
use plant_core::{Answer, Asked, Entry, EntryList, LaneHead, Plant, fitted};
use relay_base::{Event, Memory, Outs, Stamp};
use routing_control::asked;
use section_coupling::{Begun, Duo, ReadWish, stray};
use std::alloc::Global;
use std::marker::Model;

/// The connections of one lane, kept in a store. Its journal is a legal one at all times.
pub struct ConnJournal<S: Store> {
    alloc: Global,
    head: LaneHead,
    number: u8,
    journal: EntryList,
    openings: Openings<S>,
}

impl<S: Store> Drop for ConnJournal<S> {
    fn drop(self) {
        let Self {
            alloc: _,
            head: _head,
            number: _,
            journal: _journal,
            openings: _openings,
        } = self;
    }
}

impl<S: Store> Model for ConnJournal<S> {
    ghost use Rattle.conn_journal.specs.Lanes.{ConnLaneState};
    ghost use Rattle.conn_journal.specs.Inner.Turns.{IsConnLane};

    ghost Value = { ConnLaneState };

    ghost view = { λ l. record { head = l.head; number = l.number; journal = l.journal } };

    ghost invariant = { λ l. IsConnLane l.head l.number l.journal l.openings.state };
}

/// The routing that an event asks.
fn asked_by(plant: &Plant, event: &ReadWish<'_>) -> Option<Asked>
    ensures { (head : LaneHead) → result ≡ conn_asked_of head plant.now event.now }
{
    match event.ask() {
        Some(ask) => Some(asked(plant, &ask)),
        None => None,
    }
}

/// What comes of an event: what it changes in the openings, the routing where it asked one, and the outputs.
#[derive(Drop)]
struct Turn {
    change: Change,
    asked: Option<Asked>,
    outs: Outs,
}

/// The outputs, and the references that a new connection takes.
fn outcome_of(turn: Turn) -> Outcome
    ensures outs { result.outs ≡ turn.outs }
    ensures this { result.this ≡ this_taken turn.change }
    ensures that { result.that ≡ that_taken turn.change }
{
    let Turn {
        change,
        asked: _,
        outs,
    } = turn;
    let (this, that) = change.taken();
    Outcome { outs, this, that }
}

/// A lane's head and number.
#[derive(Clone, Copy)]
struct Context<'a> {
    alloc: Global,
    head: &'a LaneHead,
    number: u8,
}

/// The answer to what no connection hears.
fn stray_outs(alloc: Global, event: &Event) -> Result<Outs, Memory>
    ensures { IfOk result (λ outs. outs ≡ stray_answer event.now) }
{
    let mut outs = Outs::new(alloc);
    stray(alloc, event, &mut outs)?;
    Ok(outs)
}

/// The outputs of the connection that hears an event, or the answer where none does.
fn or_stray(alloc: Global, event: &Event, part: Option<Outs>) -> Result<Outs, Memory>
    ensures { IfOk result (λ outs. outs ≡ unheard part (stray_answer event.now)) }
{
    match part {
        Some(outs) => Ok(outs),
        None => stray_outs(alloc, event),
    }
}

/// The answer of a routing.
fn answer_in(asked: &Option<Asked>) -> Option<&Answer>
    ensures { option_map (λ a. a.now) result ≡ answer_in asked.now }
{
    match asked {
        Some(asked) => Some(&asked.answer),
        None => None,
    }
}

/// How many references an opening takes.
#[tactic(auto, using(crate::proofs::LaneGrows::none_needed))]
fn needed(event: &ReadWish<'_>, answer: Option<&Answer>) -> u8
    ensures { (terms : Terms) → result ≡
        slots_needed (wish_of terms event.now) (option_map (λ a. a.now) answer.entry) }
{
    match answer {
        Some(answer) => Duo::needs_read(event, answer),
        None => 0,
    }
}

impl Context<'_> {
    /// Opens a connection with the lowest free references.
    fn begin<S: Store>(
        &self,
        event: &ReadWish<'_>,
        asked: &Option<Asked>,
        openings: &Openings<S>,
    ) -> Result<Begun, Memory>
        requires taken { openings.now.state.taken ≤ 4_294_967_295 }
        requires credit { IsCredit self.now.head.now.terms.credit }
        requires answered { let wish = wish_of self.now.head.now.terms event.now in
            IsAnswered wish (answer_in asked.now) }
        ensures opened { let wish = wish_of self.now.head.now.terms event.now in
            let answer = answer_in asked.now in
            let lowest = lowest_of openings.now.state.slots (slots_needed wish answer) in
            IfOk result (λ b. opened self.now.head.now.terms wish answer lowest ≡
            record {
              connection = option_map (duo_at openings.now.state.taken) b.duo;
              outs = b.outs;
            }) }
        ensures ticks { IfOk result (λ b.
            IfSome b.duo (λ d. d.ticks ≡ self.now.head.now.terms.ticks)) }
    {
        let answer = answer_in(asked);
        let count = needed(event, answer);
        let refs = openings.lowest_free(count)?;
        let begun = Duo::begin_read(
            self.alloc,
            &self.head.terms,
            openings.taken(),
            event,
            answer,
            refs.as_slice(),
        )?;
        Ok(begun)
    }

    /// A CR, or a user's request for a connection.
    fn open<S: Store>(
        &self,
        plant: &Plant,
        event: &ReadWish<'_>,
        openings: &Openings<S>,
    ) -> Result<Turn, Memory>
        requires taken { openings.now.state.taken ≤ 4_294_967_295 }
        requires number { self.now.number < MOST_LANES }
        requires credit { IsCredit self.now.head.now.terms.credit }
        requires wish { is_wish (wish_of self.now.head.now.terms event.now) ≡ true }
        ensures turns { IfOk result (λ turn.
            TurnsInto plant.now self.now event.now openings.now.state turn) }
        ensures woken { (wakes : ℕ → Bool) → IfOk result (λ turn.
            WakesDue wakes openings.now.state.kept turn.change) }
    {
        let asked = asked_by(plant, event);
        let begun = self.begin(event, &asked, openings)?;
        let change = openings.open(begun.duo)?;
        Ok(Turn {
            change,
            asked,
            outs: begun.outs,
        })
    }

    /// An event that opens no connection, and is no tick.
    fn hear<S: Store>(&self, event: &Event, openings: &Openings<S>) -> Result<Turn, Memory>
        requires standing { IsStanding openings.now.state }
        requires taken { openings.now.state.taken ≤ 4_294_967_295 }
        requires event { is_tick event.now ≡ false }
        requires wish { is_wish (wish_of self.now.head.now.terms event.now) ≡ false }
        ensures turns { (plant : PlantState) →
            IfOk result (λ turn. TurnsInto plant self.now event.now openings.now.state turn) }
        ensures woken { (wakes : ℕ → Bool) → IfOk result (λ turn.
            WakesDue wakes openings.now.state.kept turn.change) }
    {
        let (change, part) = openings.hear(event)?;
        let outs = or_stray(self.alloc, event, part)?;
        Ok(Turn {
            change,
            asked: None,
            outs,
        })
    }

    /// A tick.
    fn tick<S: Store>(&self, openings: &Openings<S>) -> Result<Turn, Memory>
        requires taken { openings.now.state.taken ≤ 4_294_967_295 }
        requires quiet { AreQuiet openings.now.state.taken openings.now.state.kept }
        ensures turns { (plant : PlantState) →
            IfOk result (λ turn. TurnsInto plant self.now Tick openings.now.state turn) }
        ensures woken { IfOk result (λ turn.
            WakesDue (S.due openings.now.store) openings.now.state.kept turn.change) }
    {
        let (change, outs) = openings.tick()?;
        Ok(Turn {
            change,
            asked: None,
            outs,
        })
    }

    /// What comes of an event.
    fn turn<S: Store>(
        &self,
        plant: &Plant,
        event: &Event,
        openings: &Openings<S>,
    ) -> Result<Turn, Memory>
        requires standing { IsStanding openings.now.state }
        requires quiet { AreQuiet openings.now.state.taken openings.now.state.kept }
        requires taken { openings.now.state.taken ≤ 4_294_967_295 }
        requires number { self.now.number < MOST_LANES }
        requires credit { IsCredit self.now.head.now.terms.credit }
        ensures turns { IfOk result (λ turn.
            TurnsInto plant.now self.now event.now openings.now.state turn) }
        ensures woken { IfOk result (λ turn.
            WakesDue (S.due openings.now.store) openings.now.state.kept turn.change) }
    {
        if matches!(event, Event::Tick) {
            return self.tick(openings);
        }
        let wish = ReadWish::of(event);
        if wish.opens() {
            self.open(plant, &wish, openings)
        } else {
            self.hear(event, openings)
        }
    }

    /// The entry of an event, and what it changes in the openings.
    fn entry<S: Store>(
        &self,
        plant: &Plant,
        stamp: Stamp,
        event: Event,
        openings: &Openings<S>,
    ) -> Result<(Change, Entry), Memory>
        requires standing { IsStanding openings.now.state }
        requires quiet { AreQuiet openings.now.state.taken openings.now.state.kept }
        requires taken { openings.now.state.taken ≤ 4_294_967_295 }
        requires number { self.now.number < MOST_LANES }
        requires credit { IsCredit self.now.head.now.terms.credit }
        ensures grows { IfOk result (λ r. Grows plant.now self.now.head.now self.now.number
            openings.now.state (changed r.0 openings.now.state) r.1) }
        ensures fits { (keeps : List Remnant) →
            StandsIn self.now.head.now self.now.number keeps openings.now.state →
            IfOk result (λ r. Fits r.0 openings.now.state) }
        ensures woken { IfOk result (λ r.
            WakesDue (S.due openings.now.store) openings.now.state.kept r.0) }
        ensures stamp { IfOk result (λ r. r.1.stamp ≡ stamp) }
        ensures event { IfOk result (λ r. r.1.event ≡ event) }
    {
        let Turn {
            change,
            asked,
            outs,
        } = self.turn(plant, &event, openings)?;
        let entry = Entry {
            stamp,
            event,
            asked,
            outs: fitted(outs),
        };
        Ok((change, entry))
    }
}

impl<S: Store> ConnJournal<S> {
    ghost use Rattle.section_model.specs.Journals.{IsConnJournal};
    ghost use Rattle.conn_journal.specs.Lanes.{ConnLaneTakes};
    ghost use Rattle.conn_journal.specs.Outcomes.{IsOutcome};

    /// The connection lane of this number, 0 to 15, before its first event. The greatest credit of its head is 127 at most.
    pub fn new(alloc: Global, head: &LaneHead, number: u8) -> Result<ConnJournal<S>, Memory>
        requires number { number < MOST_LANES }
        requires credit { IsCredit head.now.terms.credit }
        ensures { IfOk result (λ lane. lane ≡
            record { head = head.now; number = number; journal = [] }) }
    {
        let openings = Openings::new(alloc, number, head.terms.ticks.freeze)?;
        let head = head.copy(alloc)?;
        Ok(ConnJournal {
            alloc,
            head,
            number,
            journal: EntryList::new(alloc),
            openings,
        })
    }

    /// What would come of an event that it takes next, with these routing data. It takes none.
    pub fn outcome(&self, plant: &Plant, event: &Event) -> Result<Outcome, Memory>
        requires few { length self.now.journal < 2 ^ 32 }
        ensures { IfOk result (IsOutcome plant.now event.now self.now) }
    {
        let context = Context {
            alloc: self.alloc,
            head: &self.head,
            number: self.number,
        };
        let turn = context.turn(plant, event, &self.openings)?;
        Ok(outcome_of(turn))
    }

    /// Takes an event, with these routing data. After want of memory the lane is as before, and takes a later event like any other.
    pub fn step(&mut self, plant: &Plant, stamp: Stamp, event: &Event) -> Result<(), Memory>
        requires few { length self.old.journal < 2 ^ 32 }
        ensures ok { OnOk result (ConnLaneTakes plant.now stamp event.now self.old self.new) }
        ensures err { OnErr result (self.new ≡ self.old) }
    {
        let event = event.copied()?;
        self.step_owned(plant, stamp, event)
    }

    /// The same with an event that becomes the journal's own, so that none is copied.
    pub fn step_owned(&mut self, plant: &Plant, stamp: Stamp, event: Event) -> Result<(), Memory>
        requires few { length self.old.journal < 2 ^ 32 }
        ensures ok { OnOk result (ConnLaneTakes plant.now stamp event self.old self.new) }
        ensures err { OnErr result (self.new ≡ self.old) }
    {
        let context = Context {
            alloc: self.alloc,
            head: &self.head,
            number: self.number,
        };
        let (change, entry) = context.entry(plant, stamp, event, &self.openings)?;
        self.openings.write(change, &mut self.journal, entry)
    }

    /// What the lane did, event by event.
    pub fn journal(&self) -> &EntryList
        ensures value { result.now ≡ self.now.journal }
        ensures legal { IsConnJournal self.now.head self.now.number self.now.journal }
    {
        &self.journal
    }

    /// What the lane did, as a list of its own.
    pub fn into_journal(self) -> EntryList
        ensures value { result ≡ self.journal }
        ensures legal { IsConnJournal self.head self.number self.journal }
    {
        let Self {
            alloc: _,
            head: _head,
            number: _,
            journal,
            openings: _openings,
        } = self;
        journal
    }
}
