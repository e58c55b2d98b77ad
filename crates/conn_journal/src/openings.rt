//! What a lane keeps: its connections that aren't over, and its local references.
ghost use Rattle.std.specs.Prelude.{◌≡◌, ◌≤◌, ◌<◌, ◌+◌, ◌++◌, ◌∷◌, [], ℕ, Bool, List, Some, None, map, length, get_or, replicate, slice_get, false, IfOk, IfSome, OnOk, OnErr};
ghost use Rattle.relay_base.specs.declared.words.Event.TheVariants.{Tick};
ghost use Rattle.relay_base.specs.declared.limits.TheConstants.{MOST_LANES, SLOTS};
ghost use Rattle.std.specs.Option.{option_map};
ghost use Rattle.section_model.specs.Lane.{is_tick};
ghost use Rattle.local_refs.specs.Slots.{free_references};
ghost use Rattle.local_refs.specs.declared.state.SlotState.TheVariants.{Free};
ghost use Rattle.conn_journal.specs.Inner.Remnants.{Remnant, remnant_after, first_part, all_parts};
ghost use Rattle.conn_journal.specs.Inner.Seated.{reference_in};
ghost use Rattle.conn_journal.specs.Inner.Views.{IsAlive, OpeningsState};
ghost use Rattle.conn_journal.specs.Inner.Finding.{IsPlaceIn};
ghost use Rattle.conn_journal.specs.Inner.Stands.{Stands, IsStanding};
ghost use Rattle.conn_journal.specs.Inner.Ticking.{AreTicked, WokenAt};
ghost use Rattle.conn_journal.specs.Inner.Waking.{is_in, count_of, AreQuiet, WakesAll, AllWoken, WakesDue};
ghost use Rattle.conn_journal.specs.Inner.Changes.{given_up, all_given_up, owned, all_disowned, taking, put, put_all, ticked, changed, listed, CanGiveUp, CanAllGiveUp, CanBePut, CanAllBePut, CanTake, Fits, Makes, Opens, TakesNone};
ghost use Rattle.conn_journal.specs.Inner.Lowest.{lowest_of};

use crate::change::{Change, NewConnection, Next};
use crate::index::Index;
use crate::kept::{Heard, Kept};
use crate::store::Store;
use local_refs::Slots;
use plant_core::{Entry, EntryList};
use relay_base::{Event, Memory, Outs, PlainList, Ref24};
use section_coupling::{Duo, ReadEvent, named};
use std::alloc::Global;
use std::marker::Model;

/// Local references, in order.
pub type RefList = PlainList<Ref24>;

/// The store of the connections of a lane; its slots; and for each slot the connection an end of which has it.
pub struct Openings<S: Store> {
    alloc: Global,
    store: S,
    slots: Slots,
    index: Index,
}

impl<S: Store> Drop for Openings<S> {
    fn drop(self) {
        let Self {
            alloc: _,
            store: _store,
            slots: _slots,
            index: _index,
        } = self;
    }
}

impl<S: Store> Model for Openings<S> {
    ghost use Rattle.conn_journal.specs.Inner.Views.{StoredOpenings};

    ghost Value = { StoredOpenings S };

    ghost view = { λ o. record {
      state = record {
        taken = S.taken o.store;
        kept = S.kept o.store;
        slots = o.slots;
        owners = o.index;
      };
      store = o.store;
    } };
}

/// The local reference that a message or a request names.
fn reference_in(event: &ReadEvent<'_>) -> Option<Ref24>
    ensures { result ≡ reference_in event.now }
{
    match event.event() {
        Event::Message { .. } => event.destination(),
        Event::Asked { request, .. } => named(request),
        Event::Tick => None,
    }
}

/// What a tick makes of a connection, unless it is over.
fn tick(alloc: Global, now: u32, one: Option<&Kept>) -> Result<Option<Heard>, Memory>
    ensures { IfOk result (λ heard. WokenAt now (option_map (λ k. k.now) one.entry) heard) }
{
    match one {
        Some(one) => {
            let heard = one.tick(alloc, now)?;
            Ok(Some(heard))
        }
        None => Ok(None),
    }
}

/// The connections that a tick wakes, and the outputs, one after another; `now` is how many ticks the lane took before.
fn ticked<S: Store>(
    alloc: Global,
    now: u32,
    store: &S,
    numbers: &[usize],
) -> Result<(Vec<Next>, Outs), Memory>
    requires wakes { WakesAll now (S.kept store.now) 0 numbers.now }
    ensures ticked { (keeps : List Remnant) (o : OpeningsState) → Stands keeps o → o.taken ≡ now →
        o.kept ≡ S.kept store.now → IfOk result (λ r. AreTicked keeps o r.0.items r.1) }
    ensures woken { IfOk result (λ r.
        AllWoken (λ n. is_in n numbers.now) (S.kept store.now) r.0.items) }
{
    let mut nexts = Vec::new(alloc);
    let mut outs = Outs::new(alloc);
    for number in numbers {
        let number = *number;
        if let Some(heard) = tick(alloc, now, store.get(number))? {
            outs.append(heard.outs)?;
            nexts.push(Next {
                number,
                one: heard.one,
                this: heard.this,
                that: heard.that,
            })?;
        }
    }
    Ok((nexts, outs))
}

/// Takes memory for what an event changes, and puts an entry at the end of the journal. After `Memory` the journal is as before.
fn enter<S: Store>(
    store: &mut S,
    change: &Change,
    journal: &mut EntryList,
    entry: Entry,
) -> Result<(), Memory>
    ensures taken { S.taken store.new ≡ S.taken store.old }
    ensures kept { S.kept store.new ≡ S.kept store.old }
    ensures due { (number : ℕ) → S.due store.new number ≡ S.due store.old number }
    ensures room { OnOk result (S.has_room store.new (count_of change.now)) }
    ensures journal { OnOk result (journal.new ≡ journal.old ++ entry ∷ []) }
    ensures err { OnErr result (journal.new ≡ journal.old) }
{
    // Room for connections is taken here, so that the journal grows last of what may lack memory.
    store.reserve(change.count())?;
    journal.push(entry)?;
    Ok(())
}

/// An end gives its reference up, if it is one.
fn give_up(slots: &mut Slots, index: &mut Index, mine: Option<Ref24>)
    requires { CanGiveUp mine slots.old }
    ensures slots { slots.new ≡ given_up mine slots.old }
    ensures owners { index.new ≡ owned mine None index.old }
{
    if let Some(mine) = mine {
        slots.freeze(mine);
    }
    index.note(mine, None);
}

/// The ends of connections give their references up, as these are next.
fn give_all_up(slots: &mut Slots, index: &mut Index, nexts: &[Next])
    requires { CanAllGiveUp nexts.now slots.old }
    ensures slots { slots.new ≡ all_given_up nexts.now slots.old }
    ensures owners { index.new ≡ all_disowned nexts.now index.old }
{
    for next in nexts {
        give_up(slots, index, next.this);
        give_up(slots, index, next.that);
    }
}

impl<S: Store> Openings<S> {
    /// Before the first event of the lane of this number, whose references freeze for so many ticks.
    pub fn new(alloc: Global, number: u8, freeze: u32) -> Result<Openings<S>, Memory>
        requires number { number < MOST_LANES }
        ensures { let states = replicate SLOTS Free in
            IfOk result (λ o. o.state ≡
            record {
              taken = 0;
              kept = [];
              slots = record {
                lane = number;
                freeze = freeze;
                states = states;
                generations = replicate SLOTS 0;
              };
              owners = replicate (SLOTS + 1) None;
            }) }
    {
        let slots = Slots::new(alloc, number, freeze)?;
        let index = Index::new(alloc)?;
        Ok(Openings {
            alloc,
            store: S::new(alloc),
            slots,
            index,
        })
    }

    /// How many ticks the lane has taken.
    pub fn taken(&self) -> u64
        ensures { result ≡ self.now.state.taken }
    {
        self.store.taken()
    }

    /// The number of the connection an end of which has the slot of the reference that an event names. Whether it hears the event, it tells by the
    /// whole reference.
    fn number_of(&self, event: &ReadEvent<'_>) -> Option<usize>
        requires standing { IsStanding self.now.state }
        ensures place { (keeps : List Remnant) → Stands keeps self.now.state →
            IsPlaceIn event.now keeps result }
        ensures within { IfSome result (λ number. number < length self.now.state.kept) }
    {
        let mine = reference_in(event)?;
        self.index.owner(mine)
    }

    /// What an event changes, which is no tick, and the outputs of the connection that hears it, if one does.
    pub fn hear(&self, event: &Event) -> Result<(Change, Option<Outs>), Memory>
        requires standing { IsStanding self.now.state }
        requires event { is_tick event.now ≡ false }
        requires taken { self.now.state.taken ≤ 4_294_967_295 }
        ensures part { (keeps : List Remnant) → Stands keeps self.now.state →
            IfOk result (λ r. r.1 ≡ first_part event.now keeps) }
        ensures makes { (keeps : List Remnant) → Stands keeps self.now.state →
            let later = map (remnant_after event.now) keeps in
            IfOk result (λ r. Makes r.0 self.now.state self.now.state.taken later) }
        ensures woken { (wakes : ℕ → Bool) →
            IfOk result (λ r. WakesDue wakes self.now.state.kept r.0) }
        ensures takes { IfOk result (λ r. TakesNone r.0) }
    {
        self.hear_read(ReadEvent::of(event))
    }

    /// The same of an event that was read.
    fn hear_read(&self, event: ReadEvent<'_>) -> Result<(Change, Option<Outs>), Memory>
        requires standing { IsStanding self.now.state }
        requires event { is_tick event ≡ false }
        requires taken { self.now.state.taken ≤ 4_294_967_295 }
        ensures part { (keeps : List Remnant) → Stands keeps self.now.state →
            IfOk result (λ r. r.1 ≡ first_part event.entry keeps) }
        ensures makes { (keeps : List Remnant) → Stands keeps self.now.state →
            let later = map (remnant_after event.entry) keeps in
            IfOk result (λ r. Makes r.0 self.now.state self.now.state.taken later) }
        ensures woken { (wakes : ℕ → Bool) →
            IfOk result (λ r. WakesDue wakes self.now.state.kept r.0) }
        ensures takes { IfOk result (λ r. TakesNone r.0) }
    {
        let Some(number) = self.number_of(&event) else {
            return Ok((Change::Nothing, None));
        };
        let Some(one) = self.store.get(number) else {
            return Ok((Change::Nothing, None));
        };
        match one.hear(self.alloc, self.store.taken() as u32, event)? {
            Some(heard) => {
                let next = Next {
                    number,
                    one: heard.one,
                    this: heard.this,
                    that: heard.that,
                };
                Ok((Change::Heard(next), Some(heard.outs)))
            }
            None => Ok((Change::Nothing, None)),
        }
    }

    /// What a tick changes, and the outputs of the connections that it wakes, one after another.
    pub fn tick(&self) -> Result<(Change, Outs), Memory>
        requires taken { self.now.state.taken ≤ 4_294_967_295 }
        requires quiet { AreQuiet self.now.state.taken self.now.state.kept }
        ensures outs { (keeps : List Remnant) → Stands keeps self.now.state →
            IfOk result (λ r. r.1 ≡ all_parts Tick keeps) }
        ensures makes { (keeps : List Remnant) → Stands keeps self.now.state →
            let later = map (remnant_after Tick) keeps in
            IfOk result (λ r. Makes r.0 self.now.state (self.now.state.taken + 1) later) }
        ensures woken { IfOk result (λ r.
            WakesDue (S.due self.now.store) self.now.state.kept r.0) }
        ensures takes { IfOk result (λ r. TakesNone r.0) }
    {
        let numbers = self.store.due(self.alloc)?;
        let now = self.store.taken() as u32;
        let (nexts, outs) = ticked(self.alloc, now, &self.store, numbers.as_slice())?;
        Ok((Change::Ticked(nexts), outs))
    }

    /// What a new connection changes, if there is one.
    pub fn open(&self, duo: Option<Duo>) -> Result<Change, Memory>
        requires alive { IfSome duo IsAlive }
        ensures opens { IfOk result (λ change. Opens duo change) }
        ensures woken { (wakes : ℕ → Bool) →
            IfOk result (λ change. WakesDue wakes self.now.state.kept change) }
    {
        let Some(duo) = duo else {
            return Ok(Change::Nothing);
        };
        let this = duo.reference(0);
        let that = duo.reference(1);
        let one = Kept::new(self.alloc, duo)?;
        Ok(Change::Opened(NewConnection { one, this, that }))
    }

    /// The local references of so many lowest free slots, or none where there are too few.
    pub fn lowest_free(&self, count: u8) -> Result<RefList, Memory>
        ensures { IfOk result (λ refs. refs ≡ lowest_of self.now.state.slots count) }
    {
        let mut lowest = RefList::new(self.alloc);
        for at in 0..count {
            match self.slots.peek(at) {
                Some(mine) => lowest.push(mine)?,
                None => return Ok(RefList::new(self.alloc)),
            }
        }
        Ok(lowest)
    }

    /// Puts an entry at the end of the journal, and makes what comes of its event. After `Memory` the journal and the openings are as before.
    pub fn write(
        &mut self,
        change: Change,
        journal: &mut EntryList,
        entry: Entry,
    ) -> Result<(), Memory>
        requires taken { self.old.state.taken ≤ 4_294_967_295 }
        requires count { length self.old.state.kept ≤ 4_294_967_295 }
        requires fits { Fits change self.old.state }
        requires woken { WakesDue (S.due self.old.store) self.old.state.kept change }
        ensures journal { OnOk result (journal.new ≡ journal.old ++ entry ∷ []) }
        ensures openings { OnOk result (self.new.state ≡ changed change self.old.state) }
        ensures err { OnErr result ((journal.new ≡ journal.old) × (self.new.state ≡ self.old.state)) }
    {
        enter(&mut self.store, &change, journal, entry)?;
        match change {
            Change::Nothing => {}
            Change::Heard(next) => self.put(next),
            Change::Opened(NewConnection { one, this, that }) => {
                let number = self.store.opened();
                self.store.open(one);
                self.take_both(number, this, that);
            }
            Change::Ticked(nexts) => self.advance(nexts),
        }
        Ok(())
    }

    /// A connection as it is next.
    fn put(&mut self, next: Next)
        requires count { length self.old.state.kept ≤ 4_294_967_295 }
        requires fits { CanBePut next self.old.state }
        requires room { S.has_room self.old.store 1 }
        ensures { self.new.state ≡ put next self.old.state }
    {
        let Next {
            number,
            one,
            this,
            that,
        } = next;
        self.store.put(number, one);
        give_up(&mut self.slots, &mut self.index, this);
        give_up(&mut self.slots, &mut self.index, that);
    }

    /// A tick more, with the connections that it changes.
    fn advance(&mut self, nexts: Vec<Next>)
        requires taken { self.old.state.taken ≤ 4_294_967_295 }
        requires count { length self.old.state.kept ≤ 4_294_967_295 }
        requires fits { CanAllBePut nexts.items (ticked self.old.state) }
        requires woken { AllWoken (S.due self.old.store) self.old.state.kept nexts.items }
        requires room { S.has_room self.old.store (length nexts.items) }
        ensures { self.new.state ≡ put_all nexts.items (ticked self.old.state) }
    {
        self.slots.tick();
        give_all_up(&mut self.slots, &mut self.index, nexts.as_slice());
        self.store.advance(nexts);
    }

    /// The ends of the connection of this number take the lowest free references, each if it takes one.
    fn take_both(&mut self, number: usize, this: Option<Ref24>, that: Option<Ref24>)
        requires { CanTake this that self.old.state }
        ensures { self.new.state ≡ taking that number (taking this number self.old.state) }
    {
        self.take(this, number);
        self.take(that, number);
    }

    /// An end of the connection of this number takes the lowest free reference, if it takes one.
    fn take(&mut self, mine: Option<Ref24>, number: usize)
        requires free { IfSome mine (λ m. slice_get (free_references self.old.state.slots) 0 ≡ Some m) }
        ensures value { self.new.state ≡ taking mine number self.old.state }
        ensures rest { (rest : List ℕ) →
            free_references self.old.state.slots ≡ listed mine ++ rest →
            free_references self.new.state.slots ≡ rest }
    {
        if mine.is_some() {
            self.slots.take_lowest().unwrap();
        }
        self.index.note(mine, Some(number));
    }
}
