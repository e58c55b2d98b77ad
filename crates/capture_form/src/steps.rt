//! What one line adds to what was read.
ghost use Rattle.std.specs.Prelude.{◌≡◌, ◌<◌, ◌+◌, ◌-◌, ◌^◌, length, Some, IfOk, OnOk, Ok};
ghost use Rattle.capture_form.specs.Capture.{Reads};
ghost use Rattle.capture_form.specs.Inner.LineRead.{may_stand_as};
ghost use Rattle.capture_form.specs.Inner.Reader.{Takes, AreAsMany, IsStill, IsWithin, IsReadWithin, pushed, with_event, empty_phase, nothing_read, phase_ended, barrier_taken, tick_counted, line_counted, meaning_taken, event_put, event_taken, read_taken, at_line};

use crate::changes::{OpenGroup, alone};
use crate::fault::{CaptureFault, Limit, LineFault, LineKind};
use crate::groups::{Standing, may_stand, placed};
use crate::line_read::{EventRead, LineRead, Saying};
use crate::meaning::Meaning;
use crate::reading::{Phase, PhaseList, Reading, StampedControlList};
use node_head::Head;
use plant_core::{Change, ChangeList, ControlEvent, Group};
use relay_base::{Memory, Stamp};
use std::alloc::Global;
use std::mem;

/// The most event lines, barriers not counted.
pub const MOST_LINES: u32 = 200_000;

/// The most tick lines.
pub const MOST_TICK_LINES: u32 = 20_000;

/// The most barriers.
pub const MOST_BARRIERS: u32 = 1_000;

/// The empty lists of a phase.
fn empty_phase(alloc: Global, links: u8) -> Result<Phase, Memory>
    ensures { IfOk result (λ phase. phase ≡ empty_phase links) }
{
    let mut phase = Phase::new(alloc);
    phase.push(StampedControlList::new(alloc))?;
    for _link in 0..links {
        phase.push(StampedControlList::new(alloc))?;
    }
    Ok(phase)
}

/// Nothing is read but the head.
pub fn nothing_read(alloc: Global, head: &Head) -> Result<Reading, Memory>
    ensures { IfOk result (λ read. read ≡ nothing_read head.now) }
{
    Ok(Reading {
        phases: PhaseList::new(alloc),
        current: empty_phase(alloc, head.links)?,
        phase: 1,
        line: 0,
        events: 0,
        ticks: 0,
        group: None,
    })
}

/// Puts an event at the end of its link's list.
fn put(
    alloc: Global,
    phase: &mut Phase,
    link: usize,
    event: (Stamp, ControlEvent),
) -> Result<(), Memory>
    requires { link < length phase.old }
    ensures { OnOk result (phase.new ≡ pushed phase.old link event) }
{
    let mut lists = mem::replace(phase, Phase::new(alloc)).into_vec();
    lists[link].push(event)?;
    *phase = Phase::from(lists);
    Ok(())
}

/// What is wrong with the line of this number, if it is at fault.
fn at_line<T: Drop>(line: u32, form: Result<T, LineKind>) -> Result<T, CaptureFault>
    ensures { Reads result (at_line line form) }
{
    match form {
        Ok(said) => Ok(said),
        Err(kind) => Err(CaptureFault::Line(LineFault { line, kind })),
    }
}

/// The same events, in no more memory than they take.
fn fitted(alloc: Global, phase: Phase) -> Phase
    ensures { result ≡ phase }
{
    let mut lists = phase.into_vec();
    for link in 0..lists.len() {
        let list = mem::replace(&mut lists[link], StampedControlList::new(alloc));
        let mut events = list.into_vec();
        events.shrink_to_fit();
        lists[link] = StampedControlList::from(events);
    }
    Phase::from(lists)
}

/// Ends the phase that stands, and begins the next one.
fn end_phase(alloc: Global, head: &Head, read: &mut Reading) -> Result<(), CaptureFault>
    requires few { read.old.phase + 1 < 2 ^ 32 }
    requires links { length read.old.current ≡ head.now.links + 1 }
    ensures value { Takes read.new result (Ok (phase_ended head.now read.old)) }
    ensures kept { OnOk result (AreAsMany read.old read.new) }
{
    let next = empty_phase(alloc, head.links)?;
    let ended = mem::replace(&mut read.current, next);
    read.phases.push(fitted(alloc, ended))?;
    read.phase += 1;
    Ok(())
}

/// Takes a barrier.
fn take_barrier(
    alloc: Global,
    head: &Head,
    read: &mut Reading,
    standing: Standing,
    form: Result<(), LineKind>,
) -> Result<(), CaptureFault>
    requires links { length read.old.current ≡ head.now.links + 1 }
    ensures value { let stands = may_stand_as read.old.group standing in
        Takes read.new result (barrier_taken head.now read.old stands form) }
    ensures kept { OnOk result (AreAsMany read.old read.new) }
{
    if read.phase > MOST_BARRIERS {
        return Err(CaptureFault::TooLong(Limit::Barriers));
    }
    let stands = may_stand(&read.group, standing);
    at_line(read.line, placed(stands, form))?;
    end_phase(alloc, head, read)
}

/// Counts a tick line.
fn count_tick(read: &mut Reading) -> Result<(), CaptureFault>
    ensures value { Takes read.new result (tick_counted read.old) }
    ensures kept { IsStill read.old read.new }
    ensures events { read.new.events ≡ read.old.events }
{
    if read.ticks >= MOST_TICK_LINES {
        return Err(CaptureFault::TooLong(Limit::Ticks));
    }
    read.ticks += 1;
    Ok(())
}

/// Counts an event line, and whether it is a tick line.
fn count_line(read: &mut Reading, is_tick: bool) -> Result<(), CaptureFault>
    ensures value { Takes read.new result (line_counted read.old is_tick) }
    ensures kept { IsStill read.old read.new }
    ensures few { OnOk result (read.new.events < MOST_LINES) }
{
    if read.events >= MOST_LINES {
        return Err(CaptureFault::TooLong(Limit::Lines));
    }
    if is_tick { count_tick(read) } else { Ok(()) }
}

/// Puts the event of a line on the list of its link.
fn put_event(alloc: Global, read: &mut Reading, link: u8, event: ControlEvent) -> Result<(), Memory>
    requires { link < length read.old.current }
    ensures { let current = with_event read.old (Some (link, event)) in
        OnOk result (read.new ≡ record read.old { current = current }) }
{
    let stamp = Stamp {
        phase: read.phase,
        link,
        line: read.line,
    };
    put(alloc, &mut read.current, usize::from(link), (stamp, event))
}

/// Takes an edit, alone or into the group that stands open.
fn take_edit(alloc: Global, read: &mut Reading, change: Change) -> Result<(), Memory>
    requires { 0 < length read.old.current }
    ensures { OnOk result (read.new ≡ meaning_taken read.old (Meaning.Edit change)) }
{
    if let Some(group) = &mut read.group {
        return group.put(change);
    }
    put_event(alloc, read, 0, alone(alloc, change))
}

/// Begins a group at this line.
fn begin_group(alloc: Global, read: &mut Reading)
    ensures { read.new ≡ meaning_taken read.old Meaning.Begin }
{
    read.group = Some(OpenGroup {
        line: read.line,
        changes: ChangeList::new(alloc),
    });
}

/// Ends the group that stands open: its changes are one event.
fn end_group(alloc: Global, read: &mut Reading) -> Result<(), Memory>
    requires { 0 < length read.old.current }
    ensures { OnOk result (read.new ≡ meaning_taken read.old Meaning.Commit) }
{
    match read.group.take() {
        None => Ok(()),
        Some(OpenGroup { changes, .. }) => {
            put_event(alloc, read, 0, ControlEvent::Change(Group { changes }))
        }
    }
}

/// Takes what an event line means.
fn take_meaning(alloc: Global, read: &mut Reading, meaning: Meaning) -> Result<(), Memory>
    requires some { 0 < length read.old.current }
    requires within { IsWithin (length read.old.current - 1) meaning }
    ensures { OnOk result (read.new ≡ meaning_taken read.old meaning) }
{
    match meaning {
        Meaning::Event(link, event) => put_event(alloc, read, link, event),
        Meaning::Edit(change) => take_edit(alloc, read, change),
        Meaning::Begin => {
            begin_group(alloc, read);
            Ok(())
        }
        Meaning::Commit => end_group(alloc, read),
    }
}

/// Takes an event line that was counted, if it may stand where it does.
fn put_meaning(
    alloc: Global,
    read: &mut Reading,
    stands: bool,
    form: Result<Meaning, LineKind>,
) -> Result<(), CaptureFault>
    requires some { 0 < length read.old.current }
    requires within { IfOk form (IsWithin (length read.old.current - 1)) }
    requires few { read.old.events < MOST_LINES }
    ensures value { Takes read.new result (event_put stands form read.old) }
    ensures kept { OnOk result (AreAsMany read.old read.new) }
{
    let meaning = at_line(read.line, placed(stands, form))?;
    take_meaning(alloc, read, meaning)?;
    read.events += 1;
    Ok(())
}

/// Takes an event line.
fn take_event(alloc: Global, read: &mut Reading, event: EventRead) -> Result<(), CaptureFault>
    requires some { 0 < length read.old.current }
    requires within { IfOk event.meaning (IsWithin (length read.old.current - 1)) }
    ensures value { let stands = may_stand_as read.old.group event.standing in
        Takes read.new result (event_taken read.old event.is_tick stands event.meaning) }
    ensures kept { OnOk result (AreAsMany read.old read.new) }
{
    count_line(read, event.is_tick)?;
    let stands = may_stand(&read.group, event.standing);
    put_meaning(alloc, read, stands, event.meaning)
}

/// Takes a line.
pub fn take_line(
    alloc: Global,
    head: &Head,
    read: &mut Reading,
    line: LineRead,
) -> Result<(), CaptureFault>
    requires links { length read.old.current ≡ head.now.links + 1 }
    requires within { IsReadWithin head.now.links line }
    ensures value { Takes read.new result (read_taken head.now read.old line) }
    ensures kept { OnOk result (AreAsMany read.old read.new) }
{
    let LineRead { number, saying } = line;
    read.line = number;
    match saying {
        Saying::Barrier(standing, form) => take_barrier(alloc, head, read, standing, form),
        Saying::Event(event) => take_event(alloc, read, event),
    }
}
