//! The run of a capture.
ghost use Rattle.std.specs.Prelude.{◌≡◌, ◌<◌, ◌^◌, [], length, IfOk, OnOk, OnErr};
ghost use Rattle.std.specs.List.{AllByRecursion};
ghost use Rattle.section_model.specs.Journals.{IsConnJournal};
ghost use Rattle.data_lane.specs.Legal.{IsDataJournal};
ghost use Rattle.node_head.specs.Ranges.{IsHead};
ghost use Rattle.journal_text.specs.Book.{IsEmpty};
ghost use Rattle.capture_form.specs.Events.{all_events, IsStamped};
ghost use Rattle.right_book.specs.Right.{HasServed, IsRight};
ghost use Rattle.node_engine.specs.Running.{CanTake, HasLegal, IsOf, book_of, conn_journals, data_journals};

use crate::copies::phases_copy;
use crate::node::{ConnLaneList, DataLaneList, Node};
use crate::phase::run_phase_owned;
use capture_form::{Book, Capture, PhaseList};
use node_head::Head;
use plant_core::JournalList;
use relay_base::{Memory, Pace};
use std::alloc::Global;
use std::sync::Wait;
use std::thread::Threads;

/// The lanes take the events of all phases, one phase after the other.
fn run_phases<R: Threads + Wait + Sync, P: Pace>(
    rt: &R,
    alloc: Global,
    head: &Head,
    phases: PhaseList,
    node: &mut Node,
    pace: &P,
) -> Result<(), Memory>
    requires able { CanTake head.now (all_events phases) node.old }
    requires stamped { IsStamped head.now phases }
    requires served { HasServed head.now [] (book_of node.old) }
    ensures lanes { OnOk result (IsOf head.now node.new) }
    ensures served { OnOk result (HasServed head.now phases (book_of node.new)) }
{
    for phase in phases.into_vec() {
        run_phase_owned(rt, alloc, head, phase, node, pace)?;
    }
    Ok(())
}

/// The journals of connection lanes.
fn conn_journals(alloc: Global, lanes: ConnLaneList) -> Result<JournalList, Memory>
    ensures value { IfOk result (λ journals. journals ≡ conn_journals lanes.items) }
    ensures legal { IfOk result (λ journals.
        AllByRecursion (λ l. IsConnJournal l.head l.number l.journal) lanes.items) }
{
    let mut journals = JournalList::new(alloc);
    for lane in lanes {
        journals.push(lane.into_journal())?;
    }
    Ok(journals)
}

/// The journals of data lanes.
fn data_journals(alloc: Global, lanes: DataLaneList) -> Result<JournalList, Memory>
    ensures value { IfOk result (λ journals. journals ≡ data_journals lanes.items) }
    ensures legal { IfOk result (λ journals.
        AllByRecursion (λ l. IsDataJournal l.head l.number l.journal) lanes.items) }
{
    let mut journals = JournalList::new(alloc);
    for lane in lanes {
        journals.push(lane.into_journal())?;
    }
    Ok(journals)
}

/// The book of lanes.
fn book_of(alloc: Global, node: Node) -> Result<Book, Memory>
    ensures value { IfOk result (λ book. book ≡ book_of node) }
    ensures legal { IfOk result (λ book. HasLegal node) }
{
    let Node {
        control,
        conns,
        units,
    } = node;
    Ok(Book {
        control: control.into_journal(),
        conns: conn_journals(alloc, conns)?,
        units: data_journals(alloc, units)?,
    })
}

/// Lanes before their first event, once they have taken the events of phases.
fn node_run<R: Threads + Wait + Sync, P: Pace>(
    rt: &R,
    alloc: Global,
    head: &Head,
    phases: PhaseList,
    mut node: Node,
    pace: &P,
) -> Result<Node, Memory>
    requires able { CanTake head.now (all_events phases) node }
    requires stamped { IsStamped head.now phases }
    requires served { HasServed head.now [] (book_of node) }
    ensures lanes { IfOk result (IsOf head.now) }
    ensures served { IfOk result (λ node. HasServed head.now phases (book_of node)) }
{
    run_phases(rt, alloc, head, phases, &mut node, pace)?;
    Ok(node)
}

/// The lanes of a head, once they have taken the events of phases.
fn node_after<R: Threads + Wait + Sync, P: Pace>(
    rt: &R,
    alloc: Global,
    head: &Head,
    phases: PhaseList,
    pace: &P,
) -> Result<Node, Memory>
    requires head { IsHead head.now }
    requires stamped { IsStamped head.now phases }
    requires few { length (all_events phases) < 2 ^ 32 }
    ensures lanes { IfOk result (IsOf head.now) }
    ensures served { IfOk result (λ node. HasServed head.now phases (book_of node)) }
{
    let node = Node::start(alloc, head)?;
    node_run(rt, alloc, head, phases, node, pace)
}

/// The book of a head and phases.
fn book_after<R: Threads + Wait + Sync, P: Pace>(
    rt: &R,
    alloc: Global,
    head: &Head,
    phases: PhaseList,
    pace: &P,
) -> Result<Book, Memory>
    requires head { IsHead head.now }
    requires stamped { IsStamped head.now phases }
    requires few { length (all_events phases) < 2 ^ 32 }
    ensures { IfOk result (IsRight head.now phases) }
{
    let node = node_after(rt, alloc, head, phases, pace)?;
    book_of(alloc, node)
}

/// Runs the phases of a capture, whose events move into the lanes, and fills the book. After want of memory the book is empty.
pub fn run_owned<R: Threads + Wait + Sync, P: Pace>(
    rt: &R,
    alloc: Global,
    head: &Head,
    phases: PhaseList,
    pace: &P,
    book: &mut Book,
) -> Result<(), Memory>
    requires head { IsHead head.now }
    requires stamped { IsStamped head.now phases }
    requires few { length (all_events phases) < 2 ^ 32 }
    requires empty { IsEmpty book.old }
    ensures ok { OnOk result (IsRight head.now phases book.new) }
    ensures err { OnErr result (IsEmpty book.new) }
{
    *book = book_after(rt, alloc, head, phases, pace)?;
    Ok(())
}

/// Runs a copy of the phases of a capture, and fills the book. After want of memory the book is empty.
pub fn run_capture<R: Threads + Wait + Sync, P: Pace>(
    rt: &R,
    alloc: Global,
    capture: &Capture,
    pace: &P,
    book: &mut Book,
) -> Result<(), Memory>
    requires head { IsHead capture.now.head }
    requires stamped { IsStamped capture.now.head capture.now.phases }
    requires few { length (all_events capture.now.phases) < 2 ^ 32 }
    requires empty { IsEmpty book.old }
    ensures ok { OnOk result (IsRight capture.now.head capture.now.phases book.new) }
    ensures err { OnErr result (IsEmpty book.new) }
{
    let phases = phases_copy(alloc, &capture.phases)?;
    run_owned(rt, alloc, &capture.head, phases, pace, book)
}
