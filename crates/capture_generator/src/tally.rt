//! How many entries and outputs the journals of a book have.
ghost use Rattle.std.specs.Prelude.{◌≡◌, ◌++◌, codes, string_bytes, IfOk, OnOk};
ghost use Rattle.capture_generator.specs.Counts.{counts_line, counts_text};
ghost use Rattle.capture_generator.specs.Inner.Tally.{no_counts, counts_of, with_output, with_entry, with_journal, with_control, with_lanes};

use crate::count::Count;
use journal_text::Book;
use plant_core::{ControlEntry, Entry, EntryList};
use relay_base::{Memory, Octets, Output};
use std::alloc::{AllocError, Global};

/// How many entries there are, and how many of their outputs are messages that were sent, what users were told, and losses.
#[derive(Drop)]
pub struct Counts {
    pub entries: Count,
    pub sent: Count,
    pub told: Count,
    pub lost: Count,
}

impl Counts {
    /// Nothing is counted yet.
    fn new(alloc: Global) -> Counts
        ensures { result ≡ no_counts }
    {
        Counts {
            entries: Count::new(alloc),
            sent: Count::new(alloc),
            told: Count::new(alloc),
            lost: Count::new(alloc),
        }
    }

    /// Counts one output.
    fn take_output(&mut self, output: &Output) -> Result<(), Memory>
        ensures { OnOk result (self.new ≡ with_output self.old output.now) }
    {
        match output {
            Output::Sent { .. } => self.sent.add_one(),
            Output::Told { .. } => self.told.add_one(),
            Output::Lost(_) => self.lost.add_one(),
        }
    }

    /// Counts one entry.
    fn take_entry(&mut self, outs: &[Output]) -> Result<(), Memory>
        ensures { OnOk result (self.new ≡ with_entry self.old outs.now) }
    {
        self.entries.add_one()?;
        for output in outs {
            self.take_output(output)?;
        }
        Ok(())
    }

    /// Counts the entries of a journal.
    fn take_journal(&mut self, journal: &[Entry]) -> Result<(), Memory>
        ensures { OnOk result (self.new ≡ with_journal self.old journal.now) }
    {
        for entry in journal {
            self.take_entry(entry.outs.as_slice())?;
        }
        Ok(())
    }

    /// Counts the entries of the control lane.
    fn take_control(&mut self, journal: &[ControlEntry]) -> Result<(), Memory>
        ensures { OnOk result (self.new ≡ with_control self.old journal.now) }
    {
        for entry in journal {
            self.take_entry(entry.outs.as_slice())?;
        }
        Ok(())
    }

    /// Counts the entries of the lanes of a kind.
    fn take_lanes(&mut self, lanes: &[EntryList]) -> Result<(), Memory>
        ensures { OnOk result (self.new ≡ with_lanes self.old lanes.now) }
    {
        for journal in lanes {
            self.take_journal(journal.as_slice())?;
        }
        Ok(())
    }
}

/// The counts of a book.
#[tactic(auto, using(crate::proofs::TallyLemmas::book_counts))]
fn counts_of(alloc: Global, book: &Book) -> Result<Counts, Memory>
    ensures { IfOk result (λ counts. counts ≡ counts_of book.now) }
{
    let mut counts = Counts::new(alloc);
    counts.take_control(book.control.as_slice())?;
    counts.take_lanes(book.conns.as_slice())?;
    counts.take_lanes(book.units.as_slice())?;
    Ok(counts)
}

/// The line of counts, without its end.
fn counts_text(alloc: Global, lines: u32, counts: &Counts) -> Result<String, AllocError>
    ensures { IfOk result (λ t. string_bytes t ≡
        counts_line lines counts.now.entries counts.now.sent counts.now.told counts.now.lost) }
{
    let entries = counts.entries.text(alloc)?;
    let sent = counts.sent.text(alloc)?;
    let told = counts.told.text(alloc)?;
    let lost = counts.lost.text(alloc)?;
    format!(in alloc; "lines {lines} entries {entries} sent {sent} told {told} lost {lost}")
}

/// The line of counts of a run over so many lines: how many entries all journals have, and how many of their outputs are sent, told
/// and lost.
pub fn counts_line(alloc: Global, lines: u32, book: &Book) -> Result<Octets, Memory>
    ensures { IfOk result (λ o. o ≡ counts_text lines book.now ++ codes "\n") }
{
    let text = counts_text(alloc, lines, &counts_of(alloc, book)?)?;
    let mut line = Octets::from(text.into_bytes());
    line.push(b'\n')?;
    Ok(line)
}
