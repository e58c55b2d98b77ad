//! The print of the entries of a journal.
ghost use Rattle.std.specs.Prelude.{◌≡◌, ◌++◌, codes};
ghost use Rattle.std.specs.List.{flat_map};
ghost use Rattle.journal_text.specs.Inner.Pieces.{above_text};
ghost use Rattle.journal_text.specs.Inner.Texts.{Puts};
ghost use Rattle.journal_text.specs.Print.{cause_text, answer_text, asked_text, published_text, stamp_text, outs_text};

use crate::pieces::Piece;
use crate::tell::{put_number, put_output, put_words};
use crate::text::Text;
use plant_core::{Answer, Asked, ControlEntry, Entry, RouteCause};
use relay_base::{Output, Stamp};
use std::alloc::AllocError;

/// An entry of a journal, which has a print.
pub(crate) trait Printed: Sized {
    ghost use Rattle.std.specs.Prelude.{◌≡◌, ℕ, List, ◌++◌, OnOk};
    ghost use Rattle.std.specs.List.{flat_map};
    ghost use Rattle.journal_text.specs.Inner.Pieces.{piece_text};

    /// The print of an entry.
    ghost print: { Self → List ℕ };

    /// Appends the print.
    fn put(&self, text: &mut Text) -> Result<(), AllocError>
        ensures { OnOk result (text.new ≡ text.old ++ print self.now) };

    /// The piece that entries are.
    fn piece(entries: &[Self]) -> Piece<'_>
        ensures { piece_text result ≡ flat_map print entries.now };
}

fn cause_text(cause: RouteCause) -> &'static str
    ensures { result.now ≡ cause_text cause }
{
    match cause {
        RouteCause::NoNature => "nature",
        RouteCause::NoAddress => "address",
        RouteCause::PointBarred => "point",
        RouteCause::SubsystemBarred => "subsystem",
        RouteCause::Unequipped => "unequipped",
        RouteCause::Hop => "hop",
    }
}

fn put_answer(text: &mut Text, answer: Answer) -> Result<(), AllocError>
    ensures { Puts result text.old text.new (codes " " ++ answer_text answer) }
{
    match answer {
        Answer::Local(ssn) => put_number(text, "local", ssn.number()),
        Answer::Forward { dpc, .. } => put_number(text, "to", dpc.number()),
        Answer::Refused { cause, .. } => put_words(text, "no", cause_text(cause)),
    }
}

/// Appends the edition and the answer of a routing, where there is one.
pub fn put_asked(text: &mut Text, asked: &Option<Asked>) -> Result<(), AllocError>
    ensures { Puts result text.old text.new (asked_text asked.now) }
{
    let Some(asked) = asked else {
        return Ok(());
    };
    text.word("e")?;
    text.digits(asked.edition)?;
    put_answer(text, asked.answer)
}

/// Appends the edition that was published, where one was.
pub fn put_published(text: &mut Text, published: Option<u64>) -> Result<(), AllocError>
    ensures { Puts result text.old text.new (published_text published) }
{
    let Some(edition) = published else {
        return Ok(());
    };
    text.word("new e")?;
    text.digits(edition)
}

/// Appends the stamp of an event: its phase, link and line, with a dot between each two.
pub fn put_stamp(text: &mut Text, stamp: Stamp) -> Result<(), AllocError>
    ensures { Puts result text.old text.new (stamp_text stamp) }
{
    text.digits(stamp.phase)?;
    text.put(".")?;
    text.digits(stamp.link)?;
    text.put(".")?;
    text.digits(stamp.line)
}

fn put_outs(text: &mut Text, outs: &[Output]) -> Result<(), AllocError>
    ensures { Puts result text.old text.new (outs_text outs.now) }
{
    for output in outs {
        put_output(text, output)?;
    }
    Ok(())
}

impl Printed for Entry {
    ghost use Rattle.journal_text.specs.Print.{entry_text};

    ghost print = { entry_text };

    fn put(&self, text: &mut Text) -> Result<(), AllocError> {
        put_stamp(text, self.stamp)?;
        put_asked(text, &self.asked)?;
        text.put("\n")?;
        put_outs(text, self.outs.as_slice())
    }

    fn piece(entries: &[Entry]) -> Piece<'_> {
        Piece::Lane(entries)
    }
}

impl Printed for ControlEntry {
    ghost use Rattle.journal_text.specs.Print.{control_text};

    ghost print = { control_text };

    fn put(&self, text: &mut Text) -> Result<(), AllocError> {
        put_stamp(text, self.stamp)?;
        put_published(text, self.published)?;
        text.put("\n")?;
        put_outs(text, self.outs.as_slice())
    }

    fn piece(entries: &[ControlEntry]) -> Piece<'_> {
        Piece::Control(entries)
    }
}

/// Appends the print of entries.
pub(crate) fn put_entries<P: Printed>(text: &mut Text, entries: &[P]) -> Result<(), AllocError>
    ensures { Puts result text.old text.new (flat_map P.print entries.now) }
{
    for entry in entries {
        entry.put(text)?;
    }
    Ok(())
}

/// Appends the line above a lane.
pub(crate) fn put_lane(text: &mut Text, name: &str, number: usize) -> Result<(), AllocError>
    ensures { Puts result text.old text.new (above_text name.now number) }
{
    text.put("=")?;
    put_number(text, name, number)?;
    text.put("\n")
}
