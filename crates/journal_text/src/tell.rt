//! The text of what a user is told, of what is lost, and of outputs. Each word follows a space.
ghost use Rattle.std.specs.Prelude.{◌≡◌, ◌++◌, [], ◌∷◌, codes, IsTrue};
ghost use Rattle.std.specs.Fmt.{decimal};
ghost use Rattle.journal_text.specs.Inner.Texts.{Puts, is_connected};
ghost use Rattle.journal_text.specs.Print.{spaced, up_text, reason_text, unit_text, data_text, tell_text, read_fault_text, lost_text, output_line};

use crate::text::Text;
use itoa::Integer;
use relay_base::{BoxedOctets, Lost, Octets, Output, Pc, ReadFault, Reason, Ref24, Sls, Ssn, Tell};
use std::alloc::AllocError;

fn up_text(up: bool) -> &'static str
    ensures { result.now ≡ up_text up }
{
    if up { "in" } else { "out" }
}

fn reason_text(reason: Reason) -> &'static str
    ensures { result.now ≡ reason_text reason }
{
    match reason {
        Reason::Owner => "owner",
        Reason::State => "state",
        Reason::Class => "class",
        Reason::Full => "full",
        Reason::Expedited => "expedited",
        Reason::Unknown => "unknown",
        Reason::Replicate => "replicate",
    }
}

/// A word, a number, two addresses and data.
fn put_unit(
    text: &mut Text,
    word: &str,
    number: u8,
    called: &BoxedOctets,
    calling: &BoxedOctets,
    body: &BoxedOctets,
) -> Result<(), AllocError>
    ensures { let part = unit_text word.now number called.now calling.now body.now in
        Puts result text.old text.new (codes " " ++ part) }
{
    text.word(word)?;
    text.number(number)?;
    text.octets(called.as_slice())?;
    text.octets(calling.as_slice())?;
    text.octets(body.as_slice())
}

/// A word, the reference of a connection, its class and its credit.
fn put_opening(
    text: &mut Text,
    word: &str,
    mine: Ref24,
    class: u8,
    credit: u8,
) -> Result<(), AllocError>
    ensures { let part = spaced (word.now ∷ decimal mine ∷ decimal class ∷ decimal credit ∷ []) in
        Puts result text.old text.new (codes " " ++ part) }
{
    put_pair(text, word, mine.number(), class)?;
    text.number(credit)
}

fn put_conn(
    text: &mut Text,
    mine: Ref24,
    class: u8,
    credit: u8,
    called: &BoxedOctets,
    calling: &Option<BoxedOctets>,
    body: &Option<BoxedOctets>,
) -> Result<(), AllocError>
    ensures { let told = Tell.Conn mine class credit called.now calling.now body.now in
        Puts result text.old text.new (codes " " ++ tell_text told) }
{
    put_opening(text, "conn", mine, class, credit)?;
    text.octets(called.as_slice())?;
    text.optional(calling)?;
    text.optional(body)
}

fn put_confirm(
    text: &mut Text,
    mine: Ref24,
    class: u8,
    credit: u8,
    called: &Option<BoxedOctets>,
    body: &Option<BoxedOctets>,
) -> Result<(), AllocError>
    ensures { let told = Tell.Confirm mine class credit called.now body.now in
        Puts result text.old text.new (codes " " ++ tell_text told) }
{
    put_opening(text, "confirm", mine, class, credit)?;
    text.optional(called)?;
    text.optional(body)
}

/// A word, the reference of a connection, and data that it carries.
fn put_data(text: &mut Text, word: &str, mine: Ref24, body: &Octets) -> Result<(), AllocError>
    ensures { Puts result text.old text.new (codes " " ++ data_text word.now mine body.now) }
{
    put_number(text, word, mine.number())?;
    text.octets(body.as_slice())
}

fn put_disc(
    text: &mut Text,
    mine: Ref24,
    cause: u8,
    body: &Option<BoxedOctets>,
) -> Result<(), AllocError>
    ensures { let told = Tell.Disc mine cause body.now in
        Puts result text.old text.new (codes " " ++ tell_text told) }
{
    put_pair(text, "disc", mine.number(), cause)?;
    text.optional(body)
}

fn put_state(text: &mut Text, ssn: Ssn, point: Pc, up: bool) -> Result<(), AllocError>
    ensures { Puts result text.old text.new (codes " " ++ tell_text (Tell.State ssn point up)) }
{
    put_pair(text, "state", ssn.number(), point.number())?;
    text.word(up_text(up))
}

fn put_point(text: &mut Text, point: Pc, up: bool) -> Result<(), AllocError>
    ensures { Puts result text.old text.new (codes " " ++ tell_text (Tell.Point point up)) }
{
    put_number(text, "point", point.number())?;
    text.word(up_text(up))
}

/// A word and a number.
pub fn put_number<I: Integer>(text: &mut Text, word: &str, number: I) -> Result<(), AllocError>
    ensures { let part = spaced (word.now ∷ I.text number ∷ []) in
        Puts result text.old text.new (codes " " ++ part) }
{
    text.word(word)?;
    text.number(number)
}

/// A word and two numbers.
fn put_pair<I: Integer, J: Integer>(
    text: &mut Text,
    word: &str,
    first: I,
    second: J,
) -> Result<(), AllocError>
    ensures { let part = spaced (word.now ∷ I.text first ∷ J.text second ∷ []) in
        Puts result text.old text.new (codes " " ++ part) }
{
    text.word(word)?;
    text.number(first)?;
    text.number(second)
}

/// Two words.
pub fn put_words(text: &mut Text, first: &str, second: &str) -> Result<(), AllocError>
    ensures { let part = spaced (first.now ∷ second.now ∷ []) in
        Puts result text.old text.new (codes " " ++ part) }
{
    text.word(first)?;
    text.word(second)
}

/// What a user is told of a connection.
fn put_connected(text: &mut Text, tell: &Tell) -> Result<(), AllocError>
    requires { IsTrue (is_connected tell.now) }
    ensures { Puts result text.old text.new (codes " " ++ tell_text tell.now) }
{
    match tell {
        Tell::Conn {
            mine,
            class,
            credit,
            called,
            calling,
            body,
        } => put_conn(text, *mine, *class, *credit, called, calling, body),
        Tell::Named { tag, mine } => put_pair(text, "ref", *tag, mine.number()),
        Tell::NotMade { tag, cause } => put_pair(text, "not-made", *tag, *cause),
        Tell::Confirm {
            mine,
            class,
            credit,
            called,
            body,
        } => put_confirm(text, *mine, *class, *credit, called, body),
        Tell::Text { mine, body } => put_data(text, "text", *mine, body),
        Tell::Expedited { mine, body } => put_data(text, "ed", *mine, body),
        Tell::Renewed { mine, cause } => put_pair(text, "reset", mine.number(), *cause),
        Tell::ResetDone { mine } => put_number(text, "reset-done", mine.number()),
        Tell::Disc { mine, cause, body } => put_disc(text, *mine, *cause, body),
        _ => unreachable!(),
    }
}

/// Appends a space and the text of what a user is told.
pub fn put_tell(text: &mut Text, tell: &Tell) -> Result<(), AllocError>
    ensures { Puts result text.old text.new (codes " " ++ tell_text tell.now) }
{
    match tell {
        Tell::Unit {
            class,
            called,
            calling,
            body,
        } => put_unit(text, "unit", *class, called, calling, body),
        Tell::Notice {
            cause,
            called,
            calling,
            body,
        } => put_unit(text, "notice", *cause, called, calling, body),
        Tell::State { ssn, point, up } => put_state(text, *ssn, *point, *up),
        Tell::Point { point, up } => put_point(text, *point, *up),
        Tell::Coord { point } => put_number(text, "coord", point.number()),
        Tell::Granted { point } => put_number(text, "granted", point.number()),
        Tell::Denied { point } => put_number(text, "denied", point.number()),
        Tell::No(reason) => put_words(text, "no", reason_text(*reason)),
        _ => put_connected(text, tell),
    }
}

fn put_read_fault(text: &mut Text, fault: ReadFault) -> Result<(), AllocError>
    ensures { Puts result text.old text.new (codes " " ++ read_fault_text fault) }
{
    match fault {
        ReadFault::Empty => text.word("read 1"),
        ReadFault::UnknownType(octet) => put_number(text, "read 2", octet),
        ReadFault::Short => text.word("read 3"),
        ReadFault::PointerOut(place) => put_number(text, "read 4", place),
        ReadFault::ValueLength(name) => put_number(text, "read 5", name),
    }
}

fn put_lost(text: &mut Text, lost: Lost) -> Result<(), AllocError>
    ensures { Puts result text.old text.new (codes " " ++ lost_text lost) }
{
    match lost {
        Lost::Read(fault) => put_read_fault(text, fault),
        Lost::Long => text.word("long"),
        Lost::Address => text.word("address"),
        Lost::Class => text.word("class"),
        Lost::Point => text.word("point"),
        Lost::State => text.word("state"),
        Lost::Stray => text.word("stray"),
        Lost::Segment => text.word("segment"),
        Lost::Manage => text.word("manage"),
        Lost::Cause(cause) => put_number(text, "cause", cause),
        Lost::Same => text.word("same"),
        Lost::Duplicate => text.word("duplicate"),
        Lost::RowsFull => text.word("rows-full"),
        Lost::NoRow => text.word("no-row"),
    }
}

fn put_sent(text: &mut Text, point: Pc, sls: Sls, bytes: &Octets) -> Result<(), AllocError>
    ensures { Puts result text.old text.new (output_line (Output.Sent point sls bytes.now)) }
{
    put_pair(text, ">", point.number(), sls.number())?;
    text.octets(bytes.as_slice())?;
    text.put("\n")
}

fn put_told(text: &mut Text, ssn: Ssn, tell: &Tell) -> Result<(), AllocError>
    ensures { Puts result text.old text.new (output_line (Output.Told ssn tell.now)) }
{
    put_number(text, "<", ssn.number())?;
    put_tell(text, tell)?;
    text.put("\n")
}

fn put_lost_line(text: &mut Text, lost: Lost) -> Result<(), AllocError>
    ensures { Puts result text.old text.new (output_line (Output.Lost lost)) }
{
    text.word(".")?;
    put_lost(text, lost)?;
    text.put("\n")
}

/// Appends the line of an output.
pub fn put_output(text: &mut Text, output: &Output) -> Result<(), AllocError>
    ensures { Puts result text.old text.new (output_line output.now) }
{
    match output {
        Output::Sent { point, sls, bytes } => put_sent(text, *point, *sls, bytes),
        Output::Told { ssn, tell } => put_told(text, *ssn, tell),
        Output::Lost(lost) => put_lost_line(text, *lost),
    }
}
