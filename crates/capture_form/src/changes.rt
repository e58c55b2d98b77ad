//! What the lines of an operator change.
ghost use Rattle.std.specs.Prelude.{◌≡◌, OnOk};
ghost use Rattle.plant_core.specs.Changes.{alone};
ghost use Rattle.capture_form.specs.Groups.{with_change};
ghost use Rattle.capture_form.specs.Inner.Words.{texts, States};
ghost use Rattle.capture_form.specs.Line.{change_form};
ghost use Rattle.capture_form.specs.Changes.{indicator_of, carried, selector_of, second_of, row_of, with_row, add_form, without_row, del_form, row_form, status_form, service_form, change_of};

use crate::fault::LineKind;
use crate::refused::LineRefused;
use crate::words::{lead, octet, other_point, prefix, user};
use gtt_table::{Entity, Row};
use node_head::Head;
use plant_core::{Change, ChangeList, ControlEvent, Group};
use relay_base::limits::OCTET_VALUES;
use relay_base::{Memory, Pc, Ssn};
use sccp_address::{NATURES, NUMBERING_PLANS, Selector};
use std::alloc::Global;

/// A global title indicator: 1, 3 or 4.
fn indicator(word: &[u8]) -> Result<u8, LineKind>
    ensures { result ≡ indicator_of word.now }
{
    let gti = octet(5, word)?;
    if gti == 1 || gti == 3 || gti == 4 {
        Ok(gti)
    } else {
        Err(LineKind::Number)
    }
}

/// What the titles of an indicator carry; 0 stands for what they don't.
fn carried(gti: u8, tt: &[u8], np: &[u8], nai: &[u8]) -> Result<Selector, LineKind>
    ensures { result ≡ carried gti tt.now np.now nai.now }
{
    let tt = octet(if gti == 1 { 1 } else { OCTET_VALUES }, tt)?;
    let np = octet(
        if gti == 1 {
            1
        } else {
            u32::from(NUMBERING_PLANS)
        },
        np,
    )?;
    let nai = octet(if gti == 3 { 1 } else { u32::from(NATURES) }, nai)?;
    Ok(Selector { gti, tt, np, nai })
}

fn selector(gti: &[u8], tt: &[u8], np: &[u8], nai: &[u8]) -> Result<Selector, LineKind>
    ensures { result ≡ selector_of gti.now tt.now np.now nai.now }
{
    let gti = indicator(gti)?;
    carried(gti, tt, np, nai)
}

/// Where a translation leads in the second place, if there is a word for it.
fn second(own: Pc, words: &[&[u8]]) -> Result<Option<Entity>, LineKind>
    ensures { result ≡ second_of own (texts words.now) }
{
    let [word, ..] = words else {
        return Ok(None);
    };
    let entity = lead(own, word)?;
    Ok(Some(entity))
}

/// The row of its words, of which there is one or none for the second place.
fn row_of(
    own: Pc,
    selector: Selector,
    digits: &[u8],
    first: &[u8],
    more: &[&[u8]],
) -> Result<Row, LineKind>
    ensures { result ≡ row_of own selector digits.now first.now (texts more.now) }
{
    let prefix = prefix(digits)?;
    let first = lead(own, first)?;
    let second = second(own, more)?;
    Ok(Row {
        selector,
        prefix,
        first,
        second,
    })
}

/// The row of these words, of which there is one or none for the second place, is added.
#[tactic(auto, unfolding(crate::specs::Changes::with_row))]
fn with_row(
    own: Pc,
    gti: &[u8],
    tt: &[u8],
    np: &[u8],
    nai: &[u8],
    digits: &[u8],
    first: &[u8],
    more: &[&[u8]],
) -> Result<Change, LineKind>
    ensures { let more = texts more.now
        in result ≡ with_row own gti.now tt.now np.now nai.now digits.now first.now more }
{
    let selector = selector(gti, tt, np, nai)?;
    let row = row_of(own, selector, digits, first, more)?;
    Ok(Change::AddRow(row))
}

/// `e add <gti> <tt> <np> <nai> <digits> <first> [<second>]`, of which the words after `add`.
fn add_form(own: Pc, words: &[&[u8]]) -> Result<Change, LineKind>
    ensures { result ≡ add_form own (texts words.now) }
{
    match words {
        [gti, tt, np, nai, digits, first, more @ ..] if more.len() < 2 => {
            with_row(own, gti, tt, np, nai, digits, first, more)
        }
        _ => Err(LineKind::Words),
    }
}

/// The row with the selector and the prefix of these words is taken away.
fn without_row(
    gti: &[u8],
    tt: &[u8],
    np: &[u8],
    nai: &[u8],
    digits: &[u8],
) -> Result<Change, LineKind>
    ensures { result ≡ without_row gti.now tt.now np.now nai.now digits.now }
{
    let selector = selector(gti, tt, np, nai)?;
    let prefix = prefix(digits)?;
    Ok(Change::DelRow(selector, prefix))
}

/// `e del <gti> <tt> <np> <nai> <digits>`, of which the words after `del`.
fn del_form(words: &[&[u8]]) -> Result<Change, LineKind>
    ensures { result ≡ del_form (texts words.now) }
{
    match words {
        [gti, tt, np, nai, digits] => without_row(gti, tt, np, nai, digits),
        _ => Err(LineKind::Words),
    }
}

/// A row is added, or taken away.
pub fn row_form(own: Pc, words: &[&[u8]]) -> Result<Change, LineKind>
    ensures { result ≡ row_form own (texts words.now) }
{
    let [word, more @ ..] = words else {
        return Err(LineKind::Words);
    };
    if *word == b"add".as_slice() {
        add_form(own, more)
    } else if *word == b"del".as_slice() {
        del_form(more)
    } else {
        Err(LineKind::Words)
    }
}

/// `p pause <point>` or `p resume <point>`: the MTP status of another point.
fn status_form(own: Pc, words: &[&[u8]]) -> Result<Change, LineKind>
    ensures { result ≡ status_form own (texts words.now) }
{
    let [word, point] = words else {
        return Err(LineKind::Words);
    };
    if *word == b"pause".as_slice() {
        let point = other_point(own, point)?;
        Ok(Change::BarPoint(point))
    } else if *word == b"resume".as_slice() {
        let point = other_point(own, point)?;
        Ok(Change::FreePoint(point))
    } else {
        Err(LineKind::Words)
    }
}

/// `s <ssn> in` or `s <ssn> out`: a local user goes in or out of service.
fn service_form(users: &[Ssn], words: &[&[u8]]) -> Result<Change, LineKind>
    ensures { result ≡ service_form users.now (texts words.now) }
{
    let [ssn, word] = words else {
        return Err(LineKind::Words);
    };
    if *word == b"in".as_slice() {
        let ssn = user(users, ssn)?;
        Ok(Change::LocalUp(ssn))
    } else if *word == b"out".as_slice() {
        let ssn = user(users, ssn)?;
        Ok(Change::LocalDown(ssn))
    } else {
        Err(LineKind::Words)
    }
}

/// What a status line changes, by its first word and those after it.
fn change_of(head: &Head, first: &[u8], words: &[&[u8]]) -> Result<Change, LineKind>
    ensures { result ≡ change_of head.now first.now (texts words.now) }
{
    if first == b"p".as_slice() {
        status_form(head.point, words)
    } else if first == b"s".as_slice() {
        service_form(head.users.as_slice(), words)
    } else {
        Err(LineKind::Words)
    }
}

/// A change alone, as an event.
pub fn alone(alloc: Global, change: Change) -> ControlEvent
    ensures { result ≡ ControlEvent.Change (alone change) }
{
    ControlEvent::Change(Group::of(alloc, change))
}

/// A status line, which is a change alone.
pub fn change_form(
    alloc: Global,
    head: &Head,
    first: &[u8],
    words: &[&[u8]],
) -> Result<(u8, ControlEvent), LineRefused>
    ensures { States result (change_form head.now first.now (texts words.now)) }
{
    match change_of(head, first, words) {
        Ok(change) => Ok((0, alone(alloc, change))),
        Err(kind) => Err(LineRefused::Kind(kind)),
    }
}

/// A group of edits that has not ended: the number of the line that began it, and its changes so far.
#[derive(Drop)]
pub struct OpenGroup {
    pub line: u32,
    pub changes: ChangeList,
}

impl OpenGroup {
    /// Puts a change at the end.
    pub fn put(&mut self, change: Change) -> Result<(), Memory>
        ensures { OnOk result (self.new ≡ with_change change self.old) }
    {
        self.changes.push(change)
    }
}
