//! What the words of a line state.
ghost use Rattle.std.specs.Prelude.{◌≡◌, ◌≤◌, ◌<◌, is_ok};
ghost use Rattle.capture_form.specs.Text.{is_dash};
ghost use Rattle.capture_form.specs.Words.{below, link_of, class_of, user_of, other_point_of, prefix_of, lead_of, octets_of, called_of, calling_of, body_of, text_of, asks_return, is_return};
ghost use Rattle.capture_form.specs.Inner.Words.{States};
ghost use Rattle.sccp_address.specs.Parsing.{address_of};

use crate::fault::LineKind;
use crate::refused::LineRefused;
use crate::text::{is_dash, octets};
use gtt_table::Entity;
use node_head::{digits_of, entity_of};
use relay_base::limits::{LONGEST_GIVEN_ADDRESS, OCTET_VALUES, POINT_CODES, SUBSYSTEM_NUMBERS};
use relay_base::{Below, BoxedOctets, Digits, Octets, Pc, Ssn, number_of};
use sccp_address::parse;
use std::alloc::Global;

/// A number below a limit.
pub fn below<const LIMIT: u32>(word: &[u8]) -> Result<Below<LIMIT>, LineKind>
    ensures { result ≡ below LIMIT word.now }
{
    match number_of(word) {
        Some(n) if n < u64::from(LIMIT) => Below::new(n as u32).ok_or(LineKind::Number),
        _ => Err(LineKind::Number),
    }
}

/// A number below a limit that one octet holds.
pub fn octet(limit: u32, word: &[u8]) -> Result<u8, LineKind>
    requires { limit ≤ OCTET_VALUES }
    ensures { result ≡ below limit word.now }
{
    match number_of(word) {
        Some(n) if n < u64::from(limit) => Ok(n as u8),
        _ => Err(LineKind::Number),
    }
}

/// A link, from 1.
pub fn link(links: u8, word: &[u8]) -> Result<u8, LineKind>
    ensures { result ≡ link_of links word.now }
{
    match number_of(word) {
        Some(n) if 1 <= n && n <= u64::from(links) => Ok(n as u8),
        _ => Err(LineKind::Number),
    }
}

/// A class of connections, 2 or 3.
pub fn class(word: &[u8]) -> Result<u8, LineKind>
    ensures { result ≡ class_of word.now }
{
    match number_of(word) {
        Some(n) if n == 2 || n == 3 => Ok(n as u8),
        _ => Err(LineKind::Number),
    }
}

/// The subsystem number of a user.
pub fn user(users: &[Ssn], word: &[u8]) -> Result<Ssn, LineKind>
    ensures { result ≡ user_of users.now word.now }
{
    let ssn = below::<SUBSYSTEM_NUMBERS>(word)?;
    if users.contains(&ssn) {
        Ok(ssn)
    } else {
        Err(LineKind::User)
    }
}

/// A point other than the own one.
pub fn other_point(own: Pc, word: &[u8]) -> Result<Pc, LineKind>
    ensures { result ≡ other_point_of own word.now }
{
    let point = below::<POINT_CODES>(word)?;
    if point == own {
        Err(LineKind::Point)
    } else {
        Ok(point)
    }
}

/// The digits of a prefix, or none by a dash.
pub fn prefix(word: &[u8]) -> Result<Digits, LineKind>
    ensures { result ≡ prefix_of word.now }
{
    if is_dash(word) {
        return Ok(Digits::new());
    }
    digits_of(word).ok_or(LineKind::Digits)
}

/// Where a translation leads.
pub fn lead(own: Pc, word: &[u8]) -> Result<Entity, LineKind>
    ensures { result ≡ lead_of own word.now }
{
    entity_of(own, word).ok_or(LineKind::Entity)
}

/// The octets that a word writes in hex.
pub fn hex_octets(alloc: Global, word: &[u8]) -> Result<Octets, LineRefused>
    ensures { States result (octets_of word.now) }
{
    match octets(alloc, word)? {
        Some(octets) => Ok(octets),
        None => Err(LineRefused::Kind(LineKind::Hex)),
    }
}

fn is_address(octets: &[u8]) -> bool
    ensures { result ≡ is_ok (address_of octets.now) }
{
    parse(octets).is_ok()
}

/// An address of at most 40 octets.
pub fn called(alloc: Global, word: &[u8]) -> Result<BoxedOctets, LineRefused>
    ensures { States result (called_of word.now) }
{
    let octets = hex_octets(alloc, word)?;
    if !is_address(octets.as_slice()) {
        return Err(LineRefused::Kind(LineKind::Address));
    }
    if octets.len() > LONGEST_GIVEN_ADDRESS {
        return Err(LineRefused::Kind(LineKind::Size));
    }
    Ok(BoxedOctets::new(alloc, octets)?)
}

/// An address, or none.
pub fn calling(alloc: Global, word: &[u8]) -> Result<Option<BoxedOctets>, LineRefused>
    ensures { States result (calling_of word.now) }
{
    if is_dash(word) {
        Ok(None)
    } else {
        Ok(Some(called(alloc, word)?))
    }
}

/// At most so many octets.
pub fn body(alloc: Global, most: usize, word: &[u8]) -> Result<Octets, LineRefused>
    ensures { States result (body_of most word.now) }
{
    let octets = hex_octets(alloc, word)?;
    if octets.len() > most {
        return Err(LineRefused::Kind(LineKind::Size));
    }
    Ok(octets)
}

/// At most so many octets, in a place of their own.
pub fn boxed_body(alloc: Global, most: usize, word: &[u8]) -> Result<BoxedOctets, LineRefused>
    ensures { States result (body_of most word.now) }
{
    let octets = body(alloc, most, word)?;
    Ok(BoxedOctets::new(alloc, octets)?)
}

/// One octet or more, and at most so many.
pub fn text(alloc: Global, most: usize, word: &[u8]) -> Result<Octets, LineRefused>
    ensures { States result (text_of most word.now) }
{
    let octets = body(alloc, most, word)?;
    if octets.is_empty() {
        return Err(LineRefused::Kind(LineKind::Size));
    }
    Ok(octets)
}

/// Whether this is the word of return on error that is asked.
pub fn asks_return(word: &[u8]) -> bool
    ensures { result ≡ asks_return word.now }
{
    word == b"r".as_slice()
}

/// Whether a word says that return on error is asked, or that it is not.
pub fn is_return(word: &[u8]) -> bool
    ensures { result ≡ is_return word.now }
{
    asks_return(word) || is_dash(word)
}
