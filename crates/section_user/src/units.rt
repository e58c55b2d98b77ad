//! Data between a user and its end: copies, and the cutting of a text into units.
ghost use Rattle.std.specs.Prelude.{◌≡◌, ◌<◌, ◌≤◌, length, take, drop, map, IfOk};
ghost use Rattle.section_model.specs.UserEnd.{given, handed, unit_count, units_of, unit_at};

use relay_base::{BoxedOctets, Memory, Octets};
use section_model::limits::LONGEST_UNIT;
use section_model::{Hand, HandList, copied_octets};
use std::alloc::Global;

/// A copy of octets where they are there, in a place of its own.
pub fn boxed_if_any(alloc: Global, octets: &Option<Octets>) -> Result<Option<BoxedOctets>, Memory>
    ensures { IfOk result (λ copy. copy ≡ octets.now) }
{
    match octets {
        Some(octets) => Ok(Some(BoxedOctets::from_slice(alloc, octets.as_slice())?)),
        None => Ok(None),
    }
}

/// The data that a request gives: no octets are no data.
pub fn given(body: &Octets) -> Result<Option<Octets>, Memory>
    ensures { IfOk result (λ copy. copy ≡ given body.now) }
{
    if body.is_empty() {
        return Ok(None);
    }
    Ok(Some(copied_octets(body)?))
}

/// How many units a text is cut into.
fn unit_count(body: &[u8]) -> usize
    ensures { result ≡ unit_count body.now }
{
    body.len().div_ceil(LONGEST_UNIT)
}

/// At most this many octets from a place on.
fn part(body: &[u8], start: usize, size: usize) -> &[u8]
    requires { start ≤ length body.now }
    ensures { result.now ≡ take size (drop start body.now) }
{
    let rest = &body[start..];
    &rest[..size.min(rest.len())]
}

/// The unit at a place, from 0: M says that it is not the last.
fn unit_at(alloc: Global, body: &[u8], place: usize) -> Result<Hand, Memory>
    requires { place < unit_count body.now }
    ensures { IfOk result (λ hand. hand ≡ handed (unit_at body.now place)) }
{
    Ok(Hand::Unit {
        more: place + 1 < unit_count(body),
        body: Octets::from_slice(alloc, part(body, LONGEST_UNIT * place, LONGEST_UNIT))?,
    })
}

/// A text in units as long as they may be, the last with the rest.
pub fn units_of(alloc: Global, body: &[u8]) -> Result<HandList, Memory>
    ensures { IfOk result (λ hands. hands ≡ map handed (units_of body.now)) }
{
    let mut hands = HandList::new(alloc);
    for place in 0..unit_count(body) {
        hands.push(unit_at(alloc, body, place)?)?;
    }
    Ok(hands)
}
