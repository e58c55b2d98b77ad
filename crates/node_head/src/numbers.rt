//! The lists of different numbers in a head: its local users, the points that are concerned, and those that can't take an LUDT.
ghost use Rattle.std.specs.Prelude.{◌≡◌, ◌<◌, [], IfOk};
ghost use Rattle.toml.specs.View.{array_view};
ghost use Rattle.node_head.specs.Inner.Sections.{integers_in, data_in};
ghost use Rattle.node_head.specs.Keys.{number_in};
ghost use Rattle.node_head.specs.Refusals.{Reads};
ghost use Rattle.node_head.specs.Numbers.{integers_after, new_number, numbers_after, numbers_value, users_value, other_points, points_value};

use crate::fault::{HeadKind, HeadRefused};
use crate::head::{GREATEST_USER, LEAST_USER};
use crate::section::{Bounds, refuse};
use relay_base::limits::POINT_CODES;
use relay_base::{Below, Memory, Pc, PcList, PlainList, SsnList};
use std::alloc::{AllocError, Global};
use toml::Value;
use toml::value::Array;

/// The most numbers of a list.
const MOST_NUMBERS: usize = 16;

fn number_from<const LIMIT: u32>(bounds: &Bounds, number: i64) -> Option<Below<LIMIT>>
    requires { bounds.now.most < LIMIT }
    ensures { result ≡ number_in bounds.now.least bounds.now.most number }
{
    match bounds.number_in(number) {
        Some(number) => Below::new(number),
        None => None,
    }
}

/// The integers of an array, where each item is one.
fn integers(alloc: Global, array: &Array) -> Result<Option<Vec<i64>>, AllocError>
    ensures { IfOk result (λ found. integers_in found ≡ integers_after [] (array_view array.now)) }
{
    let mut found = Vec::new(alloc);
    for value in array {
        match value.as_integer() {
            Some(number) => found.push(number)?,
            None => return Ok(None),
        }
    }
    Ok(Some(found))
}

/// A number in range that was not found before.
fn new_number<const LIMIT: u32>(
    bounds: &Bounds,
    found: &[Below<LIMIT>],
    number: i64,
) -> Option<Below<LIMIT>>
    requires { bounds.now.most < LIMIT }
    ensures { result ≡ new_number bounds.now found.now number }
{
    let number = number_from(bounds, number)?;
    if found.contains(&number) {
        None
    } else {
        Some(number)
    }
}

/// The numbers, where all are in range and different.
fn numbers<const LIMIT: u32>(
    alloc: Global,
    bounds: &Bounds,
    integers: &[i64],
) -> Result<Option<PlainList<Below<LIMIT>>>, Memory>
    requires { bounds.now.most < LIMIT }
    ensures { IfOk result (λ found. found ≡ numbers_after bounds.now [] integers.now) }
{
    let mut found = PlainList::new(alloc);
    for integer in integers {
        match new_number(bounds, found.as_slice(), *integer) {
            Some(number) => found.push(number)?,
            None => return Ok(None),
        }
    }
    Ok(Some(found))
}

/// The different numbers of a list, none where the key is absent.
#[tactic(auto, using(crate::proofs::HeadLemmas::failures), unfolding(crate::specs::Numbers::numbers_value))]
fn numbers_of<const LIMIT: u32>(
    alloc: Global,
    key: &str,
    bounds: &Bounds,
    value: Option<&Value>,
) -> Result<PlainList<Below<LIMIT>>, HeadRefused>
    requires { bounds.now.most < LIMIT }
    ensures { Reads result (numbers_value key.now bounds.now (data_in value.entry)) }
{
    let Some(value) = value else {
        return Ok(PlainList::new(alloc));
    };
    let Some(array) = value.as_array() else {
        return Err(refuse(alloc, HeadKind::Kind, key));
    };
    let Some(integers) = integers(alloc, array)? else {
        return Err(refuse(alloc, HeadKind::Kind, key));
    };
    if integers.len() > MOST_NUMBERS {
        return Err(refuse(alloc, HeadKind::Range, key));
    }
    match numbers(alloc, bounds, integers.as_slice())? {
        Some(numbers) => Ok(numbers),
        None => Err(refuse(alloc, HeadKind::Range, key)),
    }
}

/// The local users, none where the key is absent.
pub fn users_of(alloc: Global, value: Option<&Value>) -> Result<SsnList, HeadRefused>
    ensures { Reads result (users_value (data_in value.entry)) }
{
    let bounds = Bounds::required(u32::from(LEAST_USER), u32::from(GREATEST_USER));
    numbers_of(alloc, "users", &bounds, value)
}

/// Refuses points among which the own one is.
fn other_points(alloc: Global, key: &str, own: Pc, points: PcList) -> Result<PcList, HeadRefused>
    ensures { Reads result (other_points key.now own points) }
{
    if points.as_slice().contains(&own) {
        return Err(refuse(alloc, HeadKind::Range, key));
    }
    Ok(points)
}

/// The points at a key, none where it is absent.
#[tactic(auto, using(crate::proofs::HeadLemmas::failures), unfolding(crate::specs::Numbers::points_value))]
pub fn points_of(
    alloc: Global,
    key: &str,
    own: Pc,
    value: Option<&Value>,
) -> Result<PcList, HeadRefused>
    ensures { Reads result (points_value key.now own (data_in value.entry)) }
{
    let points = numbers_of(alloc, key, &Bounds::required(0, POINT_CODES - 1), value)?;
    other_points(alloc, key, own, points)
}
