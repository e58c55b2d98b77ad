//! The number of links that a head states.
ghost use Rattle.std.specs.Prelude.{◌≡◌, IfOk, option_map};
ghost use Rattle.toml.specs.Data.{get_member};
ghost use Rattle.toml.specs.View.{view, table_view};
ghost use Rattle.m3ua_capture.specs.OneLink.{integer_at, is_many, links_in, states_many_links};

use crate::text::head_text;
use relay_base::Memory;
use std::alloc::Global;
use toml::{Table, Value};

fn value_at<'a>(table: &'a Table, key: &str) -> Option<&'a Value>
    ensures { option_map (λ v. view v.now) result ≡ get_member key.now (table_view table.now) }
{
    table.get(key)
}

fn integer_at(table: &Table, key: &str) -> Option<i64>
    ensures { result ≡ integer_at key.now (table_view table.now) }
{
    match value_at(table, key) {
        Some(value) => value.as_integer(),
        None => None,
    }
}

/// The integer that a text states for the links.
#[tactic(auto, unfolding(crate::specs::OneLink::links_in))]
fn links_in(alloc: Global, text: &[u8]) -> Result<Option<i64>, Memory>
    ensures { IfOk result (λ links. links ≡ links_in text.now) }
{
    let text = match std::str::from_utf8(text) {
        Ok(text) => text,
        Err(_) => return Ok(None),
    };
    match toml::table_from_str(alloc, text) {
        Ok(table) => Ok(integer_at(&table, "links")),
        Err(e) if e.is_memory() => Err(Memory),
        Err(_) => Ok(None),
    }
}

fn is_many(links: Option<i64>) -> bool
    ensures { result ≡ is_many links }
{
    match links {
        Some(number) => number > 1,
        None => false,
    }
}

/// Whether the head of an input states more links than one.
pub fn states_many_links(alloc: Global, bytes: &[u8]) -> Result<bool, Memory>
    ensures { IfOk result (λ many. many ≡ states_many_links bytes.now) }
{
    let text = head_text(alloc, bytes)?;
    Ok(is_many(links_in(alloc, text.as_slice())?))
}
