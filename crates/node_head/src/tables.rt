//! The arrays of tables in a head.
ghost use Rattle.std.specs.Prelude.{◌≡◌, [], IfOk};
ghost use Rattle.toml.specs.View.{array_view};
ghost use Rattle.node_head.specs.Inner.Sections.{tables_in, found_tables, data_in};
ghost use Rattle.node_head.specs.Refusals.{ReadsAs};
ghost use Rattle.node_head.specs.Tables.{tables_after, tables_value};

use crate::fault::{HeadKind, HeadRefused};
use crate::section::{TableArray, refuse};
use std::alloc::{AllocError, Global};
use toml::value::Array;
use toml::{Table, Value};

/// The tables of an array, where each item is one.
fn tables<'a>(alloc: Global, array: &'a Array) -> Result<Option<Vec<&'a Table>>, AllocError>
    ensures { IfOk result (λ found. found_tables found ≡ tables_after [] (array_view array.now)) }
{
    let mut found = Vec::new(alloc);
    for value in array {
        match value.as_table() {
            Some(table) => found.push(table)?,
            None => return Ok(None),
        }
    }
    Ok(Some(found))
}

/// The tables of an array, none where the key is absent.
#[tactic(auto, using(crate::proofs::HeadLemmas::failures), unfolding(crate::specs::Tables::tables_value))]
pub fn tables_of<'a>(
    alloc: Global,
    array: TableArray,
    value: Option<&'a Value>,
) -> Result<Vec<&'a Table>, HeadRefused>
    ensures { ReadsAs (λ v. tables_in v.items) result (tables_value array (data_in value.entry)) }
{
    let Some(value) = value else {
        return Ok(Vec::new(alloc));
    };
    let Some(items) = value.as_array() else {
        return Err(refuse(alloc, HeadKind::Kind, array.key()));
    };
    match tables(alloc, items)? {
        Some(tables) => Ok(tables),
        None => Err(refuse(alloc, HeadKind::Kind, array.key())),
    }
}
