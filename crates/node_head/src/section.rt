//! A table of a head, and the reading of its keys.
ghost use Rattle.std.specs.Prelude.{◌≡◌, ◌≤◌, ◌<◌, IfOk, IfSome, find, option_map};
ghost use Rattle.std.specs.BTreeMap.{keys};
ghost use Rattle.toml.specs.Data.{get_member};
ghost use Rattle.toml.specs.View.{table_view};
ghost use Rattle.node_head.specs.Inner.Sections.{Refuses, members_of, data_in, is_unknown, IsBounds};
ghost use Rattle.node_head.specs.Refusals.{Reads, ReadsAs, fault};
ghost use Rattle.node_head.specs.Keys.{array_key, path, is_stated, known_keys, number_in, number_at, point_at, text_at, required, usual};

use crate::fault::{HeadFault, HeadKind, HeadRefused};
use relay_base::limits::{OCTET_VALUES, POINT_CODES};
use relay_base::{Memory, Octets, Pc};
use std::alloc::Global;
use toml::{Table, Value};

/// Which array of tables.
#[derive(Clone, Copy)]
pub enum TableArray {
    Rows,
    Replicates,
}

/// Which table of a head: the top level, that of the timers, or one of an array, counted from 1.
#[derive(Clone, Copy)]
pub enum Place {
    Top,
    Timers,
    Nth(TableArray, usize),
}

/// The range of an integer, and what it is where its key is absent.
#[derive(Clone, Copy)]
pub struct Bounds {
    pub default: Option<u32>,
    pub least: u32,
    pub most: u32,
}

/// A table of a head; None is one without keys.
#[derive(Clone, Copy)]
pub struct Section<'a> {
    pub place: Place,
    pub table: Option<&'a Table>,
}

impl Bounds {
    /// A key that must be there.
    pub fn required(least: u32, most: u32) -> Bounds
        ensures { result ≡ required least most }
    {
        Bounds {
            default: None,
            least,
            most,
        }
    }

    /// A key with a default.
    pub fn usual(default: u32, least: u32, most: u32) -> Bounds
        ensures { result ≡ usual default least most }
    {
        Bounds {
            default: Some(default),
            least,
            most,
        }
    }

    /// The number, where it is in this range.
    pub fn number_in(self, number: i64) -> Option<u32>
        ensures value { result ≡ number_in self.least self.most number }
        ensures most { IfSome result (λ n. n ≤ self.most) }
    {
        let Ok(number) = u32::try_from(number) else {
            return None;
        };
        if (self.least..=self.most).contains(&number) {
            Some(number)
        } else {
            None
        }
    }
}

impl TableArray {
    /// The key of the array.
    pub fn key(self) -> &'static str
        ensures { result.now ≡ array_key self }
    {
        match self {
            TableArray::Rows => "row",
            TableArray::Replicates => "replicate",
        }
    }
}

/// A key as a fault names it.
#[tactic(auto, unfolding(crate::specs::Keys::path))]
fn path(alloc: Global, place: Place, key: &str) -> Result<Octets, Memory>
    ensures { IfOk result (λ p. p ≡ path place key.now) }
{
    match place {
        Place::Top => Octets::from_slice(alloc, key.as_bytes()),
        Place::Timers => Ok(Octets::from(format!(in alloc; "timers.{key}")?.into_bytes())),
        Place::Nth(array, number) => {
            let array = array.key();
            let text = format!(in alloc; "{array}.{number}.{key}")?;
            Ok(Octets::from(text.into_bytes()))
        }
    }
}

/// A refusal with this kind and this key of a table, unless memory runs out.
fn refuse_at(alloc: Global, kind: HeadKind, place: Place, key: &str) -> HeadRefused
    ensures { Refuses result (fault kind (path place key.now)) }
{
    match path(alloc, place, key) {
        Ok(key) => HeadRefused::Fault(HeadFault { kind, key }),
        Err(_) => HeadRefused::Memory,
    }
}

/// A refusal with this kind and this key of the top level, unless memory runs out.
#[tactic(auto, unfolding(crate::specs::Keys::path))]
pub fn refuse(alloc: Global, kind: HeadKind, key: &str) -> HeadRefused
    ensures { Refuses result (fault kind key.now) }
{
    refuse_at(alloc, kind, Place::Top, key)
}

fn is_top_key(key: &str) -> bool
    ensures { result ≡ is_stated Place.Top key.now }
{
    matches!(
        key,
        "point"
            | "users"
            | "conn_lanes"
            | "data_lanes"
            | "links"
            | "credit"
            | "concerned"
            | "timers"
            | "row"
            | "replicate"
            | "short"
    )
}

fn is_timer_key(key: &str) -> bool
    ensures { result ≡ is_stated Place.Timers key.now }
{
    matches!(
        key,
        "connect"
            | "ias"
            | "iar"
            | "rel"
            | "repeat"
            | "int"
            | "reset"
            | "reassembly"
            | "freeze"
            | "status"
            | "status_max"
            | "coord"
    )
}

fn is_row_key(key: &str) -> bool
    ensures { result ≡ is_stated (Place.Nth TableArray.Rows 1) key.now }
{
    matches!(
        key,
        "gti" | "tt" | "np" | "nai" | "digits" | "first" | "second"
    )
}

fn is_replicate_key(key: &str) -> bool
    ensures { result ≡ is_stated (Place.Nth TableArray.Replicates 1) key.now }
{
    key == "ssn" || key == "point"
}

/// Whether the key is stated for the table.
fn is_stated(place: Place, key: &str) -> bool
    ensures { result ≡ is_stated place key.now }
{
    match place {
        Place::Top => is_top_key(key),
        Place::Timers => is_timer_key(key),
        Place::Nth(TableArray::Rows, _) => is_row_key(key),
        Place::Nth(TableArray::Replicates, _) => is_replicate_key(key),
    }
}

/// The least key that is not stated.
fn unknown_key(place: Place, table: &Table) -> Option<&String>
    ensures { option_map (λ k. k.now) result ≡ find (is_unknown place) (keys table.now) }
{
    table.keys().find(|key| !is_stated(place, key.as_str()))
}

/// Refuses the least key that is not stated.
fn check_table(alloc: Global, place: Place, table: &Table) -> Result<(), HeadRefused>
    ensures { Reads result (known_keys place (table_view table.now)) }
{
    match unknown_key(place, table) {
        Some(key) => Err(refuse_at(alloc, HeadKind::Unknown, place, key.as_str())),
        None => Ok(()),
    }
}

fn value_at<'a>(table: &'a Table, key: &str) -> Option<&'a Value>
    ensures { data_in result ≡ get_member key.now (table_view table.now) }
{
    table.get(key)
}

impl<'a> Section<'a> {
    /// The value of a key.
    pub fn value(&self, key: &str) -> Option<&'a Value>
        ensures { data_in result ≡ get_member key.now (members_of self.now) }
    {
        match self.table {
            Some(table) => value_at(table, key),
            None => None,
        }
    }

    /// A refusal with this kind and key, unless memory runs out.
    pub fn refuse(&self, alloc: Global, kind: HeadKind, key: &str) -> HeadRefused
        ensures { Refuses result (fault kind (path self.now.place key.now)) }
    {
        refuse_at(alloc, kind, self.place, key)
    }

    /// Refuses the least key that is not stated.
    #[tactic(auto, unfolding(crate::specs::Keys::known_keys))]
    pub fn check_keys(&self, alloc: Global) -> Result<(), HeadRefused>
        ensures { Reads result (known_keys self.now.place (members_of self.now)) }
    {
        match self.table {
            Some(table) => check_table(alloc, self.place, table),
            None => Ok(()),
        }
    }

    /// The integer at a key.
    #[tactic(auto, using(crate::proofs::HeadLemmas::failures), unfolding(crate::specs::Keys::number_at))]
    pub fn number(&self, alloc: Global, key: &str, bounds: &Bounds) -> Result<u32, HeadRefused>
        requires { IsBounds bounds.now }
        ensures value { let members = members_of self.now in
            Reads result (number_at self.now.place members key.now bounds.now) }
        ensures most { IfOk result (λ n. n ≤ bounds.now.most) }
    {
        let Some(value) = self.value(key) else {
            return match bounds.default {
                Some(number) => Ok(number),
                None => Err(self.refuse(alloc, HeadKind::Missing, key)),
            };
        };
        let Some(number) = value.as_integer() else {
            return Err(self.refuse(alloc, HeadKind::Kind, key));
        };
        match bounds.number_in(number) {
            Some(number) => Ok(number),
            None => Err(self.refuse(alloc, HeadKind::Range, key)),
        }
    }

    /// The integer at a key, whose greatest value one octet holds.
    pub fn octet(&self, alloc: Global, key: &str, bounds: &Bounds) -> Result<u8, HeadRefused>
        requires bounds { IsBounds bounds.now }
        requires small { bounds.now.most < OCTET_VALUES }
        ensures value { let members = members_of self.now in
            Reads result (number_at self.now.place members key.now bounds.now) }
        ensures most { IfOk result (λ n. n ≤ bounds.now.most) }
    {
        let number = self.number(alloc, key, bounds)?;
        Ok(number as u8)
    }

    /// The point code at the key `point`.
    #[tactic(auto, using(crate::proofs::HeadLemmas::failures), unfolding(crate::specs::Keys::point_at))]
    pub fn point(&self, alloc: Global) -> Result<Pc, HeadRefused>
        ensures { Reads result (point_at self.now.place (members_of self.now)) }
    {
        let number = self.number(alloc, "point", &Bounds::required(0, POINT_CODES - 1))?;
        Ok(Pc::new(number).unwrap())
    }

    /// The text at a key.
    #[tactic(auto, using(crate::proofs::HeadLemmas::failures), unfolding(crate::specs::Keys::text_at))]
    pub fn text(&self, alloc: Global, key: &str) -> Result<&'a str, HeadRefused>
        ensures { ReadsAs (λ t. t.now) result (text_at self.now.place (members_of self.now) key.now) }
    {
        let Some(value) = self.value(key) else {
            return Err(self.refuse(alloc, HeadKind::Missing, key));
        };
        match value.as_str() {
            Some(text) => Ok(text),
            None => Err(self.refuse(alloc, HeadKind::Kind, key)),
        }
    }
}
