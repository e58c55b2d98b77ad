//! The rows of a head.
ghost use Rattle.std.specs.Prelude.{◌≡◌, ◌∷◌, [], ◌++◌, ◌≤◌, false, if◌then◌else◌, IsTrue, is_none, length, IfOk, IfSome, OnOk};
ghost use Rattle.gtt_table.specs.Adding.{add_refusal};
ghost use Rattle.gtt_table.specs.Rows.{has_row};
ghost use Rattle.node_head.specs.Inner.Sections.{members_of, tables_in, data_in};
ghost use Rattle.node_head.specs.Addable.{are_addable};
ghost use Rattle.node_head.specs.Keys.{usual};
ghost use Rattle.node_head.specs.Refusals.{Reads};
ghost use Rattle.node_head.specs.Rows.{indicator_at, selector_at, new_prefix, prefix_at, entity_at, second_at, row_of, rows_after, rows_value};

use crate::entity::{digits_of, entity_of};
use crate::fault::{HeadKind, HeadRefused};
use crate::head::RowList;
use crate::section::{Bounds, Place, Section, TableArray, refuse};
use crate::tables::tables_of;
use gtt_table::{AddFault, Entity, Row, Table as RowTable};
use relay_base::limits::GREATEST_OCTET;
use relay_base::{Digits, Memory, Pc};
use sccp_address::{NATURES, NUMBERING_PLANS, Selector};
use std::alloc::Global;
use toml::{Table, Value};

/// The digits that a text writes, where no row was found with them and this selector.
fn new_prefix(found: &RowTable, selector: &Selector, text: &[u8]) -> Option<Digits>
    ensures value { result ≡ new_prefix found.now.rows selector.now text.now }
    ensures apart { IfSome result (λ digits. has_row selector.now digits found.now.rows ≡ false) }
{
    let digits = digits_of(text)?;
    if found.has_row(selector, &digits) {
        None
    } else {
        Some(digits)
    }
}

/// The bounds of a part of a title, 0 by default and up to its greatest value, or 0 alone where the indicator's titles lack it (Q.713, 3.4).
fn part_bounds(is_lacking: bool, greatest: u32) -> Bounds
    ensures { result ≡ usual 0 0 (if is_lacking then 0 else greatest) }
{
    Bounds::usual(0, 0, if is_lacking { 0 } else { greatest })
}

impl Section<'_> {
    #[tactic(auto, using(crate::proofs::HeadLemmas::failures), unfolding(crate::specs::Rows::indicator_at))]
    fn indicator(&self, alloc: Global) -> Result<u8, HeadRefused>
        ensures { Reads result (indicator_at self.now.place (members_of self.now)) }
    {
        let gti = self.octet(alloc, "gti", &Bounds::required(1, 4))?;
        if gti == 2 {
            return Err(self.refuse(alloc, HeadKind::Range, "gti"));
        }
        Ok(gti)
    }

    #[tactic(auto, using(crate::proofs::HeadLemmas::failures), unfolding(crate::specs::Rows::selector_at))]
    fn selector(&self, alloc: Global) -> Result<Selector, HeadRefused>
        ensures { Reads result (selector_at self.now.place (members_of self.now)) }
    {
        let gti = self.indicator(alloc)?;
        let types = part_bounds(gti == 1, u32::from(GREATEST_OCTET));
        let plans = part_bounds(gti == 1, u32::from(NUMBERING_PLANS) - 1);
        let natures = part_bounds(gti == 3, u32::from(NATURES) - 1);
        let tt = self.octet(alloc, "tt", &types)?;
        let np = self.octet(alloc, "np", &plans)?;
        let nai = self.octet(alloc, "nai", &natures)?;
        Ok(Selector { gti, tt, np, nai })
    }

    #[tactic(auto, using(crate::proofs::HeadLemmas::failures), unfolding(crate::specs::Rows::prefix_at))]
    fn prefix(
        &self,
        alloc: Global,
        found: &RowTable,
        selector: &Selector,
    ) -> Result<Digits, HeadRefused>
        ensures value { let members = members_of self.now in
            Reads result (prefix_at found.now.rows selector.now self.now.place members) }
        ensures apart { IfOk result (λ d. has_row selector.now d found.now.rows ≡ false) }
    {
        let text = self.text(alloc, "digits")?;
        match new_prefix(found, selector, text.as_bytes()) {
            Some(prefix) => Ok(prefix),
            None => Err(self.refuse(alloc, HeadKind::Range, "digits")),
        }
    }

    #[tactic(auto, using(crate::proofs::HeadLemmas::failures), unfolding(crate::specs::Rows::entity_at))]
    fn entity(&self, alloc: Global, own: Pc, key: &str) -> Result<Entity, HeadRefused>
        ensures { Reads result (entity_at own self.now.place (members_of self.now) key.now) }
    {
        let text = self.text(alloc, key)?;
        match entity_of(own, text.as_bytes()) {
            Some(entity) => Ok(entity),
            None => Err(self.refuse(alloc, HeadKind::Range, key)),
        }
    }

    #[tactic(auto, using(crate::proofs::HeadLemmas::failures), unfolding(crate::specs::Rows::second_at))]
    fn second(&self, alloc: Global, own: Pc) -> Result<Option<Entity>, HeadRefused>
        ensures { Reads result (second_at own self.now.place (members_of self.now)) }
    {
        if self.value("second").is_none() {
            return Ok(None);
        }
        let entity = self.entity(alloc, own, "second")?;
        Ok(Some(entity))
    }

    #[tactic(auto, using(crate::proofs::HeadLemmas::failures), unfolding(crate::specs::Rows::row_of))]
    fn row(&self, alloc: Global, own: Pc, found: &RowTable) -> Result<Row, HeadRefused>
        ensures value { let members = members_of self.now in
            Reads result (row_of own found.now.rows self.now.place members) }
        ensures apart { IfOk result (λ r. has_row r.selector r.prefix found.now.rows ≡ false) }
    {
        let selector = self.selector(alloc)?;
        let prefix = self.prefix(alloc, found, &selector)?;
        let first = self.entity(alloc, own, "first")?;
        let second = self.second(alloc, own)?;
        Ok(Row {
            selector,
            prefix,
            first,
            second,
        })
    }
}

/// Puts a row behind those found, where none has its selector and prefix.
fn put(found: &mut RowTable, row: &Row) -> Result<(), Memory>
    requires { IsTrue (is_none (add_refusal found.old.rows row.now)) }
    ensures { OnOk result (found.new.rows ≡ found.old.rows ++ row.now ∷ []) }
{
    match found.add(*row) {
        Ok(()) => Ok(()),
        Err(AddFault::Memory) => Err(Memory),
        Err(AddFault::Duplicate | AddFault::RowsFull) => unreachable!(),
    }
}

fn rows(alloc: Global, own: Pc, tables: &[&Table]) -> Result<RowList, HeadRefused>
    requires { length tables.now ≤ RowTable.MOST }
    ensures value { Reads result (rows_after own [] (tables_in tables.now)) }
    ensures addable { IfOk result (λ l. IsTrue (are_addable [] l)) }
{
    let mut found = RowTable::new(alloc);
    let mut rows = RowList::new(alloc);
    for table in tables {
        let section = Section {
            place: Place::Nth(TableArray::Rows, rows.len() + 1),
            table: Some(*table),
        };
        let row = section.row(alloc, own, &found)?;
        put(&mut found, &row)?;
        rows.push(row)?;
    }
    Ok(rows)
}

/// The rows of an array of tables, none where the key is absent.
#[tactic(auto, using(crate::proofs::HeadLemmas::failures), unfolding(crate::specs::Rows::rows_value))]
pub fn rows_of(alloc: Global, own: Pc, value: Option<&Value>) -> Result<RowList, HeadRefused>
    ensures value { Reads result (rows_value own (data_in value.entry)) }
    ensures addable { IfOk result (λ l. IsTrue (are_addable [] l)) }
{
    let tables = tables_of(alloc, TableArray::Rows, value)?;
    if tables.len() > RowTable::MOST {
        return Err(refuse(alloc, HeadKind::Range, "row"));
    }
    rows(alloc, own, tables.as_slice())
}
