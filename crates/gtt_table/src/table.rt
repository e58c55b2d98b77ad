//! The table of rows.
ghost use Rattle.std.specs.Prelude.{◌≡◌, ◌+◌, ◌∷◌, [], ◌++◌, true, false, ◌<◌, ◌≤◌, length, IsOk, IfOk, OnOk, OnErr, Some, find};
ghost use Rattle.std.specs.Option.{option_copied};
ghost use Rattle.gtt_table.specs.Rows.{has_key, has_row, without, HasDistinctKeys};
ghost use Rattle.gtt_table.specs.Translation.{seen_look, IfRow, IsLongestMatch, longer, longest_match, has_selector, translation_of};
ghost use Rattle.gtt_table.specs.Adding.{add_refusal, Refuses, HasMemory};

use crate::row::Row;
use crate::search::{has_selector, longest_match, place};
use mark::Mark;
use relay_base::{Digits, Memory, PlainList};
use sccp_address::Selector;
use std::alloc::Global;
use std::marker::Model;

/// Rows of which no two have one selector and one prefix, at most 4,096. Memory for more can be taken first.
/// A clause sees them in the order in which they were added.
pub struct Table {
    /// The rows by selector and prefix.
    rows: Vec<Row>,
    /// The rows in the order in which they were added.
    added: Mark<PlainList<Row>>,
}

impl Drop for Table {
    fn drop(self) {
        let Self {
            rows: _rows,
            added: _added,
        } = self;
    }
}

impl Model for Table {
    ghost use Rattle.std.specs.Prelude.{◌-◌, vec_len};
    ghost use Rattle.std.specs.Vec.{vec_capacity};
    ghost use Rattle.gtt_table.specs.Rows.{Rows};
    ghost use Rattle.gtt_table.specs.Inner.Order.{AreKept};

    ghost Value = { Rows };

    ghost view = { λ t. record {
      rows = t.added.value;
      room = vec_capacity t.rows - vec_len t.rows;
    } };

    ghost invariant = { λ t. AreKept t.rows.items t.added.value };
}

/// What a search gives: no row has the selector, no prefix begins the digits, or the row with the longest such prefix.
#[derive(Clone, Copy)]
pub enum Look<'a> {
    NoSelector,
    NoPrefix,
    Row(&'a Row),
}

/// Why a row isn't added: one with its selector and prefix is there, 4,096 rows are there, or memory ran out.
#[derive(Clone, Copy)]
pub enum AddFault {
    Duplicate,
    RowsFull,
    Memory,
}

/// No row has this selector and this prefix.
#[derive(Clone, Copy)]
pub struct NoSuchRow;

/// A key whose row goes.
#[derive(Clone, Copy)]
struct Taking<'a> {
    table: &'a Table,
    selector: &'a Selector,
    prefix: &'a Digits,
}

impl Table {
    /// The most rows that a table holds.
    pub const MOST: usize = 4_096;

    /// No rows.
    pub fn new(alloc: Global) -> Table
        ensures { result.rows ≡ [] }
    {
        Table {
            rows: Vec::new(alloc),
            added: none_added(),
        }
    }

    /// An equal table.
    pub fn copy(&self) -> Result<Table, Memory>
        ensures { IfOk result (λ t. t.rows ≡ self.now.rows) }
    {
        Ok(Table {
            rows: self.rows.clone()?,
            added: self.same_added(),
        })
    }

    /// How many rows there are.
    pub fn len(&self) -> usize
        ensures value { result ≡ length self.now.rows }
        ensures distinct { HasDistinctKeys self.now.rows }
    {
        self.rows.len()
    }

    /// Takes memory for so many more rows.
    pub fn make_room(&mut self, rows: usize) -> Result<(), Memory>
        ensures rows { self.new.rows ≡ self.old.rows }
        ensures room { OnOk result (rows ≤ self.new.room) }
        ensures memory { rows ≤ self.old.room → IsOk result }
    {
        if rows > 0 {
            self.rows.reserve(rows)?;
        }
        Ok(())
    }

    /// Whether a row has this selector and this prefix.
    pub fn has_row(&self, selector: &Selector, prefix: &Digits) -> bool
        ensures value { result ≡ has_row selector.now prefix.now self.now.rows }
        ensures distinct { HasDistinctKeys self.now.rows }
    {
        place(&self.rows, selector, prefix.as_slice()).is_ok()
    }

    /// Why this row would not be added, beside want of memory.
    #[tactic(auto, unfolding(crate::specs::Adding::add_refusal))]
    pub fn refusal(&self, row: &Row) -> Option<AddFault>
        ensures { result ≡ add_refusal self.now.rows row.now }
    {
        if self.has_row(&row.selector, &row.prefix) {
            Some(AddFault::Duplicate)
        } else if self.rows.len() >= Table::MOST {
            Some(AddFault::RowsFull)
        } else {
            None
        }
    }

    /// Puts a row behind the others. `Duplicate`: a row with its selector and prefix is there; else `RowsFull`: 4,096 rows are there.
    /// The rows are as before after each refusal.
    #[tactic(auto, unfolding(crate::specs::Adding::add_refusal))]
    pub fn add(&mut self, row: Row) -> Result<(), AddFault>
        ensures ok { OnOk result (self.new.rows ≡ self.old.rows ++ row ∷ []) }
        ensures err { OnErr result (self.new.rows ≡ self.old.rows) }
        ensures refusal { Refuses result (add_refusal self.old.rows row) }
        ensures room { OnOk result (self.old.room ≤ self.new.room + 1) }
        ensures memory { 0 < self.old.room → HasMemory result }
    {
        if let Some(fault) = self.refusal(&row) {
            return Err(fault);
        }
        match self.insert(row) {
            Ok(()) => Ok(()),
            Err(Memory) => Err(AddFault::Memory),
        }
    }

    /// Puts a row under a new key in its place.
    fn insert(&mut self, row: Row) -> Result<(), Memory>
        requires { has_row row.selector row.prefix self.old.rows ≡ false }
        ensures ok { OnOk result (self.new.rows ≡ self.old.rows ++ row ∷ []) }
        ensures err { OnErr result (self.new.rows ≡ self.old.rows) }
        ensures room { OnOk result (self.old.room ≤ self.new.room + 1) }
        ensures memory { 0 < self.old.room → IsOk result }
    {
        let Err(at) = place(&self.rows, &row.selector, row.prefix.as_slice()) else {
            unreachable!()
        };
        let added = self.added_with(&row);
        self.rows.insert(at, row)?;
        self.added = added;
        Ok(())
    }

    /// Takes the row with this selector and prefix away.
    pub fn remove(&mut self, selector: &Selector, prefix: &Digits) -> Result<Row, NoSuchRow>
        ensures ok { let row = find (has_key selector.now prefix.now) self.old.rows
            in IfOk result (λ x. row ≡ Some x) }
        ensures rest { OnOk result (self.new.rows ≡ without selector.now prefix.now self.old.rows) }
        ensures one { OnOk result (length self.new.rows + 1 ≡ length self.old.rows) }
        ensures err { OnErr result (has_row selector.now prefix.now self.old.rows ≡ false) }
        ensures same { OnErr result (self.new.rows ≡ self.old.rows) }
        ensures room { self.old.room ≤ self.new.room }
    {
        let Ok(at) = place(&self.rows, selector, prefix.as_slice()) else {
            return Err(NoSuchRow);
        };
        let added = self.added_without(selector, prefix);
        let row = self.rows.remove(at);
        self.added = added;
        Ok(row)
    }

    fn has_selector(&self, selector: &Selector) -> bool
        ensures { result ≡ has_selector selector.now self.now.rows }
    {
        has_selector(&self.rows, selector)
    }

    /// The row with the longest prefix that begins the digits (Q.714, 2.4).
    fn longest_match(&self, selector: &Selector, digits: &Digits) -> Option<&Row>
        ensures { option_copied result ≡ longest_match selector.now digits.now self.now.rows }
    {
        longest_match(&self.rows, selector, digits.as_slice())
    }

    /// What the rows were added as, for a copy.
    fn same_added(&self) -> Mark<PlainList<Row>>
        ensures { result.value ≡ self.now.rows }
    {
        Mark::after(self)
    }

    /// The same with one row more.
    fn added_with(&self, row: &Row) -> Mark<PlainList<Row>>
        ensures { result.value ≡ self.now.rows ++ row.now ∷ [] }
    {
        Mark::after(&(self, row))
    }

    /// The same without the row under a key.
    fn added_without(&self, selector: &Selector, prefix: &Digits) -> Mark<PlainList<Row>>
        ensures { result.value ≡ without selector.now prefix.now self.now.rows }
    {
        Mark::after(&Taking {
            table: self,
            selector,
            prefix,
        })
    }

    /// The row that translates these digits (Q.714, 2.4).
    #[tactic(auto, unfolding(crate::specs::Translation::translation_of))]
    pub fn look(&self, selector: &Selector, digits: &Digits) -> Look<'_>
        ensures value { seen_look result ≡ translation_of self.now.rows selector.now digits.now }
        ensures longest { IfRow result (IsLongestMatch self.now.rows selector.now digits.now) }
    {
        if let Some(row) = self.longest_match(selector, digits) {
            return Look::Row(row);
        }
        if self.has_selector(selector) {
            Look::NoPrefix
        } else {
            Look::NoSelector
        }
    }
}

fn none_added() -> Mark<PlainList<Row>>
    ensures { result.value ≡ [] }
{
    Mark::after(&0u8)
}
