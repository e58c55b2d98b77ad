//! A row of the translation.
ghost use Rattle.std.specs.Prelude.{◌≡◌};
ghost use Rattle.gtt_table.specs.Rows.{has_key, is_same_selector};
ghost use Rattle.gtt_table.specs.Inner.Order.{row_cmp};

use crate::search::selector_order;
use relay_base::{Digits, Pc, Ssn};
use sccp_address::Selector;
use std::cmp::Ordering;

/// Where a translation leads: a point, a subsystem where it names one, and whether the address goes on routing on it.
#[derive(Clone, Copy, PartialEq, Eq)]
pub struct Entity {
    pub point: Pc,
    pub ssn: Option<Ssn>,
    pub on_ssn: bool,
}

/// A row of the translation (Q.714, 2.4): the titles of this selector whose digits begin with this prefix lead to the first entity that is available.
#[derive(Clone, Copy, PartialEq, Eq)]
pub struct Row {
    pub selector: Selector,
    pub prefix: Digits,
    pub first: Entity,
    pub second: Option<Entity>,
}

impl Row {
    /// Whether the row stands under this selector and this prefix.
    pub fn has_key(&self, selector: &Selector, prefix: &Digits) -> bool
        ensures { result ≡ has_key selector.now prefix.now self.now }
    {
        self.has_selector(selector) && self.prefix.as_slice() == prefix.as_slice()
    }

    /// Whether the row has this selector.
    pub(crate) fn has_selector(&self, selector: &Selector) -> bool
        ensures { result ≡ is_same_selector self.now.selector selector.now }
    {
        self.selector == *selector
    }

    /// Where the row stands to a selector and a prefix: rows stand by selector, and then by prefix.
    pub(crate) fn order(&self, selector: &Selector, prefix: &[u8]) -> Ordering
        ensures { result ≡ row_cmp selector.now prefix.now self.now }
    {
        selector_order(&self.selector, selector).then(self.prefix.as_slice().cmp(prefix))
    }
}
