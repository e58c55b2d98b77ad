//! The search by halving among rows that are in order.
ghost use Rattle.std.specs.Prelude.{◌≡◌, ◌≤◌, length, true, false, nat_eq, MatchResult};
ghost use Rattle.std.specs.List.{HoldsAt, common_prefix_len};
ghost use Rattle.std.specs.List.Sorted.{IsPartitionPoint, IsSearchInRange};
ghost use Rattle.std.specs.declared.cmp.Ordering.TheVariants.{Less, Equal, Greater};
ghost use Rattle.std.specs.Option.{option_copied};
ghost use Rattle.std.specs.Ordering.{is_le};
ghost use Rattle.gtt_table.specs.Translation.{longest_match, has_selector};
ghost use Rattle.gtt_table.specs.Inner.Order.{selector_cmp, row_cmp, IsOrdered};

use crate::row::Row;
use sccp_address::Selector;
use std::cmp::Ordering;

/// The place of the row under this selector and this prefix, or where it would stand.
pub(crate) fn place(rows: &[Row], selector: &Selector, prefix: &[u8]) -> Result<usize, usize>
    requires { IsOrdered rows.now }
    ensures range { IsSearchInRange result (length rows.now) }
    ensures found { let cmp = row_cmp selector.now prefix.now in MatchResult result
        (HoldsAt (λ row. cmp row ≡ Equal) rows.now)
        (IsPartitionPoint (λ row. cmp row ≡ Less) (λ row. cmp row ≡ Greater) rows.now) }
{
    rows.binary_search_by(|row| row.order(selector, prefix))
}

/// Whether a row has this selector.
pub(crate) fn has_selector(rows: &[Row], selector: &Selector) -> bool
    requires { IsOrdered rows.now }
    ensures { result ≡ has_selector selector.now rows.now }
{
    rows.binary_search_by(|row| selector_order(&row.selector, selector))
        .is_ok()
}

/// The row with the longest prefix that begins the digits. It doesn't stand behind them, so each prefix that begins them
/// begins also the last row that doesn't: it is that row's, or begins what that row shares with the digits.
pub(crate) fn longest_match<'a>(
    rows: &'a [Row],
    selector: &Selector,
    digits: &[u8],
) -> Option<&'a Row>
    requires { IsOrdered rows.now }
    ensures { option_copied result ≡ longest_match selector.now digits.now rows.entry.now }
{
    let upto = rows_upto(rows, selector, digits);
    if upto == 0 {
        return None;
    }
    let last = &rows[upto - 1];
    if !last.has_selector(selector) {
        return None;
    }
    let shared = shared_digits(last.prefix.as_slice(), digits);
    if shared == last.prefix.len() {
        return Some(last);
    }
    longest_match(&rows[..upto - 1], selector, &digits[..shared])
}

/// How many rows don't stand behind this selector and these digits.
fn rows_upto(rows: &[Row], selector: &Selector, digits: &[u8]) -> usize
    requires { IsOrdered rows.now }
    ensures bound { result ≤ length rows.now }
    ensures parted { let cmp = row_cmp selector.now digits.now in
        IsPartitionPoint (λ row. is_le (cmp row) ≡ true) (λ row. is_le (cmp row) ≡ false) rows.now result }
{
    rows.partition_point(|row| row.order(selector, digits).is_le())
}

/// How many digits both begin with.
fn shared_digits(mine: &[u8], other: &[u8]) -> usize
    ensures { result ≡ common_prefix_len nat_eq mine.now other.now }
{
    let mut shared = 0;
    while shared < mine.len() && shared < other.len() && mine[shared] == other[shared] {
        shared += 1;
    }
    shared
}

/// Selectors stand by indicator, translation type, numbering plan and nature of address.
pub(crate) fn selector_order(mine: &Selector, other: &Selector) -> Ordering
    ensures { result ≡ selector_cmp mine.now other.now }
{
    mine.gti
        .cmp(&other.gti)
        .then(mine.tt.cmp(&other.tt))
        .then(mine.np.cmp(&other.np))
        .then(mine.nai.cmp(&other.nai))
}
