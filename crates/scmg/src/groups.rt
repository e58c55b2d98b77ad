//! What a group of changes is: one change of its own, or several rows.
ghost use Rattle.std.specs.Prelude.{◌≡◌};
ghost use Rattle.std.specs.List.{list_any, list_all};
ghost use Rattle.scmg.specs.Control.{is_by_message, is_of_row, is_by_operator, only_among};

use plant_core::{Change, Group};

/// The only change of a group.
pub fn only_among(group: &Group) -> Option<Change>
    ensures { result ≡ only_among group.now.changes }
{
    match group.changes.as_slice() {
        [change] => Some(*change),
        _ => None,
    }
}

fn is_by_message(change: &Change) -> bool
    ensures { result ≡ is_by_message change.now }
{
    match change {
        Change::BarSub(_, _) | Change::FreeSub(_, _) => true,
        _ => false,
    }
}

fn is_of_row(change: &Change) -> bool
    ensures { result ≡ is_of_row change.now }
{
    match change {
        Change::AddRow(_) | Change::DelRow(_, _) => true,
        _ => false,
    }
}

fn any_is_by_message(changes: &[Change]) -> bool
    ensures { result ≡ list_any is_by_message changes.now }
{
    changes.iter().any(is_by_message)
}

fn all_are_of_rows(changes: &[Change]) -> bool
    ensures { result ≡ list_all is_of_row changes.now }
{
    changes.iter().all(is_of_row)
}

/// Whether an operator makes these changes: several are of rows, and subsystems of other points are barred and freed by messages alone.
pub fn is_by_operator(group: &Group) -> bool
    ensures { result ≡ is_by_operator group.now }
{
    let changes = group.changes.as_slice();
    !any_is_by_message(changes) && (changes.len() <= 1 || all_are_of_rows(changes))
}
