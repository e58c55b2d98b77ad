//! What a single change is about.
ghost use Rattle.std.specs.Prelude.{◌≡◌};
ghost use Rattle.plant_core.specs.Inner.Subjects.{subject_of, puts, is_same, is_about};
ghost use Rattle.plant_core.specs.declared.subject.Subject.TheVariants as subject;

use crate::change::Change;
use relay_base::{Digits, Pc, Ssn};
use sccp_address::Selector;

/// What a change puts into the routing data, or takes out: a row of the translation by its selector and prefix, a barred point, a barred
/// subsystem of another point, or a user that is out of service.
#[derive(Clone, Copy)]
pub enum Subject {
    Row(Selector, Digits),
    Point(Pc),
    Subsystem(Pc, Ssn),
    User(Ssn),
}

impl Subject {
    /// That of a change.
    pub fn of(change: &Change) -> Subject
        ensures { result ≡ subject_of change.now }
    {
        match change {
            Change::AddRow(row) => Subject::Row(row.selector, row.prefix),
            Change::DelRow(selector, prefix) => Subject::Row(*selector, *prefix),
            Change::BarPoint(point) | Change::FreePoint(point) => Subject::Point(*point),
            Change::BarSub(point, ssn) | Change::FreeSub(point, ssn) => {
                Subject::Subsystem(*point, *ssn)
            }
            Change::LocalUp(ssn) | Change::LocalDown(ssn) => Subject::User(*ssn),
        }
    }

    fn is_row(&self, other: &Selector, digits: &Digits) -> bool
        ensures { result ≡ is_same self.now (subject.Row other.now digits.now) }
    {
        match self {
            Subject::Row(selector, prefix) => {
                *other == *selector && digits.as_slice() == prefix.as_slice()
            }
            _ => false,
        }
    }

    fn is_point(&self, other: Pc) -> bool
        ensures { result ≡ is_same self.now (subject.Point other) }
    {
        match self {
            Subject::Point(point) => other == *point,
            _ => false,
        }
    }

    fn is_subsystem(&self, other: Pc, number: Ssn) -> bool
        ensures { result ≡ is_same self.now (subject.Subsystem other number) }
    {
        match self {
            Subject::Subsystem(point, ssn) => other == *point && number == *ssn,
            _ => false,
        }
    }

    fn is_user(&self, other: Ssn) -> bool
        ensures { result ≡ is_same self.now (subject.User other) }
    {
        match self {
            Subject::User(ssn) => other == *ssn,
            _ => false,
        }
    }

    /// Whether a change is about this subject.
    pub fn is_of(&self, change: &Change) -> bool
        ensures { result ≡ is_about self.now change.now }
    {
        match change {
            Change::AddRow(row) => self.is_row(&row.selector, &row.prefix),
            Change::DelRow(selector, prefix) => self.is_row(selector, prefix),
            Change::BarPoint(point) | Change::FreePoint(point) => self.is_point(*point),
            Change::BarSub(point, ssn) | Change::FreeSub(point, ssn) => {
                self.is_subsystem(*point, *ssn)
            }
            Change::LocalUp(ssn) | Change::LocalDown(ssn) => self.is_user(*ssn),
        }
    }
}

/// Whether a change puts its subject in, and doesn't take it out.
pub fn puts(change: &Change) -> bool
    ensures { result ≡ puts change.now }
{
    matches!(
        change,
        Change::AddRow(_) | Change::BarPoint(_) | Change::BarSub(..) | Change::LocalDown(_)
    )
}
