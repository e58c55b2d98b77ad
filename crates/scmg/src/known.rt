//! What a change of the routing data makes known (Q.714, 5.2 and 5.3).
ghost use Rattle.std.specs.Prelude.{◌≡◌, ◌++◌, IfOk};
ghost use Rattle.scmg.specs.Control.{is_told, told_among, told_all, service_format, to_concerned, service_known, made_known, only_among, known_by};
ghost use Rattle.scmg.specs.Inner.Kept.{in_order};
ghost use Rattle.scmg.specs.Inner.Known.{told_of};

use crate::groups::only_among;
use crate::head::ControlHead;
use crate::kept::Kept;
use plant_core::{Change, Group, Plant};
use relay_base::limits::SUBSYSTEM_NUMBERS;
use relay_base::{Memory, Output, Outs, Pc, Ssn, Tell};
use scmg_messages::{Format, sent};
use std::alloc::Global;

/// Whether a point, or a subsystem there, is in service.
#[derive(Clone, Copy)]
pub struct Status {
    pub point: Pc,
    pub subsystem: Option<Ssn>,
    pub up: bool,
}

/// What users are told of a status.
fn told_of(status: &Status) -> Tell
    ensures { result ≡ told_of status.now }
{
    let Status {
        point,
        subsystem,
        up,
    } = *status;
    match subsystem {
        None => Tell::Point { point, up },
        Some(ssn) => Tell::State { ssn, point, up },
    }
}

/// Whether this is the number of a user in service, but not the one that it is about.
fn is_told(plant: &Plant, subject: Option<Ssn>, ssn: Ssn) -> bool
    ensures { result ≡ is_told plant.now.routing subject ssn }
{
    plant.is_in_service(ssn) && subject != Some(ssn)
}

/// The users, each once, by rising number.
pub fn in_order(alloc: Global, users: &[Ssn]) -> Result<Vec<Ssn>, Memory>
    ensures { IfOk result (λ list. list.items ≡ in_order users.now) }
{
    let mut list = Vec::new(alloc);
    for number in 0..SUBSYSTEM_NUMBERS {
        let ssn = Ssn::from(number as u8);
        if users.contains(&ssn) {
            list.push(ssn)?;
        }
    }
    Ok(list)
}

/// Tells those of some users that are in service, but not the one that it is about.
fn told_among(
    alloc: Global,
    plant: &Plant,
    users: &[Ssn],
    subject: &Option<Ssn>,
    status: &Status,
) -> Result<Outs, Memory>
    ensures { let told = told_among plant.now.routing subject.now (told_of status.now) users.now
        in IfOk result (λ outs. outs ≡ told) }
{
    let mut outs = Outs::new(alloc);
    for ssn in users {
        if is_told(plant, *subject, *ssn) {
            outs.push(Output::Told {
                ssn: *ssn,
                tell: told_of(status),
            })?;
        }
    }
    Ok(outs)
}

/// Tells the users in service, by rising number, but not the one that it is about.
fn told_all(
    alloc: Global,
    kept: &Kept,
    subject: Option<Ssn>,
    status: &Status,
) -> Result<Outs, Memory>
    ensures { let routing = kept.now.control.routing
        in IfOk result (λ outs. outs ≡ told_all routing subject (told_of status.now)) }
{
    told_among(alloc, kept.plant(), kept.users(), &subject, status)
}

/// SSA or SSP.
fn service_format(up: bool) -> Format
    ensures { result ≡ service_format up }
{
    if up {
        Format::Allowed
    } else {
        Format::Prohibited
    }
}

/// Tells each concerned point that a local subsystem is in service again, or out (Q.714, 5.3.2 and 5.3.3).
fn tell_concerned(
    alloc: Global,
    head: &ControlHead,
    plant: &Plant,
    up: bool,
    ssn: Ssn,
    mut outs: Outs,
) -> Result<Outs, Memory>
    ensures { IfOk result (λ all. all ≡ outs ++ to_concerned head.now plant.now.routing up ssn) }
{
    let format = service_format(up);
    for to in head.concerned.as_slice() {
        outs.push(sent(alloc, *to, format, ssn, plant.own())?)?;
    }
    Ok(outs)
}

fn service_known(
    alloc: Global,
    head: &ControlHead,
    kept: &Kept,
    up: bool,
    ssn: Ssn,
) -> Result<Outs, Memory>
    ensures { IfOk result (λ outs. outs ≡ service_known head.now kept.now.control.routing up ssn) }
{
    let plant = kept.plant();
    let status = Status {
        point: plant.own(),
        subsystem: Some(ssn),
        up,
    };
    let outs = told_all(alloc, kept, Some(ssn), &status)?;
    tell_concerned(alloc, head, plant, up, ssn, outs)
}

/// What a change makes known to the users, and to the concerned points.
fn made_known(
    alloc: Global,
    head: &ControlHead,
    kept: &Kept,
    change: Change,
) -> Result<Outs, Memory>
    ensures { IfOk result (λ outs. outs ≡ made_known head.now kept.now.control.routing change) }
{
    let (point, subsystem, up) = match change {
        Change::AddRow(_) | Change::DelRow(_, _) => return Ok(Outs::new(alloc)),
        Change::BarPoint(point) => (point, None, false),
        Change::FreePoint(point) => (point, None, true),
        Change::BarSub(point, ssn) => (point, Some(ssn), false),
        Change::FreeSub(point, ssn) => (point, Some(ssn), true),
        Change::LocalUp(ssn) => return service_known(alloc, head, kept, true, ssn),
        Change::LocalDown(ssn) => return service_known(alloc, head, kept, false, ssn),
    };
    let status = Status {
        point,
        subsystem,
        up,
    };
    told_all(alloc, kept, None, &status)
}

/// What a group of changes makes known: that of its only change.
pub fn known_by(
    alloc: Global,
    head: &ControlHead,
    kept: &Kept,
    group: &Group,
) -> Result<Outs, Memory>
    ensures { let change = only_among group.now.changes
        in IfOk result (λ outs. outs ≡ known_by head.now kept.now.control.routing change) }
{
    match only_among(group) {
        Some(change) => made_known(alloc, head, kept, change),
        None => Ok(Outs::new(alloc)),
    }
}
