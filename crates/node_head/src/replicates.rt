//! The replicates of a head.
ghost use Rattle.std.specs.Prelude.{◌≡◌, [], length, map, option_map};
ghost use Rattle.toml.specs.View.{table_view};
ghost use Rattle.node_head.specs.Inner.Sections.{members_of, tables_in, data_in};
ghost use Rattle.node_head.specs.Refusals.{Reads};
ghost use Rattle.node_head.specs.Replicates.{has_replicate, is_new_user, user_at, other_point_at, replicate_of, replicates_after, replicates_value};

use crate::fault::{HeadKind, HeadRefused};
use crate::section::{Bounds, Place, Section, TableArray};
use crate::tables::tables_of;
use plant_core::{Replicate, ReplicateList};
use relay_base::limits::SUBSYSTEM_NUMBERS;
use relay_base::{Pc, Ssn};
use std::alloc::Global;
use toml::{Table, Value};

fn has_replicate(found: &[Replicate], ssn: Ssn) -> bool
    ensures { result ≡ has_replicate found.now ssn }
{
    found.iter().any(|replicate| replicate.ssn == ssn)
}

/// Whether a subsystem is a user that has no replicate yet.
fn is_new_user(users: &[Ssn], found: &[Replicate], ssn: Ssn) -> bool
    ensures { result ≡ is_new_user users.now found.now ssn }
{
    users.contains(&ssn) && !has_replicate(found, ssn)
}

impl Section<'_> {
    #[tactic(auto, using(crate::proofs::HeadLemmas::failures), unfolding(crate::specs::Replicates::user_at))]
    fn user(&self, alloc: Global, users: &[Ssn], found: &[Replicate]) -> Result<Ssn, HeadRefused>
        ensures { Reads result (user_at users.now found.now self.now.place (members_of self.now)) }
    {
        let ssn = Ssn::from(self.octet(alloc, "ssn", &Bounds::required(0, SUBSYSTEM_NUMBERS - 1))?);
        if !is_new_user(users, found, ssn) {
            return Err(self.refuse(alloc, HeadKind::Range, "ssn"));
        }
        Ok(ssn)
    }

    #[tactic(auto, using(crate::proofs::HeadLemmas::failures), unfolding(crate::specs::Replicates::other_point_at))]
    fn other_point(&self, alloc: Global, own: Pc) -> Result<Pc, HeadRefused>
        ensures { Reads result (other_point_at own self.now.place (members_of self.now)) }
    {
        let point = self.point(alloc)?;
        if point == own {
            return Err(self.refuse(alloc, HeadKind::Range, "point"));
        }
        Ok(point)
    }

    #[tactic(auto, using(crate::proofs::HeadLemmas::failures), unfolding(crate::specs::Replicates::replicate_of))]
    fn replicate(
        &self,
        alloc: Global,
        own: Pc,
        users: &[Ssn],
        found: &[Replicate],
    ) -> Result<Replicate, HeadRefused>
        ensures { let members = members_of self.now in
            Reads result (replicate_of own users.now found.now self.now.place members) }
    {
        let ssn = self.user(alloc, users, found)?;
        let point = self.other_point(alloc, own)?;
        Ok(Replicate { ssn, point })
    }
}

fn replicates(
    alloc: Global,
    own: Pc,
    users: &[Ssn],
    tables: &[&Table],
) -> Result<ReplicateList, HeadRefused>
    ensures { Reads result (replicates_after own users.now [] (tables_in tables.now)) }
{
    let mut found = ReplicateList::new(alloc);
    for table in tables {
        let section = Section {
            place: Place::Nth(TableArray::Replicates, found.len() + 1),
            table: Some(*table),
        };
        let replicate = section.replicate(alloc, own, users, found.as_slice())?;
        found.push(replicate)?;
    }
    Ok(found)
}

/// The replicates of an array of tables, none where the key is absent.
#[tactic(auto, using(crate::proofs::HeadLemmas::failures), unfolding(crate::specs::Replicates::replicates_value))]
pub fn replicates_of(
    alloc: Global,
    own: Pc,
    users: &[Ssn],
    value: Option<&Value>,
) -> Result<ReplicateList, HeadRefused>
    ensures { Reads result (replicates_value own users.now (data_in value.entry)) }
{
    let tables = tables_of(alloc, TableArray::Replicates, value)?;
    replicates(alloc, own, users, tables.as_slice())
}
