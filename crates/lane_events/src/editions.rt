//! The editions of the routing data that the routings of a lane name.
ghost use Rattle.std.specs.Prelude.{◌≡◌, ◌≤◌, ◌<◌, ◌+◌, ◌^◌, min, length, IfOk, OnOk};
ghost use Rattle.relay_base.specs.Decimal.{digits_value};
ghost use Rattle.plant_core.specs.Plant.{RoutingData};
ghost use Rattle.lane_events.specs.Editions.{HasAbsorbed};

use mark::Mark;
use plant_core::{Group, Plant};
use relay_base::Memory;
use std::marker::Model;

/// More editions than any journal publishes.
pub const MANY_EDITIONS: u64 = 1_000_000_000_000;

/// The number that digits write, or `MANY_EDITIONS` where it is greater.
fn value_of(digits: &[u8]) -> u64
    ensures { result ≡ min MANY_EDITIONS (digits_value digits.now) }
{
    let mut value = 0u64;
    for digit in digits {
        value = u64::min(
            MANY_EDITIONS,
            10 * value + u64::from(digit.saturating_sub(b'0')),
        );
    }
    value
}

/// A plant absorbs groups, of which it has absorbed as many as its edition, until it is at this edition. After `Memory` it is at one in between.
fn absorb_to(plant: &mut Plant, groups: &[Group], edition: u64) -> Result<(), Memory>
    requires later { plant.old.edition ≤ edition }
    requires within { edition ≤ length groups.now }
    requires few { length groups.now < MANY_EDITIONS }
    ensures edition { OnOk result (plant.new.edition ≡ edition) }
    ensures most { plant.new.edition ≤ edition }
    ensures routing { (start : RoutingData) → HasAbsorbed start groups.now plant.old
        → HasAbsorbed start groups.now plant.new }
{
    for at in plant.edition()..edition {
        plant.absorb(&groups[at as usize])?;
    }
    Ok(())
}

/// The routing data at the edition that was named last, and what was published.
#[derive(Drop)]
pub struct Editions<'a> {
    groups: &'a [Group],
    /// How many of the groups were published before each phase, from 0.
    before: &'a [u64],
    plant: Plant,
    /// The routing data at the start, which clauses alone read.
    start: Mark<Plant>,
}

impl<'a> Model for Editions<'a> {
    ghost use Rattle.lane_events.specs.Editions.{Named, IsAt};

    ghost Value = { Named };

    ghost view = { λ e. record {
      start = e.start.value.routing;
      groups = e.groups.now;
      before = e.before.now;
      edition = e.plant.edition;
    } };

    ghost invariant = { λ e. IsAt (record {
      start = e.start.value.routing;
      groups = e.groups.now;
      before = e.before.now;
      edition = e.plant.edition;
    }) e.plant };
}

impl<'a> Editions<'a> {
    ghost use Rattle.std.specs.List.{AllByRecursion};
    ghost use Rattle.lane_events.specs.Editions.{routing_at, may_be_next, named_next};

    /// Before any edition is named: this routing data, to which these groups of changes were published, so many before each phase, from 0.
    pub fn new(plant: Plant, groups: &'a [Group], before: &'a [u64]) -> Editions<'a>
        requires start { plant.edition ≡ 0 }
        requires few { AllByRecursion (λ n. n ≤ length groups.now) before.now }
        ensures { result ≡ record {
          start = plant.routing;
          groups = groups.now;
          before = before.now;
          edition = 0;
        } }
    {
        let start = Mark::after(&plant);
        Editions {
            groups,
            before,
            plant,
            start,
        }
    }

    /// The routing data at the edition that was named last.
    pub fn plant(&self) -> &Plant
        ensures routing { result.now.routing ≡ routing_at self.now self.now.edition }
        ensures edition { result.now.edition ≡ self.now.edition }
    {
        &self.plant
    }

    /// Names the edition that these digits write, where it may be named next in a phase.
    pub fn name(&mut self, phase: u32, digits: &[u8]) -> Result<bool, Memory>
        requires few { length self.old.groups < MANY_EDITIONS }
        requires phase { phase + 1 < length self.old.before }
        ensures named { let edition = digits_value digits.now
            in IfOk result (λ named. named ≡ may_be_next self.old phase edition) }
        ensures after { let edition = digits_value digits.now
            in OnOk result (self.new ≡ named_next self.old phase edition) }
    {
        let edition = value_of(digits);
        let before = self.before;
        let at = phase as usize;
        if edition < before[at] || before[at + 1] < edition || edition < self.plant.edition() {
            return Ok(false);
        }
        absorb_to(&mut self.plant, self.groups, edition)?;
        Ok(true)
    }
}
