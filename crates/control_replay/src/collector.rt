//! The groups of changes that a control lane publishes.
ghost use Rattle.std.specs.Prelude.{◌≡◌, [], IfOk};

use plant_core::Group;
use relay_base::{Memory, PlainList};
use scmg::Publish;
use std::alloc::{AllocError, Global};

/// A publisher that keeps copies of the groups, in order, from edition 0 on.
#[derive(Drop)]
pub struct Collector {
    pub groups: PlainList<Group>,
}

impl Collector {
    /// Before anything is published.
    pub fn new(alloc: Global) -> Collector
        ensures { result.groups ≡ [] }
    {
        Collector {
            groups: PlainList::new(alloc),
        }
    }
}

fn copy_of(group: &Group) -> Result<Group, AllocError>
    ensures { IfOk result (λ copy. copy ≡ group.now) }
{
    group.clone()
}

impl Publish for Collector {
    ghost first = { λ c. 0 };

    ghost published = { λ c. c.groups };

    fn publish(&mut self, group: &Group) -> Result<u64, Memory> {
        self.groups.push(copy_of(group)?)?;
        Ok(self.groups.len() as u64)
    }
}
