//! The publisher of a phase.
ghost use Rattle.std.specs.Prelude.{IfOk};
ghost use Rattle.gtt_editions.specs.Standing.{IsEndOf};

use gtt_editions::{Ended, Publisher};
use plant_core::Group;
use relay_base::Memory;
use scmg::Publish;
use std::sync::Wait;

/// Publishes the groups of changes of the control lane to all lanes of a phase.
#[derive(Drop)]
pub struct PhasePublisher<'r, R: Wait> {
    pub publisher: Publisher<'r, R>,
}

impl<'r, R: Wait> PhasePublisher<'r, R> {
    /// Nothing is published after it.
    pub fn end(self) -> Result<Ended<'r, R>, Memory>
        ensures { IfOk result (λ ended. IsEndOf self.entry.publisher ended) }
    {
        let Self { publisher } = self;
        publisher.end()
    }
}

impl<'r, R: Wait> Publish for PhasePublisher<'r, R> {
    ghost first = { λ p. p.publisher.opened.number };

    ghost published = { λ p. p.publisher.seen.changes };

    fn publish(&mut self, group: &Group) -> Result<u64, Memory> {
        self.publisher.publish(group)
    }
}
