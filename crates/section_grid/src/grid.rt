//! A table of states and events by their numbers.
ghost use Rattle.std.specs.Prelude.{◌≤◌};

use section_model::Cell;

/// A table of `S` states and `E` events, each numbered from 0: what is done in each state with each event.
#[derive(Clone, Copy)]
pub struct Grid<const S: usize, const E: usize> {
    pub(crate) rows: [[Cell; S]; E],
    ghost few_states: { S ≤ 60_000 },
    ghost few_events: { E ≤ 60_000 },
}

impl<const S: usize, const E: usize> Grid<S, E> {
    ghost use Rattle.std.specs.Prelude.{◌≡◌, ◌<◌};
    ghost use Rattle.section_grid.specs.Grids.{cell_at};

    /// What is done in the state of this number, below `S`, with the event of this number, below `E`.
    pub fn cell(&self, state: usize, event: usize) -> Cell
        requires state { state < S }
        requires event { event < E }
        ensures { result ≡ cell_at self.now state event }
    {
        self.rows[event][state]
    }
}
