//! The fixed part of a connection section.
ghost use Rattle.std.specs.Prelude.{◌≡◌};
ghost use Rattle.section_model.specs.Views.{section_of};

use crate::cell::SectionState;
use relay_base::{Pc, Ref24, Sls};

/// A connection section of the network: the point that it reaches, its own reference and the other end's, its signalling link
/// selection, the number of its state (`SectionState`, from 0 in the order of its variants), and the class (2 or 3) and the credit (0
/// to 127) agreed on. The number of the state is read by `state`, and changed by `enter` alone.
#[derive(Clone, Copy)]
pub struct WireHead {
    pub point: Pc,
    pub mine: Ref24,
    pub other: Ref24,
    pub sls: Sls,
    pub state: u8,
    pub class: u8,
    pub credit: u8,
}

impl WireHead {
    /// The state of the section.
    pub fn state(&self) -> SectionState
        ensures { result ≡ (section_of self.now).state }
    {
        SectionState::numbered(self.state)
    }

    /// Enters a state.
    pub fn enter(&mut self, state: SectionState)
        ensures { section_of self.new ≡ record (section_of self.old) { state = state } }
    {
        self.state = state.number();
    }
}
