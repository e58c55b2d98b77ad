//! The timers of a head.
ghost use Rattle.std.specs.Prelude.{◌≡◌, ◌≤◌, IfOk, option_map};
ghost use Rattle.toml.specs.View.{view};
ghost use Rattle.node_head.specs.Inner.Sections.{members_of, data_in};
ghost use Rattle.node_head.specs.Refusals.{Reads};
ghost use Rattle.node_head.specs.Timers.{ticks_at, ticks_of, timers_value};
ghost use Rattle.node_head.specs.Inner.Timers.{connection_ticks, release_ticks, waiting_ticks, management_ticks, grouped_ticks};

use crate::fault::{HeadKind, HeadRefused};
use crate::section::{Bounds, Place, Section, refuse};
use plant_core::{MOST_TICKS, Ticks, USUAL_TICKS};
use std::alloc::Global;
use toml::Value;

impl Section<'_> {
    /// The ticks at a key.
    #[tactic(auto, unfolding(crate::specs::Timers::ticks_at))]
    fn ticks(&self, alloc: Global, key: &str, default: u32, least: u32) -> Result<u32, HeadRefused>
        requires { default ≤ MOST_TICKS }
        ensures value { let members = members_of self.now in
            Reads result (ticks_at self.now.place members key.now default least) }
        ensures most { IfOk result (λ n. n ≤ MOST_TICKS) }
    {
        self.number(alloc, key, &Bounds::usual(default, least, MOST_TICKS))
    }

    /// T(conn est), T(ias) and T(iar).
    #[tactic(auto, using(crate::proofs::HeadLemmas::failures), unfolding(crate::specs::Inner::Timers::connection_ticks))]
    fn connection_ticks(&self, alloc: Global) -> Result<(u32, u32, u32), HeadRefused>
        ensures { Reads result (connection_ticks self.now.place (members_of self.now)) }
    {
        let connect = self.ticks(alloc, "connect", USUAL_TICKS.connect, 1)?;
        let ias = self.ticks(alloc, "ias", USUAL_TICKS.ias, 60)?;
        let iar = self.ticks(alloc, "iar", USUAL_TICKS.iar, 1)?;
        Ok((connect, ias, iar))
    }

    /// T(rel), T(repeat rel) and T(int).
    #[tactic(auto, using(crate::proofs::HeadLemmas::failures), unfolding(crate::specs::Inner::Timers::release_ticks))]
    fn release_ticks(&self, alloc: Global) -> Result<(u32, u32, u32), HeadRefused>
        ensures { Reads result (release_ticks self.now.place (members_of self.now)) }
    {
        let rel = self.ticks(alloc, "rel", USUAL_TICKS.rel, 1)?;
        let repeat = self.ticks(alloc, "repeat", USUAL_TICKS.repeat, 5)?;
        let int = self.ticks(alloc, "int", USUAL_TICKS.int, 1)?;
        Ok((rel, repeat, int))
    }

    /// T(reset), T(reassembly), and how long a local reference is frozen.
    #[tactic(auto, using(crate::proofs::HeadLemmas::failures), unfolding(crate::specs::Inner::Timers::waiting_ticks))]
    fn waiting_ticks(&self, alloc: Global) -> Result<(u32, u32, u32), HeadRefused>
        ensures { Reads result (waiting_ticks self.now.place (members_of self.now)) }
    {
        let reset = self.ticks(alloc, "reset", USUAL_TICKS.reset, 1)?;
        let reassembly = self.ticks(alloc, "reassembly", USUAL_TICKS.reassembly, 1)?;
        let freeze = self.ticks(alloc, "freeze", USUAL_TICKS.freeze, 1)?;
        Ok((reset, reassembly, freeze))
    }

    /// T(stat info) at first and at most, and T(coord chg).
    #[tactic(auto, using(crate::proofs::HeadLemmas::failures), unfolding(crate::specs::Inner::Timers::management_ticks))]
    fn management_ticks(&self, alloc: Global) -> Result<(u32, u32, u32), HeadRefused>
        ensures { Reads result (management_ticks self.now.place (members_of self.now)) }
    {
        let status = self.ticks(alloc, "status", USUAL_TICKS.status, 1)?;
        let status_max = self.ticks(
            alloc,
            "status_max",
            status.max(USUAL_TICKS.status_max),
            status,
        )?;
        let coord = self.ticks(alloc, "coord", USUAL_TICKS.coord, 1)?;
        Ok((status, status_max, coord))
    }

    /// All timers, three by three.
    #[tactic(auto, using(crate::proofs::HeadLemmas::failures), unfolding(crate::specs::Inner::Timers::grouped_ticks))]
    fn grouped_ticks(&self, alloc: Global) -> Result<Ticks, HeadRefused>
        ensures { Reads result (grouped_ticks self.now.place (members_of self.now)) }
    {
        let (connect, ias, iar) = self.connection_ticks(alloc)?;
        let (rel, repeat, int) = self.release_ticks(alloc)?;
        let (reset, reassembly, freeze) = self.waiting_ticks(alloc)?;
        let (status, status_max, coord) = self.management_ticks(alloc)?;
        Ok(Ticks {
            connect,
            ias,
            iar,
            rel,
            repeat,
            int,
            reset,
            reassembly,
            freeze,
            status,
            status_max,
            coord,
        })
    }

    /// All timers.
    fn all_ticks(&self, alloc: Global) -> Result<Ticks, HeadRefused>
        ensures { Reads result (ticks_of self.now.place (members_of self.now)) }
    {
        self.grouped_ticks(alloc)
    }
}

/// The timers of a table, all with their defaults where there is none.
#[tactic(auto, using(crate::proofs::HeadLemmas::failures), unfolding(crate::specs::Timers::timers_value))]
pub fn timers_of(alloc: Global, value: Option<&Value>) -> Result<Ticks, HeadRefused>
    ensures { Reads result (timers_value (data_in value.entry)) }
{
    let place = Place::Timers;
    let Some(value) = value else {
        return Section { place, table: None }.all_ticks(alloc);
    };
    match value.as_table() {
        Some(table) => Section {
            place,
            table: Some(table),
        }
        .all_ticks(alloc),
        None => Err(refuse(alloc, HeadKind::Kind, "timers")),
    }
}
