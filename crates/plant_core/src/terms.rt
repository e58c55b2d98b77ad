//! What a lane is told at its start.
ghost use Rattle.std.specs.Prelude.{◌≡◌, IfOk};

use relay_base::{Memory, Pc, PcList, PlainList, Ssn};
use std::alloc::Global;

/// The most ticks of a timer.
pub const MOST_TICKS: u32 = 65_535;

/// The ticks of each timer (Q.714, timers), and those of this node's own: for freezing a reference, and for a repeated release.
#[derive(Clone, Copy)]
pub struct Ticks {
    /// T(conn est), 1 to 65,535.
    pub connect: u32,
    /// T(ias), 60 to 65,535.
    pub ias: u32,
    /// T(iar), 1 to 65,535.
    pub iar: u32,
    /// T(rel), 1 to 65,535.
    pub rel: u32,
    /// T(repeat rel), 5 to 65,535.
    pub repeat: u32,
    /// T(int), 1 to 65,535.
    pub int: u32,
    /// T(reset), 1 to 65,535.
    pub reset: u32,
    /// T(reassembly), 1 to 65,535.
    pub reassembly: u32,
    /// How long a local reference is frozen, 1 to 65,535.
    pub freeze: u32,
    /// T(stat info) at first, 1 to 65,535.
    pub status: u32,
    /// T(stat info) at most, `status` to 65,535.
    pub status_max: u32,
    /// T(coord chg), 1 to 65,535.
    pub coord: u32,
}

/// The ticks of a node whose head states none.
pub const USUAL_TICKS: Ticks = Ticks {
    connect: 90,
    ias: 420,
    iar: 900,
    rel: 15,
    repeat: 15,
    int: 60,
    reset: 15,
    reassembly: 15,
    freeze: 60,
    status: 30,
    status_max: 600,
    coord: 90,
};

/// What a connection is opened with: the own point code, the greatest credit (1 to 127; Q.713, 3.10), and the ticks.
#[derive(Clone, Copy)]
pub struct Terms {
    pub own: Pc,
    pub credit: u8,
    pub ticks: Ticks,
}

/// What a lane is made with.
#[derive(Drop)]
pub struct LaneHead {
    /// The terms of its connections.
    pub terms: Terms,
    /// The ticks of a reassembly, 1 to 65,535.
    pub reassembly: u32,
    /// The points that can't take an LUDT or an LUDTS: at most 16 different ones, not the own one.
    pub short: PcList,
}

impl LaneHead {
    /// An equal head.
    pub fn copy(&self, alloc: Global) -> Result<LaneHead, Memory>
        ensures { IfOk result (λ h. h ≡ self.now) }
    {
        Ok(LaneHead {
            terms: self.terms,
            reassembly: self.reassembly,
            short: PcList::from_slice(alloc, self.short.as_slice())?,
        })
    }
}

/// A subsystem that another point has too, by which a local user may be replaced (Q.714, 5.3.5).
#[derive(Clone, Copy)]
pub struct Replicate {
    pub ssn: Ssn,
    pub point: Pc,
}

/// Replicates.
pub type ReplicateList = PlainList<Replicate>;
