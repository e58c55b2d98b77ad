//! The head of a capture.
use gtt_table::Row;
use plant_core::{ReplicateList, Ticks};
use relay_base::{Pc, PcList, PlainList, SsnList};

/// The most links.
pub const MOST_LINKS: u8 = 8;

/// The least subsystem number of a local user: 0 names none, and 1 is SCCP management (Q.713, 3.4.2.2).
pub const LEAST_USER: u8 = 2;

/// The greatest subsystem number of a local user: 255 is reserved (Q.713, 3.4.2.2).
pub const GREATEST_USER: u8 = 254;

/// Rows of the translation.
pub type RowList = PlainList<Row>;

/// What the head of a capture states.
pub struct Head {
    /// The own point code.
    pub point: Pc,
    /// The local users: at most 16 different subsystems, 2 to 254.
    pub users: SsnList,
    /// How many connection lanes: 1 to 16.
    pub conn_lanes: u8,
    /// How many data lanes: 1 to 16.
    pub data_lanes: u8,
    /// How many links: 1 to 8.
    pub links: u8,
    /// The greatest credit that is granted, 1 to 127.
    pub credit: u8,
    /// The points that are told when a local user goes in or out of service: at most 16 different ones, not the own one.
    pub concerned: PcList,
    /// The timers, in ticks.
    pub timers: Ticks,
    /// The rows of the translation, at most 4,096, no two with one selector and one prefix.
    pub row: RowList,
    /// The replicates of local users: at most one for each user, not at the own point.
    pub replicate: ReplicateList,
    /// The points that can't take an LUDT or an LUDTS: at most 16 different ones, not the own one.
    pub short: PcList,
}

impl Drop for Head {
    fn drop(self) {
        let Self {
            point: _,
            users: _users,
            conn_lanes: _,
            data_lanes: _,
            links: _,
            credit: _,
            concerned: _concerned,
            timers: _,
            row: _row,
            replicate: _replicate,
            short: _short,
        } = self;
    }
}

/// How many lanes and links a head states, and its greatest credit.
#[derive(Clone, Copy)]
pub struct Counts {
    pub conn_lanes: u8,
    pub data_lanes: u8,
    pub links: u8,
    pub credit: u8,
}
