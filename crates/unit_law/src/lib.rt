//! The laws of units (Q.714, 4.1), as the contracts of functions without a body: what is written reads back; how many segments a unit has, and that they come
//! together where they arrive; and a data lane, in which the outputs of an entry are its own, and earlier ones stand first.
#![tactic(auto)]

mod interwork_laws;
mod segment_laws;
mod spelling_laws;
mod unit_laws;

pub use interwork_laws::{
    segments_come_together, shortened_ones_are_short, shortened_ones_come_together,
};
pub use segment_laws::segments_are_few;
pub use spelling_laws::written_reads_back;
pub use unit_laws::{earlier_first, journal_splits, legal_is_played, outputs_are_own};
