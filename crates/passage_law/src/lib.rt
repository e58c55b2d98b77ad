//! The laws of nodes in a row and of a connection along them (Q.714, 3.1, 3.5 and 3.7), as the contracts of functions without a body: links keep order, and
//! what nodes name to each other; what passes along a connection's trail; and that from its beginning on what two neighbours on a trail do is a course of
//! their hop.
#![tactic(auto)]

mod passage_laws;
mod row_laws;
mod trail_laws;

pub use passage_laws::{
    hops_keep_order, run_ends, run_hop, run_rsr, texts_keep_order, users_end_trails,
};
pub use row_laws::{
    all_go_on, cr_comes_once, fresh_before, links_keep_order, names_no_other, names_what_was_given,
    nodes_stand, nothing_before, others_are_strange,
};
pub use trail_laws::{order_of_hops, run_places, texts_come, units_are_told};
