//! Laws of a hop along a chain of nodes (Q.714, 3.1, 3.5 and 3.7), as the contracts of functions without a body: the texts of a connection as units and
//! back, the units that messages carry, what passes through a connection in one step and along all that it hears, how two neighbours come to know each
//! other, what waits between them, and that RSC answers RSR alone.
#![tactic(auto)]

mod carried_laws;
mod course_laws;
mod hop_laws;
mod passing_laws;
mod reset_laws;
mod step_laws;
mod text_laws;

pub use carried_laws::units_are_read;
pub use course_laws::one_hop;
pub use hop_laws::{becomes_known, is_answered, left_along, taken_along, units_wait};
pub use passing_laws::{
    classes_stay, early_is_empty, no_clearing, no_opening, places_stay, units_are_taken,
    units_leave, units_pass,
};
pub use reset_laws::{none_answers, opening_resets_none, rsc_answers_rsr, rsr_is_sent};
pub use step_laws::{
    asked_answers, asking_is_answered, asking_stays, keeps_apart, nothing_passes, sections_stay,
    sections_stay_shut, sends_no_confirm, sends_of_class, stays_sound, unheard_is_idle,
    units_come_in, units_go,
};
pub use text_laws::{collected_so, cut_and_joined, few_units_few_texts};
