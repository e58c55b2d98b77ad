//! Worked examples of connections (Q.714), each as the contract of a function without a body: what the definitions answer, octet by octet.
#![tactic(auto)]

mod data;
mod numbered;
mod opening;
mod relay;
mod release;

pub use data::{long_text, too_long_text};
pub use numbered::{
    expedited_data, invalid_receive_number, numbers_after_127, unanswered_reset, user_resets,
    windows,
};
pub use opening::{
    confirmed_without_options, hop_counter_runs_out, lowest_references, too_few_references,
    user_accepts, user_calls, user_refuses,
};
pub use relay::{frozen_half, relays, repeats, strays};
pub use release::{
    frozen_references, generations, late_message, silence, unknown_reference, user_disconnects,
    wrong_reference,
};
