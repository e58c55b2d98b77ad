//! The laws of one connection (Q.714, 3), whatever it hears, as the contracts of functions without a body: of its local references, of the
//! windows of class 3 and what leaves in class 2, of the messages that carry its data, and of its timers.
#![tactic(auto)]

mod laws;

pub use laws::{
    acts_keep, data_along, data_sent, expedited_sent, following_stays, opening_keeps, order_law,
    quiet_tick, sending_law, step_keeps, step_stays, timers_run, window_law,
};
