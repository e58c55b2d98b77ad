//! Worked examples of what is printed, each as the contract of a function without a body: the text of each output, as the definitions give it.
#![tactic(auto)]

mod outputs;

pub use outputs::{
    answers, connections, endings, losses, management, messages, refusals, transfers, units,
};
