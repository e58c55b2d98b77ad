//! A connection of two coupled ends (Q.714): what it hears, what an event does to it, how it is opened, and what is answered where no
//! connection hears.
#![tactic(auto)]

mod asking;
mod boxed;
mod clock;
mod coming;
mod coupling;
mod duo;
mod following;
mod hearing;
mod opening;
mod owner;
mod pair;
mod side;
mod sizes;
mod taken;
mod ticking;
mod timers;
mod unheard;
mod wire;
mod wish;

pub use clock::taken_after;
pub use coming::ReadEvent;
pub use duo::{Begun, Duo, Heard, TIMERS};
pub use taken::Taken;
pub use unheard::{named, stray};
pub use wish::ReadWish;
