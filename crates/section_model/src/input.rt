//! What an end acts upon.
use crate::hand::Hand;
use relay_base::Event;

/// What an end acts upon: a message or a request, a timer that fires (its number from 0 in the firing order), an effect of the other
/// end, or its turn after each event.
#[derive(Clone, Copy)]
pub enum Input<'a> {
    Event(&'a Event),
    Timer(u8),
    Hand(&'a Hand),
    Turn,
}
