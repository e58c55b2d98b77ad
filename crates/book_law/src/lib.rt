//! The laws of right books, as the contracts of functions without a body: units of one key stay in the order in which they came (class 1; Q.714, 4.1); no message
//! that is sent is longer than an M3UA message carries; and a capture whose events come one after another, as those of the generator do, has one right book.
#![tactic(auto)]

mod book_laws;
mod generator_laws;
mod length_laws;
mod sequence_laws;

pub use book_laws::{generated_is_sequential, one_right_book};
pub use generator_laws::generated_text_reads;
pub use length_laws::{book_is_carried, lanes_are_carried, none_is_left_out};
pub use sequence_laws::sequence_law;
