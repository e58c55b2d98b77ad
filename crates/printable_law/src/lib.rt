//! What a node takes, gives and writes is in its ranges, and so right books can be printed: the print of the book of a capture has the form of a journal, and
//! what is read of it are the book's lanes, entries and outputs. As the contracts of functions without a body.
#![tactic(auto)]

mod book_ranges;
mod capture_ranges;
mod form_laws;
mod management_ranges;
mod octet_laws;
mod print_laws;
mod rows;
mod section_ranges;
mod stream_ranges;
mod unit_ranges;

pub use book_ranges::right_books_are_in_range;
pub use capture_ranges::{captures_are_in_range, heads_are_in_range};
pub use form_laws::{
    headings_have_form, lanes_have_form, outputs_have_form, print_has_form, print_is_read,
    stamps_are_read, words_are_printed,
};
pub use management_ranges::control_keeps_ranges;
pub use octet_laws::{
    addresses_have_octets, management_keeps_ranges, messages_have_octets, routing_keeps_ranges,
};
pub use print_laws::{
    captures_are_printable, prints_have_form, right_is_printable, right_is_stamped,
    streams_are_printable,
};
pub use rows::{missing, sound, unsound};
pub use section_ranges::{conn_asks_in_range, conn_keeps_ranges};
pub use stream_ranges::streams_are_in_range;
pub use unit_ranges::{data_asks_in_range, data_keeps_ranges};
