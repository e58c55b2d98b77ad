//! The journals of a run, and their print.
#![tactic(auto)]

mod book;
mod entries;
mod pieces;
mod tell;
mod text;
mod writing;

pub use book::{Book, print_book};
pub use entries::{put_asked, put_published, put_stamp};
pub use tell::{put_output, put_tell};
pub use text::Text;
pub use writing::{WriteFault, write_book, write_if_long, write_text};
