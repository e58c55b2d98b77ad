//! The words that every part of the relay speaks: numbers, octets, events, outputs, and the traits of the outside.
#![tactic(auto)]

pub mod causes;
mod decimal;
mod digits;
mod errors;
pub mod limits;
mod lists;
mod numbers;
mod octets;
mod outside;
mod spare;
mod stream;
mod words;

pub use decimal::number_of;
pub use digits::Digits;
pub use errors::{Failed, Memory, ReadAllFault};
pub use lists::{Outs, PcList, PlainList, SsnList, StampedList};
pub use numbers::{Below, Digit, Pc, Ref24, Sls, Ssn};
pub use octets::{BoxedOctets, Octets};
pub use outside::{MemSink, MemSource, NoPace, Pace, Sink, Source, StdSink, StdSource};
pub use spare::take_spare;
pub use stream::{read_all, write_all};
pub use words::{Event, Lost, Output, ReadFault, Reason, Request, Stamp, Tell};
