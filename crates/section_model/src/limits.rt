//! The sizes and the limits of connections.
use relay_base::limits::LONGEST_PARAMETER;

/// The most units of a text that wait in class 3, with those that are to wait.
pub const MOST_WAITING: usize = 127;

/// The most octets of an address (Q.713, 3.4 and 3.5).
pub const LONGEST_ADDRESS: usize = LONGEST_PARAMETER;

/// The most octets of data in DT1 and DT2 (Q.713, 4.7 and 4.8).
pub const LONGEST_UNIT: usize = LONGEST_PARAMETER;

/// How many generations of a local reference there are, 0 to 254: with one more, a reference could be all ones.
pub const GENERATIONS: u32 = 255;
