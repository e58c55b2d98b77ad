//! The limits of an input, of what users ask for, and of the numbers and lengths of Q.713.

/// How many point codes there are: they have 14 bits (Q.713, 3.4).
pub const POINT_CODES: u32 = 16_384;

/// How many local references there are: they have 24 bits (Q.713, 3.2 and 3.3).
pub const REFERENCES: u32 = 16_777_216;

/// How many signalling link selections there are: they have 4 bits.
pub const LINK_SELECTIONS: u32 = 16;

/// How many subsystem numbers there are: they have 8 bits (Q.713, 3.4).
pub const SUBSYSTEM_NUMBERS: u32 = 256;

/// How many digits of a global title there are: they have 4 bits (Q.713, 3.4).
pub const DIGIT_VALUES: u32 = 16;

/// The most digits of a global title that the node translates.
pub const MOST_DIGITS: usize = 24;

/// The greatest number that one octet holds.
pub const GREATEST_OCTET: u8 = 255;

/// How many numbers one octet holds.
pub const OCTET_VALUES: u32 = 256;

/// The most octets of a parameter whose length has one octet (Q.713, 2.3).
pub const LONGEST_PARAMETER: usize = 255;

/// The most lanes of connections, and of units. A local reference modulo it is the number of its lane.
pub const MOST_LANES: u8 = 16;

/// The slots of a lane's local references: 1 to this.
pub const SLOTS: u16 = 4_095;

/// The most octets of an input.
pub const MOST_BYTES: usize = 67_108_864;

/// The most lines of a generated capture.
pub const MOST_GENERATED_LINES: u32 = 199_000;

/// The greatest credit (Q.713, 3.10).
pub const GREATEST_CREDIT: u8 = 127;

/// How many credits there are, with 0.
pub const CREDITS: u32 = GREATEST_CREDIT as u32 + 1;

/// The most octets of an address that a user gives.
pub const LONGEST_GIVEN_ADDRESS: usize = 40;

/// The most octets of data in a unit that a user gives.
pub const LONGEST_GIVEN_UNIT: usize = 2_560;

/// The most octets of data in CR, CC, CREF and RLSD (Q.713, 4.2 to 4.5), and beside the requests that bring them.
pub const LONGEST_DATA: usize = 128;

/// The most octets of data in ED (Q.713, 4.12).
pub const LONGEST_EXPEDITED: usize = 32;

/// The most octets of a text that is cut into units, or put together of them.
pub const LONGEST_TEXT: usize = 8_192;
