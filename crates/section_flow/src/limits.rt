//! The limits of flow control.

/// What sequence numbers are counted modulo (Q.713, 3.8 and 3.9).
pub const SEQUENCE_NUMBERS: u8 = 128;
