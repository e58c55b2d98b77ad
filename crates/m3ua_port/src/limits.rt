//! The numbers of M3UA (RFC 4666) that the port reads and writes, and its limits.

/// The version of the protocol (RFC 4666, 3.1.1).
pub const VERSION: u8 = 1;

/// The class of transfer messages (RFC 4666, 3.1.2).
pub const TRANSFER: u8 = 1;

/// The type of a DATA message in its class (RFC 4666, 3.1.2).
pub const DATA: u8 = 1;

/// The octets of the common header (RFC 4666, 3.1).
pub const HEADER: usize = 8;

/// The octets of a parameter's tag and length (RFC 4666, 3.2).
pub const PARAMETER_HEADER: usize = 4;

/// The tag of the parameter Protocol Data (RFC 4666, 3.3.1).
pub const PROTOCOL_DATA: u16 = 0x0210;

/// The octets of Protocol Data in front of the user's (RFC 4666, 3.3.1).
pub const LABEL: usize = 12;

/// The service indicator of SCCP (Q.704, 14.2.1).
pub const SCCP: u8 = 3;

/// The most octets of a message that the port reads.
pub const LONGEST_MESSAGE: usize = 131_072;

/// The most octets of SCCP that one message carries.
pub const LONGEST_CARRIED: usize = 65_500;

/// The most octets of a stream.
pub const MOST_OCTETS: usize = 4_294_967_295;

/// The phase and the link that the events of a stream are stamped with.
pub const PHASE: u32 = 1;

pub const LINK: u8 = 1;
