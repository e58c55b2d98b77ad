//! What is left to do with a unit (Q.714, 4.1.1).
use relay_base::{Octets, Pc, Sls, Ssn};

/// A segment of a message, as it came: its origin and its parameters (Q.713, 4.18).
#[derive(Drop)]
pub struct Segment {
    pub opc: Pc,
    pub sls: Sls,
    pub class_octet: u8,
    pub called: Octets,
    pub calling: Octets,
    pub body: Octets,
    /// Bit 8 of the first octet marks a first segment, bits 4 to 1 tell how many segments remain; then the segmentation local
    /// reference.
    pub segmentation: [u8; 4],
    pub importance: Option<u8>,
}

/// What is left to do with a unit: nothing, or to put a segment together with others for a local subsystem.
#[derive(Drop)]
pub enum Next {
    Done,
    Gather(Segment, Ssn),
}
