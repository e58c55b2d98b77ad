//! The common header of a message.
ghost use Rattle.std.specs.Prelude.{◌<◌, length};
ghost use Rattle.m3ua_port.specs.Inner.Reading.{IsLengthOf};

use crate::fault::PortKind;
use crate::limits::{HEADER, LONGEST_MESSAGE, VERSION};
use byteorder::{BigEndian, ByteOrder};

/// The length of the message at the front of octets, None where they are the front of one in which there is no fault yet, or else the
/// fault of its header.
#[tactic(auto, unfolding(crate::specs::Frames::message_length))]
pub fn front_length(octets: &[u8]) -> Result<Option<usize>, PortKind>
    requires { 0 < length octets.now }
    ensures { IsLengthOf result octets.now }
{
    if octets[0] != VERSION {
        return Err(PortKind::Version);
    }
    if octets.len() < HEADER {
        return Ok(None);
    }
    let size = BigEndian::read_u32(&octets[4..]) as usize;
    if size < HEADER || size > LONGEST_MESSAGE {
        return Err(PortKind::Length);
    }
    if octets.len() < size {
        return Ok(None);
    }
    Ok(Some(size))
}
