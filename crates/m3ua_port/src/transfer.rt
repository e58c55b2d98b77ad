//! What a message brings to SCCP.
ghost use Rattle.std.specs.Prelude.{◌≡◌, ◌<◌, ◌≤◌, length};
ghost use Rattle.std.specs.Option.{option_map};
ghost use Rattle.relay_base.specs.Giving.{Gives};
ghost use Rattle.m3ua_port.specs.Frames.{data_event, message_event};
ghost use Rattle.m3ua_port.specs.Inner.Transfers.{transfer_seen};

use crate::fault::PortKind;
use crate::limits::{DATA, HEADER, LABEL, SCCP, TRANSFER};
use crate::parameters::protocol_data;
use byteorder::{BigEndian, ByteOrder};
use relay_base::{Pc, Sls};

/// Octets for SCCP, with where they come from.
#[derive(Clone, Copy)]
pub struct Transfer<'a> {
    pub opc: Pc,
    pub sls: Sls,
    pub bytes: &'a [u8],
}

/// What Protocol Data bring to SCCP at the own point.
#[tactic(auto, unfolding(crate::specs::Frames::data_event))]
fn data_transfer(own: Pc, value: &[u8]) -> Result<Option<Transfer<'_>>, PortKind>
    ensures { Gives (option_map transfer_seen) result (data_event own value.now) }
{
    if value.len() < LABEL {
        return Err(PortKind::Short);
    }
    if value[8] != SCCP || BigEndian::read_u32(&value[4..]) != own.number() {
        return Ok(None);
    }
    let Some(opc) = Pc::new(BigEndian::read_u32(value)) else {
        return Err(PortKind::Range);
    };
    let Some(sls) = Sls::new(u32::from(value[11])) else {
        return Err(PortKind::Range);
    };
    Ok(Some(Transfer {
        opc,
        sls,
        bytes: &value[LABEL..],
    }))
}

/// What a message brings to SCCP at the own point.
#[tactic(auto, unfolding(crate::specs::Frames::message_event))]
pub fn message_transfer(own: Pc, message: &[u8]) -> Result<Option<Transfer<'_>>, PortKind>
    requires { HEADER ≤ length message.now }
    ensures { Gives (option_map transfer_seen) result (message_event own message.now) }
{
    if message[2] != TRANSFER || message[3] != DATA {
        return Ok(None);
    }
    data_transfer(own, protocol_data(&message[HEADER..])?)
}
