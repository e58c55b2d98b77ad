//! The event that a message brings, with its stamp.
ghost use Rattle.std.specs.Prelude.{◌≡◌, ◌≤◌, ◌++◌, length, Some, OnOk};
ghost use Rattle.m3ua_port.specs.Frames.{message_event, stamped};
ghost use Rattle.m3ua_port.specs.Inner.Transfers.{transfer_seen};
ghost use Rattle.m3ua_port.specs.Inner.Reading.{IfFault, AddsEvent, IsFaultOf};

use crate::fault::{PortFault, PortRefused};
use crate::limits::{HEADER, LINK, PHASE};
use crate::transfer::{Transfer, message_transfer};
use relay_base::{Event, Memory, Octets, Pc, Stamp, StampedList};
use std::alloc::Global;

/// Puts the event of a transfer at the end.
fn push_transfer(
    alloc: Global,
    number: u32,
    transfer: Transfer<'_>,
    events: &mut StampedList,
) -> Result<(), Memory>
    ensures { OnOk result (events.new ≡
        events.old ++ stamped number (Some (transfer_seen transfer.entry))) }
{
    let stamp = Stamp {
        phase: PHASE,
        link: LINK,
        line: number,
    };
    let event = Event::Message {
        opc: transfer.opc,
        sls: transfer.sls,
        bytes: Octets::from_slice(alloc, transfer.bytes)?,
    };
    events.push((stamp, event))?;
    Ok(())
}

/// Puts the event of a whole message at the end, if it brings one to SCCP at the own point.
pub fn take_message(
    alloc: Global,
    own: Pc,
    number: u32,
    message: &[u8],
    events: &mut StampedList,
) -> Result<(), PortRefused>
    requires { HEADER ≤ length message.now }
    ensures ok { let event = message_event own message.now
        in OnOk result (AddsEvent number event events.old events.new) }
    ensures fault { let event = message_event own message.now
        in IfFault result (λ f. IsFaultOf number event events.old events.new f) }
{
    match message_transfer(own, message) {
        Ok(None) => Ok(()),
        Ok(Some(transfer)) => {
            push_transfer(alloc, number, transfer, events)?;
            Ok(())
        }
        Err(kind) => Err(PortRefused::Fault(PortFault {
            message: number,
            kind,
        })),
    }
}
