//! Messages of SCCP management (Q.713, 5): written, and read.
ghost use Rattle.std.specs.Prelude.{◌≡◌, ◌++◌, Ok, IfOk, OnOk, OnErr};
ghost use Rattle.std.specs.Option.{option_map};
ghost use Rattle.scmg_messages.specs.Messages.{code_of, octets_of, sent, status_outputs, format_of, notice_in, is_for_management, data_by, data_in};
ghost use Rattle.q713_codec.specs.Reading.{seen};

use q713_codec::{LONGEST, View, read};
use relay_base::limits::POINT_CODES;
use relay_base::{Memory, Octets, Output, Outs, Pc, Sls, Ssn};
use sccp_address::parse;
use std::alloc::Global;

/// What stands before the five octets of data: the type, class 0 and the pointers of UDT, and its addresses, which are those of subsystem 1.
const BEFORE_DATA: [u8; 12] = [9, 0, 3, 5, 7, 2, 0x42, 1, 2, 0x42, 1, 5];

/// What a message of management is about.
#[derive(Clone, Copy)]
pub enum Format {
    /// SSA, subsystem allowed.
    Allowed,
    /// SSP, subsystem prohibited.
    Prohibited,
    /// SST, subsystem status test.
    StatusTest,
    /// SOR, subsystem out of service request.
    OutOfServiceRequest,
    /// SOG, subsystem out of service grant.
    OutOfServiceGrant,
}

/// What a message of management says of a subsystem of a point.
#[derive(Clone, Copy)]
pub struct Notice {
    pub format: Format,
    pub ssn: Ssn,
    pub point: Pc,
}

impl Format {
    fn code(self) -> u8
        ensures { result ≡ code_of self }
    {
        match self {
            Format::Allowed => 0x01,
            Format::Prohibited => 0x02,
            Format::StatusTest => 0x03,
            Format::OutOfServiceRequest => 0x04,
            Format::OutOfServiceGrant => 0x05,
        }
    }

    fn of_code(code: u8) -> Option<Format>
        ensures { result ≡ format_of code }
    {
        match code {
            0x01 => Some(Format::Allowed),
            0x02 => Some(Format::Prohibited),
            0x03 => Some(Format::StatusTest),
            0x04 => Some(Format::OutOfServiceRequest),
            0x05 => Some(Format::OutOfServiceGrant),
            _ => None,
        }
    }
}

/// The octets of a message about a subsystem of a point: those before its data are the same in every one.
#[tactic(auto, using(crate::proofs::MessageLemmas::notice_octets))]
fn octets_of(alloc: Global, format: Format, ssn: Ssn, point: Pc) -> Result<Octets, Memory>
    ensures { IfOk result (λ octets. octets ≡ octets_of format ssn point) }
{
    let low = (point.number() % 256) as u8;
    let high = (point.number() / 256) as u8;
    let data = [format.code(), ssn.number() as u8, low, high, 0x00];
    let mut octets = Octets::from_slice(alloc, &BEFORE_DATA)?;
    octets.extend(&data)?;
    Ok(octets)
}

/// A message about a subsystem of a point, to a point.
pub fn sent(alloc: Global, to: Pc, format: Format, ssn: Ssn, point: Pc) -> Result<Output, Memory>
    ensures { IfOk result (λ output. output ≡ sent to format ssn point) }
{
    let bytes = octets_of(alloc, format, ssn, point)?;
    Ok(Output::Sent {
        point: to,
        sls: Sls::new(0).ok_or(Memory)?,
        bytes,
    })
}

/// Tells the origin of a message, with its link selection, that a local subsystem is prohibited, where one is named. After want of memory `outs` is as before.
#[tactic(auto, unfolding(crate::specs::Messages::status_outputs))]
pub fn put_status(
    alloc: Global,
    outs: &mut Outs,
    own: Pc,
    opc: Pc,
    sls: Sls,
    local: Option<Ssn>,
) -> Result<(), Memory>
    ensures ok { OnOk result (outs.new ≡ outs.old ++ status_outputs own opc sls local) }
    ensures err { OnErr result (outs.new ≡ outs.old) }
{
    let Some(ssn) = local else {
        return Ok(());
    };
    let bytes = octets_of(alloc, Format::Prohibited, ssn, own)?;
    outs.push(Output::Sent {
        point: opc,
        sls,
        bytes,
    })
}

/// What data say; None where they have fewer than five octets, or a format that isn't known.
pub fn notice_in(told: &[u8]) -> Option<Notice>
    ensures { result ≡ notice_in told.now }
{
    if told.len() < 5 {
        return None;
    }
    let format = Format::of_code(told[0])?;
    let point = (u32::from(told[2]) + 256 * u32::from(told[3])) % POINT_CODES;
    Some(Notice {
        format,
        ssn: Ssn::from(told[1]),
        point: Pc::new(point)?,
    })
}

/// Whether a called address routes on the subsystem number of management, which is 1.
pub fn is_for_management(called: &[u8]) -> bool
    ensures { result ≡ is_for_management called.now }
{
    match parse(called) {
        Ok(address) => match address.ssn {
            Some(ssn) => address.on_ssn && ssn.number() == 1,
            None => false,
        },
        Err(_) => false,
    }
}

/// The data that management hears in a message: those of a UDT for subsystem 1.
fn data_of<'a>(view: &View<'a>) -> Option<&'a [u8]>
    ensures { option_map (λ body. body.now) result ≡ data_by (Ok (seen view.now)) }
{
    let View::Udt { called, body, .. } = *view else {
        return None;
    };
    is_for_management(called).then_some(body)
}

/// The data that management hears in octets from the network: those of a UDT for subsystem 1.
#[tactic(auto, unfolding(crate::specs::Messages::data_in))]
pub fn data_in(bytes: &[u8]) -> Option<&[u8]>
    ensures { option_map (λ body. body.now) result ≡ data_in bytes.now }
{
    if bytes.len() > LONGEST {
        return None;
    }
    match read(bytes) {
        Ok(view) => data_of(&view),
        Err(_) => None,
    }
}
