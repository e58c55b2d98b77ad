//! The message that carries octets of SCCP.
ghost use Rattle.std.specs.Prelude.{◌≡◌, ◌<◌, ◌≤◌, ◌-◌, ◌++◌, length, replicate, IfOk, OnOk};
ghost use Rattle.byteorder.specs.Endian.{big_bytes};
ghost use Rattle.m3ua_port.specs.Frames.{padded, frames_of};
ghost use Rattle.m3ua_port.specs.Wrapping.{header, label, wrapped, one_transfer, IsInRange};

use crate::limits::{
    DATA, HEADER, LABEL, LONGEST_CARRIED, LONGEST_MESSAGE, PARAMETER_HEADER, PROTOCOL_DATA, SCCP,
    TRANSFER, VERSION,
};
use crate::parameters::padded;
use byteorder::{BigEndian, ByteOrder};
use relay_base::{Memory, Octets, Pc, Sls};
use std::alloc::Global;

/// Puts a number of four octets at the end.
fn push_u32(octets: &mut Octets, number: u32) -> Result<(), Memory>
    ensures { OnOk result (octets.new ≡ octets.old ++ big_bytes 4 number) }
{
    let mut four = [0; 4];
    BigEndian::write_u32(&mut four, number);
    octets.extend(&four)
}

/// Puts a number of two octets at the end.
fn push_u16(octets: &mut Octets, number: u16) -> Result<(), Memory>
    ensures { OnOk result (octets.new ≡ octets.old ++ big_bytes 2 number) }
{
    let mut two = [0; 2];
    BigEndian::write_u16(&mut two, number);
    octets.extend(&two)
}

/// The header of a DATA message of this length, with room for all of it.
fn begun(alloc: Global, size: usize) -> Result<Octets, Memory>
    requires { size ≤ LONGEST_MESSAGE }
    ensures { IfOk result (λ o. o ≡ header size) }
{
    let mut octets = Octets::with_capacity(alloc, size)?;
    octets.extend(&[VERSION, 0, TRANSFER, DATA])?;
    push_u32(&mut octets, size as u32)?;
    Ok(octets)
}

/// Puts the front of Protocol Data at the end.
fn push_label(octets: &mut Octets, own: Pc, point: Pc, sls: Sls) -> Result<(), Memory>
    ensures label { OnOk result (octets.new ≡ octets.old ++ label own point sls) }
    ensures range { OnOk result (IsInRange own point sls) }
{
    push_u32(octets, own.number())?;
    push_u32(octets, point.number())?;
    octets.extend(&[SCCP, 0, 0, sls.number() as u8])
}

/// Puts what fills a parameter up at the end.
#[tactic(auto, using(crate::proofs::WrapLemmas::zeros))]
fn push_filler(octets: &mut Octets, count: usize) -> Result<(), Memory>
    requires { count ≤ 3 }
    ensures { OnOk result (octets.new ≡ octets.old ++ replicate count 0) }
{
    octets.extend(&[0; 3][..count])
}

/// The message that carries octets of SCCP, at most 65,500, from the own point to another (RFC 4666, 3.3.1).
pub fn wrap(alloc: Global, own: Pc, point: Pc, sls: Sls, bytes: &[u8]) -> Result<Octets, Memory>
    requires { length bytes.now ≤ LONGEST_CARRIED }
    ensures octets { IfOk result (λ o. o ≡ wrapped own point sls bytes.now) }
    ensures read_back { IfOk result (λ o. frames_of point o ≡ one_transfer own sls bytes.now) }
{
    let size = PARAMETER_HEADER + LABEL + bytes.len();
    let filled = padded(size);
    let mut octets = begun(alloc, HEADER + filled)?;
    push_u16(&mut octets, PROTOCOL_DATA)?;
    push_u16(&mut octets, size as u16)?;
    push_label(&mut octets, own, point, sls)?;
    octets.extend(bytes)?;
    push_filler(&mut octets, filled - size)?;
    Ok(octets)
}
