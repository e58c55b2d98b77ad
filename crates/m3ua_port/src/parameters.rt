//! The parameters of a message.
ghost use Rattle.std.specs.Prelude.{◌≡◌, ◌<◌, ◌≤◌, drop, length, IfOk};
ghost use Rattle.std.specs.Option.{option_map};
ghost use Rattle.relay_base.specs.Giving.{Gives};
ghost use Rattle.m3ua_port.specs.Frames.{parameter_of, parameter_length, padded, protocol_data};
ghost use Rattle.m3ua_port.specs.Inner.Parameters.{parameter_seen, found_with};

use crate::fault::PortKind;
use crate::limits::{PARAMETER_HEADER, PROTOCOL_DATA};
use byteorder::{BigEndian, ByteOrder};

/// A parameter (RFC 4666, 3.2).
#[derive(Clone, Copy)]
pub struct Parameter<'a> {
    pub tag: u16,
    pub value: &'a [u8],
    /// The parameters behind it.
    pub behind: &'a [u8],
}

/// What a parameter of so many octets is filled up to: a multiple of four.
pub fn padded(size: usize) -> usize
    requires { size ≤ 65_535 }
    ensures { result ≡ padded size }
{
    (size + 3) / 4 * 4
}

/// The parameter at the front of octets.
#[tactic(auto, unfolding(crate::specs::Frames::parameter_of))]
fn first_parameter(octets: &[u8]) -> Result<Parameter<'_>, PortKind>
    ensures parameter { Gives parameter_seen result (parameter_of octets.now) }
    ensures behind { IfOk result (λ p. p.behind.now ≡
        drop (padded (parameter_length octets.now)) octets.now) }
    ensures shorter { IfOk result (λ p. length p.behind.now < length octets.now) }
{
    if octets.len() < PARAMETER_HEADER {
        return Err(PortKind::Parameter);
    }
    let size = usize::from(BigEndian::read_u16(&octets[2..]));
    if size < PARAMETER_HEADER || octets.len() < size {
        return Err(PortKind::Parameter);
    }
    Ok(Parameter {
        tag: BigEndian::read_u16(octets),
        value: &octets[PARAMETER_HEADER..size],
        behind: &octets[padded(size).min(octets.len())..],
    })
}

/// The Protocol Data that were found before this parameter, or else its own.
fn first_of<'a>(found: Option<&'a [u8]>, parameter: Parameter<'a>) -> Option<&'a [u8]>
    ensures { let before = option_map (λ v. v.now) found.entry
        in option_map (λ v. v.now) result ≡ found_with before (parameter_seen parameter.entry) }
{
    if found.is_none() && parameter.tag == PROTOCOL_DATA {
        Some(parameter.value)
    } else {
        found
    }
}

/// The value of the first Protocol Data among parameters (RFC 4666, 3.3.1), all of which are read.
pub fn protocol_data(parameters: &[u8]) -> Result<&[u8], PortKind>
    ensures { Gives (λ v. v.now) result (protocol_data parameters.now) }
{
    let mut found = None;
    let mut rest = parameters;
    while !rest.is_empty() {
        let parameter = first_parameter(rest)?;
        found = first_of(found, parameter);
        rest = parameter.behind;
    }
    found.ok_or(PortKind::Missing)
}
