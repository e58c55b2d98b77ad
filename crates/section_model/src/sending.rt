//! A message as a section sends it.
ghost use Rattle.std.specs.Prelude.{◌≡◌, IfOk};
ghost use Rattle.q713_codec.specs.Writing.{InRange};
ghost use Rattle.section_model.specs.Views.{section_of};
ghost use Rattle.section_model.specs.Line.{sent_on};

use crate::wire::WireHead;
use q713_codec::{Message, write};
use relay_base::{Memory, Octets, Output};
use std::alloc::Global;

/// A copy of octets.
pub fn copied_octets(octets: &Octets) -> Result<Octets, Memory>
    ensures { IfOk result (λ copy. copy ≡ octets.now) }
{
    Ok(octets.clone()?)
}

/// A copy of an optional address or of optional data.
pub fn copied(octets: &Option<Octets>) -> Result<Option<Octets>, Memory>
    ensures { IfOk result (λ copy. copy ≡ octets.now) }
{
    match octets {
        Some(octets) => Ok(Some(copied_octets(octets)?)),
        None => Ok(None),
    }
}

/// A message on a section.
pub fn sent_on(alloc: Global, wire: &WireHead, message: Message) -> Result<Output, Memory>
    requires { InRange message }
    ensures { IfOk result (λ output. output ≡ sent_on (section_of wire.now) message) }
{
    Ok(Output::Sent {
        point: wire.point,
        sls: wire.sls,
        bytes: write(alloc, &message)?,
    })
}
