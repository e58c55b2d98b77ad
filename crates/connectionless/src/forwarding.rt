//! Forwarding to another point (Q.714, 2.3 and 4.1).
ghost use Rattle.std.specs.Prelude.{◌≡◌, IfOk, IsOk};
ghost use Rattle.sccp_address.specs.Parsing.{address_of};
ghost use Rattle.connectionless.specs.Inner.Units.{seen_unit};
ghost use Rattle.connectionless.specs.Routed.{calling_with_origin, calling_by, forward_output};
ghost use Rattle.plant_core.specs.Rewriting.{called_onward};

use crate::leaving::leaving_octets;
use crate::returning::refusal_output;
use crate::unitdata::UnitView;
use plant_core::{Rewrite, called_onward};
use relay_base::causes::RETURN_UNQUALIFIED;
use relay_base::{Memory, Octets, Output, Pc, Sls};
use sccp_address::{Address, parse, spell};
use std::alloc::Global;

/// The octets of a calling address, with the point of the origin where it routes on its subsystem number and names none.
#[tactic(auto, unfolding(crate::specs::Routed::calling_with_origin))]
fn calling_with_origin(alloc: Global, opc: Pc, calling: &[u8]) -> Result<Octets, Memory>
    ensures { IfOk result (λ octets. octets ≡ calling_with_origin opc calling.now) }
{
    match parse(calling) {
        Ok(address) if address.on_ssn && address.point.is_none() => spell(
            alloc,
            &Address {
                point: Some(opc),
                ..address
            },
        ),
        _ => Octets::from_slice(alloc, calling),
    }
}

/// The octets of a calling address as it goes on: a service message keeps it.
pub fn calling_onward(alloc: Global, opc: Pc, unit: &UnitView<'_>) -> Result<Octets, Memory>
    ensures { IfOk result (λ x. x ≡ calling_by unit.now.is_service opc unit.now.calling.now) }
{
    if unit.is_service {
        Octets::from_slice(alloc, unit.calling)
    } else {
        calling_with_origin(alloc, opc, unit.calling)
    }
}

/// Where a unit goes: the point, with the called address and the hop counter as they leave.
#[derive(Clone, Copy)]
pub struct Onward<'a> {
    pub point: Pc,
    pub rewrite: &'a Rewrite,
    pub hop: Option<u8>,
}

/// What comes of a unit that goes to another point. Where it can't leave, it is as if refused.
#[tactic(auto, unfolding(crate::specs::Routed::forward_output))]
pub fn forward_output(
    alloc: Global,
    own: Pc,
    opc: Pc,
    sls: Sls,
    unit: &UnitView<'_>,
    onward: &Onward<'_>,
) -> Result<Output, Memory>
    requires { IsOk (address_of unit.now.called.now) }
    ensures { let to = onward.now in
        let output = forward_output own opc sls to.point to.rewrite.now to.hop (seen_unit unit.now)
        in IfOk result (λ x. x ≡ output) }
{
    let called = called_onward(alloc, unit.called, onward.rewrite)?;
    let calling = calling_onward(alloc, opc, unit)?;
    let forwarded = UnitView {
        called: called.as_slice(),
        calling: calling.as_slice(),
        hop: onward.hop,
        ..*unit
    };
    match leaving_octets(alloc, &forwarded)? {
        Some(bytes) => Ok(Output::Sent {
            point: onward.point,
            sls,
            bytes,
        }),
        None => refusal_output(alloc, own, opc, sls, RETURN_UNQUALIFIED, unit),
    }
}
