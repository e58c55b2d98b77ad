//! The return of a unit, and what else comes of a refusal (Q.714, 4.2).
ghost use Rattle.std.specs.Prelude.{◌≡◌, ◌++◌, ◌∷◌, [], IfOk, OnOk, OnErr};
ghost use Rattle.connectionless.specs.Inner.Units.{seen_unit};
ghost use Rattle.connectionless.specs.Returning.{return_point, return_output, asks_return, refusal_output, unit_in};

use crate::leaving::leaving_octets;
use crate::unitdata::{Kind, UnitView};
use plant_core::MOST_HOPS;
use reassembly::Piece;
use relay_base::{Lost, Memory, Output, Outs, Pc, Sls};
use sccp_address::parse;
use std::alloc::Global;

/// Where a return goes: to the point of the calling address where that routes on its subsystem number and has one that isn't the
/// own, else to the origin.
fn return_point(own: Pc, opc: Pc, calling: &[u8]) -> Pc
    ensures { result ≡ return_point own opc calling.now }
{
    match parse(calling) {
        Ok(address) if address.on_ssn => match address.point {
            Some(point) if point != own => point,
            _ => opc,
        },
        _ => opc,
    }
}

/// The return of a unit with a cause. One that can't leave is lost.
fn return_output(
    alloc: Global,
    own: Pc,
    opc: Pc,
    sls: Sls,
    cause: u8,
    unit: &UnitView<'_>,
) -> Result<Output, Memory>
    ensures { IfOk result (λ x. x ≡ return_output own opc sls cause (seen_unit unit.now)) }
{
    let returned = UnitView {
        is_service: true,
        first: cause,
        hop: Some(MOST_HOPS),
        called: unit.calling,
        calling: unit.called,
        ..*unit
    };
    match leaving_octets(alloc, &returned)? {
        Some(bytes) => Ok(Output::Sent {
            point: return_point(own, opc, unit.calling),
            sls,
            bytes,
        }),
        None => Ok(Output::Lost(Lost::Cause(cause))),
    }
}

fn asks_return(unit: &UnitView<'_>) -> bool
    ensures { result ≡ asks_return (seen_unit unit.now) }
{
    !unit.is_service && unit.first >= 0x80
}

/// What comes of a unit that is refused with a return cause: its return where it asked that, and else it is lost.
#[tactic(auto, unfolding(crate::specs::Returning::refusal_output))]
pub fn refusal_output(
    alloc: Global,
    own: Pc,
    opc: Pc,
    sls: Sls,
    cause: u8,
    unit: &UnitView<'_>,
) -> Result<Output, Memory>
    ensures { IfOk result (λ x. x ≡ refusal_output own opc sls cause (seen_unit unit.now)) }
{
    if !asks_return(unit) {
        return Ok(Output::Lost(Lost::Cause(cause)));
    }
    return_output(alloc, own, opc, sls, cause, unit)
}

/// What comes of a segment whose reassembly fails, or has no room, with a return cause (Q.713): the return of the segment as XUDTS
/// where its class octet asked that, and else it is lost. After `Memory` the outputs are as before.
pub fn return_outs(
    alloc: Global,
    own: Pc,
    piece: &Piece,
    cause: u8,
    outs: &mut Outs,
) -> Result<(), Memory>
    ensures ok { let p = piece.now in
        let output = refusal_output own p.opc p.sls cause (unit_in p)
        in OnOk result (outs.new ≡ outs.old ++ output ∷ []) }
    ensures err { OnErr result (outs.new ≡ outs.old) }
{
    let unit = UnitView {
        kind: Kind::Extended,
        is_service: false,
        first: piece.class_octet,
        hop: Some(MOST_HOPS),
        called: piece.called.as_slice(),
        calling: piece.calling.as_slice(),
        body: piece.body.as_slice(),
        segmentation: Some(piece.segmentation),
        importance: piece.importance,
    };
    let output = refusal_output(alloc, own, piece.opc, piece.sls, cause, &unit)?;
    outs.push(output)
}
