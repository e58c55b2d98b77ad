//! Delivery to a local subsystem (Q.714, 4.1).
ghost use Rattle.std.specs.Prelude.{◌≡◌, ◌++◌, IfOk};
ghost use Rattle.connectionless.specs.Inner.Units.{seen_unit};
ghost use Rattle.connectionless.specs.Routed.{told_by, segmentation_in, segment_of, delivery, done};

use crate::segment::{Next, Segment};
use crate::unitdata::{Kind, UnitView};
use q713_codec::protocol_class;
use relay_base::{BoxedOctets, Memory, Octets, Output, Outs, Pc, Sls, Ssn, Tell};
use std::alloc::Global;

/// What a user is told of a unit, or of a service message.
fn tell_of(alloc: Global, unit: &UnitView<'_>) -> Result<Tell, Memory>
    ensures { IfOk result (λ tell. tell ≡ told_by unit.now.is_service (seen_unit unit.now)) }
{
    let called = BoxedOctets::from_slice(alloc, unit.called)?;
    let calling = BoxedOctets::from_slice(alloc, unit.calling)?;
    let body = BoxedOctets::from_slice(alloc, unit.body)?;
    if unit.is_service {
        return Ok(Tell::Notice {
            cause: unit.first,
            called,
            calling,
            body,
        });
    }
    Ok(Tell::Unit {
        class: protocol_class(unit.first),
        called,
        calling,
        body,
    })
}

/// The segmentation of a segment: of XUDT where it has one (Q.713, 3.17).
fn segmentation_of(unit: &UnitView<'_>) -> Option<[u8; 4]>
    ensures { result ≡ segmentation_in (seen_unit unit.now) }
{
    match (unit.kind, unit.is_service) {
        (Kind::Extended, false) => unit.segmentation,
        _ => None,
    }
}

fn segment_of(
    alloc: Global,
    opc: Pc,
    sls: Sls,
    unit: &UnitView<'_>,
    segmentation: [u8; 4],
) -> Result<Segment, Memory>
    ensures { IfOk result (λ x. x ≡ segment_of opc sls (seen_unit unit.now) segmentation) }
{
    Ok(Segment {
        opc,
        sls,
        class_octet: unit.first,
        called: Octets::from_slice(alloc, unit.called)?,
        calling: Octets::from_slice(alloc, unit.calling)?,
        body: Octets::from_slice(alloc, unit.body)?,
        segmentation,
        importance: unit.importance,
    })
}

/// What a local subsystem gets of a unit: it is told, but a segment is put together with others first.
#[tactic(auto, unfolding(crate::specs::Routed::delivery))]
pub fn deliver(
    alloc: Global,
    opc: Pc,
    sls: Sls,
    ssn: Ssn,
    unit: &UnitView<'_>,
) -> Result<(Outs, Next), Memory>
    ensures { let outcome = delivery opc sls ssn (seen_unit unit.now)
        in IfOk result (λ x. record { outs = x.0; next = x.1 } ≡ outcome) }
{
    let mut outs = Outs::new(alloc);
    if let Some(segmentation) = segmentation_of(unit) {
        let segment = segment_of(alloc, opc, sls, unit, segmentation)?;
        return Ok((outs, Next::Gather(segment, ssn)));
    }
    let tell = tell_of(alloc, unit)?;
    outs.push(Output::Told { ssn, tell })?;
    Ok((outs, Next::Done))
}
