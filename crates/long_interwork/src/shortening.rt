//! An LUDT or an LUDTS that goes on to a point which can't take it (Q.714, 4.1.1).
ghost use Rattle.std.specs.Prelude.{◌≡◌, ◌≤◌, ◌++◌, ◌∷◌, [], false, Some, None, if◌then◌else◌, IfOk, OnOk, OnErr};
ghost use Rattle.q713_codec.specs.Reading.{seen};
ghost use Rattle.connectionless.specs.Unitdata.{unitdata_of, class_of};
ghost use Rattle.connectionless.specs.Leaving.{unit_octets};
ghost use Rattle.connectionless.specs.Cutting.{can_be_cut, segment_outputs};
ghost use Rattle.connectionless.specs.Asking.{is_of_wrong_class};
ghost use Rattle.connectionless.specs.Returning.{refusal_output};
ghost use Rattle.connectionless.specs.Inner.Units.{seen_unit, seen_cut};
ghost use Rattle.long_interwork.specs.Shortening.{extended, option_size, is_small, fits, is_entire, cutting, shortened, shortened_message, IsLongUnit, in_one, unit_shortened, service_shortened};

use crate::forward::Forward;
use connectionless::{CutUnit, Kind, UnitView, refusal_output, unit_of, view_of};
use q713_codec::{LONGEST, View, protocol_class, write_unit};
use relay_base::causes::RETURN_SEGMENTATION_FAILURE;
use relay_base::limits::LONGEST_PARAMETER;
use relay_base::{Lost, Memory, Octets, Output, Outs, Pc, Ref24, Sls};
use std::alloc::Global;

/// The octets of an importance and of the end behind it.
fn option_size(importance: Option<u8>) -> usize
    ensures value { result ≡ option_size importance }
    ensures most { result ≤ 4 }
{
    match importance {
        Some(_) => 4,
        None => 0,
    }
}

/// Whether the data and the octets of an XUDT or an XUDTS without segmentation are few enough.
fn is_small(unit: &UnitView<'_>) -> bool
    ensures { result ≡ is_small (seen_unit unit.now) }
{
    let size = (10 + option_size(unit.importance))
        .saturating_add(unit.called.len())
        .saturating_add(unit.calling.len())
        .saturating_add(unit.body.len());
    unit.body.len() <= LONGEST_PARAMETER && size <= LONGEST
}

/// The octets of an XUDT or an XUDTS without segmentation, where one message holds it.
fn fitting_octets(alloc: Global, unit: &UnitView<'_>) -> Result<Option<Octets>, Memory>
    ensures { let octets = if fits (seen_unit unit.now) then Some (unit_octets (seen_unit unit.now)) else None
        in IfOk result (λ x. x ≡ octets) }
{
    if !is_small(unit) {
        return Ok(None);
    }
    write_unit(alloc, &view_of(unit), None)
}

/// Whether it is no part of a longer message: it has no segmentation, or that of a first segment behind which none remains (Q.713, 3.17).
fn is_entire(segmentation: Option<[u8; 4]>) -> bool
    ensures { result ≡ is_entire segmentation }
{
    match segmentation {
        Some(octets) => octets[0] >= 0x80 && octets[0] % 16 == 0,
        None => true,
    }
}

/// The octets of the XUDT or the XUDTS in the place of a unit, where that holds it.
fn extended_octets(
    alloc: Global,
    unit: &UnitView<'_>,
    forward: &Forward,
) -> Result<Option<Octets>, Memory>
    ensures { let unit = extended forward.now (seen_unit unit.now) in
        let octets = if fits unit then Some (unit_octets unit) else None
        in IfOk result (λ x. x ≡ octets) }
{
    let extended = UnitView {
        kind: Kind::Extended,
        hop: Some(forward.hop),
        called: forward.called.as_slice(),
        calling: forward.calling.as_slice(),
        segmentation: None,
        ..*unit
    };
    fitting_octets(alloc, &extended)
}

/// Where a unit goes on to, with the link selection and the reference of its segments.
#[derive(Clone, Copy)]
struct Onward<'a> {
    forward: &'a Forward,
    sls: Sls,
    reference: Ref24,
}

/// What is cut of an LUDT.
fn cutting<'a>(unit: &UnitView<'a>, onward: &Onward<'a>) -> CutUnit<'a>
    ensures { let to = onward.now in
        let cut = cutting to.sls to.forward.now (seen_unit unit.now) to.reference
        in seen_cut result ≡ cut }
{
    let forward = onward.forward;
    CutUnit {
        point: forward.dpc,
        sls: onward.sls,
        class: protocol_class(unit.first),
        ret: !unit.is_service && unit.first >= 0x80,
        hop: forward.hop,
        called: forward.called.as_slice(),
        calling: forward.calling.as_slice(),
        body: unit.body,
        importance: unit.importance,
        reference: onward.reference,
    }
}

/// The XUDT or the XUDTS in the place of a unit, where that holds it.
fn sent_in_one(
    alloc: Global,
    unit: &UnitView<'_>,
    onward: &Onward<'_>,
) -> Result<Option<Outs>, Memory>
    ensures { let to = onward.now in
        let x = seen_unit unit.now in
        let outs = if fits (extended to.forward.now x) then Some (in_one to.sls to.forward.now x).outs else None
        in IfOk result (λ o. o ≡ outs) }
{
    let Some(bytes) = extended_octets(alloc, unit, onward.forward)? else {
        return Ok(None);
    };
    let mut outs = Outs::new(alloc);
    outs.push(Output::Sent {
        point: onward.forward.dpc,
        sls: onward.sls,
        bytes,
    })?;
    Ok(Some(outs))
}

/// The segments of an LUDT, where there are enough.
fn sent_in_segments(
    alloc: Global,
    unit: &UnitView<'_>,
    onward: &Onward<'_>,
) -> Result<Option<Outs>, Memory>
    requires { class_of (seen_unit unit.now) ≤ 1 }
    ensures { let to = onward.now in
        let cut = cutting to.sls to.forward.now (seen_unit unit.now) to.reference in
        let outs = if can_be_cut cut then Some (segment_outputs cut) else None
        in IfOk result (λ o. o ≡ outs) }
{
    let cut = cutting(unit, onward);
    if !cut.can_be_cut() {
        return Ok(None);
    }
    Ok(Some(cut.segments(alloc)?))
}

/// The refusal of an LUDT.
fn refused(alloc: Global, own: Pc, opc: Pc, sls: Sls, unit: &UnitView<'_>) -> Result<Outs, Memory>
    ensures { let output = refusal_output own opc sls RETURN_SEGMENTATION_FAILURE (seen_unit unit.now)
        in IfOk result (λ outs. outs ≡ output ∷ []) }
{
    let cause = RETURN_SEGMENTATION_FAILURE;
    let output = refusal_output(alloc, own, opc, sls, cause, unit)?;
    let mut outs = Outs::new(alloc);
    outs.push(output)?;
    Ok(outs)
}

/// What comes of an LUDT, and whether it was cut into segments.
fn unit_shortened(
    alloc: Global,
    own: Pc,
    opc: Pc,
    unit: &UnitView<'_>,
    onward: &Onward<'_>,
) -> Result<(Outs, bool), Memory>
    requires { class_of (seen_unit unit.now) ≤ 1 }
    ensures { let to = onward.now in
        let sending = unit_shortened own opc to.sls to.forward.now (seen_unit unit.now) to.reference
        in IfOk result (λ x. record { outs = x.0; is_cut = x.1 } ≡ sending) }
{
    if is_entire(unit.segmentation) {
        if let Some(outs) = sent_in_one(alloc, unit, onward)? {
            return Ok((outs, false));
        }
        if let Some(outs) = sent_in_segments(alloc, unit, onward)? {
            return Ok((outs, true));
        }
    }
    Ok((refused(alloc, own, opc, onward.sls, unit)?, false))
}

/// What comes of an LUDTS.
fn service_shortened(
    alloc: Global,
    unit: &UnitView<'_>,
    onward: &Onward<'_>,
) -> Result<Outs, Memory>
    ensures { let to = onward.now in
        let sending = service_shortened to.sls to.forward.now (seen_unit unit.now)
        in IfOk result (λ outs. record { outs = outs; is_cut = false } ≡ sending) }
{
    if let Some(outs) = sent_in_one(alloc, unit, onward)? {
        return Ok(outs);
    }
    let mut outs = Outs::new(alloc);
    outs.push(Output::Lost(Lost::Cause(RETURN_SEGMENTATION_FAILURE)))?;
    Ok(outs)
}

/// What comes of an LUDT or an LUDTS, and whether it was cut into segments.
#[tactic(auto, unfolding(crate::specs::Shortening::shortened))]
fn outcome(
    alloc: Global,
    own: Pc,
    opc: Pc,
    unit: &UnitView<'_>,
    onward: &Onward<'_>,
) -> Result<(Outs, bool), Memory>
    requires { is_of_wrong_class (seen_unit unit.now) ≡ false }
    ensures { let to = onward.now in
        let sending = shortened own opc to.sls to.forward.now (seen_unit unit.now) to.reference
        in IfOk result (λ x. record { outs = x.0; is_cut = x.1 } ≡ sending) }
{
    if unit.is_service {
        return Ok((service_shortened(alloc, unit, onward)?, false));
    }
    unit_shortened(alloc, own, opc, unit, onward)
}

/// What comes of an LUDT or an LUDTS that goes on to a point which can't take it: its outputs are put at the end, and it is told
/// whether it was cut into segments. After `Memory` the outputs are as before.
///
/// It goes on as one XUDT or XUDTS where it has at most 255 octets of data and the message at most 268; the XUDTS, and the XUDT of an
/// LUDT with the segmentation of a message in one segment, have none. Else an LUDT that is no part of a longer message is cut into
/// at most 16 XUDT segments of class 1, with this reference, which tell the class of the LUDT. All others are refused with return
/// cause 14: an LUDT is returned where it asked that.
pub fn long_outs(
    alloc: Global,
    own: Pc,
    opc: Pc,
    sls: Sls,
    view: &View<'_>,
    forward: &Forward,
    reference: Ref24,
    outs: &mut Outs,
) -> Result<bool, Memory>
    requires { IsLongUnit (seen view.now) }
    ensures ok { let unit = unitdata_of (seen view.now) in
        let sending = shortened_message own opc sls forward.now unit reference
        in OnOk result (outs.new ≡ outs.old ++ sending.outs) }
    ensures cut { let unit = unitdata_of (seen view.now) in
        let sending = shortened_message own opc sls forward.now unit reference
        in IfOk result (λ cut. cut ≡ sending.is_cut) }
    ensures err { OnErr result (outs.new ≡ outs.old) }
{
    let Some(unit) = unit_of(view) else {
        unreachable!()
    };
    let onward = Onward {
        forward,
        sls,
        reference,
    };
    let (more, is_cut) = outcome(alloc, own, opc, &unit, &onward)?;
    outs.append(more)?;
    Ok(is_cut)
}
