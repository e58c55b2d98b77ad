//! What comes of a unit from the network in a node that knows of points which can't take an LUDT or an LUDTS.
ghost use Rattle.std.specs.Prelude.{◌≡◌, ◌++◌, IfOk, OnOk, OnErr};
ghost use Rattle.q713_codec.specs.Reading.{seen};
ghost use Rattle.connectionless.specs.Unitdata.{unitdata_of};
ghost use Rattle.connectionless.specs.Calls.{IsRoutable, IsOfClass};
ghost use Rattle.connectionless.specs.Inner.Units.{seen_unit};
ghost use Rattle.long_interwork.specs.Routed.{forward_in};
ghost use Rattle.long_interwork.specs.Inner.Sending.{routed_in};

use crate::forward::Forward;
use crate::shortening::long_outs;
use connectionless::{Kind, Next, UnitView, calling_onward, unit_of, unit_outs};
use plant_core::{Answer, called_onward};
use q713_codec::View;
use relay_base::{Memory, Outs, Pc, PcList, Ref24, Sls};
use std::alloc::Global;

/// What a data lane sends with: the own point, the points that can't take an LUDT or an LUDTS, and the reference of the next unit that is
/// cut.
#[derive(Clone, Copy)]
pub struct Sender<'a> {
    pub own: Pc,
    pub short: &'a PcList,
    pub reference: Ref24,
}

/// How an LUDT or an LUDTS goes on to one of the points that can't take it.
fn forward_in(
    alloc: Global,
    short: &PcList,
    opc: Pc,
    unit: &UnitView<'_>,
    answer: &Answer,
) -> Result<Option<Forward>, Memory>
    ensures { let forward = forward_in short.now opc (seen_unit unit.now) answer.now
        in IfOk result (λ x. x ≡ forward) }
{
    let Answer::Forward { dpc, rewrite, hop } = answer else {
        return Ok(None);
    };
    if unit.kind != Kind::Long || !short.as_slice().contains(dpc) {
        return Ok(None);
    }
    Ok(Some(Forward {
        dpc: *dpc,
        called: called_onward(alloc, unit.called, rewrite)?,
        calling: calling_onward(alloc, opc, unit)?,
        hop: hop.unwrap_or(0),
    }))
}

/// What comes of a message of the connectionless service by the answer of routing (Q.714): its outputs are put at the end, and it is
/// told what is left to do and whether it was cut into segments. After `Memory` the outputs are as before.
///
/// An LUDT or an LUDTS that goes on to one of these points is changed by `long_outs`; all else has the outputs of `unit_outs`.
#[tactic(auto, unfolding(crate::specs::Routed::routed))]
pub fn routed_outs(
    alloc: Global,
    sender: &Sender<'_>,
    opc: Pc,
    sls: Sls,
    view: &View<'_>,
    answer: &Answer,
    outs: &mut Outs,
) -> Result<(Next, bool), Memory>
    requires routable { IsRoutable (seen view.now) }
    requires class { IsOfClass (seen view.now) }
    ensures ok { let unit = unitdata_of (seen view.now) in
        let routed = routed_in sender.now opc sls unit answer.now
        in OnOk result (outs.new ≡ outs.old ++ routed.outs) }
    ensures next { let unit = unitdata_of (seen view.now) in
        let routed = routed_in sender.now opc sls unit answer.now
        in IfOk result (λ x. x.0 ≡ routed.next) }
    ensures cut { let unit = unitdata_of (seen view.now) in
        let routed = routed_in sender.now opc sls unit answer.now
        in IfOk result (λ x. x.1 ≡ routed.is_cut) }
    ensures err { OnErr result (outs.new ≡ outs.old) }
{
    let Some(unit) = unit_of(view) else {
        unreachable!()
    };
    if let Some(forward) = forward_in(alloc, sender.short, opc, &unit, answer)? {
        let (own, reference) = (sender.own, sender.reference);
        let is_cut = long_outs(alloc, own, opc, sls, view, &forward, reference, outs)?;
        return Ok((Next::Done, is_cut));
    }
    let next = unit_outs(alloc, sender.own, opc, sls, view, answer, outs)?;
    Ok((next, false))
}
