//! What comes of a unit or a service message from the network.
ghost use Rattle.std.specs.Prelude.{◌≡◌, ◌++◌, IfOk, IsOk, OnOk, OnErr};
ghost use Rattle.sccp_address.specs.Parsing.{address_of};
ghost use Rattle.q713_codec.specs.Reading.{seen};
ghost use Rattle.connectionless.specs.Unitdata.{unitdata_of};
ghost use Rattle.connectionless.specs.Inner.Units.{seen_unit};
ghost use Rattle.connectionless.specs.Routed.{unit_outcome};
ghost use Rattle.connectionless.specs.Calls.{outcome_of, IsRoutable};

use crate::delivery::deliver;
use crate::forwarding::{Onward, forward_output};
use crate::returning::refusal_output;
use crate::segment::Next;
use crate::unitdata::{UnitView, unit_of};
use plant_core::{Answer, return_cause};
use q713_codec::View;
use relay_base::{Memory, Outs, Pc, Sls};
use scmg_messages::put_status;
use std::alloc::Global;

/// What comes of a unit by the answer to it (Q.714, 4.1 and 4.2).
#[tactic(auto, unfolding(crate::specs::Routed::unit_outcome))]
fn outcome(
    alloc: Global,
    own: Pc,
    opc: Pc,
    sls: Sls,
    unit: &UnitView<'_>,
    answer: &Answer,
) -> Result<(Outs, Next), Memory>
    requires { IsOk (address_of unit.now.called.now) }
    ensures { let outcome = unit_outcome own opc sls (seen_unit unit.now) answer.now
        in IfOk result (λ x. record { outs = x.0; next = x.1 } ≡ outcome) }
{
    let mut outs = Outs::new(alloc);
    match answer {
        Answer::Local(ssn) => return deliver(alloc, opc, sls, *ssn, unit),
        Answer::Forward { dpc, rewrite, hop } => {
            let onward = Onward {
                point: *dpc,
                rewrite,
                hop: *hop,
            };
            outs.push(forward_output(alloc, own, opc, sls, unit, &onward)?)?;
        }
        Answer::Refused { cause, local } => {
            outs.push(refusal_output(alloc, own, opc, sls, return_cause(*cause), unit)?)?;
            put_status(alloc, &mut outs, own, opc, sls, *local)?;
        }
    }
    Ok((outs, Next::Done))
}

/// What comes of a message of the connectionless service by the answer of routing (Q.714): its outputs are put at the end, and what
/// is left to do is told. After `Memory` the outputs are as before.
///
/// A unit for a local subsystem is told as it came, a service message as a notice, and a segment is to be put together with others.
/// One for another point goes there with its rewritten called address, its new hop counter and, where a unit's calling address routes
/// on its subsystem number and names no point, with the point of the origin in it; where it can't leave, it is as if refused with
/// return cause 7. A refused unit is returned where it asked that, and is else lost; the origin is told of a local subsystem that is
/// out of service.
pub fn unit_outs(
    alloc: Global,
    own: Pc,
    opc: Pc,
    sls: Sls,
    view: &View<'_>,
    answer: &Answer,
    outs: &mut Outs,
) -> Result<Next, Memory>
    requires { IsRoutable (seen view.now) }
    ensures ok { let outcome = outcome_of own opc sls (unitdata_of (seen view.now)) answer.now
        in OnOk result (outs.new ≡ outs.old ++ outcome.outs) }
    ensures next { let outcome = outcome_of own opc sls (unitdata_of (seen view.now)) answer.now
        in IfOk result (λ next. next ≡ outcome.next) }
    ensures err { OnErr result (outs.new ≡ outs.old) }
{
    let Some(unit) = unit_of(view) else {
        unreachable!()
    };
    let (more, next) = outcome(alloc, own, opc, sls, &unit, answer)?;
    outs.append(more)?;
    Ok(next)
}
