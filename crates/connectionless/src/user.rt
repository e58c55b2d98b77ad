//! What comes of a unit that a user gives.
ghost use Rattle.std.specs.Prelude.{◌≡◌, ◌++◌, IfOk, IsTrue, OnOk, OnErr};
ghost use Rattle.connectionless.specs.Given.{is_unit_request, given_of, given_outcome, refused_by, sending, outgoing, told_output, reference_after};
ghost use Rattle.connectionless.specs.Calls.{sending_of};
ghost use Rattle.connectionless.specs.Inner.Units.{seen_given, IsInRange};

use crate::given::{GivenView, given_in};
use crate::outgoing::OutgoingUnit;
use plant_core::{Answer, Rewrite, called_onward, return_cause};
use relay_base::limits::{MOST_LANES, REFERENCES};
use relay_base::{BoxedOctets, Lost, Memory, Output, Outs, Pc, Ref24, Request, Ssn, Tell};
use sccp_address::subsystem_address;
use std::alloc::Global;

/// What a user of this node is told of another user's unit.
fn told(alloc: Global, ssn: Ssn, given: &GivenView<'_>) -> Result<Output, Memory>
    ensures { IfOk result (λ output. output ≡ told_output ssn (seen_given given.now)) }
{
    let tell = Tell::Unit {
        class: given.class,
        called: BoxedOctets::from_slice(alloc, given.called)?,
        calling: BoxedOctets::from_slice(alloc, given.calling)?,
        body: BoxedOctets::from_slice(alloc, given.body)?,
    };
    Ok(Output::Told { ssn, tell })
}

/// What comes of a refused unit: a notice to its user where that asked for return, with the addresses in exchange (Q.714, 4.2).
fn refused(alloc: Global, cause: u8, given: &GivenView<'_>) -> Result<Output, Memory>
    ensures { IfOk result (λ x. x ≡ refused_by given.now.ret cause (seen_given given.now)) }
{
    if !given.ret {
        return Ok(Output::Lost(Lost::Cause(cause)));
    }
    let tell = Tell::Notice {
        cause,
        called: BoxedOctets::from_slice(alloc, given.calling)?,
        calling: BoxedOctets::from_slice(alloc, given.called)?,
        body: BoxedOctets::from_slice(alloc, given.body)?,
    };
    Ok(Output::Told {
        ssn: given.ssn,
        tell,
    })
}

/// What comes of a unit that goes to another point, and whether it was cut into segments.
fn sent(
    alloc: Global,
    given: &GivenView<'_>,
    point: Pc,
    rewrite: &Rewrite,
    reference: Ref24,
) -> Result<(Outs, bool), Memory>
    requires { IsInRange (seen_given given.now) }
    ensures { let unit = outgoing (seen_given given.now) point rewrite.now reference
        in IfOk result (λ x. record { outs = x.0; is_cut = x.1 } ≡ sending unit) }
{
    let called = called_onward(alloc, given.called, rewrite)?;
    let outgoing = OutgoingUnit {
        given,
        called: called.as_slice(),
        point,
        reference,
    };
    outgoing.sending(alloc)
}

/// What comes of a user's unit by the answer to it.
#[tactic(auto, unfolding(crate::specs::Given::given_outcome))]
fn outcome(
    alloc: Global,
    given: &GivenView<'_>,
    answer: &Answer,
    reference: Ref24,
) -> Result<(Outs, bool), Memory>
    requires { IsInRange (seen_given given.now) }
    ensures { let outcome = given_outcome (seen_given given.now) answer.now reference
        in IfOk result (λ x. record { outs = x.0; is_cut = x.1 } ≡ outcome) }
{
    let output = match answer {
        Answer::Local(ssn) => told(alloc, *ssn, given)?,
        Answer::Forward { dpc, rewrite, .. } => {
            return sent(alloc, given, *dpc, rewrite, reference);
        }
        Answer::Refused { cause, .. } => refused(alloc, return_cause(*cause), given)?,
    };
    let mut outs = Outs::new(alloc);
    outs.push(output)?;
    Ok((outs, false))
}

/// The reference of the segments of the next unit that is cut in a lane (Q.713, 3.17).
pub fn reference_after(lane: u8, count: u32) -> Ref24
    ensures { result ≡ reference_after lane count }
{
    let number = (u64::from(count) * u64::from(MOST_LANES) + u64::from(lane))
        % u64::from(REFERENCES);
    Ref24::new(number as u32).unwrap()
}

/// What comes of a user's unit (Q.711, N-UNITDATA) by the answer of routing: its outputs are put at the end, and it is told whether
/// the unit was cut into segments. After `Memory` the outputs are as before.
///
/// For a local subsystem it is told as it was given. A refused one comes back to its user as a notice where return was asked, and is
/// else lost. One for another point leaves as UDT where its data have at most 255 octets and the message at most 268; else as XUDT
/// segments of class 1, whose reference is that of the lane after `count` units that it cut.
pub fn user_outs(
    alloc: Global,
    lane: u8,
    count: u32,
    ssn: Ssn,
    request: &Request,
    answer: &Answer,
    outs: &mut Outs,
) -> Result<bool, Memory>
    requires { IsTrue (is_unit_request request.now) }
    ensures ok { let reference = reference_after lane count in
        let sending = sending_of (given_of ssn request.now) answer.now reference
        in OnOk result (outs.new ≡ outs.old ++ sending.outs) }
    ensures cut { let reference = reference_after lane count in
        let sending = sending_of (given_of ssn request.now) answer.now reference
        in IfOk result (λ cut. cut ≡ sending.is_cut) }
    ensures err { OnErr result (outs.new ≡ outs.old) }
{
    let own = subsystem_address(ssn);
    let given = given_in(ssn, &own, request);
    let (more, is_cut) = outcome(alloc, &given, answer, reference_after(lane, count))?;
    outs.append(more)?;
    Ok(is_cut)
}
