//! The messages that a section sends in class 3 alone.
ghost use Rattle.std.specs.Prelude.{◌≡◌, ◌<◌, ◌*◌, IfOk};
ghost use Rattle.q713_codec.specs.declared.message.Message.TheVariants.{Ak, Ed, Ea, Rsr, Rsc};
ghost use Rattle.section_model.specs.Views.{section_of};
ghost use Rattle.section_model.specs.Line.{sent_on};
ghost use Rattle.section_model.specs.Lengths.{IsExpeditedData, IsUnitData};
ghost use Rattle.section_flow.specs.declared.limits.TheConstants.{SEQUENCE_NUMBERS};
ghost use Rattle.section_class3.specs.Inner.Sending.{numbered_output, test_output};

use q713_codec::Message;
use relay_base::{Memory, Octets, Output};
use section_flow::Unit;
use section_model::{WireHead, copied_octets, sent_on};
use std::alloc::Global;

/// DT2 with a unit of data, and with P(S) and P(R) below 128.
pub fn numbered(
    alloc: Global,
    wire: &WireHead,
    ps: u8,
    pr: u8,
    unit: &Unit,
) -> Result<Output, Memory>
    requires body { IsUnitData unit.now.body }
    requires numbers { (ps < SEQUENCE_NUMBERS) × (pr < SEQUENCE_NUMBERS) }
    ensures { IfOk result (λ output.
        output ≡ numbered_output (section_of wire.now) ps pr unit.now) }
{
    let message = Message::Dt2 {
        dlr: wire.other,
        sequencing: [2 * ps, 2 * pr + u8::from(unit.more)],
        body: copied_octets(&unit.body)?,
    };
    sent_on(alloc, wire, message)
}

/// AK with P(R) below 128, and the credit that was agreed on.
pub fn acknowledgement(alloc: Global, wire: &WireHead, pr: u8) -> Result<Output, Memory>
    requires { pr < SEQUENCE_NUMBERS }
    ensures { IfOk result (λ output.
        output ≡ sent_on (section_of wire.now) (Ak wire.now.other (2 * pr) wire.now.credit)) }
{
    let message = Message::Ak {
        dlr: wire.other,
        receive: 2 * pr,
        credit: wire.credit,
    };
    sent_on(alloc, wire, message)
}

/// ED.
pub fn expedited(alloc: Global, wire: &WireHead, body: &Octets) -> Result<Output, Memory>
    requires { IsExpeditedData body.now }
    ensures { IfOk result (λ output.
        output ≡ sent_on (section_of wire.now) (Ed wire.now.other body.now)) }
{
    let message = Message::Ed {
        dlr: wire.other,
        body: copied_octets(body)?,
    };
    sent_on(alloc, wire, message)
}

/// EA.
pub fn expedited_acknowledgement(alloc: Global, wire: &WireHead) -> Result<Output, Memory>
    ensures { IfOk result (λ output. output ≡ sent_on (section_of wire.now) (Ea wire.now.other)) }
{
    let message = Message::Ea { dlr: wire.other };
    sent_on(alloc, wire, message)
}

/// RSR.
pub fn reset_request(alloc: Global, wire: &WireHead, cause: u8) -> Result<Output, Memory>
    ensures { IfOk result (λ output.
        output ≡ sent_on (section_of wire.now) (Rsr wire.now.other wire.now.mine cause)) }
{
    let message = Message::Rsr {
        dlr: wire.other,
        slr: wire.mine,
        cause,
    };
    sent_on(alloc, wire, message)
}

/// RSC.
pub fn reset_confirmation(alloc: Global, wire: &WireHead) -> Result<Output, Memory>
    ensures { IfOk result (λ output.
        output ≡ sent_on (section_of wire.now) (Rsc wire.now.other wire.now.mine)) }
{
    let message = Message::Rsc {
        dlr: wire.other,
        slr: wire.mine,
    };
    sent_on(alloc, wire, message)
}

/// IT with P(S) and P(R) below 128.
pub fn test(alloc: Global, wire: &WireHead, ps: u8, pr: u8) -> Result<Output, Memory>
    requires { (ps < SEQUENCE_NUMBERS) × (pr < SEQUENCE_NUMBERS) }
    ensures { IfOk result (λ output. output ≡ test_output (section_of wire.now) ps pr) }
{
    let message = Message::It {
        dlr: wire.other,
        slr: wire.mine,
        class_octet: wire.class,
        sequencing: [2 * ps, 2 * pr],
        credit: wire.credit,
    };
    sent_on(alloc, wire, message)
}
