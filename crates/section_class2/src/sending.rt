//! The messages that a section sends.
ghost use Rattle.std.specs.Prelude.{◌≡◌, [], ◌∷◌, IfOk, if◌then◌else◌};
ghost use Rattle.q713_codec.specs.declared.message.Message.TheVariants.{Cc, Cref, Dt1, It};
ghost use Rattle.section_model.specs.Views.{section_of};
ghost use Rattle.section_model.specs.Line.{sent_on, credit_of, rlsd, rlc};
ghost use Rattle.section_model.specs.Lengths.{IsAddress, IsData, IsUnitData, KeptWithin};

use q713_codec::Message;
use relay_base::{Memory, Octets, Output};
use section_model::{KeptRelease, WireHead, copied, copied_octets, sent_on};
use std::alloc::Global;

/// RLSD with what a release says.
pub fn rlsd(alloc: Global, wire: &WireHead, kept: &KeptRelease) -> Result<Output, Memory>
    requires { KeptWithin kept.now }
    ensures { IfOk result (λ output. output ≡ rlsd (section_of wire.now) kept.now) }
{
    let message = Message::Rlsd {
        dlr: wire.other,
        slr: wire.mine,
        cause: kept.cause,
        body: copied(&kept.body)?,
        importance: kept.importance,
    };
    sent_on(alloc, wire, message)
}

/// RLC.
pub fn rlc(alloc: Global, wire: &WireHead) -> Result<Output, Memory>
    ensures { IfOk result (λ output. output ≡ rlc (section_of wire.now)) }
{
    let message = Message::Rlc {
        dlr: wire.other,
        slr: wire.mine,
    };
    sent_on(alloc, wire, message)
}

/// IT, with no sequence numbers.
pub fn test(alloc: Global, wire: &WireHead) -> Result<Output, Memory>
    ensures { IfOk result (λ output.
        output ≡ sent_on (section_of wire.now)
        (It wire.now.other wire.now.mine wire.now.class (0 ∷ 0 ∷ []) wire.now.credit)) }
{
    let message = Message::It {
        dlr: wire.other,
        slr: wire.mine,
        class_octet: wire.class,
        sequencing: [0, 0],
        credit: wire.credit,
    };
    sent_on(alloc, wire, message)
}

/// CC of a class; the credit stands in it in class 3 alone.
pub fn confirmation(
    alloc: Global,
    wire: &WireHead,
    class: u8,
    credit: u8,
    called: &Option<Octets>,
    body: &Option<Octets>,
    importance: Option<u8>,
) -> Result<Output, Memory>
    requires called { IsAddress called.now }
    requires body { IsData body.now }
    ensures { IfOk result (λ output.
        output ≡ sent_on (section_of wire.now)
        (Cc wire.now.other wire.now.mine class (credit_of class credit)
        called.now body.now importance)) }
{
    let credit = if class == 3 { Some(credit) } else { None };
    let message = Message::Cc {
        dlr: wire.other,
        slr: wire.mine,
        class_octet: class,
        credit,
        called: copied(called)?,
        body: copied(body)?,
        importance,
    };
    sent_on(alloc, wire, message)
}

/// CREF.
pub fn refusal(
    alloc: Global,
    wire: &WireHead,
    cause: u8,
    called: &Option<Octets>,
    body: &Option<Octets>,
    importance: Option<u8>,
) -> Result<Output, Memory>
    requires called { IsAddress called.now }
    requires body { IsData body.now }
    ensures { IfOk result (λ output. output ≡
        sent_on (section_of wire.now) (Cref wire.now.other cause called.now body.now importance)) }
{
    let message = Message::Cref {
        dlr: wire.other,
        cause,
        called: copied(called)?,
        body: copied(body)?,
        importance,
    };
    sent_on(alloc, wire, message)
}

/// DT1 with a unit of data.
pub fn data(alloc: Global, wire: &WireHead, more: bool, body: &Octets) -> Result<Output, Memory>
    requires { IsUnitData body.now }
    ensures { IfOk result (λ output. output ≡
        sent_on (section_of wire.now) (Dt1 wire.now.other (if more then 1 else 0) body.now)) }
{
    let message = Message::Dt1 {
        dlr: wire.other,
        segmenting: u8::from(more),
        body: copied_octets(body)?,
    };
    sent_on(alloc, wire, message)
}
