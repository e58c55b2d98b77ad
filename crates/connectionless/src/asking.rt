//! What a unit asks of routing, or why it is lost (Q.714, 4.1).
ghost use Rattle.std.specs.Prelude.{◌≡◌, false, is_some, IfOk, IsOk, OnOk, OnSome};
ghost use Rattle.std.specs.Option.{option_map};
ghost use Rattle.relay_base.specs.Giving.{Gives};
ghost use Rattle.sccp_address.specs.Parsing.{address_of};
ghost use Rattle.q713_codec.specs.Reading.{seen};
ghost use Rattle.connectionless.specs.Inner.Units.{seen_unit};
ghost use Rattle.connectionless.specs.Calls.{IsRoutable, IsOfClass};
ghost use Rattle.connectionless.specs.Given.{is_unit_request};
ghost use Rattle.connectionless.specs.Asking.{is_of_wrong_class, question_of, message_in};
ghost use Rattle.connectionless.specs.Calls.{message_question, user_question};
ghost use Rattle.plant_core.specs.Asking.{seen_ask};

use crate::given::is_unit_request;
use crate::unitdata::{UnitView, unit_of};
use plant_core::{Ask, Origin};
use q713_codec::{View, is_too_long, protocol_class, read};
use relay_base::{Lost, Request};
use sccp_address::parse;

/// What a unit or a service message asks of routing, or the first reason to lose it (Q.714, 2.3 and 4.1).
#[tactic(auto, unfolding(crate::specs::Asking::question_of))]
fn asked<'a>(unit: &UnitView<'a>) -> Result<Ask<'a>, Lost>
    ensures value { Gives seen_ask result (question_of (seen_unit unit.now)) }
    ensures address { OnOk result (IsOk (address_of unit.now.called.now)) }
    ensures class { OnOk result (is_of_wrong_class (seen_unit unit.now) ≡ false) }
{
    match parse(unit.called) {
        Err(_) => Err(Lost::Address),
        Ok(_) if !unit.is_service && protocol_class(unit.first) > 1 => Err(Lost::Class),
        Ok(called) => Ok(Ask {
            called,
            hop: unit.hop,
            origin: Origin::Network,
        }),
    }
}

/// What a message asks of routing where it is of the connectionless service (Q.714); None where it is of another one. `Address`: its
/// called address doesn't read; else `Class`: it is a unit whose class is above 1.
#[tactic(auto, using(crate::proofs::Routable::routable, crate::proofs::Routable::of_class), unfolding(crate::specs::Calls::message_question))]
pub fn message_ask<'a>(view: &View<'a>) -> Result<Option<Ask<'a>>, Lost>
    ensures value { Gives (option_map seen_ask) result (message_question (seen view.now)) }
    ensures routable { IfOk result (λ ask. OnSome ask (IsRoutable (seen view.now))) }
    ensures class { IfOk result (λ ask. OnSome ask (IsOfClass (seen view.now))) }
{
    let Some(unit) = unit_of(view) else {
        return Ok(None);
    };
    match asked(&unit) {
        Ok(ask) => Ok(Some(ask)),
        Err(lost) => Err(lost),
    }
}

/// The message that octets from the network are. `Long`: they are more than 268, and not LUDT or LUDTS; else `Read`: the first fault
/// of reading.
#[tactic(auto, unfolding(crate::specs::Asking::message_in))]
pub fn message_in(bytes: &[u8]) -> Result<View<'_>, Lost>
    ensures { Gives seen result (message_in bytes.now) }
{
    if is_too_long(bytes) {
        return Err(Lost::Long);
    }
    match read(bytes) {
        Ok(view) => Ok(view),
        Err(fault) => Err(Lost::Read(fault)),
    }
}

/// What a user's unit asks of routing; None where the request isn't a unit in its ranges.
#[tactic(auto, unfolding(crate::specs::Calls::user_question))]
pub fn user_ask(request: &Request) -> Option<Ask<'_>>
    ensures value { option_map seen_ask result ≡ user_question request.now }
    ensures unit { is_some result ≡ is_unit_request request.now }
{
    if !is_unit_request(request) {
        return None;
    }
    let Request::Unit { called, .. } = request else {
        return None;
    };
    match parse(called.as_slice()) {
        Ok(called) => Some(Ask {
            called,
            hop: None,
            origin: Origin::User,
        }),
        Err(_) => None,
    }
}
