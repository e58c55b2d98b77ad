//! What is answered where no connection hears (Q.714, messages for an unassigned local reference).
ghost use Rattle.std.specs.Prelude.{◌≡◌, ◌++◌, IfOk, OnOk, OnErr};
ghost use Rattle.relay_base.specs.declared.words.Output.TheVariants.{Sent};
ghost use Rattle.q713_codec.specs.Writing.{spelling_of, InRange};
ghost use Rattle.section_model.specs.Step.{is_in_range, named};
ghost use Rattle.section_model.specs.Lane.{stray_output, stray_answer};
ghost use Rattle.section_model.specs.Views.{seen_parameters};

use q713_codec::{Message, write};
use relay_base::causes::ERROR_UNASSIGNED_REFERENCE;
use relay_base::limits::{GREATEST_CREDIT, LONGEST_DATA, LONGEST_EXPEDITED, LONGEST_TEXT};
use relay_base::{Event, Lost, Memory, Output, Outs, Pc, Reason, Ref24, Request, Sls, Tell};
use section_model::{ArrivalView, Occasion, arrival_in};
use std::alloc::Global;

/// The reference that a request names; None where it names none.
pub fn named(request: &Request) -> Option<Ref24>
    ensures { result ≡ named request.now }
{
    match request {
        Request::Accept { mine, .. }
        | Request::Refuse { mine, .. }
        | Request::Send { mine, .. }
        | Request::Expedite { mine, .. }
        | Request::Reset { mine }
        | Request::Disc { mine, .. } => Some(*mine),
        Request::Unit { .. } | Request::Conn { .. } | Request::Coord | Request::Grant { .. } =>
            None,
    }
}

/// Whether a request may be asked on a connection.
pub fn is_in_range(request: &Request) -> bool
    ensures { result ≡ is_in_range request.now }
{
    match request {
        Request::Accept {
            class,
            credit,
            body,
            ..
        } => (*class == 2 || *class == 3)
            && *credit <= GREATEST_CREDIT
            && body.len() <= LONGEST_DATA,
        Request::Refuse { body, .. } | Request::Disc { body, .. } => body.len() <= LONGEST_DATA,
        Request::Send { body, .. } => 0 < body.len() && body.len() <= LONGEST_TEXT,
        Request::Expedite { body, .. } => 0 < body.len() && body.len() <= LONGEST_EXPEDITED,
        Request::Reset { .. } => true,
        Request::Unit { .. } | Request::Conn { .. } | Request::Coord | Request::Grant { .. } =>
            false,
    }
}

/// A message that goes to a point.
pub fn sent(alloc: Global, point: Pc, sls: Sls, message: Message) -> Result<Output, Memory>
    requires { InRange message }
    ensures { IfOk result (λ output. output ≡ Sent point sls (spelling_of message)) }
{
    let bytes = write(alloc, &message)?;
    Ok(Output::Sent { point, sls, bytes })
}

/// What is answered to a message for a connection that no connection hears.
fn answer(alloc: Global, point: Pc, sls: Sls, arrival: &ArrivalView<'_>) -> Result<Output, Memory>
    ensures { IfOk result (λ output. output ≡
        stray_output point sls arrival.now.occasion (seen_parameters arrival.now.parameters)) }
{
    let message = &arrival.parameters;
    match arrival.occasion {
        Occasion::Cc | Occasion::Rsr | Occasion::It => {
            let error = Message::Err {
                dlr: message.slr,
                cause: ERROR_UNASSIGNED_REFERENCE,
            };
            sent(alloc, point, sls, error)
        }
        Occasion::Rlsd => {
            let complete = Message::Rlc {
                dlr: message.slr,
                slr: message.dlr,
            };
            sent(alloc, point, sls, complete)
        }
        _ => Ok(Output::Lost(Lost::Stray)),
    }
}

/// What is answered to an event that no connection hears: to a message for a connection ERR, RLC, or nothing but that it is lost, and
/// to a request that may be asked on a connection that its reference is unknown. After `Memory` the outputs are as before.
#[tactic(auto, unfolding(section_model::specs::Lane::stray_answer))]
pub fn stray(alloc: Global, event: &Event, outs: &mut Outs) -> Result<(), Memory>
    ensures ok { OnOk result (outs.new ≡ outs.old ++ stray_answer event.now) }
    ensures err { OnErr result (outs.new ≡ outs.old) }
{
    match event {
        Event::Message { opc, sls, bytes } => match arrival_in(bytes.as_slice()) {
            Some(arrival) => outs.push(answer(alloc, *opc, *sls, &arrival)?),
            None => Ok(()),
        },
        Event::Asked { ssn, request } => {
            if !is_in_range(request) {
                return Ok(());
            }
            outs.push(Output::Told {
                ssn: *ssn,
                tell: Tell::No(Reason::Unknown),
            })
        }
        Event::Tick => Ok(()),
    }
}
