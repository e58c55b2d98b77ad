//! The answer for a called address.
ghost use Rattle.std.specs.Prelude.{◌≡◌, None};
ghost use Rattle.sccp_address.specs.Form.{seen};
ghost use Rattle.plant_core.specs.declared.answer.Answer.TheVariants.{Refused};
ghost use Rattle.plant_core.specs.Asking.{seen_ask, answer_to};
ghost use Rattle.plant_core.specs.Routing.{entity_answer, either_answer, row_answer, title_answer, route_of};

use gtt_table::{Entity, Look, Row};
use plant_core::{Answer, Ask, Asked, MOST_HOPS, Origin, Plant, Rewrite, RouteCause};
use relay_base::Ssn;
use sccp_address::{Address, Title, selector};

fn refused(cause: RouteCause) -> Answer
    ensures { result ≡ Refused cause None }
{
    Answer::Refused { cause, local: None }
}

/// Where an entity leads.
#[tactic(auto, unfolding(plant_core::specs::Routing::entity_answer, plant_core::specs::Routing::availability_of))]
fn at_entity(plant: &Plant, hop: Option<u8>, entity: &Entity) -> Answer
    ensures { result ≡ entity_answer plant.now.routing hop entity.now }
{
    let is_own = entity.point == plant.own();
    match plant.stands(entity) {
        Ok(()) if is_own => Answer::Local(entity.ssn.unwrap_or(Ssn::from(0))),
        Ok(()) => Answer::Forward {
            dpc: entity.point,
            rewrite: Rewrite::Set {
                ssn: entity.ssn,
                on_ssn: entity.on_ssn,
            },
            hop,
        },
        Err(RouteCause::SubsystemBarred) if is_own => Answer::Refused {
            cause: RouteCause::SubsystemBarred,
            local: entity.ssn,
        },
        Err(cause) => refused(cause),
    }
}

/// The first entity that is available; where none is, the refusal of the first.
fn at_either(plant: &Plant, hop: Option<u8>, row: &Row) -> Answer
    ensures { result ≡ either_answer plant.now.routing hop row.now.first row.now.second }
{
    if let Some(second) = &row.second {
        if plant.stands(&row.first).is_err() && plant.stands(second).is_ok() {
            return at_entity(plant, hop, second);
        }
    }
    at_entity(plant, hop, &row.first)
}

/// Where a row leads, once the hop counter is lowered.
fn at_row(plant: &Plant, hop: Option<u8>, row: &Row) -> Answer
    ensures { result ≡ row_answer plant.now.routing hop row.now }
{
    match hop {
        None => at_either(plant, None, row),
        Some(hop) if hop < 2 || hop > MOST_HOPS => refused(RouteCause::Hop),
        Some(hop) => at_either(plant, Some(hop - 1), row),
    }
}

/// The answer for an address that routes on its title.
#[tactic(auto, unfolding(plant_core::specs::Routing::title_answer))]
fn on_title(plant: &Plant, called: &Address<'_>, hop: Option<u8>) -> Answer
    ensures { result ≡ title_answer plant.now.routing (seen called.now).title hop }
{
    let Some((selector, digits)) = selector(called) else {
        return refused(RouteCause::NoNature);
    };
    match plant.look(&selector, &digits) {
        Look::NoSelector => refused(RouteCause::NoNature),
        Look::NoPrefix => refused(RouteCause::NoAddress),
        Look::Row(row) => at_row(plant, hop, row),
    }
}

/// The answer of the routing data for a called address, with its hop counter where it has one.
#[tactic(auto, unfolding(plant_core::specs::Routing::route_of))]
pub fn route(plant: &Plant, called: &Address<'_>, hop: Option<u8>, origin: Origin) -> Answer
    ensures { result ≡ route_of plant.now.routing (seen called.now) hop origin }
{
    if !called.on_ssn {
        return on_title(plant, called, hop);
    }
    plant.answer(&Ask {
        called: called.copied(),
        hop,
        origin,
    })
}

/// The answer of the routing data to what is asked, at their edition.
pub fn asked(plant: &Plant, ask: &Ask<'_>) -> Asked
    ensures edition { result.edition ≡ plant.now.edition }
    ensures answer { result.answer ≡ answer_to plant.now.routing (seen_ask ask.now) }
{
    Asked {
        edition: plant.edition(),
        answer: route(plant, &ask.called, ask.hop, ask.origin),
    }
}
