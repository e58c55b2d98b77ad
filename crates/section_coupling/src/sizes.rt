//! How long CR is as it goes on, and how many local references an opening takes.
ghost use Rattle.std.specs.Prelude.{◌≡◌, ◌≤◌, ◌&&◌, ℕ, Bool, Some, length, IsTrue};
ghost use Rattle.std.specs.Option.{option_map};
ghost use Rattle.plant_core.specs.declared.terms.Terms.{Terms};
ghost use Rattle.sccp_address.specs.Form.{seen as seen_address, seen_title};
ghost use Rattle.sccp_address.specs.Spelling.{address_spelling, title_octets, lead_octets};
ghost use Rattle.q713_shape.specs.Writing.{is_option};
ghost use Rattle.section_model.specs.Opening.{Wanted, wish_of, fits, by_cr, by_user, slots_needed};
ghost use Rattle.plant_core.specs.Rewriting.{called_onward};
ghost use Rattle.section_coupling.specs.Inner.Sizes.{option_size, octet_size, options_size, are_fitting};
ghost use Rattle.section_coupling.specs.Openings.{seen_calling, seen_wanted, seen_outgoing};

use crate::wish::{Calling, ReadWish, WantedView, WishView};
use plant_core::{Answer, Rewrite};
use q713_codec::LONGEST;
use relay_base::limits::{GREATEST_OCTET, LONGEST_DATA, LONGEST_PARAMETER};
use sccp_address::{Address, Selector, Title, parse};

/// Whether CR as it goes on can be written, and has at most 268 octets.
pub fn fits(wanted: &WantedView<'_>, rewrite: &Rewrite, hop: Option<u8>) -> bool
    ensures { (terms : Terms) (point slr : ℕ) →
        result ≡ fits (seen_wanted terms point slr wanted.now) rewrite.now hop }
{
    let called = onward_length(wanted.called, rewrite);
    has_lengths(wanted) && are_fitting(called, options_size(wanted, hop))
}

/// Whether the calling address and the data have lengths that they may have.
fn has_lengths(wanted: &WantedView<'_>) -> bool
    ensures { let body = option_map (λ b. b.now) wanted.now.body in
        result ≡ (is_option 0x04 (seen_calling wanted.now.calling) && is_option 0x0F body) }
{
    is_calling(&wanted.calling) && is_data(wanted.body)
}

/// The octets of CR beside its called address and its optional parameters: the type, the reference, the class, the two pointers, the
/// length of the called address, and the end of the optional part.
const AROUND: usize = 9;

/// Whether a called address of so many octets fits before optional parameters of so many.
fn are_fitting(called: usize, options: usize) -> bool
    requires { options ≤ 1_000 }
    ensures { result ≡ are_fitting called options }
{
    if called > LONGEST_PARAMETER {
        return false;
    }
    if options == 0 {
        return true;
    }
    2 + called <= usize::from(GREATEST_OCTET) && AROUND + called + options <= LONGEST
}

/// Whether a calling address is short enough for a message.
fn is_calling(calling: &Calling<'_>) -> bool
    ensures { result ≡ is_option 0x04 (seen_calling calling.now) }
{
    match calling {
        Calling::Given(octets) => octets.len() <= LONGEST_PARAMETER,
        Calling::Absent | Calling::Subsystem(_) => true,
    }
}

/// Whether data have a length that the data of CR may have.
fn is_data(body: Option<&[u8]>) -> bool
    ensures { result ≡ is_option 0x0F (option_map (λ b. b.now) body.entry) }
{
    match body {
        Some(octets) => 1 <= octets.len() && octets.len() <= LONGEST_DATA,
        None => true,
    }
}

/// How many octets the optional parameters of CR take, each with its name and its length.
fn options_size(wanted: &WantedView<'_>, hop: Option<u8>) -> usize
    requires { let body = option_map (λ b. b.now) wanted.now.body in
        IsTrue (is_option 0x04 (seen_calling wanted.now.calling) && is_option 0x0F body) }
    ensures value { (terms : Terms) (point slr : ℕ) →
        result ≡ options_size (seen_wanted terms point slr wanted.now) hop }
    ensures few { result ≤ 1_000 }
{
    let credit = if wanted.class == 3 { 3 } else { 0 };
    credit
        + calling_size(&wanted.calling)
        + data_size(wanted.body)
        + octet_size(hop)
        + octet_size(wanted.importance)
}

fn calling_size(calling: &Calling<'_>) -> usize
    requires { IsTrue (is_option 0x04 (seen_calling calling.now)) }
    ensures value { result ≡ option_size (seen_calling calling.now) }
    ensures few { result ≤ 257 }
{
    match calling {
        Calling::Given(octets) => 2 + octets.len(),
        Calling::Subsystem(_) => 4,
        Calling::Absent => 0,
    }
}

fn data_size(body: Option<&[u8]>) -> usize
    requires { IsTrue (is_option 0x0F (option_map (λ b. b.now) body)) }
    ensures value { result ≡ option_size (option_map (λ b. b.now) body.entry) }
    ensures few { result ≤ 130 }
{
    match body {
        Some(octets) => 2 + octets.len(),
        None => 0,
    }
}

fn octet_size(octet: Option<u8>) -> usize
    ensures value { result ≡ octet_size octet }
    ensures few { result ≤ 3 }
{
    match octet {
        Some(_) => 3,
        None => 0,
    }
}

/// How many octets a called address has as it goes on.
#[tactic(auto, unfolding(plant_core::specs::Rewriting::called_onward))]
fn onward_length(called: &[u8], rewrite: &Rewrite) -> usize
    ensures { result ≡ length (called_onward rewrite.now called.now) }
{
    let Ok(address) = parse(called) else {
        return called.len();
    };
    match rewrite {
        Rewrite::Keep => spelling_length(&address),
        Rewrite::Set { ssn, on_ssn } => spelling_length(&Address {
            point: None,
            ssn: ssn.or(address.ssn),
            title: address.title.copied(),
            on_ssn: *on_ssn,
        }),
    }
}

/// How many octets an address has as it is spelled.
#[tactic(auto, using(crate::proofs::Fitting::length_spelling))]
fn spelling_length(address: &Address<'_>) -> usize
    ensures { result ≡ length (address_spelling (seen_address address.now)) }
{
    let point = if address.point.is_some() { 2 } else { 0 };
    let ssn = usize::from(address.ssn.is_some());
    1 + point + ssn + title_length(&address.title)
}

/// How many octets a title has as it is spelled.
#[tactic(auto, unfolding(sccp_address::specs::Spelling::title_octets), using(crate::proofs::Fitting::length_digits))]
fn title_length(title: &Title<'_>) -> usize
    ensures value { result ≡ length (title_octets (seen_title title.now)) }
    ensures few { result ≤ 9_223_372_036_854_775_807 }
{
    match title {
        Title::Absent => 0,
        Title::Bcd { selector, digits } => lead_length(selector) + digits.len().div_ceil(2),
        Title::Other { octets, .. } => octets.len(),
    }
}

/// How many octets stand before the digits of a title.
#[tactic(auto, using(crate::proofs::Fitting::length_lead))]
fn lead_length(selector: &Selector) -> usize
    ensures value { (odd : Bool) → result ≡ length (lead_octets selector.now odd) }
    ensures few { result ≤ 3 }
{
    match selector.gti {
        1 => 1,
        3 => 2,
        _ => 3,
    }
}

/// How many references CR takes by the answer of routing control.
#[tactic(auto, unfolding(section_model::specs::Opening::slots_needed))]
fn needed_by_cr(wanted: &WantedView<'_>, answer: &Answer) -> u8
    ensures { (terms : Terms) (point slr : ℕ) →
        result ≡ slots_needed (by_cr (seen_wanted terms point slr wanted.now)) (Some answer.now) }
{
    match answer {
        Answer::Local(_) => 1,
        Answer::Forward { rewrite, hop, .. } => { if fits(wanted, rewrite, *hop) { 2 } else { 0 } }
        Answer::Refused { .. } => 0,
    }
}

/// How many references a user's connection takes by the answer of routing control.
#[tactic(auto, unfolding(section_model::specs::Opening::slots_needed))]
fn needed_by_user(answer: &Answer) -> u8
    ensures { (wish : Wanted) (ssn tag : ℕ) →
        result ≡ slots_needed (by_user ssn tag wish) (Some answer.now) }
{
    match answer {
        Answer::Forward { .. } => 1,
        Answer::Local(_) | Answer::Refused { .. } => 0,
    }
}

/// How many free references the connection of an event takes by the answer of routing control: 0, 1 or 2.
#[tactic(auto, unfolding(section_model::specs::Opening::slots_needed))]
pub fn needs(event: &ReadWish<'_>, answer: &Answer) -> u8
    ensures { (terms : Terms) → result ≡ slots_needed (wish_of terms event.now) (Some answer.now) }
{
    match event.wish() {
        WishView::ByCr(incoming) => needed_by_cr(&incoming.wanted, answer),
        WishView::ByUser(_) => needed_by_user(answer),
        WishView::NoWish => 0,
    }
}
