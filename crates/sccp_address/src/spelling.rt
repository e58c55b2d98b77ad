//! Spelling an address (Q.713, 3.4 and 3.5).
ghost use Rattle.std.specs.Prelude.{◌≡◌, ◌<◌, ◌++◌, IsTrue, IfOk, IfSome, OnOk, Ok};
ghost use Rattle.sccp_address.specs.Form.{seen, seen_title};
ghost use Rattle.sccp_address.specs.Titles.{is_carried, is_in_form};
ghost use Rattle.sccp_address.specs.Parsing.{address_of, IsInForm};
ghost use Rattle.sccp_address.specs.Ranges.{HasFewDigits};
ghost use Rattle.sccp_address.specs.Spelling.{point_octets, lead_octets, title_octets, gti_of, indicator_of, address_spelling};

use crate::address::{Address, Selector, Title};
use crate::digits::put_digits;
use relay_base::limits::POINT_CODES;
use relay_base::{Memory, Octets, Pc};
use std::alloc::Global;

/// The global title indicator.
fn gti(title: &Title<'_>) -> u8
    ensures { result ≡ gti_of (seen_title title.now) }
{
    match title {
        Title::Absent => 0,
        Title::Bcd { selector, .. } => selector.gti,
        Title::Other { gti, .. } => *gti,
    }
}

fn indicator(address: &Address<'_>) -> u8
    requires { IsInForm (seen address.now) }
    ensures { result ≡ indicator_of (seen address.now) }
{
    u8::from(address.point.is_some())
        + 2 * u8::from(address.ssn.is_some())
        + 4 * gti(&address.title)
        + 64 * u8::from(address.on_ssn)
}

/// Writes what stands before the digits.
fn put_lead(octets: &mut Octets, selector: &Selector, is_odd: bool) -> Result<(), Memory>
    requires { IsTrue (is_carried selector.now) }
    ensures { OnOk result (octets.new ≡ octets.old ++ lead_octets selector.now is_odd) }
{
    if selector.gti == 1 {
        return octets.push(128 * u8::from(is_odd) + selector.nai);
    }
    octets.push(selector.tt)?;
    octets.push(16 * selector.np + if is_odd { 1 } else { 2 })?;
    if selector.gti == 4 {
        octets.push(selector.nai)?;
    }
    Ok(())
}

#[tactic(auto, unfolding(crate::specs::Spelling::title_octets))]
fn put_title(octets: &mut Octets, title: &Title<'_>) -> Result<(), Memory>
    requires { IsTrue (is_in_form (seen_title title.now)) }
    ensures value { OnOk result (octets.new ≡ octets.old ++ title_octets (seen_title title.now)) }
    ensures few { OnOk result (HasFewDigits (seen_title title.now)) }
{
    match title {
        Title::Absent => Ok(()),
        Title::Bcd { selector, digits } => {
            put_lead(octets, selector, digits.len() % 2 == 1)?;
            put_digits(octets, digits)
        }
        Title::Other { octets: given, .. } => octets.extend(given),
    }
}

fn put_point(octets: &mut Octets, point: Option<Pc>) -> Result<(), Memory>
    ensures value { OnOk result (octets.new ≡ octets.old ++ point_octets point) }
    ensures range { IfSome point (λ p. p < POINT_CODES) }
{
    if let Some(point) = point {
        let number = point.number();
        octets.push((number % 256) as u8)?;
        octets.push((number / 256) as u8)?;
    }
    Ok(())
}

/// The octets of an address in form, which read back as that address.
#[tactic(auto, unfolding(crate::specs::Spelling::address_spelling))]
pub fn spell(alloc: Global, address: &Address<'_>) -> Result<Octets, Memory>
    requires { IsInForm (seen address.now) }
    ensures value { IfOk result (λ octets. octets ≡ address_spelling (seen address.now)) }
    ensures read_back { IfOk result (λ octets. address_of octets ≡ Ok (seen address.now)) }
{
    let mut octets = Octets::new(alloc);
    octets.push(indicator(address))?;
    put_point(&mut octets, address.point)?;
    if let Some(ssn) = address.ssn {
        octets.push(ssn.number() as u8)?;
    }
    put_title(&mut octets, &address.title)?;
    Ok(octets)
}
