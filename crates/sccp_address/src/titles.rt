//! Reading a global title (Q.713, 3.4).
ghost use Rattle.std.specs.Prelude.{◌≡◌, ◌<◌, ◌≤◌, length, IsTrue, IfOk};
ghost use Rattle.relay_base.specs.Giving.{Gives};
ghost use Rattle.sccp_address.specs.Form.{other, seen, seen_title};
ghost use Rattle.sccp_address.specs.Titles.{has_digits, lead_of, parity_of, selector_of, is_carried, is_in_form, title_at, dialled_of};

use crate::address::{Address, AddressFault, Selector, TITLE_INDICATORS, Title};
use crate::digits::read_digits;
use relay_base::Digits;
use relay_base::limits::MOST_DIGITS;

/// Whether a title has an odd or an even number of digits.
#[derive(Clone, Copy, PartialEq, Eq)]
pub enum Parity {
    Odd,
    Even,
}

/// How many octets stand before the digits.
fn lead(gti: u8) -> usize
    ensures { result ≡ lead_of gti }
{
    match gti {
        1 => 1,
        3 => 2,
        _ => 3,
    }
}

/// None for an encoding other than binary coded decimal.
fn parity_at(gti: u8, octets: &[u8]) -> Option<Parity>
    requires { lead_of gti ≤ length octets.now }
    ensures { result ≡ parity_of gti octets.now }
{
    let encoding = match gti {
        1 => 2 - octets[0] / 128,
        _ => octets[1] % 16,
    };
    match encoding {
        1 => Some(Parity::Odd),
        2 => Some(Parity::Even),
        _ => None,
    }
}

fn selector_at(gti: u8, octets: &[u8]) -> Selector
    requires digital { IsTrue (has_digits gti) }
    requires whole { lead_of gti ≤ length octets.now }
    ensures value { result ≡ selector_of gti octets.now }
    ensures carried { IsTrue (is_carried result) }
{
    let (tt, np, nai) = match gti {
        1 => (0, 0, octets[0] % 128),
        3 => (octets[0], octets[1] / 16, 0),
        _ => (octets[0], octets[1] / 16, octets[2] % 128),
    };
    Selector { gti, tt, np, nai }
}

/// A title of indicator 1, 3 or 4.
#[tactic(auto, unfolding(crate::specs::Titles::title_at))]
fn digital(gti: u8, octets: &[u8]) -> Result<Title<'_>, AddressFault>
    requires { IsTrue (has_digits gti) }
    ensures value { Gives seen_title result (title_at gti octets.now) }
    ensures in_form { IfOk result (λ t. IsTrue (is_in_form (seen_title t))) }
{
    if octets.len() < lead(gti) {
        return Err(AddressFault::TitleShort);
    }
    let digits = &octets[lead(gti)..];
    match parity_at(gti, octets) {
        Some(Parity::Odd) if digits.is_empty() => Err(AddressFault::TitleShort),
        Some(parity) if 2 * digits.len() <= MOST_DIGITS => Ok(Title::Bcd {
            selector: selector_at(gti, octets),
            digits: read_digits(parity == Parity::Odd, digits),
        }),
        _ => Ok(Title::Other { gti, octets }),
    }
}

/// The title of this indicator (0 to 15) that the octets spell.
#[tactic(auto, unfolding(crate::specs::Titles::title_at))]
pub fn read_title(gti: u8, octets: &[u8]) -> Result<Title<'_>, AddressFault>
    requires { gti < TITLE_INDICATORS }
    ensures value { Gives seen_title result (title_at gti octets.now) }
    ensures in_form { IfOk result (λ t. IsTrue (is_in_form (seen_title t))) }
{
    match gti {
        0 => Ok(Title::Absent),
        1 | 3 | 4 => digital(gti, octets),
        _ => Ok(Title::Other { gti, octets }),
    }
}

/// Whether the octets are a title of this indicator that is read as neither short nor digits.
#[tactic(auto, using(crate::proofs::TitleLemmas::kept))]
pub fn is_other(gti: u8, octets: &[u8]) -> bool
    ensures { result ≡ is_in_form (other gti octets.now) }
{
    if gti == 0 || gti >= TITLE_INDICATORS {
        return false;
    }
    match read_title(gti, octets) {
        Ok(Title::Other { .. }) => true,
        _ => false,
    }
}

/// The selector and the digits of a title in binary coded decimal; None for any other.
pub fn selector(address: &Address<'_>) -> Option<(Selector, Digits)>
    ensures { result ≡ dialled_of (seen address.now).title }
{
    match address.title {
        Title::Bcd { selector, digits } => Some((selector, digits)),
        _ => None,
    }
}
