//! Digits in binary coded decimal: two in an octet, the first one in its low half (Q.713, 3.4).
ghost use Rattle.std.specs.Prelude.{◌≡◌, ◌-◌, ◌*◌, ◌<◌, ◌≤◌, ◌++◌, length, if◌then◌else◌, All, OnOk};
ghost use Rattle.sccp_address.specs.Digits.{digits_in, digit_octets};
ghost use Rattle.sccp_address.specs.Inner.Halves.{nibble_at};

use relay_base::limits::{DIGIT_VALUES, MOST_DIGITS};
use relay_base::{Digit, Digits, Memory, Octets};

/// The digit at a place, counted from 0 over the halves of the octets.
fn digit_at(octets: &[u8], place: usize) -> Digit
    requires { place < 2 * length octets.now }
    ensures { result ≡ nibble_at octets.now place }
{
    let octet = octets[place / 2];
    let half = if place % 2 == 0 {
        octet % 16
    } else {
        octet / 16
    };
    Digit::new(u32::from(half)).unwrap()
}

/// How many digits these octets have.
fn digit_count(is_odd: bool, octets: &[u8]) -> usize
    ensures { result ≡ 2 * length octets.now - (if is_odd then 1 else 0) }
{
    let halves = 2 * octets.len();
    if is_odd {
        halves.saturating_sub(1)
    } else {
        halves
    }
}

/// The digits in these octets. Where their number is odd, the high half of the last octet is passed over.
#[tactic(auto, using(crate::proofs::DigitLemmas::octets_of_digits), unfolding(crate::specs::Digits::digits_in))]
pub fn read_digits(is_odd: bool, octets: &[u8]) -> Digits
    requires { 2 * length octets.now ≤ MOST_DIGITS }
    ensures { result ≡ digits_in is_odd octets.now }
{
    let mut digits = Digits::new();
    for place in 0..digit_count(is_odd, octets) {
        digits.push(digit_at(octets, place));
    }
    digits
}

/// Writes digits. Where their number is odd, the high half of the last octet is 0.
#[tactic(auto, using(crate::proofs::DigitLemmas::octets_of_digits))]
pub fn put_digits(octets: &mut Octets, digits: &Digits) -> Result<(), Memory>
    ensures value { OnOk result (octets.new ≡ octets.old ++ digit_octets digits.now) }
    ensures few { length digits.now ≤ MOST_DIGITS }
    ensures small { All (λ d. d < DIGIT_VALUES) digits.now }
{
    let all = digits.as_slice();
    for place in 0..all.len() / 2 {
        octets.push(all[2 * place] + 16 * all[2 * place + 1])?;
    }
    octets.extend(&all[all.len() / 2 * 2..])
}
