//! The texts of a row: numbers, the digits of a prefix, and where a translation leads.
ghost use Rattle.std.specs.Prelude.{◌≡◌, ◌==◌, length, position, option_map};
ghost use Rattle.node_head.specs.Entity.{hex_digit, digits_of, number_below, optional_subsystem, parted, leading, entity_of};

use gtt_table::Entity;
use relay_base::limits::{MOST_DIGITS, POINT_CODES, SUBSYSTEM_NUMBERS};
use relay_base::{Digit, Digits, Pc, Ssn, number_of};

/// The value of a hex digit of either case.
fn hex_digit(octet: u8) -> Option<Digit>
    ensures { result ≡ hex_digit octet }
{
    match octet {
        b'0'..=b'9' => Digit::new(u32::from(octet - b'0')),
        b'a'..=b'f' => Digit::new(u32::from(octet - b'a') + 10),
        b'A'..=b'F' => Digit::new(u32::from(octet - b'A') + 10),
        _ => None,
    }
}

/// The digits that a text writes: at most 24 hex digits. None for any other text.
#[tactic(auto, unfolding(crate::specs::Entity::digits_of))]
pub fn digits_of(text: &[u8]) -> Option<Digits>
    ensures { result ≡ digits_of text.now }
{
    if text.len() > MOST_DIGITS {
        return None;
    }
    let mut digits = Digits::new();
    for octet in text {
        digits.push(hex_digit(*octet)?);
    }
    Some(digits)
}

fn point_of(word: &[u8]) -> Option<Pc>
    ensures { result ≡ number_below POINT_CODES word.now }
{
    match u32::try_from(number_of(word)?) {
        Ok(number) => Pc::new(number),
        Err(_) => None,
    }
}

fn subsystem_of(word: &[u8]) -> Option<Ssn>
    ensures { result ≡ number_below SUBSYSTEM_NUMBERS word.now }
{
    match u32::try_from(number_of(word)?) {
        Ok(number) => Ssn::new(number),
        Err(_) => None,
    }
}

/// The subsystem that a word names, or none where it is a dash.
fn optional_subsystem(word: &[u8]) -> Option<Option<Ssn>>
    ensures { result ≡ optional_subsystem word.now }
{
    if word == b"-".as_slice() {
        return Some(None);
    }
    match subsystem_of(word) {
        Some(ssn) => Some(Some(ssn)),
        None => None,
    }
}

fn slash(text: &[u8]) -> Option<usize>
    ensures { result ≡ position (λ b. b == 47) text.now }
{
    text.iter().position(|b| *b == b'/')
}

/// What stands before the first slash, and what behind it.
fn parted(text: &[u8]) -> Option<(&[u8], &[u8])>
    ensures { option_map (λ p. (p.0.now, p.1.now)) result ≡ parted text.now }
{
    match slash(text) {
        Some(n) => Some((&text[..n], &text[n + 1..])),
        None => None,
    }
}

/// The entity at a point, of the words for its subsystem and for what the address goes on routing on.
fn leading(own: Pc, point: Pc, ssn: &[u8], way: &[u8]) -> Option<Entity>
    ensures { result ≡ leading own point ssn.now way.now }
{
    if way == b"s".as_slice() {
        return match subsystem_of(ssn) {
            Some(ssn) => Some(Entity {
                point,
                ssn: Some(ssn),
                on_ssn: true,
            }),
            None => None,
        };
    }
    if way != b"g".as_slice() || point == own {
        return None;
    }
    match optional_subsystem(ssn) {
        Some(ssn) => Some(Entity {
            point,
            ssn,
            on_ssn: false,
        }),
        None => None,
    }
}

/// The entity that a text writes: `point/subsystem/s`, `point/subsystem/g` or `point/-/g`, where an entity at the own point has the
/// first of these forms. The point is 0 to 16,383, the subsystem 0 to 255. None for any other text.
#[tactic(auto, unfolding(crate::specs::Entity::entity_of))]
pub fn entity_of(own: Pc, text: &[u8]) -> Option<Entity>
    ensures { result ≡ entity_of own text.now }
{
    let (point, rest) = parted(text)?;
    let (ssn, way) = parted(rest)?;
    let point = point_of(point)?;
    leading(own, point, ssn, way)
}
