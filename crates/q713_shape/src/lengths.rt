//! How many octets the parts of a message have, and whether they may have them.
ghost use Rattle.std.specs.Prelude.{◌≡◌, ◌+◌, ◌*◌, ◌≤◌, ◌++◌, length, IsTrue};
ghost use Rattle.std.specs.List.{concat};
ghost use Rattle.q713_shape.specs.Format.{pointer_width, option_count, is_length_of, is_option_length};
ghost use Rattle.q713_shape.specs.Rules.{names_of};
ghost use Rattle.q713_shape.specs.Parts.{slices, optional_slices};
ghost use Rattle.q713_shape.specs.Writing.{variable, variables, all_given, given, have_lengths, have_option_lengths, is_option};
ghost use Rattle.std.specs.Option.{option_map};

use crate::rules::{OptionRule, VarRule};
use relay_base::limits::{LONGEST_DATA, LONGEST_PARAMETER};

/// How many octets a pointer has.
pub fn pointer_octets(wide: bool) -> usize
    ensures { result ≡ pointer_width wide }
{
    if wide { 2 } else { 1 }
}

/// How many octets the pointers have: one for each variable parameter, and one for the optional part where there is one.
pub fn pointers_len(rules: &[VarRule], options: &OptionRule, wide: bool) -> usize
    requires { length rules.now ≤ 3 }
    ensures { let count = length rules.now + option_count (names_of options.now)
        in result ≡ pointer_width wide * count }
{
    pointer_octets(wide) * (rules.len() + options.count())
}

/// Whether a length is one that the optional parameter of this name may have (Q.713, 3.4, 3.5, 3.16 and 3.17).
pub fn is_option_len(name: u8, len: usize) -> bool
    ensures { result ≡ is_option_length name len }
{
    match name {
        0x03 | 0x04 => len <= LONGEST_PARAMETER,
        0x0F => 1 <= len && len <= LONGEST_DATA,
        0x10 => len == 4,
        _ => len == 1,
    }
}

/// Whether each variable parameter has a length that it may have.
pub fn are_lengths(rules: &[VarRule], values: &[&[u8]]) -> bool
    requires { length rules.now ≤ length values.now }
    ensures { result ≡ have_lengths rules.now (slices values.now) }
{
    for i in 0..rules.len() {
        if !rules[i].allows(values[i].len()) {
            return false;
        }
    }
    true
}

/// Whether an optional parameter has a length that it may have, where it is there.
fn allows(name: u8, value: Option<&[u8]>) -> bool
    ensures { result ≡ is_option name (option_map (λ v. v.now) value.entry) }
{
    match value {
        Some(value) => is_option_len(name, value.len()),
        None => true,
    }
}

/// Whether each optional parameter has a length that it may have.
pub fn are_option_lengths(names: &[u8], values: &[Option<&[u8]>]) -> bool
    requires { length names.now ≤ length values.now }
    ensures { result ≡ have_option_lengths names.now (optional_slices values.now) }
{
    for i in 0..names.len() {
        if !allows(names[i], values[i]) {
            return false;
        }
    }
    true
}

/// The octets of a variable parameter, with those of its length.
pub fn variable_len(rule: &VarRule, value: &[u8]) -> usize
    requires { IsTrue (is_length_of rule.now (length value.now)) }
    ensures value { result ≡ length (variable rule.now value.now) }
    ensures small { result ≤ 65_537 }
{
    value.len() + if rule.is_long() { 2 } else { 1 }
}

/// The octets of the variable parameters, with those of their lengths.
pub fn variables_len(rules: &[VarRule], values: &[&[u8]]) -> usize
    requires few { length rules.now ≤ 3 }
    requires values { length rules.now ≤ length values.now }
    requires lengths { IsTrue (have_lengths rules.now (slices values.now)) }
    ensures value { result ≡ length (concat (variables rules.now (slices values.now))) }
    ensures small { result ≤ 65_537 * length rules.now }
{
    let mut total = 0;
    for i in 0..rules.len() {
        total += variable_len(&rules[i], values[i]);
    }
    total
}

/// The octets of an optional parameter, with those of its name and its length.
fn option_len(name: u8, value: Option<&[u8]>) -> usize
    requires { IsTrue (is_option name (option_map (λ v. v.now) value)) }
    ensures value { result ≡ length (given name (option_map (λ v. v.now) value.entry)) }
    ensures small { result ≤ 257 }
{
    match value {
        Some(value) => 2 + value.len(),
        None => 0,
    }
}

/// The octets of the optional parameters, with those of their names and lengths.
pub fn options_len(names: &[u8], values: &[Option<&[u8]>]) -> usize
    requires few { length names.now ≤ 5 }
    requires values { length names.now ≤ length values.now }
    requires lengths { IsTrue (have_option_lengths names.now (optional_slices values.now)) }
    ensures value { result ≡ length (all_given names.now (optional_slices values.now)) }
    ensures small { result ≤ 257 * length names.now }
{
    let mut total = 0;
    for i in 0..names.len() {
        total += option_len(names[i], values[i]);
    }
    total
}
