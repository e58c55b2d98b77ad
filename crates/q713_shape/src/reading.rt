//! Reading the parts of a message, with the first fault.
ghost use Rattle.std.specs.Prelude.{◌≡◌, ◌+◌, ◌*◌, ◌<◌, ◌≤◌, length, slice_index, IsTrue};
ghost use Rattle.relay_base.specs.Giving.{Gives};
ghost use Rattle.q713_shape.specs.Format.{pointer_width, pointer_count, option_count};
ghost use Rattle.q713_shape.specs.Reading.{number_at, value_at, variable_at, filled_variables, options_in, options_at, values_of};
ghost use Rattle.q713_shape.specs.Rules.{names_of, has_few_names};
ghost use Rattle.q713_shape.specs.Parts.{slices, optional_slices, format_of, values_seen};
ghost use Rattle.q713_shape.specs.Inner.Pointers.{HasPointers};
ghost use Rattle.q713_shape.specs.Inner.Taking.{taken_with};

use crate::lengths::{is_option_len, pointer_octets, pointers_len};
use crate::parts::Parts;
use crate::rules::{OptionRule, VarRule};
use crate::shape::Shape;
use relay_base::ReadFault;

/// The number of one octet or of two at a place, the least significant first.
fn number(bytes: &[u8], place: usize, wide: bool) -> usize
    requires { place + pointer_width wide ≤ length bytes.now }
    ensures value { result ≡ number_at wide bytes.now place }
    ensures range { result < 65_536 }
{
    if wide {
        bytes[place] as usize + 256 * bytes[place + 1] as usize
    } else {
        bytes[place] as usize
    }
}

/// The value whose length stands at a place.
#[tactic(auto, unfolding(crate::specs::Reading::value_at))]
fn value<'a>(bytes: &'a [u8], rule: &VarRule, place: usize) -> Result<&'a [u8], ReadFault>
    requires { place < length bytes.now }
    ensures { Gives (λ v. v.now) result (value_at bytes.now rule.now place) }
{
    let long = rule.is_long();
    let width = if long { 2 } else { 1 };
    let start = place + width;
    if bytes.len() < start {
        return Err(ReadFault::Short);
    }
    let size = number(bytes, place, long);
    if bytes.len() - start < size {
        return Err(ReadFault::Short);
    }
    if !rule.allows(size) {
        return Err(ReadFault::ValueLength(rule.name));
    }
    Ok(&bytes[start..start + size])
}

/// The variable parameter whose pointer stands at a place.
#[tactic(auto, unfolding(crate::specs::Reading::variable_at))]
fn variable<'a>(
    bytes: &'a [u8],
    place: usize,
    rule: &VarRule,
    wide: bool,
) -> Result<&'a [u8], ReadFault>
    requires inside { place + pointer_width wide ≤ length bytes.now }
    requires small { place < 65_536 }
    ensures { Gives (λ v. v.now) result (variable_at wide bytes.now place rule.now) }
{
    let pointer = number(bytes, place, wide);
    let target = place + usize::from(wide) + pointer;
    if pointer == 0 || bytes.len() <= target {
        return Err(ReadFault::PointerOut(place as u16));
    }
    value(bytes, rule, target)
}

/// The values of the variable parameters, in their order, with no octets at each place past the last one.
#[derive(Clone, Copy)]
struct Found<'a> {
    values: [&'a [u8]; 3],
}

/// The variable parameters whose pointers begin at a place.
fn variables<'a>(
    bytes: &'a [u8],
    place: usize,
    rules: &[VarRule],
    wide: bool,
) -> Result<Found<'a>, ReadFault>
    requires few { length rules.now ≤ 3 }
    requires inside { place + pointer_width wide * length rules.now ≤ length bytes.now }
    requires small { place ≤ 60_001 }
    ensures { let values = filled_variables wide bytes.now place rules.now
        in Gives (λ v. slices v.values) result values }
{
    let mut values = [&bytes[..0]; 3];
    let width = pointer_octets(wide);
    for i in 0..rules.len() {
        values[i] = variable(bytes, place + width * i, &rules[i], wide)?;
    }
    Ok(Found { values })
}

/// The values of the optional parameters, in the order of their names, with None at each place past the last one.
#[derive(Clone, Copy)]
struct Optional<'a> {
    values: [Option<&'a [u8]>; 5],
}

/// Takes the value of an optional parameter where its name is looked for.
fn take_option<'a>(
    names: &[u8],
    name: u8,
    value: &'a [u8],
    values: &mut [Option<&'a [u8]>; 5],
) -> Result<(), ReadFault>
    requires { length names.now ≤ 5 }
    ensures room { length values.new ≡ 5 }
    ensures taken { let taken = taken_with names.now (optional_slices values.old) name value.now
        in Gives (λ _. optional_slices values.new) result taken }
{
    for i in 0..names.len() {
        if names[i] == name && values[i].is_none() {
            if !is_option_len(name, value.len()) {
                return Err(ReadFault::ValueLength(name));
            }
            values[i] = Some(value);
        }
    }
    Ok(())
}

/// The optional parameters of a part, up to the name 00 or the end of the message.
fn options<'a>(names: &[u8], part: &'a [u8]) -> Result<Optional<'a>, ReadFault>
    requires { length names.now ≤ 5 }
    ensures { Gives (λ o. optional_slices o.values) result (options_in names.now part.now) }
{
    let mut values = [None; 5];
    let mut rest = part;
    while !rest.is_empty() && rest[0] != 0 {
        if rest.len() < 2 || rest.len() - 2 < usize::from(rest[1]) {
            return Err(ReadFault::Short);
        }
        let end = 2 + usize::from(rest[1]);
        take_option(names, rest[0], &rest[2..end], &mut values)?;
        rest = &rest[end..];
    }
    Ok(Optional { values })
}

/// The optional part whose pointer stands at a place.
#[tactic(auto, unfolding(crate::specs::Reading::options_at))]
fn optional_part<'a>(
    bytes: &'a [u8],
    place: usize,
    rule: &OptionRule,
    wide: bool,
) -> Result<Optional<'a>, ReadFault>
    requires few { IsTrue (has_few_names rule.now) }
    requires inside { let width = pointer_width wide * option_count (names_of rule.now)
        in place + width ≤ length bytes.now }
    requires small { place < 65_536 }
    ensures { let options = options_at wide bytes.now place (names_of rule.now)
        in Gives (λ o. optional_slices o.values) result options }
{
    let OptionRule::Names(names) = rule else {
        return Ok(Optional { values: [None; 5] });
    };
    let pointer = number(bytes, place, wide);
    let target = place + usize::from(wide) + pointer;
    if pointer == 0 {
        return Ok(Optional { values: [None; 5] });
    }
    if bytes.len() < target {
        return Err(ReadFault::PointerOut(place as u16));
    }
    options(names, &bytes[target..])
}

impl<const F: usize, const V: usize> Shape<F, V> {
    /// The parts of a message that has room for its pointers, or its first fault.
    fn parts_in<'a>(&self, bytes: &'a [u8]) -> Result<Parts<'a, F, V>, ReadFault>
        requires { HasPointers (format_of self.now) bytes.now }
        ensures { Gives values_seen result (values_of (format_of self.now) bytes.now) }
    {
        let mut fixed = [0; F];
        fixed.copy_from_slice(&bytes[1..1 + F]);
        let place = 1 + F;
        let found = variables(bytes, place, &self.vars, self.wide)?;
        let optional = optional_part(
            bytes,
            place + pointer_octets(self.wide) * V,
            &self.options,
            self.wide,
        )?;
        Ok(Parts {
            fixed,
            vars: found.values,
            options: optional.values,
        })
    }

    /// The parts of a message of this type, or its first fault (Q.713). A pointer's place counts from the type octet.
    pub fn take_parts<'a>(&self, bytes: &'a [u8]) -> Result<Parts<'a, F, V>, ReadFault>
        requires { 0 < length bytes.now → slice_index bytes.now 0 ≡ self.now.kind }
        ensures { Gives values_seen result (values_of (format_of self.now) bytes.now) }
    {
        if bytes.is_empty() {
            return Err(ReadFault::Empty);
        }
        if bytes.len() < 1 + F + pointers_len(&self.vars, &self.options, self.wide) {
            return Err(ReadFault::Short);
        }
        self.parts_in(bytes)
    }
}
