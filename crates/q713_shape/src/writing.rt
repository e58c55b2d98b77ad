//! Writing the parts of a message (Q.713, 2.3).
ghost use Rattle.std.specs.Prelude.{◌≡◌, ◌+◌, ◌*◌, ◌<◌, ◌≤◌, ◌++◌, map, length, IsTrue, OnOk};
ghost use Rattle.std.specs.List.{concat, list_all};
ghost use Rattle.std.specs.Option.{option_map};
ghost use Rattle.q713_shape.specs.Format.{pointer_width};
ghost use Rattle.q713_shape.specs.Parts.{slices, optional_slices};
ghost use Rattle.q713_shape.specs.Writing.{number_octets, variable, variables, all_given, given, skips, have_lengths, fits_pointer};

use crate::lengths::{pointer_octets, variable_len};
use crate::rules::VarRule;
use relay_base::limits::GREATEST_OCTET;
use relay_base::{Memory, Octets};

/// Writes the low octet of a number, or its two low octets, the least significant first.
pub fn put_number(out: &mut Octets, number: usize, wide: bool) -> Result<(), Memory>
    ensures { OnOk result (out.new ≡ out.old ++ number_octets wide number) }
{
    out.push((number % 256) as u8)?;
    if wide {
        out.push((number / 256 % 256) as u8)?;
    }
    Ok(())
}

/// What a pointer counts: its own last octet, the octets of the pointers behind it, and those of the parameters before its own.
fn skip(behind: usize, before: usize, wide: bool) -> usize
    requires behind { behind ≤ 4 }
    requires before { before ≤ 200_000 }
    ensures { result ≡ 1 + pointer_width wide * behind + before }
{
    1 + pointer_octets(wide) * behind + before
}

/// Whether a number fits the octets of a pointer.
pub fn fits(number: usize, wide: bool) -> bool
    ensures { result ≡ fits_pointer wide number }
{
    number
        <= if wide {
            65_535
        } else {
            usize::from(GREATEST_OCTET)
        }
}

/// Whether each pointer of the variable parameters fits its octets. Behind them may stand the one of the optional part.
pub fn pointers_fit(rules: &[VarRule], values: &[&[u8]], behind: usize, wide: bool) -> bool
    requires few { length rules.now ≤ 3 }
    requires behind { behind ≤ 1 }
    requires values { length rules.now ≤ length values.now }
    requires lengths { IsTrue (have_lengths rules.now (slices values.now)) }
    ensures { let parts = variables rules.now (slices values.now)
        in result ≡ list_all (fits_pointer wide) (skips (pointer_width wide) behind 0 parts) }
{
    let mut before = 0;
    for i in 0..rules.len() {
        if !fits(skip(rules.len() - 1 - i + behind, before, wide), wide) {
            return false;
        }
        before += variable_len(&rules[i], values[i]);
    }
    true
}

/// Writes the pointers of the variable parameters.
pub fn put_pointers(
    out: &mut Octets,
    rules: &[VarRule],
    values: &[&[u8]],
    behind: usize,
    wide: bool,
) -> Result<(), Memory>
    requires few { length rules.now ≤ 3 }
    requires behind { behind ≤ 1 }
    requires values { length rules.now ≤ length values.now }
    requires lengths { IsTrue (have_lengths rules.now (slices values.now)) }
    ensures { let parts = variables rules.now (slices values.now) in
        let pointers = skips (pointer_width wide) behind 0 parts
        in OnOk result (out.new ≡ out.old ++ concat (map (number_octets wide) pointers)) }
{
    let mut before = 0;
    for i in 0..rules.len() {
        put_number(out, skip(rules.len() - 1 - i + behind, before, wide), wide)?;
        before += variable_len(&rules[i], values[i]);
    }
    Ok(())
}

/// Writes a variable parameter, with its length.
fn put_variable(out: &mut Octets, rule: &VarRule, value: &[u8]) -> Result<(), Memory>
    ensures { OnOk result (out.new ≡ out.old ++ variable rule.now value.now) }
{
    put_number(out, value.len(), rule.is_long())?;
    out.extend(value)?;
    Ok(())
}

/// Writes the variable parameters.
pub fn put_variables(out: &mut Octets, rules: &[VarRule], values: &[&[u8]]) -> Result<(), Memory>
    requires { length rules.now ≤ length values.now }
    ensures { OnOk result (out.new ≡ out.old ++ concat (variables rules.now (slices values.now))) }
{
    for i in 0..rules.len() {
        put_variable(out, &rules[i], values[i])?;
    }
    Ok(())
}

/// Writes an optional parameter, with its name and its length, where it is there.
fn put_option(out: &mut Octets, name: u8, value: Option<&[u8]>) -> Result<(), Memory>
    ensures { OnOk result (out.new ≡ out.old ++ given name (option_map (λ v. v.now) value.entry)) }
{
    if let Some(value) = value {
        out.push(name)?;
        out.push((value.len() % 256) as u8)?;
        out.extend(value)?;
    }
    Ok(())
}

/// Writes the optional parameters.
pub fn put_options(out: &mut Octets, names: &[u8], values: &[Option<&[u8]>]) -> Result<(), Memory>
    requires { length names.now ≤ length values.now }
    ensures { OnOk result (out.new ≡ out.old ++ all_given names.now (optional_slices values.now)) }
{
    for i in 0..names.len() {
        put_option(out, names[i], values[i])?;
    }
    Ok(())
}
