//! Writing the parts of a message, and whether and how long they are written.
ghost use Rattle.std.specs.Prelude.{◌≡◌, ◌+◌, ◌*◌, ◌≤◌, ◌++◌, map, length, IsTrue, IfOk, OnOk};
ghost use Rattle.std.specs.List.{concat, list_all};
ghost use Rattle.q713_shape.specs.Format.{pointer_width, option_count, pointer_count};
ghost use Rattle.q713_shape.specs.Rules.{names_of, has_few_names};
ghost use Rattle.q713_shape.specs.Parts.{optional_slices, layout_format, layout_values};
ghost use Rattle.q713_shape.specs.Writing.{number_octets, optional_part, optional_skip_of, option_skip, are_options as are_options_of, fits_pointer, are_in_range, octets_of};

use crate::layout::Layout;
use crate::lengths::{are_lengths, are_option_lengths, options_len, pointers_len, variables_len};
use crate::rules::OptionRule;
use crate::writing::{fits, pointers_fit, put_number, put_options, put_pointers, put_variables};
use relay_base::{Memory, Octets};
use std::alloc::Global;

/// Whether each optional parameter has a length that it may have.
fn are_options(rule: &OptionRule, values: &[Option<&[u8]>; 5]) -> bool
    requires { IsTrue (has_few_names rule.now) }
    ensures { result ≡ are_options_of (names_of rule.now) (optional_slices values.now) }
{
    match rule {
        OptionRule::Absent => true,
        OptionRule::Names(names) => are_option_lengths(names, values),
    }
}

/// How many octets the optional part has, with its end.
fn optional_len(rule: &OptionRule, values: &[Option<&[u8]>; 5]) -> usize
    requires few { IsTrue (has_few_names rule.now) }
    requires options { IsTrue (are_options_of (names_of rule.now) (optional_slices values.now)) }
    ensures value { let part = optional_part (names_of rule.now) (optional_slices values.now)
        in result ≡ length part }
    ensures small { result ≤ 1_300 }
{
    let OptionRule::Names(names) = rule else {
        return 0;
    };
    let len = options_len(names, values);
    if len == 0 { 0 } else { len + 1 }
}

/// What the pointer of an optional part counts, of so many octets behind parameters of so many octets.
fn optional_skip(before: usize, len: usize) -> usize
    requires { before ≤ 200_000 }
    ensures { result ≡ optional_skip_of before len }
{
    if len == 0 { 0 } else { 1 + before }
}

/// Whether the pointer of the optional part fits its octets.
fn optional_pointer_fits(
    before: usize,
    rule: &OptionRule,
    values: &[Option<&[u8]>; 5],
    wide: bool,
) -> bool
    requires before { before ≤ 200_000 }
    requires few { IsTrue (has_few_names rule.now) }
    requires options { IsTrue (are_options_of (names_of rule.now) (optional_slices values.now)) }
    ensures { let part = optional_part (names_of rule.now) (optional_slices values.now)
        in result ≡ list_all (fits_pointer wide) (option_skip (names_of rule.now) before part) }
{
    match rule {
        OptionRule::Absent => true,
        OptionRule::Names(_) => fits(optional_skip(before, optional_len(rule, values)), wide),
    }
}

/// Writes the pointer of the optional part, where the type has one.
fn put_optional_pointer(
    out: &mut Octets,
    before: usize,
    rule: &OptionRule,
    values: &[Option<&[u8]>; 5],
    wide: bool,
) -> Result<(), Memory>
    requires before { before ≤ 200_000 }
    requires few { IsTrue (has_few_names rule.now) }
    requires options { IsTrue (are_options_of (names_of rule.now) (optional_slices values.now)) }
    ensures { let part = optional_part (names_of rule.now) (optional_slices values.now) in
        let skip = option_skip (names_of rule.now) before part
        in OnOk result (out.new ≡ out.old ++ concat (map (number_octets wide) skip)) }
{
    if let OptionRule::Names(_) = rule {
        put_number(out, optional_skip(before, optional_len(rule, values)), wide)?;
    }
    Ok(())
}

/// Writes the optional part, with its end where it has a parameter.
fn put_optional_part(
    out: &mut Octets,
    rule: &OptionRule,
    values: &[Option<&[u8]>; 5],
) -> Result<(), Memory>
    requires few { IsTrue (has_few_names rule.now) }
    requires options { IsTrue (are_options_of (names_of rule.now) (optional_slices values.now)) }
    ensures { let part = optional_part (names_of rule.now) (optional_slices values.now)
        in OnOk result (out.new ≡ out.old ++ part) }
{
    if let OptionRule::Names(names) = rule {
        put_options(out, names, values)?;
        if options_len(names, values) > 0 {
            out.push(0)?;
        }
    }
    Ok(())
}

impl Layout<'_> {
    /// Whether it may be written: each length is one that the rules and Q.713 allow, and each pointer fits its octets.
    pub fn fits(&self) -> bool
        ensures { result ≡ are_in_range (layout_format self.now) (layout_values self.now) }
    {
        if !are_lengths(self.rules, &self.vars) {
            return false;
        }
        if !are_options(&self.names, &self.options) {
            return false;
        }
        let before = variables_len(self.rules, &self.vars);
        pointers_fit(self.rules, &self.vars, self.names.count(), self.wide)
            && optional_pointer_fits(before, &self.names, &self.options, self.wide)
    }

    /// How many octets it has.
    pub fn length(&self) -> usize
        requires { IsTrue (are_in_range (layout_format self.now) (layout_values self.now)) }
        ensures { result ≡ length (octets_of (layout_format self.now) (layout_values self.now)) }
    {
        1 + self.fixed.len()
            + pointers_len(self.rules, &self.names, self.wide)
            + variables_len(self.rules, &self.vars)
            + optional_len(&self.names, &self.options)
    }

    /// Its octets (Q.713): the type, the fixed part, the pointers, the variable parameters and the optional part, which ends
    /// with 00. What it allocates is what it gives.
    pub fn put(&self, alloc: Global) -> Result<Octets, Memory>
        requires { IsTrue (are_in_range (layout_format self.now) (layout_values self.now)) }
        ensures { let octets = octets_of (layout_format self.now) (layout_values self.now)
            in IfOk result (λ o. o ≡ octets) }
    {
        let before = variables_len(self.rules, &self.vars);
        let mut out = Octets::with_capacity(alloc, self.length())?;
        out.push(self.kind)?;
        out.extend(self.fixed)?;
        put_pointers(
            &mut out,
            self.rules,
            &self.vars,
            self.names.count(),
            self.wide,
        )?;
        put_optional_pointer(&mut out, before, &self.names, &self.options, self.wide)?;
        put_variables(&mut out, self.rules, &self.vars)?;
        put_optional_part(&mut out, &self.names, &self.options)?;
        Ok(out)
    }
}
