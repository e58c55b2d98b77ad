//! The shape of a message type.
ghost use Rattle.std.specs.Prelude.{◌≤◌, length, IsTrue};
ghost use Rattle.q713_shape.specs.Rules.{has_few_names};

use crate::layout::Layout;
use crate::parts::Parts;
use crate::rules::{OptionRule, VarRule};
use relay_base::{Memory, Octets};
use std::alloc::Global;

/// The widths and the parameters of one message type (Q.713): the type octet, for each octet of the fixed part the name
/// of its parameter, the variable parameters in order, the optional ones, and whether a pointer has two octets.
#[derive(Clone, Copy)]
pub struct Shape<const F: usize, const V: usize> {
    pub kind: u8,
    pub fixed: [u8; F],
    pub vars: [VarRule; V],
    pub options: OptionRule,
    pub wide: bool,
    ghost few_octets: { length fixed ≤ 60_000 },
    ghost few_vars: { length vars ≤ 3 },
    ghost few_names: { IsTrue (has_few_names options) },
}

impl<const F: usize, const V: usize> Shape<F, V> {
    ghost use Rattle.std.specs.Prelude.{◌≡◌, length, IsTrue, IfOk};
    ghost use Rattle.q713_shape.specs.Inner.Nameless.{nameless};
    ghost use Rattle.q713_shape.specs.Parts.{format_of, values_seen, layout_format, layout_values};
    ghost use Rattle.q713_shape.specs.Writing.{are_in_range, octets_of};

    /// A message of this type with these parts.
    fn layout<'a>(&'a self, parts: &'a Parts<'a, F, V>) -> Layout<'a>
        ensures format { layout_format result ≡ nameless (format_of self.now) }
        ensures values { layout_values result ≡ values_seen parts.now }
    {
        let names = self.options;
        Layout {
            kind: self.kind,
            fixed: &parts.fixed,
            rules: &self.vars,
            vars: parts.vars,
            names,
            options: parts.options,
            wide: self.wide,
        }
    }

    /// Whether parts may be written: each length is one that the shape and Q.713 allow, and each pointer fits its octets.
    #[tactic(auto, unfolding(crate::specs::Writing::are_in_range))]
    pub fn fits(&self, parts: &Parts<'_, F, V>) -> bool
        ensures { result ≡ are_in_range (format_of self.now) (values_seen parts.now) }
    {
        self.layout(parts).fits()
    }

    /// How many octets parts have that are written.
    #[tactic(auto, unfolding(crate::specs::Writing::are_in_range, crate::specs::Writing::octets_of))]
    pub fn length(&self, parts: &Parts<'_, F, V>) -> usize
        requires { IsTrue (are_in_range (format_of self.now) (values_seen parts.now)) }
        ensures { result ≡ length (octets_of (format_of self.now) (values_seen parts.now)) }
    {
        self.layout(parts).length()
    }

    /// The octets of a message of this type with these parts (Q.713): the type, the fixed part, the pointers, the variable
    /// parameters and the optional part, which ends with 00. What it allocates is what it gives.
    #[tactic(auto, unfolding(crate::specs::Writing::are_in_range, crate::specs::Writing::octets_of))]
    pub fn put_parts(&self, alloc: Global, parts: &Parts<'_, F, V>) -> Result<Octets, Memory>
        requires { IsTrue (are_in_range (format_of self.now) (values_seen parts.now)) }
        ensures { IfOk result (λ o. o ≡ octets_of (format_of self.now) (values_seen parts.now)) }
    {
        self.layout(parts).put(alloc)
    }
}
