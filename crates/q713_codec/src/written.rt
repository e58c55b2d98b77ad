//! A message as it is written, whatever its type.
ghost use Rattle.std.specs.Prelude.{◌≡◌, ◌+◌, ◌<◌, ◌≤◌, ◌++◌, [], length, IsTrue};
ghost use Rattle.q713_shape.specs.Rules.{has_few_names};

use crate::values::octets3;
use q713_shape::{Layout, OptionRule, Shape, VarRule};
use relay_base::Ref24;
use relay_base::limits::REFERENCES;

/// The octets of a fixed part, which are ten at most.
#[derive(Clone, Copy)]
pub struct FixedPart {
    octets: [u8; 10],
    count: usize,
    ghost within: { count ≤ 10 },
}

impl FixedPart {
    ghost use Rattle.q713_codec.specs.Messages.{octets3};
    ghost use Rattle.q713_codec.specs.Inner.Written.{octets_in};

    /// No octets.
    pub fn new() -> Self
        ensures octets { octets_in result ≡ [] }
        ensures count { result.count ≡ 0 }
    {
        FixedPart {
            octets: [0; 10],
            count: 0,
        }
    }

    /// These octets behind the others.
    pub fn with(self, piece: &[u8]) -> Self
        requires { self.count + length piece.now ≤ 10 }
        ensures octets { octets_in result ≡ octets_in self ++ piece.now }
        ensures count { result.count ≡ self.count + length piece.now }
    {
        let mut octets = self.octets;
        let count = self.count + piece.len();
        octets[self.count..count].copy_from_slice(piece);
        FixedPart { octets, count }
    }

    /// A reference behind the others, with its least significant octet first.
    pub fn with_reference(self, reference: Ref24) -> Self
        requires { self.count ≤ 7 }
        ensures octets { octets_in result ≡ octets_in self ++ octets3 reference }
        ensures count { result.count ≡ self.count + 3 }
        ensures range { reference < REFERENCES }
    {
        self.with(&octets3(reference))
    }

    fn as_slice(&self) -> &[u8]
        ensures { result.now ≡ octets_in self.now }
    {
        &self.octets[..self.count]
    }
}

/// The rules of variable parameters, which are three at most.
#[derive(Clone, Copy)]
struct Rules {
    items: [VarRule; 3],
    count: usize,
    ghost within: { count ≤ 3 },
}

impl Rules {
    ghost use Rattle.q713_codec.specs.Inner.Written.{rules_in};

    fn of(rules: &[VarRule]) -> Self
        requires { length rules.now ≤ 3 }
        ensures { rules_in result ≡ rules.now }
    {
        let none = VarRule {
            name: 0,
            least: 0,
            most: 0,
        };
        let mut items = [none; 3];
        let count = rules.len();
        items[..count].copy_from_slice(rules);
        Rules { items, count }
    }

    fn as_slice(&self) -> &[VarRule]
        ensures { result.now ≡ rules_in self.now }
    {
        &self.items[..self.count]
    }
}

/// A message with the rules of its type.
#[derive(Clone, Copy)]
pub struct Written<'a> {
    kind: u8,
    fixed: FixedPart,
    rules: Rules,
    vars: [&'a [u8]; 3],
    names: OptionRule,
    options: [Option<&'a [u8]>; 5],
    wide: bool,
    ghost few_names: { IsTrue (has_few_names names) },
}

impl<'a> Written<'a> {
    ghost use Rattle.q713_shape.specs.Inner.Nameless.{nameless};
    ghost use Rattle.q713_shape.specs.Parts.{format_of, layout_format, layout_values};
    ghost use Rattle.q713_codec.specs.Inner.Written.{octets_in, written_format, written_values, values_with};

    /// A message of this shape with these parts.
    pub fn of<const F: usize, const V: usize>(
        shape: &Shape<F, V>,
        fixed: FixedPart,
        vars: [&'a [u8]; 3],
        options: [Option<&'a [u8]>; 5],
    ) -> Self
        ensures format { written_format result ≡ nameless (format_of shape.now) }
        ensures values { let values = values_with (octets_in fixed) vars.entry options.entry
            in written_values result ≡ values }
    {
        let names = shape.options;
        let rules = Rules::of(&shape.vars);
        Written {
            kind: shape.kind,
            fixed,
            rules,
            vars,
            names,
            options,
            wide: shape.wide,
        }
    }

    /// The same by references.
    pub fn layout(&'a self) -> Layout<'a>
        ensures format { layout_format result ≡ written_format self.now }
        ensures values { layout_values result ≡ written_values self.now }
    {
        let names = self.names;
        Layout {
            kind: self.kind,
            fixed: self.fixed.as_slice(),
            rules: self.rules.as_slice(),
            vars: self.vars,
            names,
            options: self.options,
            wide: self.wide,
        }
    }
}
