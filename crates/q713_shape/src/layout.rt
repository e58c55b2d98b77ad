//! A message as it is written, whatever its type.
ghost use Rattle.std.specs.Prelude.{◌≤◌, length, IsTrue};
ghost use Rattle.q713_shape.specs.Rules.{has_few_names};

use crate::rules::{OptionRule, VarRule};

/// A message with the rules of its type (Q.713): the type octet, the octets of the fixed part, the variable parameters with
/// their rules, the optional ones with their names, and whether a pointer has two octets.
#[derive(Clone, Copy)]
pub struct Layout<'a> {
    pub kind: u8,
    pub fixed: &'a [u8],
    pub rules: &'a [VarRule],
    pub vars: [&'a [u8]; 3],
    pub names: OptionRule,
    pub options: [Option<&'a [u8]>; 5],
    pub wide: bool,
    ghost few_octets: { length fixed.now ≤ 60_000 },
    ghost few_rules: { length rules.now ≤ 3 },
    ghost few_names: { IsTrue (has_few_names names) },
}
