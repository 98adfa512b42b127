//! The rules, and where one is broken.
ghost use Rattle.std.specs.Prelude.{◌≡◌};
ghost use Rattle.schema.specs.Rules.Breaks.{rule_name};

use std::fmt;

/// A rule of structural schemas and of this project's profile. Each is displayed as its name.
#[derive(Clone, Copy, Debug, PartialEq, Eq, Drop)]
pub enum Rule {
    V01,
    V02,
    V03,
    V04,
    V05,
    V06,
    V07,
    V08,
    V09,
    V10,
    V11,
    V12,
    V13,
    V14,
    V15,
    V16,
    V17,
}

/// A rule that a schema breaks at a place.
#[derive(Debug, Drop)]
pub struct Violation {
    /// The pointer of the place (RFC 6901), counted from the root of the schema.
    pub pointer: String,
    /// The rule that is broken there.
    pub rule: Rule,
}

impl fmt::Display for Rule {
    ghost use Rattle.std.specs.Prelude.{Some};

    ghost output = { λ r. Some (rule_name r) };

    fn fmt<W: fmt::Write>(&self, f: &mut fmt::Formatter<W>) -> fmt::Result {
        f.write_str(name_of(*self))
    }
}

fn name_of(rule: Rule) -> &'static str
    ensures { result.now ≡ rule_name rule }
{
    match rule {
        Rule::V01 => "V01",
        Rule::V02 => "V02",
        Rule::V03 => "V03",
        Rule::V04 => "V04",
        Rule::V05 => "V05",
        Rule::V06 => "V06",
        Rule::V07 => "V07",
        Rule::V08 => "V08",
        Rule::V09 => "V09",
        Rule::V10 => "V10",
        Rule::V11 => "V11",
        Rule::V12 => "V12",
        Rule::V13 => "V13",
        Rule::V14 => "V14",
        Rule::V15 => "V15",
        Rule::V16 => "V16",
        Rule::V17 => "V17",
    }
}
