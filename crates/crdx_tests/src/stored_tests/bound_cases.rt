//! What validity is made of, and other crates call: numbers of parts within bounds, and junctors by any test of a branch.
use crate::support::harness::schema_of_field;
use crate::support::nodes::first_field;
use crate::support::report::Report;
use crate::support::rows::{Kind, Row, try_tables};
use schema::{Bounds, Constraints, Node, Sort, Validations};
use std::alloc::Global;
use std::test::Fail;
use stored::is_within;
use stored::junctors::{BranchTest, meets_junctors};

static COUNTS: &str = r#"
6 rows: name | least | most | within | outside
no bounds | none | none | 0 1 18446744073709551615 | -
two at least | 2 | none | 2 3 18446744073709551615 | 0 1
three at most | none | 3 | 0 2 3 | 4 18446744073709551615
one to two | 1 | 2 | 1 2 | 0 3
none | 0 | 0 | 0 | 1
three at least and two at most | 3 | 2 | - | 2 3
"#;

/// Notes each of these counts that is within the bounds and is not to be, or the other way round.
fn are_within(
    report: &mut Report,
    alloc: Global,
    bounds: Bounds,
    counts: &str,
    wanted: bool,
) -> Result<(), Fail> {
    for count in counts.split_whitespace() {
        let what = format!(in alloc; "whether {count} is within")?;
        let count = count.parse::<u64>()?;
        report.is_value(what.as_str(), &is_within(bounds, count), &wanted);
    }
    Ok(())
}

fn bound_of(bound: Option<&str>) -> Result<Option<u64>, Fail> {
    match bound {
        Some(bound) => Ok(Some(bound.parse::<u64>()?)),
        None => Ok(None),
    }
}

/// Bounds, counts within them, and counts that are not.
struct CountRow;

impl Kind for CountRow {
    fn attempt(&self, report: &mut Report, alloc: Global, row: &Row) -> Result<(), Fail> {
        let bounds = Bounds {
            least: bound_of(row.optional("least"))?,
            most: bound_of(row.optional("most"))?,
        };
        are_within(report, alloc, bounds, row.text("within"), true)?;
        are_within(report, alloc, bounds, row.text("outside"), false)
    }
}

#[test]
fn counts(rt: HostRuntime) -> Result<(), Fail> {
    try_tables(&rt, rt.alloc(), &CountRow, &[COUNTS])
}

/// The test that a branch meets where it says `exclusiveMinimum`.
#[derive(Drop)]
struct Marked;

impl BranchTest for Marked {
    ghost test = { λ _ constraints. constraints.exclusive_minimum };

    fn meets(&self, constraints: &Constraints) -> bool {
        constraints.exclusive_minimum
    }
}

// Branches with `exclusiveMinimum` meet the test, those without do not.
static JUNCTORS: &str = r#"
16 rows: name | field | are_met
no junctor, beside what does not meet the test | {"type":"integer"} | yes
all of two that do | {"type":"integer","allOf":[{"exclusiveMinimum":true},{"exclusiveMinimum":true}]} | yes
all of one that does and one that does not | {"type":"integer","allOf":[{"exclusiveMinimum":true},{}]} | no
any of one that does not and one that does | {"type":"integer","anyOf":[{},{"exclusiveMinimum":true}]} | yes
any of two that do not | {"type":"integer","anyOf":[{},{}]} | no
one of one that does not and one that does | {"type":"integer","oneOf":[{},{"exclusiveMinimum":true}]} | yes
one of two that do | {"type":"integer","oneOf":[{"exclusiveMinimum":true},{"exclusiveMinimum":true}]} | no
one of one that does not | {"type":"integer","oneOf":[{}]} | no
not one that does | {"type":"integer","not":{"exclusiveMinimum":true}} | no
not one that does not | {"type":"integer","not":{}} | yes
a branch that meets the test, and whose junctor does not hold | {"type":"integer","anyOf":[{"exclusiveMinimum":true,"not":{"exclusiveMinimum":true}}]}
    | no
a branch that does not meet the test, and whose junctor holds | {"type":"integer","anyOf":[{"allOf":[{"exclusiveMinimum":true}]}]} | no
not a branch whose junctor does not hold | {"type":"integer","not":{"exclusiveMinimum":true,"anyOf":[{}]}} | yes
one of two, of which one has a junctor that does not hold
    | {"type":"integer","oneOf":[{"exclusiveMinimum":true},{"exclusiveMinimum":true,"allOf":[{}]}]} | yes
two junctors that hold | {"type":"integer","anyOf":[{"exclusiveMinimum":true}],"not":{}} | yes
a junctor that holds beside one that does not | {"type":"integer","allOf":[{"exclusiveMinimum":true}],"oneOf":[{}]} | no
"#;

/// What the scalar of the first field asks.
fn asked_of_field(root: &Node) -> Result<&Validations, Fail> {
    match &first_field(root)?.sort {
        Sort::Scalar(scalar) => Ok(&scalar.validations),
        _ => Err(Fail::from("no scalar")),
    }
}

fn are_met(report: &mut Report, row: &Row, root: &Node) -> Result<(), Fail> {
    let found = meets_junctors(&Marked, asked_of_field(root)?);
    report.is_value("whether the junctors are met", &found, &row.is("are_met"));
    Ok(())
}

/// A field, and whether its junctors are met.
struct JunctorRow;

impl Kind for JunctorRow {
    fn attempt(&self, report: &mut Report, alloc: Global, row: &Row) -> Result<(), Fail> {
        let schema = schema_of_field(alloc, row.text("field"))?;
        are_met(report, row, schema.root())
    }
}

#[test]
fn junctors(rt: HostRuntime) -> Result<(), Fail> {
    try_tables(&rt, rt.alloc(), &JunctorRow, &[JUNCTORS])
}
