//! `explain`, `validate`, `prune`, `default` and `leaves`: what is said of inputs that are refused, and which of them is judged first.
use crate::program::help_cases::HelpRow;
use crate::support::documents::WIDGET;
use crate::support::harness::{Run, RunRow, try_run};
use crate::support::report::Report;
use crate::support::rows::{Kind, Row, try_tables};
use crate::support::texts::padded;
use std::alloc::Global;
use std::test::Fail;

// What the tables name.
static NAMED: &str = r#"
@BAD_DEFAULT
    | {"apiVersion":"apiextensions.k8s.io/v1","kind":"CustomResourceDefinition","spec":{"group":"example.org","names":{"kind":"Widget"},
    "versions":[{"name":"v1","schema":{"openAPIV3Schema":{"type":"object","properties":{"n":{"type":"integer","default":"x"}}}}}]}}
"#;

static OBJECTS: &str = r#"
6 rows: name | command | definition | second | status
an object in a file | crdx validate crd.json v1 object.json | @WIDGET | {} | 0
    > valid
a number with a fraction | crdx validate crd.json v1 object.json | @WIDGET | {"spec":{"a":1.5}} | 3
    ! crdx: object: J1
an object that is cut | crdx validate crd.json v1 object.json | @WIDGET | {"spec":{"a" | 3
    ! crdx: object: J3
a standard input without a byte | crdx prune crd.json v1 | @WIDGET | - | 3
    ! crdx: object: J3
a number past 64 bits | crdx default crd.json v1 | @WIDGET | 9223372036854775808 | 3
    ! crdx: object: J1
an object that cannot be read | crdx validate crd.json v1 nowhere.json | @WIDGET | {} | 4
    ! crdx: object: read failed
"#;

static DEFINITIONS: &str = r#"
7 rows: name | command | definition | second | status
a definition that cannot be read, judged before the object | crdx prune nowhere.json v1 nowhere.json | @WIDGET | {} | 4
    ! crdx: crd: read failed
a definition that is cut, judged before the object | crdx validate crd.json v1 | {"spec":{"a" | {"spec":{"a":1.5}} | 3
    ! crdx: crd: J3
no such version | crdx default crd.json v2 | @WIDGET | {"spec":{"a" | 3
    ! crdx: crd: S2
a schema that breaks rules, judged before the object | crdx validate crd.json v1 | @BROKEN | {"spec":{"a" | 1
    ! @BROKEN_LINES
a schema that breaks rules, and an object that cannot be read | crdx prune crd.json v1 nowhere.json | @BROKEN | {} | 1
    ! @BROKEN_LINES
a schema that breaks rules, and pools that cannot be read | crdx sample crd.json v1 --pools nowhere.json | @BROKEN | {} | 1
    ! @BROKEN_LINES
a schema that breaks rules, judged before pools that are cut | crdx sample crd.json v1 --pools pools.json | @BROKEN | {"spec":{"a" | 1
    ! @BROKEN_LINES
"#;

static LEAVES_AND_FIELDS: &str = r#"
7 rows: name | command | definition | second | status
an object that is cut, and its leaves | crdx leaves crd.json v1 object.json | @WIDGET | {"spec":{"a" | 3
    ! crdx: object: J3
leaves of an object that cannot be read | crdx leaves crd.json v1 nowhere.json | @WIDGET | {} | 4
    ! crdx: object: read failed
a schema that breaks rules, judged before the leaves of an object | crdx leaves crd.json v1 | @BROKEN | {"spec":{"a" | 1
    ! @BROKEN_LINES
a definition that is cut, and its fields | crdx explain crd.json v1 | {"spec":{"a" | - | 3
    ! crdx: crd: J3
fields of another version | crdx explain crd.json v2 ~ | @WIDGET | - | 3
    ! crdx: crd: S2
a bad default | crdx default crd.json v1 object.json | @BAD_DEFAULT | {} | 1
    ! V14 "/properties/n"
a bad default of a definition that is sampled | crdx sample crd.json v1 | @BAD_DEFAULT | {} | 1
    ! V14 "/properties/n"
"#;

#[test]
fn inputs(rt: HostRuntime) -> Result<(), Fail> {
    try_tables(
        &rt,
        rt.alloc(),
        &RunRow,
        &[NAMED, OBJECTS, DEFINITIONS, LEAVES_AND_FIELDS],
    )
}

// What is wanted: a line of the help.
static HELP: &str = r#"
2 rows: name | command | lines
help beside a definition that does not exist | crdx check nowhere.json v1 --help | Usage: crdx check [OPTIONS] <CRD> [VERSION]
help beside an object that does not exist | crdx prune crd.json v1 nowhere.json --help | Usage: crdx prune [OPTIONS] <CRD> <VERSION> [OBJECT]
"#;

#[test]
fn help(rt: HostRuntime) -> Result<(), Fail> {
    try_tables(&rt, rt.alloc(), &HelpRow, &[HELP])
}

static LONG: &str = r#"
2 rows: name | spaces | status | out
an object of 1,048,576 bytes | 1048574 | 0 | {}
an object of 1,048,577 bytes | 1048575 | 3 | -
    ! crdx: object: J4
"#;

/// An object of so many bytes, which are spaces but for two, and what `prune` writes.
struct LongObject;

impl Kind for LongObject {
    fn attempt(&self, report: &mut Report, alloc: Global, row: &Row) -> Result<(), Fail> {
        let object = padded(alloc, "{}", row.count("spaces"))?;
        let run = Run {
            command: "crdx prune crd.json v1",
            crd: WIDGET,
            second: object.as_str(),
            out: row.out(),
            err: row.err(),
            status: row.number("status"),
        };
        try_run(report, alloc, &run)
    }
}

#[test]
fn long_objects(rt: HostRuntime) -> Result<(), Fail> {
    try_tables(&rt, rt.alloc(), &LongObject, &[LONG])
}
