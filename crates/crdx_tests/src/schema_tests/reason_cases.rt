//! Why rules with several conditions are broken: each reason, by the keyword that it is about.
use crate::support::harness::{crd_of, is_said};
use crate::support::report::Report;
use crate::support::rows::{Kind, Row, try_tables};
use schema::{Explained, Finding, Violation};
use std::alloc::{AllocError, Global};
use std::fmt::Write;
use std::test::Fail;

// What is wanted in these tables: a line for each reason of each violation, the rule, the place, the keyword and the reason; or for a
// violation without reasons the rule and the place.
static KEYWORDS: &str = r#"
10 rows: name | schema | lines
pattern | {"type":"object","properties":{"x":{"type":"string","pattern":"a"}}} | V17 "/properties/x" pattern NotOfScalars
two keywords of other kinds | {"type":"object","properties":{"x":{"type":"integer","properties":{},"multipleOf":2}}}
    | V17 "/properties/x" multipleOf NotOfScalars
    > V17 "/properties/x" properties NotOfScalars
a keyword of scalars at a list | {"type":"object","properties":{"x":{"type":"array","items":{"type":"string"},"minLength":1}}}
    | V17 "/properties/x" minLength NotOfLists
a keyword of lists at an object | {"type":"object","properties":{"x":{"type":"object","items":{"type":"string"}}}}
    | V17 "/properties/x" items NotOfObjects
keywords at an open place | {"type":"object","properties":{"x":{"x-kubernetes-preserve-unknown-fields":true,"minItems":1,"properties":{}}}}
    | V17 "/properties/x" minItems NotOfOpenPlaces
    > V17 "/properties/x" properties NotOfOpenPlaces
a number | {"type":"object","properties":{"x":{"type":"number"}}} | V17 "/properties/x" type UnknownType
a list without items | {"type":"object","properties":{"x":{"type":"array"}}} | V17 "/properties/x" type NoItems
an empty enum | {"type":"object","properties":{"x":{"type":"string","enum":[]}}} | V17 "/properties/x" enum EmptyEnum
an enum with an integer | {"type":"object","properties":{"x":{"type":"string","enum":["a",1]}}} | V17 "/properties/x" enum EnumOfOtherKind
a required name without a field | {"type":"object","properties":{"x":{"type":"object","required":["a"]}}}
    | V17 "/properties/x" required UndeclaredField
"#;

static BESIDE_OTHERS: &str = r#"
8 rows: name | schema | lines
additionalProperties true | {"type":"object","properties":{"x":{"type":"object","additionalProperties":true}}}
    | V17 "/properties/x" additionalProperties AdditionalPropertiesTrue
int-or-string beside unknown fields
    | {"type":"object","properties":{"x":{"x-kubernetes-int-or-string":true,"x-kubernetes-preserve-unknown-fields":true}}}
    | V17 "/properties/x" x-kubernetes-int-or-string NotWithPreserving
a text beside unknown fields | {"type":"object","properties":{"x":{"type":"string","x-kubernetes-preserve-unknown-fields":true}}}
    | V17 "/properties/x" type NotWithPreserving
a map beside unknown fields
    | {"type":"object","properties":{"x":{"type":"object","x-kubernetes-preserve-unknown-fields":true,"additionalProperties":{"type":"string"}}}}
    | V17 "/properties/x" additionalProperties NotWithPreserving
keywords that no place may have | {"type":"object","properties":{"x":{"type":"string","id":"y","$ref":"x"}}} | V05 "/properties/x" $ref NotSupported
    > V05 "/properties/x" id NotSupported
keywords that no branch may have | {"type":"object","properties":{"x":{"type":"integer","anyOf":[{"minimum":1,"nullable":true,"description":"d"}]}}}
    | V03 "/properties/x/anyOf/0" description NotInBranches
    > V03 "/properties/x/anyOf/0" nullable NotInBranches
a type in a branch | {"type":"object","properties":{"x":{"type":"integer","anyOf":[{"type":"integer"}]}}}
    | V03 "/properties/x/anyOf/0" type TypeInBranch
the pattern of int-or-string | {"type":"object","properties":{"x":{"x-kubernetes-int-or-string":true,"anyOf":[{"type":"integer"},{"type":"string"}]}}}
    | -
"#;

static LISTS: &str = r#"
10 rows: name | schema | lines
keys of an atomic list | {"type":"object","properties":{"x":{"type":"array","items":{"type":"string"},"x-kubernetes-list-map-keys":["k"]}}}
    | V11 "/properties/x" x-kubernetes-list-map-keys KeysOfOtherList
a map list without keys | {"type":"object","properties":{"x":{"type":"array","x-kubernetes-list-type":"map","items":{"type":"object"}}}}
    | V11 "/properties/x" x-kubernetes-list-type NoKeys
a map list without items | {"type":"object","properties":{"x":{"type":"array","x-kubernetes-list-type":"map","x-kubernetes-list-map-keys":["k"]}}}
    | V11 "/properties/x" x-kubernetes-list-type NoItems
    > V17 "/properties/x" type NoItems
a map list of texts
    | {"type":"object","properties":{"x":{"type":"array","x-kubernetes-list-type":"map","x-kubernetes-list-map-keys":["k"],"items":{"type":"string"}}}}
    | V11 "/properties/x" items ItemsNotObjects
    > V11 "/properties/x" x-kubernetes-list-map-keys UndeclaredKey
a map list of objects and null
    | {"type":"object","properties":{"x":{"type":"array","x-kubernetes-list-type":"map","x-kubernetes-list-map-keys":["k"],
    "items":{"type":"object","nullable":true,"required":["k"],"properties":{"k":{"type":"string"}}}}}}
    | V11 "/properties/x" items NullableItems
a key that is listed twice
    | {"type":"object","properties":{"x":{"type":"array","x-kubernetes-list-type":"map","x-kubernetes-list-map-keys":["k","k"],
    "items":{"type":"object","required":["k"],"properties":{"k":{"type":"string"}}}}}}
    | V11 "/properties/x" x-kubernetes-list-map-keys RepeatedKey
a key with every fault of its field
    | {"type":"object","properties":{"x":{"type":"array","x-kubernetes-list-type":"map","x-kubernetes-list-map-keys":["k"],
    "items":{"type":"object","properties":{"k":{"type":"object","nullable":true}}}}}}
    | V11 "/properties/x" x-kubernetes-list-map-keys KeyNotScalar
    > V11 "/properties/x" x-kubernetes-list-map-keys NullableKey
    > V11 "/properties/x" x-kubernetes-list-map-keys OptionalKey
a set of objects | {"type":"object","properties":{"x":{"type":"array","x-kubernetes-list-type":"set","items":{"type":"object"}}}}
    | V12 "/properties/x" items ItemsNotScalars
a set of texts and null
    | {"type":"object","properties":{"x":{"type":"array","x-kubernetes-list-type":"set","items":{"type":"string","nullable":true}}}}
    | V12 "/properties/x" items NullableItems
a set without items | {"type":"object","properties":{"x":{"type":"array","x-kubernetes-list-type":"set"}}}
    | V12 "/properties/x" x-kubernetes-list-type NoItems
    > V17 "/properties/x" type NoItems
"#;

static JUNCTORS: &str = r#"
9 rows: name | schema | lines
a junctor at a list | {"type":"object","properties":{"x":{"type":"array","items":{"type":"string"},"not":{}}}}
    | V16 "/properties/x" not MisplacedJunctor
a branch of a scalar that asks for a field | {"type":"object","properties":{"x":{"type":"integer","not":{"required":["a"]}}}}
    | V16 "/properties/x/not" required NotInScalarBranches
a branch of an object with a bound
    | {"type":"object","properties":{"x":{"type":"object","properties":{"a":{"type":"string"}},"not":{"required":["a"],"minimum":1}}}}
    | V16 "/properties/x/not" minimum NotInPresenceBranches
five named fields
    | {"type":"object","properties":{"x":{"type":"object","properties":{"a":{"type":"boolean"},"b":{"type":"boolean"},"c":{"type":"boolean"},
    "d":{"type":"boolean"},"e":{"type":"boolean"}},"anyOf":[{"required":["a","b","c","d","e"]}]}}}
    | V16 "/properties/x" anyOf TooManyNames
an empty enum in a branch | {"type":"object","properties":{"x":{"type":"integer","not":{"enum":[]}}}} | V16 "/properties/x/not" enum EmptyEnum
null in the enum of a branch | {"type":"object","properties":{"x":{"type":"integer","not":{"enum":[null]}}}}
    | V16 "/properties/x/not" enum EnumNotScalars
a branch that asks for no field
    | {"type":"object","properties":{"x":{"type":"object","properties":{"a":{"type":"string"}},"anyOf":[{"required":["zz"]}]}}}
    | V16 "/properties/x/anyOf/0" required UndeclaredField
a field in a branch that is not specified outside
    | {"type":"object","properties":{"x":{"type":"object","properties":{"a":{"type":"string"}},"anyOf":[{"properties":{"u":{"required":["a"]}}}]}}}
    | V16 "/properties/x/anyOf/0" properties NotInPresenceBranches
    > V02 "/properties/x/anyOf/0/properties/u"
    > V16 "/properties/x/anyOf/0/properties/u" required NotInScalarBranches
a rule that is broken in one way | {"type":"object","properties":{"x":{}}} | V01 "/properties/x"
"#;

static ROOTS: &str = r#"
7 rows: name | schema
a root of texts | {"type":"string"}
    > V17 "" type RootNotObject
a root of numbers | {"type":"number"}
    > V17 "" type RootNotObject
    > V17 "" type UnknownType
a root of integers and texts | {"x-kubernetes-int-or-string":true}
    > V17 "" x-kubernetes-int-or-string RootNotObject
a root of any value | {"x-kubernetes-preserve-unknown-fields":true}
    > V17 "" x-kubernetes-preserve-unknown-fields RootNotObject
a root of any value, with properties | {"x-kubernetes-preserve-unknown-fields":true,"properties":{}}
    > V17 "" properties NotOfOpenPlaces
    > V17 "" x-kubernetes-preserve-unknown-fields RootNotObject
a root of integers and texts that preserves unknown fields | {"x-kubernetes-int-or-string":true,"x-kubernetes-preserve-unknown-fields":true}
    > V17 "" x-kubernetes-int-or-string RootNotObject
    > V17 "" x-kubernetes-int-or-string NotWithPreserving
    > V17 "" x-kubernetes-preserve-unknown-fields RootNotObject
keywords that the root may not have | {"type":"object","nullable":true,"minProperties":1,"maxProperties":2,"additionalProperties":{"type":"string"}}
    > V17 "" additionalProperties NotAtRoot
    > V17 "" maxProperties NotAtRoot
    > V17 "" minProperties NotAtRoot
    > V17 "" nullable NotAtRoot
"#;

fn push_finding(
    lines: &mut String,
    violation: &Violation,
    finding: &Finding,
) -> Result<(), AllocError> {
    let Violation { rule, pointer } = violation;
    let Finding { keyword, reason } = finding;
    let (pointer, keyword) = (pointer.as_str(), keyword.as_str());
    writeln!(lines, "{rule} {pointer:?} {keyword} {reason:?}")
}

fn push_lines(lines: &mut String, explained: &Explained) -> Result<(), AllocError> {
    let Explained {
        violation,
        findings,
    } = explained;
    if findings.is_empty() {
        writeln!(lines, "{} {:?}", violation.rule, violation.pointer.as_str())?;
    }
    for finding in findings {
        push_finding(lines, violation, finding)?;
    }
    Ok(())
}

fn lines_of(alloc: Global, all: &[Explained]) -> Result<String, AllocError> {
    let mut lines = String::new(alloc);
    for explained in all {
        push_lines(&mut lines, explained)?;
    }
    Ok(lines)
}

fn said(alloc: Global, schema: &str) -> Result<String, Fail> {
    let crd = crd_of(alloc, schema)??;
    let all = schema::explained(alloc, &crd.raw)?;
    drop(crd);
    Ok(lines_of(alloc, all.as_slice())?)
}

fn said_with_defaults(alloc: Global, schema: &str) -> Result<String, Fail> {
    let crd = crd_of(alloc, schema)??;
    let all = stored::explained(alloc, &crd.raw)?;
    drop(crd);
    Ok(lines_of(alloc, all.as_slice())?)
}

/// A schema, and why it breaks rules.
struct ReasonRow;

impl Kind for ReasonRow {
    fn attempt(&self, report: &mut Report, alloc: Global, row: &Row) -> Result<(), Fail> {
        let found = said(alloc, row.text("schema"));
        is_said(report, "the reasons", found, row.out())?;
        let found = said_with_defaults(alloc, row.text("schema"));
        is_said(
            report,
            "the reasons beside those of defaults",
            found,
            row.out(),
        )
    }
}

#[test]
fn reasons(rt: HostRuntime) -> Result<(), Fail> {
    schema::laws::broken_for_a_reason();
    let tables = &[KEYWORDS, BESIDE_OTHERS, LISTS, JUNCTORS, ROOTS];
    try_tables(&rt, rt.alloc(), &ReasonRow, tables)
}

// As in the tables before, of defaults that are not valid.
static DEFAULTS: &str = r#"
2 rows: name | schema | lines
a default of another type | {"type":"object","properties":{"x":{"type":"integer","default":"y"}}} | V14 "/properties/x"
a default of another type, and a pattern | {"type":"object","properties":{"x":{"type":"integer","default":"y"},"y":{"type":"string","pattern":"a"}}}
    | V17 "/properties/y" pattern NotOfScalars
"#;

/// As `ReasonRow`, of defaults too.
struct DefaultReasonRow;

impl Kind for DefaultReasonRow {
    fn attempt(&self, report: &mut Report, alloc: Global, row: &Row) -> Result<(), Fail> {
        let found = said_with_defaults(alloc, row.text("schema"));
        is_said(report, "the reasons", found, row.out())
    }
}

#[test]
fn reasons_of_defaults(rt: HostRuntime) -> Result<(), Fail> {
    try_tables(&rt, rt.alloc(), &DefaultReasonRow, &[DEFAULTS])
}
