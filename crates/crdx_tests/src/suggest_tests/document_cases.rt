//! The pools document that is suggested for a schema, and for objects.
use crate::support::harness::{is_tree, object_with_field, schema_of};
use crate::support::report::Report;
use crate::support::rows::{Kind, Row, try_tables};
use crate::support::suggestions::{has_member, suggested};
use jtree::Tree;
use plan::{Plan, PoolLimits, Pools};
use std::alloc::Global;
use std::test::Fail;

static DOCUMENTS: &str = r#"
19 rows: name | field | document
no bounds | {"type":"integer"} | {"any":["a",{}],"integers":[0,1],"names":["a","b"],"strings":["a"]}
a minimum and a maximum | {"type":"integer","minimum":3,"maximum":10}
    | {"any":["a",{}],"integers":[0,1,2,3,4,9,10,11],"names":["a","b"],"strings":["a"]}
bounds whose neighbours are the same | {"type":"integer","minimum":0,"maximum":1}
    | {"any":["a",{}],"integers":[-1,0,1,2],"names":["a","b"],"strings":["a"]}
an exclusive minimum | {"type":"integer","minimum":3,"exclusiveMinimum":true}
    | {"any":["a",{}],"integers":[0,1,2,3,4],"names":["a","b"],"strings":["a"]}
the least integer | {"type":"integer","minimum":-9223372036854775808}
    | {"any":["a",{}],"integers":[-9223372036854775808,-9223372036854775807,0,1],"names":["a","b"],"strings":["a"]}
the greatest integer | {"type":"integer","maximum":9223372036854775807}
    | {"any":["a",{}],"integers":[0,1,9223372036854775806,9223372036854775807],"names":["a","b"],"strings":["a"]}
bounds in branches of oneOf | {"type":"integer","oneOf":[{"minimum":100},{"maximum":-100}]}
    | {"any":["a",{}],"integers":[-101,-100,-99,0,1,99,100,101],"names":["a","b"],"strings":["a"]}
bounds in branches of allOf | {"type":"integer","allOf":[{"minimum":5},{"maximum":20}]}
    | {"any":["a",{}],"integers":[0,1,4,5,6,19,20,21],"names":["a","b"],"strings":["a"]}
a bound in not in a branch of anyOf | {"type":"integer","anyOf":[{"not":{"maximum":20}},{"minimum":50}]}
    | {"any":["a",{}],"integers":[0,1,19,20,21,49,50,51],"names":["a","b"],"strings":["a"]}
lengths | {"type":"string","minLength":2,"maxLength":5} | {"any":["a",{}],"integers":[0,1],"names":["a","b"],"strings":["a","aa","aaaaa"]}
no least length but 0 | {"type":"string","minLength":0} | {"any":["a",{}],"integers":[0,1],"names":["a","b"],"strings":["","a"]}
64 characters | {"type":"string","maxLength":64}
    | {"any":["a",{}],"integers":[0,1],"names":["a","b"],"strings":["a","aaaaaaaaaaaaaaaaaaaaaaaaaaaaaaaaaaaaaaaaaaaaaaaaaaaaaaaaaaaaaaaa"]}
65 characters | {"type":"string","minLength":3,"maxLength":65} | {"any":["a",{}],"integers":[0,1],"names":["a","b"],"strings":["a","aaa"]}
lengths in branches | {"type":"string","anyOf":[{"maxLength":3},{"minLength":4}]}
    | {"any":["a",{}],"integers":[0,1],"names":["a","b"],"strings":["a","aaa","aaaa"]}
an integer or a text | {"x-kubernetes-int-or-string":true,"minimum":5,"maxLength":3}
    | {"any":["a",{}],"integers":[0,1,4,5,6],"names":["a","b"],"strings":["a","aaa"]}
below a map and a list | {"type":"object","additionalProperties":{"type":"array","items":{"type":"integer","maximum":7}}}
    | {"any":["a",{}],"integers":[0,1,6,7,8],"names":["a","b"],"strings":["a"]}
two fields | {"type":"object","properties":{"a":{"type":"integer","minimum":6},"b":{"type":"integer","maximum":5}}}
    | {"any":["a",{}],"integers":[0,1,4,5,6,7],"names":["a","b"],"strings":["a"]}
choices, and how many items there are | {"type":"array","minItems":4,"maxItems":5,"items":{"type":"integer","enum":[40,50]}}
    | {"any":["a",{}],"integers":[0,1],"names":["a","b"],"strings":["a"]}
66 integers around bounds, and 0 and 1
    | {"type":"object","properties":{"f001":{"type":"integer","maximum":10},"f002":{"type":"integer","maximum":20},
    "f003":{"type":"integer","maximum":30},"f004":{"type":"integer","maximum":40},"f005":{"type":"integer","maximum":50},
    "f006":{"type":"integer","maximum":60},"f007":{"type":"integer","maximum":70},"f008":{"type":"integer","maximum":80},
    "f009":{"type":"integer","maximum":90},"f010":{"type":"integer","maximum":100},"f011":{"type":"integer","maximum":110},
    "f012":{"type":"integer","maximum":120},"f013":{"type":"integer","maximum":130},"f014":{"type":"integer","maximum":140},
    "f015":{"type":"integer","maximum":150},"f016":{"type":"integer","maximum":160},"f017":{"type":"integer","maximum":170},
    "f018":{"type":"integer","maximum":180},"f019":{"type":"integer","maximum":190},"f020":{"type":"integer","maximum":200},
    "f021":{"type":"integer","maximum":210},"f022":{"type":"integer","maximum":220}}}
    | {"any":["a",{}],"integers":[0,1,9,10,11,19,20,21,29,30,31,39,40,41,49,50,51,59,60,61,69,70,71,79,80,81,89,90,91,99,100,101,109,110,111,119,120,
    121,129,130,131,139,140,141,149,150,151,159,160,161,169,170,171,179,180,181,189,190,191,199,200,201,209,210],"names":["a","b"],"strings":["a"]}
"#;

static HINTS: &str = r#"
13 rows: name | field | paths
a format | {"type":"string","format":"date"} | {"/x":["1970-01-01","2030-12-31"]}
a format whose texts are too long | {"type":"string","format":"duration","maxLength":1} | -
a format that is not known | {"type":"string","format":"password"} | -
a default and an example | {"type":"integer","default":5,"example":7} | {"/x":[5,7,0,1]}
an example that is not stored | {"type":"integer","maximum":6,"default":5,"example":7} | {"/x":[5,0,1,6]}
a default and a format | {"type":"string","format":"ipv4","default":"10.0.0.1"} | {"/x":["10.0.0.1","192.0.2.1","198.51.100.1"]}
choices | {"type":"string","enum":["a","b"],"default":"a"} | -
a boolean | {"type":"boolean","default":true} | -
an integer or a text with a default | {"x-kubernetes-int-or-string":true,"default":"50%"} | {"/x":["50%",0,1,"a"]}
a format of the items of a list | {"type":"array","items":{"type":"string","format":"uri"}}
    | {"/x/[]":["https://example.org","https://example.org/a"]}
a format of the values of a map | {"type":"object","additionalProperties":{"type":"string","format":"hostname"}}
    | {"/x/{}":["example.org","a.example.org"]}
an open node with an example | {"x-kubernetes-preserve-unknown-fields":true,"example":{"k":[1]}} | {"/x":[{"k":[1]},"a",{}]}
an example that is null | {"type":"string","nullable":true,"example":null} | -
"#;

const KINDS: &str =
    r#"{"type":"object","properties":{"a":{"type":"integer","maximum":9,"default":4},
        "g":{"type":"array","items":{"type":"array","items":{"type":"integer"}}},
        "l":{"type":"array","items":{"type":"object","properties":{"k":{"type":"string","format":"date"}}}},
        "m":{"type":"object","additionalProperties":{"type":"string"}},
        "o":{"x-kubernetes-preserve-unknown-fields":true},"t":{"type":"boolean"}}}"#;

static OBJECTS: &str = r#"
8 rows: name | objects | paths | names
no object | [] | {"/a":[4,0,1,8,9],"/l/[]/k":["1970-01-01","2030-12-31"]} | ["a","b"]
two objects | [{"a":1,"l":[{"k":"p"},{"k":"q"}],"m":{"r":"s","t":"s"},"o":{"z":[1]}},{"a":2,"l":[{"k":"q"}],"m":{"u":"v"}}]
    | {"/a":[1,2],"/l/[]/k":["p","q"],"/m/{}":["s","v"],"/o":[{"z":[1]}]} | ["r","t","u","a","b"]
a list of lists | [{"a":3,"g":[[1,2],[],[2,3]],"l":[{"k":"p"}]}] | {"/a":[3],"/g/[]/[]":[1,2,3],"/l/[]/k":["p"]} | ["a","b"]
a boolean that stands there | [{"a":3,"l":[{"k":"p"}],"t":false}] | {"/a":[3],"/l/[]/k":["p"],"/t":[false]} | ["a","b"]
a value that is not stored beside one that is | [{"a":10,"l":[{"k":"p"}]},{"a":3}] | {"/a":[3],"/l/[]/k":["p"]} | ["a","b"]
only a value that is not stored, and nulls | [{"a":10,"l":[{"k":null}],"o":null}] | {"/a":[4,0,1,8,9],"/l/[]/k":["1970-01-01","2030-12-31"]}
    | ["a","b"]
usual names among those of maps | [{"a":3,"l":[{"k":"p"}],"m":{"b":"w","c":"w"}}] | {"/a":[3],"/l/[]/k":["p"],"/m/{}":["w"]} | ["b","c","a"]
other kinds than the schema has there | [{"a":3,"g":{"h":1},"l":"text","m":[1]}] | {"/a":[3],"/l/[]/k":["1970-01-01","2030-12-31"]} | ["a","b"]
"#;

/// The document for the schema of one field.
fn suggested_for(alloc: Global, field: &str) -> Result<Tree, Fail> {
    let schema = object_with_field(alloc, field)?;
    let document = suggested(alloc, &schema, "[]", ("", ""), PoolLimits::STANDARD)?;
    Ok(document?)
}

/// The schema of a field, and the document that is suggested.
struct SuggestedRow;

impl Kind for SuggestedRow {
    fn attempt(&self, report: &mut Report, alloc: Global, row: &Row) -> Result<(), Fail> {
        let document = suggested_for(alloc, row.text("field"))?;
        is_tree(
            report,
            alloc,
            "the document",
            &document,
            row.text("document"),
        )
    }
}

#[test]
fn documents(rt: HostRuntime) -> Result<(), Fail> {
    try_tables(&rt, rt.alloc(), &SuggestedRow, &[DOCUMENTS])
}

/// The schema of the field `x`, and the lists of values that are suggested, where there are some.
struct Hinted;

impl Kind for Hinted {
    fn attempt(&self, report: &mut Report, alloc: Global, row: &Row) -> Result<(), Fail> {
        let document = suggested_for(alloc, row.text("field"))?;
        has_member(report, alloc, &document, "paths", row.text("paths"))
    }
}

#[test]
fn hints(rt: HostRuntime) -> Result<(), Fail> {
    try_tables(&rt, rt.alloc(), &Hinted, &[HINTS])
}

/// Objects of `KINDS`, the lists of values, and the names.
struct FromObjects;

impl Kind for FromObjects {
    fn attempt(&self, report: &mut Report, alloc: Global, row: &Row) -> Result<(), Fail> {
        let document = suggested(
            alloc,
            KINDS,
            row.text("objects"),
            ("", ""),
            PoolLimits::STANDARD,
        )??;
        has_member(report, alloc, &document, "paths", row.text("paths"))?;
        has_member(report, alloc, &document, "names", row.text("names"))
    }
}

#[test]
fn objects(rt: HostRuntime) -> Result<(), Fail> {
    try_tables(&rt, rt.alloc(), &FromObjects, &[OBJECTS])
}

fn suggested_at_x(alloc: Global, schema: &str) -> Result<Pools, Fail> {
    let limits = PoolLimits::STANDARD;
    let document = suggested(alloc, schema, r#"[{"x":2}]"#, ("/x", ""), limits)??;
    Ok(Pools::read(alloc, &document)?)
}

fn try_plan(report: &mut Report, alloc: Global) -> Result<(), Fail> {
    let schema = object_with_field(alloc, r#"{"type":"integer","minimum":2}"#)?;
    let pools = suggested_at_x(alloc, &schema)?;
    report.is_number("the integers", pools.integers().len() as u64, 4);
    let plan: Plan<u64> = Plan::new(alloc, schema_of(alloc, &schema)?, pools, 2)?;
    report.is_number("the limit", u64::from(plan.limit()), 2);
    Ok(())
}

#[test]
fn pools_and_a_plan(rt: HostRuntime) -> Result<(), Fail> {
    suggest::laws::suggested_values_reach_scalars();
    suggest::laws::samples_are_the_object_outside();
    suggest::laws::the_object_is_a_sample();
    let mut report = Report::new(rt.alloc());
    let ended = try_plan(&mut report, rt.alloc());
    report.row("a plan over what is suggested", ended);
    report.end(&rt)
}
