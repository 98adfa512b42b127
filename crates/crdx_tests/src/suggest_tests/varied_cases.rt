//! The pools document that is suggested around an object, and why there is none.
use crate::support::pools::limits_of;
use crate::support::report::Report;
use crate::support::rows::{Kind, Row, try_tables};
use crate::support::suggestions::{has_member, suggested};
use jtree::Tree;
use plan::PoolLimits;
use std::alloc::{AllocError, Global};
use std::fmt::Write;
use std::test::Fail;
use suggest::SuggestFault;

const NESTED: &str =
    r#"{"type":"object","properties":{"list":{"type":"array","x-kubernetes-list-type":"map",
        "x-kubernetes-list-map-keys":["k"],"items":{"type":"object","required":["k"],
        "properties":{"k":{"type":"string"}}}},"spec":{"type":"object",
        "properties":{"a":{"type":"integer"},"b":{"type":"object",
        "properties":{"c":{"type":"string","format":"date"},"d":{"type":"boolean"}}},"e":{"type":"string"}}},
        "status":{"type":"object","properties":{"g":{"type":"boolean"}}}}}"#;

// What the tables name.
static NAMED: &str = r#"
@OBJECT | [{"list":[{"k":"p"}],"spec":{"a":5,"b":{"c":"x"},"e":"y"}}]
"#;

static VARIED: &str = r#"
9 rows: name | objects | varied | without | fixed | present | paths
siblings that are there and one that is not | @OBJECT | /spec/a | - | {"/list":[[{"k":"p"}]],"/spec/b":[{"c":"x"}],"/spec/e":["y"],"/status":[]}
    | ["/list","/spec","/spec/b","/spec/e"] | {"/spec/a":[5,0,1]}
all below a path | @OBJECT | /spec/b | - | {"/list":[[{"k":"p"}]],"/spec/a":[5],"/spec/e":["y"],"/status":[]} | ["/list","/spec","/spec/a","/spec/e"]
    | {"/spec/b/c":["x","1970-01-01","2030-12-31"]}
two levels down, where nothing stands | @OBJECT | /spec/b/d | - | {"/list":[[{"k":"p"}]],"/spec/a":[5],"/spec/b/c":["x"],"/spec/e":["y"],"/status":[]}
    | ["/list","/spec","/spec/a","/spec/b","/spec/b/c","/spec/e"] | -
two paths | @OBJECT | /status /spec/a | - | {"/list":[[{"k":"p"}]],"/spec/b":[{"c":"x"}],"/spec/e":["y"]} | ["/list","/spec","/spec/b","/spec/e"]
    | {"/spec/a":[5,0,1]}
a path that is left out besides | @OBJECT | /spec/a | /spec/e | {"/list":[[{"k":"p"}]],"/spec/b":[{"c":"x"}],"/spec/e":[],"/status":[]}
    | ["/list","/spec","/spec/b"] | {"/spec/a":[5,0,1]}
a part of a value beside a varied path is left out | @OBJECT | /spec/a | /spec/b/c
    | {"/list":[[{"k":"p"}]],"/spec/b":[{}],"/spec/b/c":[],"/spec/e":["y"],"/status":[]} | ["/list","/spec","/spec/b","/spec/e"] | {"/spec/a":[5,0,1]}
an object with nothing in it | [{}] | /spec | - | {"/list":[],"/status":[]} | - | {"/spec/b/c":["1970-01-01","2030-12-31"]}
no varied path | @OBJECT | - | /status /list/[]/k | {"/list/[]/k":[],"/status":[]} | - | {"/spec/a":[5],"/spec/b/c":["x"],"/spec/e":["y"]}
no object | [] | - | /status | {"/status":[]} | - | {"/spec/b/c":["1970-01-01","2030-12-31"]}
"#;

/// What is answered: a document, or why there is none.
#[derive(Clone, Copy, Debug)]
enum Answer<'a> {
    Suggested,
    BadPath(&'a str),
    NotInObject(&'a str),
    TooLarge,
    NoMemory,
}

static FAULTS: &str = r#"
13 rows: name | objects | varied | without | answer | phrase
no such field | @OBJECT | /spec/x | - | BadPath("/spec/x") | bad path /spec/x
through a list | @OBJECT | /list/[]/k | - | BadPath("/list/[]/k") | bad path /list/[]/k
the beginning of a name | @OBJECT | /spe | - | BadPath("/spe") | bad path /spe
no name | @OBJECT | / | - | BadPath("/") | bad path /
nothing that the field belongs to | [{"spec":{"a":5}}] | /spec/b/c | - | NotInObject("/spec/b/c") | not in the object: /spec/b/c
a null that the field would belong to | [{"spec":null}] | /spec/a | - | NotInObject("/spec/a") | not in the object: /spec/a
below a path that is left out | @OBJECT | /spec/b/c | /spec/b | NotInObject("/spec/b/c") | not in the object: /spec/b/c
no object | [] | /spec/a | - | NotInObject("/spec/a") | not in the object: /spec/a
two objects | [{},{}] | /spec | - | NotInObject("/spec") | not in the object: /spec
the first of two | [{"spec":{}}] | /spec/b/c /x | - | NotInObject("/spec/b/c") | not in the object: /spec/b/c
an item of a map list | @OBJECT | - | /list/[] | BadPath("/list/[]") | bad path /list/[]
no such path | [] | - | /status /none | BadPath("/none") | bad path /none
a varied path first | @OBJECT | /q | /none | BadPath("/q") | bad path /q
"#;

/// Objects of `NESTED`, the varied paths, those that never occur, and the members `fixed`, `present` and `paths`.
struct VariedRow;

impl Kind for VariedRow {
    fn attempt(&self, report: &mut Report, alloc: Global, row: &Row) -> Result<(), Fail> {
        let asked = (row.text("varied"), row.text("without"));
        let document = suggested(
            alloc,
            NESTED,
            row.text("objects"),
            asked,
            PoolLimits::STANDARD,
        )??;
        has_member(report, alloc, &document, "fixed", row.text("fixed"))?;
        has_member(report, alloc, &document, "present", row.text("present"))?;
        has_member(report, alloc, &document, "paths", row.text("paths"))
    }
}

#[test]
fn varied(rt: HostRuntime) -> Result<(), Fail> {
    try_tables(&rt, rt.alloc(), &VariedRow, &[NAMED, VARIED])
}

fn answer_of(document: &Result<Tree, SuggestFault>) -> Answer<'_> {
    match document {
        Ok(_) => Answer::Suggested,
        Err(SuggestFault::BadPath(path)) => Answer::BadPath(path.as_str()),
        Err(SuggestFault::NotInObject(path)) => Answer::NotInObject(path.as_str()),
        Err(SuggestFault::TooLarge) => Answer::TooLarge,
        Err(SuggestFault::NoMemory) => Answer::NoMemory,
    }
}

fn said_of(alloc: Global, document: &Result<Tree, SuggestFault>) -> Result<String, AllocError> {
    match document {
        Ok(_) => String::from_str(alloc, "no fault"),
        Err(fault) => fault.to_string(alloc),
    }
}

fn is_answer(
    report: &mut Report,
    alloc: Global,
    document: &Result<Tree, SuggestFault>,
    row: &Row,
) -> Result<(), Fail> {
    report.is_shown("the answer", &answer_of(document), row.text("answer"))?;
    let found = said_of(alloc, document)?;
    report.is_text("what is printed", found.as_str(), row.text("phrase"));
    Ok(())
}

/// Objects of `NESTED`, the varied paths, those that never occur, and why there is no document.
struct Refused;

impl Kind for Refused {
    fn attempt(&self, report: &mut Report, alloc: Global, row: &Row) -> Result<(), Fail> {
        let asked = (row.text("varied"), row.text("without"));
        let document = suggested(
            alloc,
            NESTED,
            row.text("objects"),
            asked,
            PoolLimits::STANDARD,
        )?;
        is_answer(report, alloc, &document, row)
    }
}

#[test]
fn faults(rt: HostRuntime) -> Result<(), Fail> {
    try_tables(&rt, rt.alloc(), &Refused, &[NAMED, FAULTS])
}

/// Adds so many members with this value, each after a comma but the first.
fn push_members(text: &mut String, count: u32, value: &str) -> Result<(), AllocError> {
    for place in 0..count {
        let comma = if place > 0 { "," } else { "" };
        write!(text, r#"{comma}"f{place}":{value}"#)?;
    }
    Ok(())
}

/// Objects, one in the other under `p`, three in all, each after `begin` and with so many members of this value.
fn nested_members(
    alloc: Global,
    begin: &str,
    count: u32,
    value: &str,
) -> Result<String, AllocError> {
    let mut text = String::from_str(alloc, begin)?;
    push_members(&mut text, count, value)?;
    for _level in 0..2u32 {
        write!(text, r#","p":{begin}"#)?;
        push_members(&mut text, count, value)?;
    }
    Ok(text)
}

/// The schema of three objects, one in the other, with so many booleans each; and a list of the object that has all.
fn many_fields(alloc: Global, count: u32) -> Result<(String, String), AllocError> {
    let begin = r#"{"type":"object","properties":{"#;
    let mut schema = nested_members(alloc, begin, count, r#"{"type":"boolean"}"#)?;
    schema.push_str("}}}}}}")?;
    let mut objects = String::from_str(alloc, "[")?;
    let object = nested_members(alloc, "{", count, "true")?;
    objects.push_str(&object)?;
    objects.push_str("}}}]")?;
    Ok((schema, objects))
}

/// With so many fields three times, as many are present beside the varied one, and the two objects on the way.
static MANY_FIELDS: &str = r#"
3 rows: name | fields | limits | answer | phrase
64 present | 21 | standard | Suggested | no fault
67 present | 22 | standard | TooLarge | too large
67 present of 1,024 | 22 | large | Suggested | no fault
"#;

/// How many fields each of the objects has, the limits, and what is answered.
struct ManyFields;

impl Kind for ManyFields {
    fn attempt(&self, report: &mut Report, alloc: Global, row: &Row) -> Result<(), Fail> {
        let (schema, objects) = many_fields(alloc, row.small("fields"))?;
        let limits = limits_of(row.text("limits"))?;
        let document = suggested(alloc, &schema, &objects, ("/p/p/f0", ""), limits)?;
        is_answer(report, alloc, &document, row)
    }
}

#[test]
fn many_siblings(rt: HostRuntime) -> Result<(), Fail> {
    try_tables(&rt, rt.alloc(), &ManyFields, &[MANY_FIELDS])
}
