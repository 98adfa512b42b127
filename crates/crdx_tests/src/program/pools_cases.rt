//! `pools`: a document to start with, with the values of objects, and around an object.
use crate::support::fakes::{FailingSink, FakeInputs};
use crate::support::harness::{Output, SchemaRunRow, definition, is_answer, run_on};
use crate::support::report::Report;
use crate::support::rows::try_tables;
use crate::support::texts::padded;
use jtree::MOST_BYTES;
use std::alloc::Global;
use std::test::Fail;

// What the tables name.
static NAMED: &str = r#"
// An object with an integer and a text, and one with a boolean.
@SCHEMA
    | {"type":"object","properties":{"spec":{"type":"object","properties":{"a":{"type":"integer"},"b":{"type":"string"}}},
    "status":{"type":"object","properties":{"c":{"type":"boolean"}}}}}
// A list of objects, and a map of integers.
@PARTS
    | {"type":"object","properties":{"l":{"type":"array","items":{"type":"object","properties":{"a":{"type":"integer"}}}},
    "m":{"type":"object","additionalProperties":{"type":"integer"}}}}
"#;

// The second document has the objects.
static VALUES: &str = r#"
10 rows: name | command | schema | second | status
no objects | crdx pools crd.json v1 | @SCHEMA | - | 0
    > {"any":["a",{}],"integers":[0,1],"names":["a","b"],"strings":["a"]}
a format and a default | crdx pools crd.json v1
    | {"type":"object","properties":{"d":{"type":"string","format":"date"},"t":{"type":"string","default":"x"}}} | - | 0
    > {"any":["a",{}],"integers":[0,1],"names":["a","b"],"paths":{"/d":["1970-01-01","2030-12-31"],"/t":["x","a"]},"strings":["a"]}
the values of an object | crdx pools crd.json v1 --from object.json | @SCHEMA | {"spec":{"a":7,"b":"x"}} | 0
    > {"any":["a",{}],"integers":[0,1],"names":["a","b"],"paths":{"/spec/a":[7],"/spec/b":["x"]},"strings":["a"]}
of two objects on lines, one of them with an envelope | crdx pools crd.json v1 --from object.json | @SCHEMA
    | {"spec":{"a":7}}␊{"kind":"K","metadata":{},"spec":{"a":8,"b":"y"}}␊ | 0
    > {"any":["a",{}],"integers":[0,1],"names":["a","b"],"paths":{"/spec/a":[7,8],"/spec/b":["y"]},"strings":["a"]}
of an object over several lines | crdx pools crd.json v1 --from object.json | @SCHEMA | {␊  "spec": {␊    "a": 7␊  }␊}␊ | 0
    > {"any":["a",{}],"integers":[0,1],"names":["a","b"],"paths":{"/spec/a":[7]},"strings":["a"]}
of two inputs | crdx pools crd.json v1 --from - --from object.json | @SCHEMA | {"spec":{"a":7}} | 0
    > {"any":["a",{}],"integers":[0,1],"names":["a","b"],"paths":{"/spec/a":[7]},"strings":["a"]}
a value that is not stored at its path | crdx pools crd.json v1 --from object.json | @SCHEMA | {"spec":{"a":"t","b":null}} | 0
    > {"any":["a",{}],"integers":[0,1],"names":["a","b"],"strings":["a"]}
items of a list and members of a map | crdx pools crd.json v1 --from object.json | @PARTS | {"l":[{"a":1},{"a":2},{},{"a":1}],"m":{"k":3,"b":4}} | 0
    > {"any":["a",{}],"integers":[0,1],"names":["b","k","a"],"paths":{"/l/[]/a":[1,2],"/m/{}":[4,3]},"strings":["a"]}
a field that never occurs | crdx pools crd.json v1 --without /status | @SCHEMA | - | 0
    > {"any":["a",{}],"fixed":{"/status":[]},"integers":[0,1],"names":["a","b"],"strings":["a"]}
the values of a map that never occur | crdx pools crd.json v1 --from object.json --without /m/{} | @PARTS | {"l":[{"a":1}],"m":{"k":3}} | 0
    > {"any":["a",{}],"fixed":{"/m/{}":[]},"integers":[0,1],"names":["a","b"],"paths":{"/l/[]/a":[1]},"strings":["a"]}
"#;

static VARIED: &str = r#"
9 rows: name | command | schema | second | status
around an object | crdx pools crd.json v1 --from object.json --vary /spec/a | @SCHEMA | {"spec":{"a":7,"b":"x"}} | 0
    > {"any":["a",{}],"fixed":{"/spec/b":["x"],"/status":[]},"integers":[0,1],"names":["a","b"],"paths":{"/spec/a":[7,0,1]},␄
    > "present":["/spec","/spec/b"],"strings":["a"]}
around an object, at two paths, one of them absent | crdx pools crd.json v1 --vary /spec/b --from object.json --vary /status | @SCHEMA
    | {"spec":{"a":7}} | 0
    > {"any":["a",{}],"fixed":{"/spec/a":[7]},"integers":[0,1],"names":["a","b"],"present":["/spec","/spec/a"],"strings":["a"]}
around an object, without a field of it | crdx pools crd.json v1 --from object.json --vary /spec/a --without /spec/b | @SCHEMA
    | {"spec":{"a":7,"b":"x"}} | 0
    > {"any":["a",{}],"fixed":{"/spec/b":[],"/status":[]},"integers":[0,1],"names":["a","b"],"paths":{"/spec/a":[7,0,1]},"present":["/spec"],"strings":["a"]}
a list is varied as a whole | crdx pools crd.json v1 --from object.json --vary /l | @PARTS | {"l":[{"a":5}],"m":{"k":3}} | 0
    > {"any":["a",{}],"fixed":{"/m":[{"k":3}]},"integers":[0,1],"names":["a","b"],"paths":{"/l/[]/a":[5,0,1]},"present":["/m"],"strings":["a"]}
a path through a list | crdx pools crd.json v1 --from object.json --vary /l/[]/a | @PARTS | {"l":[{"a":5}]} | 3
    ! crdx: pools: P5 "/l/[]/a"
a path that is not declared | crdx pools crd.json v1 --from object.json --vary /status --vary /spec/z | @SCHEMA | {} | 3
    ! crdx: pools: P5 "/spec/z"
a path whose object is missing | crdx pools crd.json v1 --from object.json --vary /spec/a | @SCHEMA | {} | 3
    ! crdx: pools: P6 "/spec/a"
two objects cannot be varied | crdx pools crd.json v1 --from object.json --vary /spec | @SCHEMA | {}␊{}␊ | 3
    ! crdx: pools: P6 "/spec"
a text that is no path | crdx pools crd.json v1 --without spec | @SCHEMA | - | 3
    ! crdx: pools: P5 "spec"
"#;

static REFUSALS: &str = r#"
5 rows: name | command | schema | second | status
a line that is no document | crdx pools crd.json v1 --from object.json | @SCHEMA | {}␊{"a":1.5}␊{ | 3
    ! crdx: object: 2: J1
no document over several lines | crdx pools crd.json v1 --from object.json | @SCHEMA | {␊"a":1.5}␊ | 3
    ! crdx: object: J1
an empty input | crdx pools crd.json v1 --from - | @SCHEMA | - | 3
    ! crdx: object: J3
an input that cannot be opened | crdx pools crd.json v1 --from other.json | @SCHEMA | {} | 4
    ! crdx: object: read failed
a schema that breaks a rule, before an object is read | crdx pools crd.json v1 --from other.json | {"properties":{"a":{"type":"integer"}}} | - | 1
    ! V01 ""
"#;

#[test]
fn pools_of_objects(rt: HostRuntime) -> Result<(), Fail> {
    try_tables(
        &rt,
        rt.alloc(),
        &SchemaRunRow,
        &[NAMED, VALUES, VARIED, REFUSALS],
    )
}

/// The pools for an object whose text has so many spaces.
fn spaced_pools(alloc: Global, spaces: usize) -> Result<Output, Fail> {
    let crd = definition(
        alloc,
        r#"{"type":"object","properties":{"a":{"type":"string"}}}"#,
    )?;
    let mut object = padded(alloc, "{\"a\":\"", spaces)?;
    object.push_str("\"}")?;
    let inputs = FakeInputs::new(alloc, crd.as_str(), object.as_str());
    let command = "crdx pools crd.json v1 --from object.json";
    let sink = FailingSink::endless(alloc);
    Ok(run_on(alloc, command, inputs, sink)?)
}

/// With its newline a document may be as long as one that is read, and no longer.
fn try_longest(report: &mut Report, alloc: Global) -> Result<(), Fail> {
    let beside = spaced_pools(alloc, 1)?.out.text().len().saturating_sub(1);
    let room = MOST_BYTES.saturating_sub(beside);
    let longest = spaced_pools(alloc, room)?;
    report.is_number(
        "the length",
        longest.out.text().len() as u64,
        MOST_BYTES as u64,
    );
    report.is_number("the status", u64::from(longest.status), 0);
    let longer = spaced_pools(alloc, room.saturating_add(1))?;
    is_answer(report, &longer, "", "crdx: pools: P2\n", 3);
    Ok(())
}

#[test]
fn longest_pools(rt: HostRuntime) -> Result<(), Fail> {
    let mut report = Report::new(rt.alloc());
    let ended = try_longest(&mut report, rt.alloc());
    report.row("the longest pools", ended);
    report.end(&rt)
}
