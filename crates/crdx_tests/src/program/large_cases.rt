//! `--large`: schemas and pools at the larger limits and past them, and what `--why` says of a limit.
use crate::support::harness::{SchemaRun, try_schema_run};
use crate::support::report::Report;
use crate::support::rows::{Kind, Row, try_tables};
use crate::support::texts::{nested, repeated};
use std::alloc::{AllocError, Global};
use std::fmt::Write;
use std::test::Fail;

const LARGE: &str = "crdx check crd.json v1 --why --large";

// Schemas; those of which nothing is said are structural.
static SCHEMAS: &str = r#"
13 rows: name | command | head | entry | count | tail
512 places | crdx check crd.json v1 --why | {"type":"object","properties":{"a":{"type":"integer","anyOf":[ | {} | 510 | ]}}}
600 places | crdx check crd.json v1 --why | {"type":"object","properties":{"a":{"type":"integer","anyOf":[ | {} | 598 | ]}}}
    ! crdx: crd: S4 "/properties/a/anyOf/510"
    !     found 600 places in the schema; allowed are 512, and 16384 with --large
16,384 places | crdx check crd.json v1 --why --large | {"type":"object","properties":{"a":{"type":"integer","anyOf":[ | {} | 16382 | ]}}}
16,385 places | crdx check crd.json v1 --why --large | {"type":"object","properties":{"a":{"type":"integer","anyOf":[ | {} | 16383 | ]}}}
    ! crdx: crd: S4 "/properties/a/anyOf/16382"
    !     found 16385 places in the schema; allowed are 16384
65 values | crdx check crd.json v1 --why | {"type":"object","properties":{"a":{"type":"integer","enum":[ | 1 | 65 | ]}}}
    ! crdx: crd: S4 "/properties/a/enum"
    !     found 65 values; allowed are 64, and 1024 with --large
1,024 values | crdx check crd.json v1 --why --large | {"type":"object","properties":{"a":{"type":"integer","enum":[ | 1 | 1024 | ]}}}
1,025 values | crdx check crd.json v1 --why --large | {"type":"object","properties":{"a":{"type":"integer","enum":[ | 1 | 1025 | ]}}}
    ! crdx: crd: S4 "/properties/a/enum"
    !     found 1025 values; allowed are 1024
33 required fields | crdx check crd.json v1 --why | {"type":"object","properties":{"a":{"type":"integer"}},"required":[ | "a" | 33 | ]}
    ! crdx: crd: S4 "/required"
    !     found 33 required fields; allowed are 32, and 1024 with --large
1,024 required fields | crdx check crd.json v1 --why --large | {"type":"object","properties":{"a":{"type":"integer"}},"required":[ | "a" | 1024 | ]}
1,025 required fields | crdx check crd.json v1 --why --large | {"type":"object","properties":{"a":{"type":"integer"}},"required":[ | "a" | 1025 | ]}
    ! crdx: crd: S4 "/required"
    !     found 1025 required fields; allowed are 1024
5 keys | crdx check crd.json v1 --why | {"type":"object","x-kubernetes-list-map-keys":[ | "k" | 5 | ]}
    ! crdx: crd: S4 "/x-kubernetes-list-map-keys"
    !     found 5 keys; allowed are 4, and 8 with --large
9 keys | crdx check crd.json v1 --why --large | {"type":"object","x-kubernetes-list-map-keys":[ | "k" | 9 | ]}
    ! crdx: crd: S4 "/x-kubernetes-list-map-keys"
    !     found 9 keys; allowed are 8
8 keys | crdx check crd.json v1 --why --large
    | {"type":"object","properties":{"m":{"type":"array","x-kubernetes-list-type":"map",
    "items":{"type":"object","required":["a","b","c","d","e","f","g","h"],"properties":{"a":{"type":"string"},"b":{"type":"string"},
    "c":{"type":"string"},"d":{"type":"string"},"e":{"type":"string"},"f":{"type":"string"},"g":{"type":"string"},"h":{"type":"string"}}},
    "x-kubernetes-list-map-keys":[ | "a","b","c","d","e","f","g","h" | 1 | ]}}}
"#;

fn try_judged<'a>(
    report: &mut Report,
    alloc: Global,
    command: &'a str,
    schema: &'a str,
    err: &'a str,
) -> Result<(), Fail> {
    let (out, status) = if err.is_empty() {
        ("structural\n", 0)
    } else {
        ("", 3)
    };
    let run = SchemaRun {
        command,
        schema,
        second: "",
        out,
        err,
        status,
    };
    try_schema_run(report, alloc, &run)
}

/// The schema before its entries, an entry, how many there are, the schema after them, and what is said of a limit, where one is passed.
struct LongSchema;

impl Kind for LongSchema {
    fn attempt(&self, report: &mut Report, alloc: Global, row: &Row) -> Result<(), Fail> {
        let schema = repeated(
            alloc,
            row.text("head"),
            row.text("entry"),
            row.count("count"),
            row.text("tail"),
        )?;
        try_judged(
            report,
            alloc,
            row.text("command"),
            schema.as_str(),
            row.err(),
        )
    }
}

#[test]
fn schemas(rt: HostRuntime) -> Result<(), Fail> {
    try_tables(&rt, rt.alloc(), &LongSchema, &[SCHEMAS])
}

/// An object with so many optional booleans.
fn wide(alloc: Global, count: usize) -> Result<String, AllocError> {
    let mut schema = String::from_str(alloc, r#"{"type":"object","properties":{"#)?;
    for i in 0..count {
        let comma = if i > 0 { "," } else { "" };
        write!(schema, r#"{comma}"f{i}":{{"type":"boolean"}}"#)?;
    }
    schema.push_str("}}")?;
    Ok(schema)
}

static PROPERTIES: &str = r#"
3 rows: name | command | properties
33 properties | crdx check crd.json v1 --why | 33
    ! crdx: crd: S4 "/properties"
    !     found 33 properties; allowed are 32, and 1024 with --large
1,024 properties | crdx check crd.json v1 --why --large | 1024
1,025 properties | crdx check crd.json v1 --why --large | 1025
    ! crdx: crd: S4 "/properties"
    !     found 1025 properties; allowed are 1024
"#;

/// How many properties there are, and what is said of a limit.
struct WideObject;

impl Kind for WideObject {
    fn attempt(&self, report: &mut Report, alloc: Global, row: &Row) -> Result<(), Fail> {
        let schema = wide(alloc, row.count("properties"))?;
        try_judged(
            report,
            alloc,
            row.text("command"),
            schema.as_str(),
            row.err(),
        )
    }
}

#[test]
fn properties(rt: HostRuntime) -> Result<(), Fail> {
    try_tables(&rt, rt.alloc(), &WideObject, &[PROPERTIES])
}

fn try_wide_object(report: &mut Report, alloc: Global) -> Result<(), Fail> {
    let schema = wide(alloc, 1024)?;
    let run = SchemaRun {
        command: "crdx sample crd.json v1 --large --limit 2 --count 3",
        schema: schema.as_str(),
        second: "",
        out: "{}\n{\"f999\":false}\n{\"f999\":true}\n",
        err: "crdx: more\n",
        status: 0,
    };
    try_schema_run(report, alloc, &run)
}

#[test]
fn samples_of_a_wide_object(rt: HostRuntime) -> Result<(), Fail> {
    let mut report = Report::new(rt.alloc());
    let name = "the first samples of 1,024 fields";
    let ended = try_wide_object(&mut report, rt.alloc());
    report.row(name, ended);
    report.end(&rt)
}

/// Pools with one value for each of so many fields.
fn pools_of_paths(alloc: Global, count: usize) -> Result<String, AllocError> {
    let mut pools = String::from_str(alloc, r#"{"paths":{"#)?;
    for i in 0..count {
        let comma = if i > 0 { "," } else { "" };
        write!(pools, r#"{comma}"/f{i}":[true]"#)?;
    }
    pools.push_str("}}")?;
    Ok(pools)
}

static PATHS: &str = r#"
3 rows: name | command | paths | status
65 paths | crdx sample crd.json v1 --large --limit 2 --count 2 --pools pools.json | 65 | 0
    > {}
    > {"f999":false}
    ! crdx: more
1,024 paths | crdx sample crd.json v1 --large --limit 2 --count 2 --pools pools.json | 1024 | 0
    > {}
    > {"f999":true}
    ! crdx: more
1,025 paths | crdx sample crd.json v1 --large --limit 2 --count 2 --pools pools.json --why | 1025 | 3
    ! crdx: pools: P2
    !     found 1025 paths in "paths"; allowed are 1024
"#;

/// How many paths the pools have, and what is written.
struct PathCount;

impl Kind for PathCount {
    fn attempt(&self, report: &mut Report, alloc: Global, row: &Row) -> Result<(), Fail> {
        let schema = wide(alloc, 1024)?;
        let pools = pools_of_paths(alloc, row.count("paths"))?;
        let run = SchemaRun {
            command: row.text("command"),
            schema: schema.as_str(),
            second: pools.as_str(),
            out: row.out(),
            err: row.err(),
            status: row.number("status"),
        };
        try_schema_run(report, alloc, &run)
    }
}

#[test]
fn paths(rt: HostRuntime) -> Result<(), Fail> {
    try_tables(&rt, rt.alloc(), &PathCount, &[PATHS])
}

const INTEGER: &str = r#"{"type":"object","properties":{"a":{"type":"integer"}}}"#;

// What the tables name.
static NAMED: &str = r#"
@LARGE_SAMPLES | crdx sample crd.json v1 --limit 2 --pools pools.json --why --large
"#;

// In this table and the next are pools; over those of which nothing is said there are an empty object and one with the integer.
static POOLS: &str = r#"
7 rows: name | command | head | entry | count | tail
64 integers | crdx sample crd.json v1 --limit 2 --pools pools.json --why | {"integers":[ | 1 | 64 | ]}
65 integers | crdx sample crd.json v1 --limit 2 --pools pools.json --why | {"integers":[ | 1 | 65 | ]}
    ! crdx: pools: P2
    !     found 65 entries in "integers"; allowed are 64, and 1024 with --large
1,024 integers | @LARGE_SAMPLES | {"integers":[ | 1 | 1024 | ]}
1,025 integers | @LARGE_SAMPLES | {"integers":[ | 1 | 1025 | ]}
    ! crdx: pools: P2
    !     found 1025 entries in "integers"; allowed are 1024
1,024 texts | @LARGE_SAMPLES | {"integers":[1],"strings":[ | "x" | 1024 | ]}
65 texts | crdx sample crd.json v1 --limit 2 --pools pools.json --why | {"strings":[ | "x" | 65 | ]}
    ! crdx: pools: P2
    !     found 65 entries in "strings"; allowed are 64, and 1024 with --large
1,025 trees | @LARGE_SAMPLES | {"any":[ | {} | 1025 | ]}
    ! crdx: pools: P2
    !     found 1025 entries in "any"; allowed are 1024
"#;

static NAMES_AND_PATHS: &str = r#"
8 rows: name | command | head | entry | count | tail
32 names | @LARGE_SAMPLES | {"integers":[1],"names":[ | "x" | 32 | ]}
33 names | @LARGE_SAMPLES | {"names":[ | "x" | 33 | ]}
    ! crdx: pools: P2
    !     found 33 entries in "names"; allowed are 32
65 fixed values at a path | crdx sample crd.json v1 --limit 2 --pools pools.json --why | {"fixed":{"/a":[ | 1 | 65 | ]}}
    ! crdx: pools: P2
    !     found 65 fixed values at the path "/a"; allowed are 64, and 1024 with --large
1,024 fixed values at a path | @LARGE_SAMPLES | {"fixed":{"/a":[ | 1 | 1024 | ]}}
65 present paths | crdx sample crd.json v1 --limit 2 --pools pools.json --why | {"present":[ | "/a" | 65 | ]}
    ! crdx: pools: P2
    !     found 65 paths in "present"; allowed are 64, and 1024 with --large
65 values at a path | crdx sample crd.json v1 --limit 2 --pools pools.json --why | {"paths":{"/a":[ | 1 | 65 | ]}}
    ! crdx: pools: P2
    !     found 65 values at the path "/a"; allowed are 64, and 1024 with --large
1,024 values at a path | @LARGE_SAMPLES | {"paths":{"/a":[ | 1 | 1024 | ]}}
1,025 values at a path | @LARGE_SAMPLES | {"paths":{"/a":[ | 1 | 1025 | ]}}
    ! crdx: pools: P2
    !     found 1025 values at the path "/a"; allowed are 1024
"#;

/// As `LongSchema`, of pools.
struct LongPools;

impl Kind for LongPools {
    fn attempt(&self, report: &mut Report, alloc: Global, row: &Row) -> Result<(), Fail> {
        let pools = repeated(
            alloc,
            row.text("head"),
            row.text("entry"),
            row.count("count"),
            row.text("tail"),
        )?;
        let (out, err, status) = if row.err().is_empty() {
            ("{}\n{\"a\":1}\n", "crdx: end\n", 0)
        } else {
            ("", row.err(), 3)
        };
        let run = SchemaRun {
            command: row.text("command"),
            schema: INTEGER,
            second: pools.as_str(),
            out,
            err,
            status,
        };
        try_schema_run(report, alloc, &run)
    }
}

#[test]
fn pools(rt: HostRuntime) -> Result<(), Fail> {
    try_tables(
        &rt,
        rt.alloc(),
        &LongPools,
        &[NAMED, POOLS, NAMES_AND_PATHS],
    )
}

fn try_most_steps(report: &mut Report, alloc: Global) -> Result<(), Fail> {
    let field = r#"{"type":"object","properties":{"p":"#;
    let schema = nested(alloc, field, 60, r#"{"type":"boolean"}"#, "}}")?;
    try_judged(report, alloc, LARGE, schema.as_str(), "")
}

fn try_more_steps(report: &mut Report, alloc: Global) -> Result<(), Fail> {
    let schema = nested(alloc, r#"{"items":"#, 61, "{}", "}")?;
    let pointer = nested(alloc, "/items", 61, "", "")?;
    let err = format!(in alloc;
        "crdx: crd: S4 \"{}\"\n    found 61 steps to this place; allowed are 60\n",
        pointer.as_str()
    )?;
    try_judged(report, alloc, LARGE, schema.as_str(), err.as_str())
}

#[test]
fn steps(rt: HostRuntime) -> Result<(), Fail> {
    let mut report = Report::new(rt.alloc());
    let ended = try_most_steps(&mut report, rt.alloc());
    report.row("60 steps", ended);
    let ended = try_more_steps(&mut report, rt.alloc());
    report.row("61 steps", ended);
    report.end(&rt)
}
