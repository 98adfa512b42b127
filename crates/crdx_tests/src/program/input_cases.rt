//! Documents in files, and which inputs a run reads.
use crate::support::documents::{WIDGET, ZERO_AND_ONE};
use crate::support::fakes::{FailingSink, FakeInputs, Reads};
use crate::support::harness::{Run, is_answer, is_said, run_on, try_run};
use crate::support::report::Report;
use crate::support::rows::{Kind, Row, all_rows, rows_of, try_tables};
use crate::support::texts::padded;
use crdx::inputs::{HostInputs, InFault, InputName, Inputs};
use jtree::{Numbers, Tree};
use std::alloc::{AllocError, Global};
use std::env::Env;
use std::rt::Files;
use std::test::Fail;
use std::{env, fs, process};

static FILES: &str = r#"
3 rows: name | head | spaces | wanted
a document of 1,048,576 bytes | 7 | 1048575 | 7
a document of 1,048,577 bytes | 7 | 1048576 | J4
a list that is cut | [1, | 0 | J3
"#;

// Where no file is.
static NO_FILES: [&str; 2] = ["no such file", "/"];

fn said_of_read(alloc: Global, read: Result<Tree, InFault>) -> Result<String, Fail> {
    match read {
        Ok(tree) => Ok(tree.to_text(alloc)?),
        Err(InFault::Document(fault)) => Ok(fault.to_string(alloc)?),
        Err(InFault::Failed) => Ok(String::from_str(alloc, "read failed")?),
    }
}

fn said_of_file(rt: &(impl Files + Input + AllocGlobal), path: &str) -> Result<String, Fail> {
    let read = HostInputs::new(rt).tree(InputName::File(path), Numbers::Integers);
    said_of_read(rt.alloc(), read)
}

fn said_of_text(
    rt: &(impl Files + Input + AllocGlobal),
    path: &str,
    text: &str,
) -> Result<String, Fail> {
    fs::write(rt, path, text)?;
    let found = said_of_file(rt, path)?;
    fs::remove_file(rt, path)?;
    Ok(found)
}

fn try_file(
    rt: &(impl Files + Input + AllocGlobal),
    report: &mut Report,
    path: &str,
    row: &Row,
) -> Result<(), Fail> {
    let text = padded(rt.alloc(), row.text("head"), row.count("spaces"))?;
    let found = said_of_text(rt, path, text.as_str());
    is_said(report, "what is read", found, row.text("wanted"))
}

fn path_of(rt: &(impl Env + AllocGlobal), id: u32) -> Result<String, Fail> {
    let folder = env::temp_dir(rt)?;
    Ok(format!(in rt.alloc(); "{}/crdx_tests_{id}.json", folder.display())?)
}

#[test]
fn files(rt: HostRuntime) -> Result<(), Fail> {
    let mut report = Report::new(rt.alloc());
    for path in &NO_FILES {
        let found = said_of_file(&rt, path);
        let ended = is_said(&mut report, "what is read", found, "read failed");
        report.row(path, ended);
    }
    let path = path_of(&rt, process::id(rt.process()))?;
    for row in &rows_of(rt.alloc(), &[FILES])? {
        let ended = try_file(&rt, &mut report, path.as_str(), row);
        report.row(row.name(), ended);
    }
    report.end(&rt)
}

static READS: &str = r#"
14 rows: name | command | crd | crds | pools | objects | others
a check | crdx check crd.json v1 | @WIDGET | 1 | 0 | 0 | 0
a sample without pools | crdx sample crd.json v1 | @WIDGET | 1 | 0 | 0 | 0
a sample with pools | crdx sample crd.json v1 --pools pools.json | @WIDGET | 1 | 1 | 0 | 0
a sample of a definition that is refused | crdx sample crd.json v1 --pools pools.json | {} | 1 | 0 | 0 | 0
an object in a file | crdx prune crd.json v1 object.json | @WIDGET | 1 | 0 | 1 | 0
an object on the standard input | crdx default crd.json v1 | @WIDGET | 1 | 0 | 0 | 1
an object of a schema that breaks rules | crdx validate crd.json v1 object.json | @BROKEN | 1 | 0 | 0 | 0
a definition on the standard input | crdx check - v1 | @WIDGET | 0 | 0 | 0 | 1
pools on the standard input | crdx sample crd.json v1 --pools - | @WIDGET | 1 | 0 | 0 | 1
an object that is named as the standard input | crdx prune crd.json v1 - | @WIDGET | 1 | 0 | 0 | 1
a file with the name - | crdx pools ./- v1 | @WIDGET | 0 | 0 | 0 | 1
the standard input for two inputs | crdx validate - v1 | @WIDGET | 0 | 0 | 0 | 0
help | crdx --help | @WIDGET | 0 | 0 | 0 | 0
no command | crdx | @WIDGET | 0 | 0 | 0 | 0
"#;

fn is_read(report: &mut Report, reads: Reads, row: &Row) {
    report.is_number("the reads of the definition", reads.crd, row.number("crds"));
    report.is_number("the reads of the pools", reads.pools, row.number("pools"));
    report.is_number(
        "the reads of the object",
        reads.object,
        row.number("objects"),
    );
    report.is_number("the other reads", reads.other, row.number("others"));
}

/// How often the definition, the pools, the object and any other input are read.
struct ReadCounts;

impl Kind for ReadCounts {
    fn attempt(&self, report: &mut Report, alloc: Global, row: &Row) -> Result<(), Fail> {
        let inputs = FakeInputs::new(alloc, row.text("crd"), ZERO_AND_ONE);
        let output = run_on(
            alloc,
            row.text("command"),
            inputs,
            FailingSink::endless(alloc),
        )?;
        is_read(report, output.reads, row);
        Ok(())
    }
}

#[test]
fn reads(rt: HostRuntime) -> Result<(), Fail> {
    try_tables(&rt, rt.alloc(), &ReadCounts, &[READS])
}

static STANDARD_INPUTS: &str = r#"
6 rows: name | command | input | status | out
a definition | crdx check - v1 | @WIDGET | 0 | structural
pools | crdx sample crd.json v1 --limit 2 --pools - | {"integers":[0,1]} | 0 | {}
    > {"spec":{}}
    ! crdx: end
an object | crdx prune crd.json v1 - | {"other":1} | 0 | {}
a definition that is no JSON | crdx explain - v1 | spec: {} | 3 | -
    ! crdx: crd: J3
pools that are no JSON | crdx sample crd.json v1 --pools - | integers: [] | 3 | -
    ! crdx: pools: J3
a file with the name - | crdx check ./- v1 | @WIDGET | 4 | -
    ! crdx: crd: read failed
"#;

/// A run on the standard input.
struct StandardInput;

impl Kind for StandardInput {
    fn attempt(&self, report: &mut Report, alloc: Global, row: &Row) -> Result<(), Fail> {
        let run = Run {
            command: row.text("command"),
            crd: WIDGET,
            second: row.text("input"),
            out: row.out(),
            err: row.err(),
            status: row.number("status"),
        };
        try_run(report, alloc, &run)
    }
}

#[test]
fn standard_inputs(rt: HostRuntime) -> Result<(), Fail> {
    try_tables(&rt, rt.alloc(), &StandardInput, &[STANDARD_INPUTS])
}

fn try_failing_definition(
    report: &mut Report,
    alloc: Global,
    left: usize,
) -> Result<(), AllocError> {
    let mut inputs = FakeInputs::new(alloc, WIDGET, "");
    inputs.crd_left = left;
    let command = "crdx check crd.json v1";
    let output = run_on(alloc, command, inputs, FailingSink::endless(alloc))?;
    is_answer(report, &output, "", "crdx: crd: read failed\n", 4);
    Ok(())
}

fn try_failing_second(
    report: &mut Report,
    alloc: Global,
    row: &Row,
    left: usize,
) -> Result<(), AllocError> {
    let mut inputs = FakeInputs::new(alloc, WIDGET, ZERO_AND_ONE);
    inputs.second_left = left;
    let output = run_on(
        alloc,
        row.text("command"),
        inputs,
        FailingSink::endless(alloc),
    )?;
    is_answer(report, &output, "", row.err(), 4);
    Ok(())
}

static SECONDS: &str = r#"
3 rows: name | command
pools | crdx sample crd.json v1 --pools pools.json
    ! crdx: pools: read failed
an object of a file | crdx validate crd.json v1 object.json
    ! crdx: object: read failed
an object of the standard input | crdx default crd.json v1
    ! crdx: object: read failed
"#;

fn try_definitions(report: &mut Report, alloc: Global) -> Result<(), Fail> {
    for left in 0..WIDGET.len() + 1 {
        try_failing_definition(report, alloc, left)?;
    }
    Ok(())
}

/// What is said where the second document cannot be read whole.
struct Second;

impl Kind for Second {
    fn attempt(&self, report: &mut Report, alloc: Global, row: &Row) -> Result<(), Fail> {
        for left in 0..ZERO_AND_ONE.len() + 1 {
            try_failing_second(report, alloc, row, left)?;
        }
        Ok(())
    }
}

/// Reading fails after each number of bytes, also after the last one.
#[test]
fn failing_reads(rt: HostRuntime) -> Result<(), Fail> {
    let mut report = Report::new(rt.alloc());
    let ended = try_definitions(&mut report, rt.alloc());
    report.row("a definition", ended);
    all_rows(&mut report, rt.alloc(), &Second, &[SECONDS]);
    report.end(&rt)
}
