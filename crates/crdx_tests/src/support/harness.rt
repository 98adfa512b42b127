//! Runs of the program over documents of memory, and what comes of them.
use crate::support::fakes::{FailingSink, FakeInputs, Reads};
use crate::support::phrases::with_phrases;
use crate::support::report::Report;
use crate::support::rows::{Kind, Row};
use jtree::{Numbers, Tree};
use plan::{PoolLimits, Pools};
use schema::{Crd, Limits, Profile, Reading, SFault, read_crd, read_crd_by};
use std::alloc::{AllocError, Global};
use std::test::Fail;
use stored::{Schema, accept};

/// What came of a run.
#[derive(Drop)]
pub struct Output {
    pub out: FailingSink,
    pub err: FailingSink,
    pub status: u8,
    pub reads: Reads,
}

fn push_word(alloc: Global, words: &mut Vec<String>, word: &str) -> Result<(), AllocError> {
    Ok(words.push(String::from_str(alloc, word)?)?)
}

/// The words of a command line.
pub fn words_of(alloc: Global, line: &str) -> Result<Vec<String>, AllocError> {
    let mut words = Vec::new(alloc);
    for word in line.split(' ') {
        push_word(alloc, &mut words, word)?;
    }
    Ok(words)
}

/// A run of a command line, whose first word is the program's name.
pub fn run_on(
    alloc: Global,
    line: &str,
    mut inputs: FakeInputs<'_>,
    mut out: FailingSink,
) -> Result<Output, AllocError> {
    let words = words_of(alloc, line)?;
    let mut err = FailingSink::endless(alloc);
    let status = crdx::run(alloc, words.as_slice(), &mut inputs, &mut out, &mut err);
    Ok(Output {
        out,
        err,
        status,
        reads: inputs.reads,
    })
}

/// Notes it unless there is a text, and it is the one that is wanted.
pub fn is_said(
    report: &mut Report,
    what: &str,
    found: Result<String, Fail>,
    wanted: &str,
) -> Result<(), Fail> {
    let found = found?;
    report.is_text(what, found.as_str(), wanted);
    Ok(())
}

/// Notes it unless the tree has the text that is wanted.
pub fn is_tree(
    report: &mut Report,
    alloc: Global,
    what: &str,
    found: &Tree,
    wanted: &str,
) -> Result<(), Fail> {
    let text = found.to_text(alloc)?;
    report.is_text(what, text.as_str(), wanted);
    Ok(())
}

/// Notes it unless a run wrote these texts and ended with this status.
pub fn is_answer(report: &mut Report, output: &Output, out: &str, err: &str, status: u64) {
    report.is_text("standard output", output.out.text(), out);
    report.is_text("standard error", output.err.text(), err);
    report.is_number("the status", u64::from(output.status), status);
}

/// A CustomResourceDefinition whose one version, `v1`, has this schema.
pub fn definition(alloc: Global, schema: &str) -> Result<String, AllocError> {
    format!(in alloc;
        r#"{{"apiVersion":"apiextensions.k8s.io/v1","kind":"CustomResourceDefinition","metadata":{{"name":"widgets.example.com"}},"spec":{{
            "group":"example.com","scope":"Namespaced","names":{{"plural":"widgets","kind":"Widget"}},
            "versions":[{{"name":"v1","served":true,"storage":true,"schema":{{"openAPIV3Schema":{schema}}}}}]}}}}"#
    )
}

/// A run over two documents, and what it writes and answers. The lines of rules, faults and reasons are without their phrases, here
/// and in the other tables.
#[derive(Clone, Copy)]
pub struct Run<'a> {
    pub command: &'a str,
    pub crd: &'a str,
    /// The pools or the object.
    pub second: &'a str,
    pub out: &'a str,
    pub err: &'a str,
    pub status: u64,
}

/// Tries a run.
pub fn try_run(report: &mut Report, alloc: Global, run: &Run<'_>) -> Result<(), Fail> {
    let inputs = FakeInputs::new(alloc, run.crd, run.second);
    let output = run_on(alloc, run.command, inputs, FailingSink::endless(alloc))?;
    let out = with_phrases(alloc, run.out)?;
    let err = with_phrases(alloc, run.err)?;
    is_answer(report, &output, out.as_str(), err.as_str(), run.status);
    Ok(())
}

/// Runs: a command line, a definition, a second document, and the status.
pub struct RunRow;

impl Kind for RunRow {
    fn attempt(&self, report: &mut Report, alloc: Global, row: &Row) -> Result<(), Fail> {
        let run = Run {
            command: row.text("command"),
            crd: row.text("definition"),
            second: row.text("second"),
            out: row.out(),
            err: row.err(),
            status: row.number("status"),
        };
        try_run(report, alloc, &run)
    }
}

/// As `Run`, with a schema in place of the definition that has it.
#[derive(Clone, Copy)]
pub struct SchemaRun<'a> {
    pub command: &'a str,
    pub schema: &'a str,
    /// The pools or the object.
    pub second: &'a str,
    pub out: &'a str,
    pub err: &'a str,
    pub status: u64,
}

/// Tries a run by a schema.
pub fn try_schema_run(report: &mut Report, alloc: Global, run: &SchemaRun<'_>) -> Result<(), Fail> {
    let crd = definition(alloc, run.schema)?;
    let run = Run {
        command: run.command,
        crd: crd.as_str(),
        second: run.second,
        out: run.out,
        err: run.err,
        status: run.status,
    };
    try_run(report, alloc, &run)
}

/// As `RunRow`, with a schema in place of the definition that has it.
pub struct SchemaRunRow;

impl Kind for SchemaRunRow {
    fn attempt(&self, report: &mut Report, alloc: Global, row: &Row) -> Result<(), Fail> {
        let run = SchemaRun {
            command: row.text("command"),
            schema: row.text("schema"),
            second: row.text("second"),
            out: row.out(),
            err: row.err(),
            status: row.number("status"),
        };
        try_schema_run(report, alloc, &run)
    }
}

/// Notes it unless a sink failed when this was out, with so many whole lines in it, and the run says so.
pub fn has_failed(
    report: &mut Report,
    alloc: Global,
    output: &Output,
    out: &str,
    lines: u64,
) -> Result<(), AllocError> {
    let err = format!(in alloc; "crdx: write failed after {lines} lines\n")?;
    is_answer(report, output, out, err.as_str(), 4);
    Ok(())
}

/// Whether there is a tree, and it is the one that is wanted.
pub fn is_same(found: Option<&Tree>, wanted: &Tree) -> bool {
    match found {
        Some(tree) => *tree == *wanted,
        None => false,
    }
}

/// The accepted schema of a definition with this schema.
pub fn schema_of(alloc: Global, schema: &str) -> Result<Schema, Fail> {
    let crd = crd_of(alloc, schema)??;
    Ok(accept(alloc, crd.raw)?)
}

/// The accepted schema of a definition with this schema, by a profile.
pub fn schema_by(alloc: Global, profile: Profile, schema: &str) -> Result<Schema, Fail> {
    let document = definition(alloc, schema)?;
    let document = Tree::from_bytes_with(alloc, document.as_bytes(), Numbers::All)?;
    let limits = Limits::STANDARD;
    let crd = read_crd_by(alloc, &document, "v1", Reading { profile, limits })?;
    Ok(accept(alloc, crd.raw)?)
}

/// The pools of a document, by a profile.
pub fn pools_by(alloc: Global, profile: Profile, pools: &str) -> Result<Pools, Fail> {
    let document = Tree::from_bytes_with(alloc, pools.as_bytes(), Numbers::All)?;
    let limits = PoolLimits::STANDARD;
    Ok(Pools::read_by(alloc, &document, profile, limits)?)
}

/// The pools of a document.
pub fn pools_of(alloc: Global, pools: &str) -> Result<Pools, Fail> {
    let document = Tree::from_bytes(alloc, pools.as_bytes())?;
    Ok(Pools::read(alloc, &document)?)
}

/// What is read of version `v1` of a document.
pub fn read(alloc: Global, document: &str) -> Result<Result<Crd, SFault>, Fail> {
    let document = Tree::from_bytes(alloc, document.as_bytes())?;
    Ok(read_crd(alloc, &document, "v1"))
}

/// What is read of the definition whose one version has this schema.
pub fn crd_of(alloc: Global, schema: &str) -> Result<Result<Crd, SFault>, Fail> {
    read(alloc, definition(alloc, schema)?.as_str())
}

/// The schema of an object with one field, `x`, of this schema.
pub fn object_with_field(alloc: Global, field: &str) -> Result<String, AllocError> {
    format!(in alloc; r#"{{"type":"object","properties":{{"x":{field}}}}}"#)
}

/// As `schema_of`, of an object with one field, `x`, of this schema.
pub fn schema_of_field(alloc: Global, field: &str) -> Result<Schema, Fail> {
    let schema = object_with_field(alloc, field)?;
    schema_of(alloc, schema.as_str())
}

/// The code of a fault, and its pointer.
pub fn fault_text(alloc: Global, fault: &SFault) -> Result<String, AllocError> {
    match fault {
        SFault::KeywordForm(pointer) => format!(in alloc; "S3 {pointer}"),
        SFault::TooLarge(pointer) => format!(in alloc; "S4 {pointer}"),
        fault => fault.to_string(alloc),
    }
}

fn said_of(alloc: Global, schema: &str) -> Result<String, Fail> {
    match crd_of(alloc, schema)? {
        Ok(crd) => {
            drop(crd);
            Ok(String::from_str(alloc, "read")?)
        }
        Err(fault) => Ok(fault_text(alloc, &fault)?),
    }
}

/// Tries what reading a schema says: `read`, or the code and the pointer of the fault.
pub fn try_schema(
    report: &mut Report,
    alloc: Global,
    schema: &str,
    wanted: &str,
) -> Result<(), Fail> {
    is_said(report, "what is read", said_of(alloc, schema), wanted)
}

/// A schema, and what reading it says.
pub struct SchemaSaidRow;

impl Kind for SchemaSaidRow {
    fn attempt(&self, report: &mut Report, alloc: Global, row: &Row) -> Result<(), Fail> {
        try_schema(report, alloc, row.text("schema"), row.text("wanted"))
    }
}

/// A schema, and what `check` writes: `structural` with the status 0, or the lines of all that is broken with the status 1.
#[derive(Drop)]
pub struct CheckedRow {
    pub command: &'static str,
}

/// Rows of `check` without options.
pub const CHECKED: CheckedRow = CheckedRow { command: CHECK };

const CHECK: &str = "crdx check crd.json v1";

fn try_checked(
    report: &mut Report,
    alloc: Global,
    command: &str,
    schema: &str,
    out: &str,
) -> Result<(), Fail> {
    let run = SchemaRun {
        command,
        schema,
        second: "",
        out,
        err: "",
        status: if out == "structural\n" { 0 } else { 1 },
    };
    try_schema_run(report, alloc, &run)
}

impl Kind for CheckedRow {
    fn attempt(&self, report: &mut Report, alloc: Global, row: &Row) -> Result<(), Fail> {
        try_checked(report, alloc, self.command, row.text("schema"), row.out())
    }
}

/// As `CHECKED`, of an object with one field, `x`, of this schema.
pub struct FieldRow;

impl Kind for FieldRow {
    fn attempt(&self, report: &mut Report, alloc: Global, row: &Row) -> Result<(), Fail> {
        let schema = object_with_field(alloc, row.text("field"))?;
        try_checked(report, alloc, CHECK, schema.as_str(), row.out())
    }
}

/// An object by a schema, and what `validate` writes: `valid` with the status 0, or the lines of all faults with the status 1.
#[derive(Drop)]
pub struct ValidatedRow {
    pub command: &'static str,
}

/// Rows of `validate` without options.
pub const VALIDATED: ValidatedRow = ValidatedRow {
    command: "crdx validate crd.json v1",
};

impl Kind for ValidatedRow {
    fn attempt(&self, report: &mut Report, alloc: Global, row: &Row) -> Result<(), Fail> {
        let run = SchemaRun {
            command: self.command,
            schema: row.text("schema"),
            second: row.text("object"),
            out: row.out(),
            err: "",
            status: if row.out() == "valid\n" { 0 } else { 1 },
        };
        try_schema_run(report, alloc, &run)
    }
}
