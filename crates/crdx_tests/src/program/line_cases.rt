//! `--lines`: objects on the lines of an input.
use crate::support::documents::BOUND_AND_DEFAULT;
use crate::support::fakes::{FailingSink, FakeInputs};
use crate::support::harness::{Output, SchemaRunRow, definition, has_failed, is_answer, run_on};
use crate::support::phrases::with_phrases;
use crate::support::report::Report;
use crate::support::rows::{Kind, Row, try_tables};
use crate::support::texts::{beginning, padded};
use std::alloc::{AllocError, Global};
use std::test::Fail;

// What the tables name.
static NAMED: &str = r#"
@FOUR_COMPLETED
    > {"a":1,"b":"x"}
    > {"a":0,"b":"x"}
    > {"a":"t","b":"x"}
    > {"a":2,"b":"x"}
@STORED_LEAVES
    > 1: ["f:a"]
    > 1: ["f:b"]
    > 2: L1
    > 3: L1
    > 4: ["f:b"]
@WITH_ENVELOPES
    > {"kind":"K","apiVersion":"g/v1","metadata":{"name":"n"},"c":2,"a":1}
    > {"metadata":{},"b":"y"}
"#;

// In these tables the second document has the lines.
static ANSWERS: &str = r#"
7 rows: name | command | schema | second | status
faults behind their lines | crdx validate crd.json v1 object.json --lines | @BOUND_AND_DEFAULT | {"a":1}␊{"a":0}␊{"a":"t"}␊{"a":2,"c":3}␊ | 1
    > 2: F04 "/a"
    > 3: F01 "/a"
members that are dropped too | crdx validate crd.json v1 --lines --strict | @BOUND_AND_DEFAULT | {"a":1}␊{"a":0}␊{"a":"t"}␊{"a":2,"c":3}␊ | 1
    > 2: F04 "/a"
    > 3: F01 "/a"
    > 4: F15 "/c"
objects without what is pruned | crdx prune crd.json v1 object.json --lines | @BOUND_AND_DEFAULT | {"a":1}␊{"a":0}␊{"a":"t"}␊{"a":2,"c":3}␊ | 0
    > {"a":1}
    > {"a":0}
    > {"a":"t"}
    > {"a":2}
objects with their defaults | crdx default --lines crd.json v1 | @BOUND_AND_DEFAULT | {"a":1}␊{"a":0}␊{"a":"t"}␊{"a":2,"c":3}␊ | 0
    > @FOUR_COMPLETED
leaves, and objects that are not stored | crdx leaves crd.json v1 object.json --lines | @BOUND_AND_DEFAULT
    | {"b":"y","a":1}␊{"a":1}␊{"a":0,"b":"x"}␊{"b":"z"} | 1
    > @STORED_LEAVES
objects that are not stored are not explained | crdx leaves crd.json v1 object.json --lines --why | @BOUND_AND_DEFAULT
    | {"b":"y","a":1}␊{"a":1}␊{"a":0,"b":"x"}␊{"b":"z"} | 1
    > @STORED_LEAVES
leaves of stored objects | crdx leaves crd.json v1 object.json --lines | @BOUND_AND_DEFAULT | {"b":""}␊{"b":"1"}␊ | 0
    > 1: ["f:b"]
    > 2: ["f:b"]
"#;

static ENVELOPES_AND_FAULTS: &str = r#"
6 rows: name | command | schema | second | status
envelopes stay where objects are pruned | crdx prune crd.json v1 object.json --lines | @BOUND_AND_DEFAULT | @WITH_ENVELOPES | 0
    > {"a":1,"apiVersion":"g/v1","kind":"K","metadata":{"name":"n"}}
    > {"b":"y","metadata":{}}
envelopes stay where defaults are put in | crdx default crd.json v1 object.json --lines | @BOUND_AND_DEFAULT | @WITH_ENVELOPES | 0
    > {"a":1,"apiVersion":"g/v1","b":"x","kind":"K","metadata":{"name":"n"}}
    > {"b":"y","metadata":{}}
envelopes are not judged | crdx validate crd.json v1 object.json --lines | @BOUND_AND_DEFAULT | @WITH_ENVELOPES | 0
two faults of one object | crdx validate crd.json v1 object.json --lines | @BOUND_AND_DEFAULT | {}␊{"b":1,"a":0}␊ | 1
    > 2: F04 "/a"
    > 2: F01 "/b"
a path with a line break | crdx validate crd.json v1 object.json --lines --strict | @BOUND_AND_DEFAULT | {"c\nd":1} | 1
    > 1: F15 "/c\nd"
valid objects | crdx validate crd.json v1 object.json --lines --strict | @BOUND_AND_DEFAULT | {}␊{"a":1}␊ | 0
"#;

static LINES: &str = r#"
7 rows: name | command | schema | second | status
no lines | crdx validate crd.json v1 object.json --lines | @BOUND_AND_DEFAULT | - | 0
no lines to prune | crdx prune crd.json v1 object.json --lines | @BOUND_AND_DEFAULT | - | 0
the last line without its end | crdx validate crd.json v1 object.json --lines | @BOUND_AND_DEFAULT | {"a":1}␊{"a":0} | 1
    > 2: F04 "/a"
spaces around objects | crdx prune crd.json v1 object.json --lines | @BOUND_AND_DEFAULT | ␠{"a" : 1 } ␍␊␉{} | 0
    > {"a":1}
    > {}
an empty line | crdx validate crd.json v1 object.json --lines | @BOUND_AND_DEFAULT | {}␊{}␊␊{"a":0}␊ | 3
    > 3: J3
    > 4: F04 "/a"
an object over two lines | crdx prune crd.json v1 object.json --lines | @BOUND_AND_DEFAULT | {␊}␊ | 3
    ! crdx: object: 1: J3
    ! crdx: object: 2: J3
two objects on a line | crdx prune crd.json v1 object.json --lines | @BOUND_AND_DEFAULT | {}␊{} {}␊{"a":1}␊ | 3
    > {}
    > {"a":1}
    ! crdx: object: 2: J3
"#;

static REFUSALS: &str = r#"
9 rows: name | command | schema | second | status
a number that is refused, after an object with a fault | crdx validate crd.json v1 object.json --lines | @BOUND_AND_DEFAULT
    | {"a":0}␊{"a":0.5}␊{"a":0}␊ | 3
    > 1: F04 "/a"
    > 2: J1
    > 3: F04 "/a"
a number that is refused, among leaves | crdx leaves crd.json v1 object.json --lines | @BOUND_AND_DEFAULT | {"b":"y"}␊{"a":0.5}␊{"b":"z"}␊ | 3
    > 1: ["f:b"]
    > 2: J1
    > 3: ["f:b"]
a number that is refused, among completed objects | crdx default crd.json v1 object.json --lines | @BOUND_AND_DEFAULT | {"a":1}␊{"a":0.5}␊{"a":2}␊ | 3
    > {"a":1,"b":"x"}
    > {"a":2,"b":"x"}
    ! crdx: object: 2: J1
why it is refused, among completed objects | crdx default crd.json v1 object.json --lines --why | @BOUND_AND_DEFAULT | {"a":0.5}␊{"a":1}␊ | 3
    > {"a":1,"b":"x"}
    ! crdx: object: 1: J1
    !     found 0.5 at "/a"; allowed are integers of 64 bits; `--profile cluster` reads other numbers
why it is refused | crdx validate crd.json v1 object.json --lines --why | @BOUND_AND_DEFAULT | {"a":0}␊{"a":0.5}␊{"a":0}␊ | 3
    > 1: F04 "/a"
    > 2: J1
    > 3: F04 "/a"
    ! crdx: object: 2: J1
    !     found 0.5 at "/a"; allowed are integers of 64 bits; `--profile cluster` reads other numbers
an input that cannot be opened | crdx validate crd.json v1 missing.json --lines | @BOUND_AND_DEFAULT | {"a":1}␊{"a":0}␊{"a":"t"}␊{"a":2,"c":3}␊ | 4
    ! crdx: object: read failed
why it cannot be opened | crdx validate crd.json v1 missing.json --lines --why | @BOUND_AND_DEFAULT | {"a":1}␊{"a":0}␊{"a":"t"}␊{"a":2,"c":3}␊ | 4
    ! crdx: object: read failed
    !     "missing.json" is not there
a schema that breaks a rule | crdx validate crd.json v1 object.json --lines | {"properties":{"a":{"type":"integer"}}}
    | {"a":1}␊{"a":0}␊{"a":"t"}␊{"a":2,"c":3}␊ | 1
    ! V01 ""
values that are no objects | crdx validate crd.json v1 object.json --lines | @BOUND_AND_DEFAULT | 1␊null␊{}␊[]␊ | 1
    > 1: F01 ""
    > 2: F02 ""
    > 4: F01 ""
"#;

#[test]
fn runs(rt: HostRuntime) -> Result<(), Fail> {
    try_tables(
        &rt,
        rt.alloc(),
        &SchemaRunRow,
        &[NAMED, ANSWERS, ENVELOPES_AND_FAULTS, LINES, REFUSALS],
    )
}

const VALIDATE: &str = "crdx validate crd.json v1 object.json --lines";

/// A run on lines of which reading fails after so many bytes.
fn run_lines(
    alloc: Global,
    command: &str,
    lines: &str,
    left: usize,
    sink: FailingSink,
) -> Result<Output, AllocError> {
    let crd = definition(alloc, BOUND_AND_DEFAULT)?;
    let mut inputs = FakeInputs::new(alloc, crd.as_str(), lines);
    inputs.second_left = left;
    run_on(alloc, command, inputs, sink)
}

// A line may be as long as a document, and no longer; the lines beside it are answered.
static LONG_LINES: &str = r#"
2 rows: name | spaces | status
a line as long as a document | 1048574 | 0
    > {}
    > {}
    > {"a":1}
a longer line | 1048575 | 3
    > {}
    > {"a":1}
    ! crdx: object: 2: J4
"#;

/// Spaces that make a line long, and what is said of it.
struct LongLine;

impl Kind for LongLine {
    fn attempt(&self, report: &mut Report, alloc: Global, row: &Row) -> Result<(), Fail> {
        let long = padded(alloc, "{}", row.count("spaces"))?;
        let lines = format!(in alloc; "{{}}\n{long}\n{{\"a\":1}}\n")?;
        let command = "crdx prune crd.json v1 object.json --lines";
        let sink = FailingSink::endless(alloc);
        let output = run_lines(alloc, command, lines.as_str(), usize::MAX, sink)?;
        is_answer(report, &output, row.out(), row.err(), row.number("status"));
        Ok(())
    }
}

#[test]
fn long_lines(rt: HostRuntime) -> Result<(), Fail> {
    try_tables(&rt, rt.alloc(), &LongLine, &[LONG_LINES])
}

const THREE: &str = "{\"a\":0}\n{\"a\":1}\n{\"a\":2,\"b\":3}";

const FIRST_ANSWER: &str = "1: F04 \"/a\"\n";

/// Reading fails after so many bytes: what was read by then is answered. The first line has eight.
fn try_cut(report: &mut Report, alloc: Global, left: usize) -> Result<(), Fail> {
    let out = with_phrases(alloc, if left < 8 { "" } else { FIRST_ANSWER })?;
    let sink = FailingSink::endless(alloc);
    let output = run_lines(alloc, VALIDATE, THREE, left, sink)?;
    let err = "crdx: object: read failed\n";
    is_answer(report, &output, out.as_str(), err, 4);
    Ok(())
}

/// Reading fails after each byte, also after the last one.
#[test]
fn cut_inputs(rt: HostRuntime) -> Result<(), Fail> {
    let mut report = Report::new(rt.alloc());
    for left in 0..=THREE.len() {
        let ended = try_cut(&mut report, rt.alloc(), left);
        let name = format!(in rt.alloc(); "lines of which {left} bytes are read");
        report.row_of(name, ended);
    }
    report.end(&rt)
}

fn count_lines(text: &str) -> u64 {
    text.bytes().filter(|byte| *byte == b'\n').count() as u64
}

static WHOLE: &str = r#"
3 rows: name | command | objects | status
faults of lines | crdx validate crd.json v1 object.json --lines | {"a":0}␊{"a":1}␊{"a":2,"b":3} | 1
    > 1: F04 "/a"
    > 3: F01 "/b"
objects on lines | crdx default crd.json v1 --lines | {"a":1}␊{"a":0}␊{"a":"t"}␊{"a":2,"c":3}␊ | 0
    > @FOUR_COMPLETED
leaves of lines | crdx leaves crd.json v1 --lines | {"b":"y","a":1}␊{"a":1}␊{"a":0,"b":"x"}␊{"b":"z"} | 1
    > @STORED_LEAVES
"#;

/// The sink is full after so many bytes, of which it takes at most `step` in a call. All that is written is `out`.
fn try_room(
    report: &mut Report,
    alloc: Global,
    row: &Row,
    out: &str,
    room: usize,
    step: usize,
) -> Result<(), AllocError> {
    let sink = FailingSink::new(alloc, room, step, step == 1);
    let output = run_lines(
        alloc,
        row.text("command"),
        row.text("objects"),
        usize::MAX,
        sink,
    )?;
    if room < out.len() {
        let out = beginning(out, room);
        return has_failed(report, alloc, &output, out, count_lines(out));
    }
    is_answer(report, &output, out, "", row.number("status"));
    Ok(())
}

/// A run by `BOUND_AND_DEFAULT`, and what it writes and answers on a sink that does not fail.
struct Lines;

impl Kind for Lines {
    fn attempt(&self, report: &mut Report, alloc: Global, row: &Row) -> Result<(), Fail> {
        let out = with_phrases(alloc, row.out())?;
        for room in 0..=out.as_str().len() {
            try_room(report, alloc, row, out.as_str(), room, usize::MAX)?;
            try_room(report, alloc, row, out.as_str(), room, 1)?;
        }
        Ok(())
    }
}

/// Standard output fails after each byte in turn.
#[test]
fn full_sinks(rt: HostRuntime) -> Result<(), Fail> {
    try_tables(&rt, rt.alloc(), &Lines, &[NAMED, WHOLE])
}

/// The first flush fails, which is that of the first answer.
fn try_failed_flush(report: &mut Report, alloc: Global) -> Result<(), Fail> {
    let out = with_phrases(alloc, FIRST_ANSWER)?;
    let mut sink = FailingSink::endless(alloc);
    sink.flush_fails = true;
    let output = run_lines(alloc, VALIDATE, THREE, usize::MAX, sink)?;
    Ok(has_failed(report, alloc, &output, out.as_str(), 1)?)
}

#[test]
fn failed_flushes(rt: HostRuntime) -> Result<(), Fail> {
    let mut report = Report::new(rt.alloc());
    let ended = try_failed_flush(&mut report, rt.alloc());
    report.row("a flush that fails", ended);
    report.end(&rt)
}
