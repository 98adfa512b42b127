//! Sinks that fail: what is out by then, and what is said of it.
use crate::support::documents::ZERO_AND_ONE;
use crate::support::fakes::{FailingSink, FakeInputs};
use crate::support::harness::{Output, has_failed, is_answer, run_on};
use crate::support::phrases::with_phrases;
use crate::support::report::Report;
use crate::support::rows::{Kind, Row, try_tables};
use crate::support::texts::beginning;
use crdx::sink::{Plain, Sink, SinkFault};
use crdx::walk::WFault;
use std::alloc::{AllocError, Global};
use std::io;
use std::io::Write;
use std::test::Fail;

// What the tables name.
static NAMED: &str = r#"
@SOUND
    | {"apiVersion":"apiextensions.k8s.io/v1","kind":"CustomResourceDefinition","spec":{"group":"example.com","names":{"kind":"Widget"},
    "versions":[{"name":"v1","schema":{"openAPIV3Schema":{"type":"object"}}}]}}
"#;

static RUNS: &str = r#"
8 rows: name | command | crd | status
a sample | crdx sample crd.json v1 --pools pools.json --limit 4 | @WIDGET | 0
    > @TEN_LINES
    ! crdx: end
all samples | crdx sample crd.json v1 --pools pools.json --limit 4 --all | @WIDGET | 0
    > @TEN_LINES
    ! crdx: end
a check of what breaks rules | crdx check crd.json v1 | @BROKEN | 1
    > @BROKEN_LINES
a check of what breaks none | crdx check crd.json v1 | @SOUND | 0
    > structural
an object with two faults, on the standard input | crdx validate crd.json v1
    | {"apiVersion":"apiextensions.k8s.io/v1","kind":"CustomResourceDefinition","spec":{"group":"example.com","names":{"kind":"Widget"},
    "versions":[{"name":"v1","schema":{"openAPIV3Schema":{"type":"object","properties":{"integers":{"type":"array","items":{"type":"string"}}}}}}]}}
    | 1
    > F01 "/integers/0"
    > F01 "/integers/1"
all fields | crdx explain crd.json v1 | @WIDGET | 0
    > "/spec" <Object>
    > "/spec/a" <integer>
    > "/spec/b" <boolean>
the leaves of an object | crdx leaves crd.json v1 object.json
    | {"apiVersion":"apiextensions.k8s.io/v1","kind":"CustomResourceDefinition","spec":{"group":"example.com","names":{"kind":"Widget"},
    "versions":[{"name":"v1","schema":{"openAPIV3Schema":{"type":"object","properties":{"integers":{"type":"array","items":{"type":"integer"}}}}}}]}}
    | 0
    > ["f:integers"]
an object without what is pruned | crdx prune crd.json v1 object.json | @SOUND | 0
    > {}
"#;

fn count_lines(text: &str) -> u64 {
    let mut lines: u64 = 0;
    for byte in text.bytes() {
        if byte == b'\n' {
            lines = lines.saturating_add(1);
        }
    }
    lines
}

/// The sinks of a run: its row, all that it writes, and how many bytes are taken in one call, after which a full sink answers 0 or fails.
#[derive(Clone, Copy)]
struct Sinks<'a> {
    row: &'a Row,
    out: &'a str,
    step: usize,
    answers_zero: bool,
}

fn run_row(alloc: Global, row: &Row, sink: FailingSink) -> Result<Output, AllocError> {
    let inputs = FakeInputs::new(alloc, row.text("crd"), ZERO_AND_ONE);
    run_on(alloc, row.text("command"), inputs, sink)
}

/// The sink is full after `room` bytes.
fn try_room(
    report: &mut Report,
    alloc: Global,
    sinks: &Sinks<'_>,
    room: usize,
) -> Result<(), AllocError> {
    let sink = FailingSink::new(alloc, room, sinks.step, sinks.answers_zero);
    let output = run_row(alloc, sinks.row, sink)?;
    if room < sinks.out.len() {
        let out = beginning(sinks.out, room);
        return has_failed(report, alloc, &output, out, count_lines(out));
    }
    let row = sinks.row;
    is_answer(report, &output, sinks.out, row.err(), row.number("status"));
    Ok(())
}

/// The sink is full after each byte in turn; then it takes all.
fn try_step(report: &mut Report, alloc: Global, sinks: &Sinks<'_>) -> Result<(), AllocError> {
    for room in 0..=sinks.out.len() {
        try_room(report, alloc, sinks, room)?;
    }
    Ok(())
}

/// All is taken, but the flush after it fails.
fn try_unflushed(
    report: &mut Report,
    alloc: Global,
    row: &Row,
    out: &str,
) -> Result<(), AllocError> {
    let mut sink = FailingSink::endless(alloc);
    sink.flush_fails = true;
    let output = run_row(alloc, row, sink)?;
    has_failed(report, alloc, &output, out, count_lines(out))
}

/// A run over `ZERO_AND_ONE`, and what it writes and answers on a sink that does not fail.
struct SinkRun;

impl Kind for SinkRun {
    // Standard output fails after each byte in turn, whole and in pieces, and after all.
    fn attempt(&self, report: &mut Report, alloc: Global, row: &Row) -> Result<(), Fail> {
        let out = with_phrases(alloc, row.out())?;
        let out = out.as_str();
        for (step, answers_zero) in [(usize::MAX, false), (7, true), (1, false)] {
            let sinks = Sinks {
                row,
                out,
                step,
                answers_zero,
            };
            try_step(report, alloc, &sinks)?;
        }
        Ok(try_unflushed(report, alloc, row, out)?)
    }
}

#[test]
fn cut_runs(rt: HostRuntime) -> Result<(), Fail> {
    try_tables(&rt, rt.alloc(), &SinkRun, &[NAMED, RUNS])
}

fn try_code(
    report: &mut Report,
    alloc: Global,
    fault: WFault,
    code: &str,
) -> Result<(), AllocError> {
    let text = fault.to_string(alloc)?;
    report.is_text("the code", text.as_str(), code);
    report.row(code, Ok(()));
    Ok(())
}

#[test]
fn codes_of_faults(rt: HostRuntime) -> Result<(), Fail> {
    let mut report = Report::new(rt.alloc());
    try_code(&mut report, rt.alloc(), WFault::NotASample, "W1")?;
    try_code(&mut report, rt.alloc(), WFault::NoMemory(3), "W2")?;
    try_code(&mut report, rt.alloc(), WFault::Write(3), "W3")?;
    report.end(&rt)
}

/// A writer that takes nothing or fails, and does not flush.
#[derive(Drop)]
struct Broken {
    answers_zero: bool,
}

impl Write for Broken {
    fn write(&mut self, _bytes: &[u8]) -> io::Result<usize> {
        if self.answers_zero {
            Ok(0)
        } else {
            Err(io::Error::from(io::ErrorKind::BrokenPipe))
        }
    }

    fn flush(&mut self) -> io::Result<()> {
        Err(io::Error::from(io::ErrorKind::BrokenPipe))
    }
}

fn is_put<W: Sink>(
    report: &mut Report,
    sink: &mut W,
    bytes: &[u8],
    wanted: Result<usize, SinkFault>,
) {
    report.is_value("a write", &sink.put(bytes), &wanted);
}

fn is_flushed<W: Sink>(report: &mut Report, sink: &mut W, wanted: Result<(), SinkFault>) {
    report.is_value("a flush", &sink.flush(), &wanted);
}

fn try_failing_writer(report: &mut Report) -> Result<(), Fail> {
    let mut sink = Plain::new(Broken {
        answers_zero: false,
    });
    is_put(report, &mut sink, b"x", Err(SinkFault::Failed));
    is_flushed(report, &mut sink, Err(SinkFault::Failed));
    Ok(())
}

fn try_full_writer(report: &mut Report) -> Result<(), Fail> {
    let mut sink = Plain::new(Broken { answers_zero: true });
    is_put(report, &mut sink, b"x", Ok(0));
    is_put(report, &mut sink, b"", Ok(0));
    Ok(())
}

fn put_and_flush(report: &mut Report, bytes: &mut Vec<u8>) {
    let mut sink = Plain::new(bytes);
    is_put(report, &mut sink, b"xyz", Ok(3));
    is_flushed(report, &mut sink, Ok(()));
}

fn try_whole_writer(report: &mut Report, alloc: Global) -> Result<(), Fail> {
    let mut bytes = Vec::new(alloc);
    put_and_flush(report, &mut bytes);
    let written = bytes.as_slice() == b"xyz".as_slice();
    report.holds("what is written", written);
    Ok(())
}

/// Sinks of writers that fail, that take nothing, and that take all.
#[test]
fn writers(rt: HostRuntime) -> Result<(), Fail> {
    let mut report = Report::new(rt.alloc());
    let ended = try_failing_writer(&mut report);
    report.row("a writer that fails", ended);
    let ended = try_full_writer(&mut report);
    report.row("a writer that takes nothing", ended);
    let ended = try_whole_writer(&mut report, rt.alloc());
    report.row("a writer that takes all", ended);
    report.end(&rt)
}
