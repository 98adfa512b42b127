//! `sample --all`: all samples, however many, with flushes between blocks of lines.
use crate::support::fakes::{FailingSink, FakeInputs};
use crate::support::harness::{Output, RunRow, definition, has_failed, is_answer, run_on};
use crate::support::report::Report;
use crate::support::rows::try_tables;
use crate::support::texts::beginning;
use std::alloc::{AllocError, Global};
use std::fmt::Write;
use std::test::Fail;

static LISTINGS: &str = r#"
6 rows: name | command | definition | second | status
every sample of four nodes | crdx sample crd.json v1 --pools pools.json --limit 4 --all | @WIDGET | {"integers":[0,1]} | 0
    > @TEN_LINES
    ! crdx: end
the samples past the third one | crdx sample crd.json v1 --pools pools.json --limit 4 --all --after {"spec":{"b":false}} | @WIDGET
    | {"integers":[0,1]} | 0
    > @LAST_LINES
    ! crdx: end
the last sample as a resource | crdx sample crd.json v1 --pools pools.json --limit 4 --name w --all --after {"spec":{"a":1,"b":false}} | @WIDGET
    | {"integers":[0,1]} | 0
    > {"apiVersion":"example.org/v1","kind":"Widget","metadata":{"name":"w"},"spec":{"a":1,"b":true}}
    ! crdx: end
nothing past the last sample | crdx sample crd.json v1 --pools pools.json --limit 4 --all --after {"spec":{"a":1,"b":true}} | @WIDGET
    | {"integers":[0,1]} | 0
    ! crdx: end
past what is no sample | crdx sample crd.json v1 --pools pools.json --limit 4 --all --after {"spec":{"a":2}} | @WIDGET | {"integers":[0,1]} | 1
    ! crdx: after: not a sample
within words of 128 bits | crdx sample crd.json v1 --pools pools.json --limit 64 --all | @WIDGET | {"integers":[0,1]} | 0
    > @TEN_LINES
    ! crdx: end
"#;

#[test]
fn listings(rt: HostRuntime) -> Result<(), Fail> {
    try_tables(&rt, rt.alloc(), &RunRow, &[LISTINGS])
}

// Three integers, each of 23: 12,167 samples of four nodes, from all 0 to all 22.
const THREE_INTEGERS: &str = r#"{"type":"object","required":["a","b","c"],"properties":{
    "a":{"type":"integer"},"b":{"type":"integer"},"c":{"type":"integer"}
}}"#;

const TWENTY_THREE: &str =
    r#"{"integers":[0,1,2,3,4,5,6,7,8,9,10,11,12,13,14,15,16,17,18,19,20,21,22]}"#;

/// How often 12,167 lines are flushed at least: before each block of 128 lines but the first.
const LEAST_FLUSHES: u64 = 95;

/// A listing of the 12,167 samples, on a sink with so much room.
fn run_large(alloc: Global, command: &str, sink: FailingSink) -> Result<Output, AllocError> {
    let crd = definition(alloc, THREE_INTEGERS)?;
    let inputs = FakeInputs::new(alloc, crd.as_str(), TWENTY_THREE);
    run_on(alloc, command, inputs, sink)
}

/// The 12,167 lines, by the tree order: `a` first, `c` last.
fn large_lines(alloc: Global) -> Result<String, AllocError> {
    let mut lines = String::new(alloc);
    for n in 0..12_167u32 {
        let (a, b, c) = (n / 529, n / 23 % 23, n % 23);
        writeln!(lines, "{{\"a\":{a},\"b\":{b},\"c\":{c}}}")?;
    }
    Ok(lines)
}

const ALL: &str = "crdx sample crd.json v1 --pools pools.json --all";

/// More lines than `--count` can ask for.
fn try_all(report: &mut Report, alloc: Global) -> Result<(), Fail> {
    let lines = large_lines(alloc)?;
    let output = run_large(alloc, ALL, FailingSink::endless(alloc))?;
    is_answer(report, &output, lines.as_str(), "crdx: end\n", 0);
    report.holds("enough flushes", output.out.flushes >= LEAST_FLUSHES);
    Ok(())
}

/// A count is flushed once, at its end.
fn try_count(report: &mut Report, alloc: Global) -> Result<(), Fail> {
    let command = "crdx sample crd.json v1 --pools pools.json --count 1000";
    let output = run_large(alloc, command, FailingSink::endless(alloc))?;
    report.is_text("standard error", output.err.text(), "crdx: more\n");
    report.is_number("the flushes", output.out.flushes, 1);
    Ok(())
}

#[test]
fn large_listings(rt: HostRuntime) -> Result<(), Fail> {
    let mut report = Report::new(rt.alloc());
    let ended = try_all(&mut report, rt.alloc());
    report.row("12,167 samples, more than a count", ended);
    let ended = try_count(&mut report, rt.alloc());
    report.row("a count", ended);
    report.end(&rt)
}

/// How many bytes so many lines have.
fn bytes_of(lines: &str, count: usize) -> usize {
    let mut bytes = 0usize;
    for line in lines.lines().take(count) {
        bytes = bytes.saturating_add(line.len()).saturating_add(1);
    }
    bytes
}

/// The sink is full within the line of this index, from 0, past 10,000 too.
fn try_full(report: &mut Report, alloc: Global, lines: &str, index: usize) -> Result<(), Fail> {
    let room = bytes_of(lines, index).saturating_add(3);
    let sink = FailingSink::new(alloc, room, usize::MAX, false);
    let output = run_large(alloc, ALL, sink)?;
    Ok(has_failed(report, alloc, &output, beginning(lines, room), index as u64)?)
}

#[test]
fn full_sinks(rt: HostRuntime) -> Result<(), Fail> {
    let mut report = Report::new(rt.alloc());
    let lines = large_lines(rt.alloc())?;
    for index in [0, 1, 127, 128, 129, 10_000, 12_166] {
        let ended = try_full(&mut report, rt.alloc(), lines.as_str(), index);
        let name = format!(in rt.alloc(); "a sink that is full after {index} lines");
        report.row_of(name, ended);
    }
    report.end(&rt)
}

/// A flush that fails ends the listing after its first block of 128 lines.
fn try_failed_flush(report: &mut Report, alloc: Global) -> Result<(), Fail> {
    let lines = large_lines(alloc)?;
    let mut sink = FailingSink::endless(alloc);
    sink.flush_fails = true;
    let output = run_large(alloc, ALL, sink)?;
    let out = beginning(lines.as_str(), bytes_of(lines.as_str(), 128));
    Ok(has_failed(report, alloc, &output, out, 128)?)
}

#[test]
fn failed_flushes(rt: HostRuntime) -> Result<(), Fail> {
    let mut report = Report::new(rt.alloc());
    let ended = try_failed_flush(&mut report, rt.alloc());
    report.row("a flush that fails", ended);
    report.end(&rt)
}
