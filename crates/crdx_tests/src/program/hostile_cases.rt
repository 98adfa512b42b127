//! Documents that are cut, nested deep or long, and trees to go on from that are no samples.
use crate::support::documents::{MAP_LIST, TWO_TEXTS, WIDGET, ZERO_AND_ONE};
use crate::support::fakes::{FailingSink, FakeInputs};
use crate::support::harness::{Run, definition, is_answer, run_on, try_run};
use crate::support::report::Report;
use crate::support::rows::{Kind, Row, try_tables};
use crate::support::texts::{beginning, nested, padded};
use std::alloc::Global;
use std::test::Fail;

/// Tries a run that refuses one of its documents.
fn try_refused<'a>(
    report: &mut Report,
    alloc: Global,
    crd: &'a str,
    pools: &'a str,
    err: &'a str,
) -> Result<(), Fail> {
    let run = Run {
        command: "crdx sample crd.json v1 --pools pools.json",
        crd,
        second: pools,
        out: "",
        err,
        status: 3,
    };
    try_run(report, alloc, &run)
}

/// Each proper beginning of a definition and of pools.
#[test]
fn cut_documents(rt: HostRuntime) -> Result<(), Fail> {
    let mut report = Report::new(rt.alloc());
    for room in 0..WIDGET.len() {
        let crd = beginning(WIDGET, room);
        let ended = try_refused(&mut report, rt.alloc(), crd, "{}", "crdx: crd: J3\n");
        report.row(crd, ended);
    }
    for room in 0..ZERO_AND_ONE.len() {
        let pools = beginning(ZERO_AND_ONE, room);
        let ended = try_refused(&mut report, rt.alloc(), WIDGET, pools, "crdx: pools: J3\n");
        report.row(pools, ended);
    }
    report.end(&rt)
}

/// So many lists in one another.
fn try_deep(report: &mut Report, alloc: Global, depth: usize, err: &str) -> Result<(), Fail> {
    let pools = nested(alloc, "[", depth, "", "]")?;
    try_refused(report, alloc, WIDGET, pools.as_str(), err)
}

fn try_long(report: &mut Report, alloc: Global) -> Result<(), Fail> {
    let pools = padded(alloc, "", 1_048_577)?;
    try_refused(report, alloc, WIDGET, pools.as_str(), "crdx: pools: J4\n")
}

#[test]
fn deep_and_long_pools(rt: HostRuntime) -> Result<(), Fail> {
    let mut report = Report::new(rt.alloc());
    let ended = try_deep(&mut report, rt.alloc(), 127, "crdx: pools: P1 \"\"\n");
    report.row("127 deep", ended);
    let ended = try_deep(&mut report, rt.alloc(), 128, "crdx: pools: J3\n");
    report.row("128 deep", ended);
    let ended = try_long(&mut report, rt.alloc());
    report.row("1,048,577 spaces", ended);
    report.end(&rt)
}

fn try_no_text(report: &mut Report, alloc: Global) -> Result<(), Fail> {
    let command = "crdx sample crd.json v1 --pools pools.json";
    let mut inputs = FakeInputs::new(alloc, WIDGET, "");
    inputs.second = b"\xff";
    let output = run_on(alloc, command, inputs, FailingSink::endless(alloc))?;
    is_answer(report, &output, "", "crdx: pools: J3\n", 3);
    Ok(())
}

#[test]
fn pools_that_are_no_text(rt: HostRuntime) -> Result<(), Fail> {
    let mut report = Report::new(rt.alloc());
    let ended = try_no_text(&mut report, rt.alloc());
    report.row("a byte of 255", ended);
    report.end(&rt)
}

static PLACES: &str = r#"
8 rows: place | limit | status
{"m":[{"k":"a"},{"k":"a"}]} | 8 | 1
    ! crdx: after: not a sample
{"m":[{"k":"c"}]} | 8 | 1
    ! crdx: after: not a sample
{"m":[{"v":0}]} | 8 | 1
    ! crdx: after: not a sample
{"m":[],"z":1} | 8 | 1
    ! crdx: after: not a sample
[] | 8 | 1
    ! crdx: after: not a sample
{"m":[{"k":"a"},{"k":"b"}]} | 4 | 1
    ! crdx: after: not a sample
{"m":[ | 8 | 3
    ! crdx: after: J3
{"m":1.5} | 8 | 3
    ! crdx: after: J1
"#;

/// A tree to go on from, a limit, and what is said of it.
#[derive(Drop)]
struct Place<'a> {
    crd: &'a str,
}

impl Kind for Place<'_> {
    fn attempt(&self, report: &mut Report, alloc: Global, row: &Row) -> Result<(), Fail> {
        let (place, limit) = (row.name(), row.text("limit"));
        let command = format!(in alloc;
            "crdx sample crd.json v1 --pools pools.json --limit {limit} --after {place}"
        )?;
        let run = Run {
            command: command.as_str(),
            crd: self.crd,
            second: TWO_TEXTS,
            out: "",
            err: row.err(),
            status: row.number("status"),
        };
        try_run(report, alloc, &run)
    }
}

#[test]
fn places_that_are_no_samples(rt: HostRuntime) -> Result<(), Fail> {
    let crd = definition(rt.alloc(), MAP_LIST)?;
    let kind = Place { crd: crd.as_str() };
    try_tables(&rt, rt.alloc(), &kind, &[PLACES])
}
