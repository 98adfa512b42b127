//! Walks that stop, and the walks that go on there: both together write what one whole walk does.
use crate::support::documents::{WIDGET, ZERO_AND_ONE};
use crate::support::fakes::{FailingSink, FakeInputs};
use crate::support::harness::{Output, has_failed, run_on};
use crate::support::report::Report;
use crate::support::rows::{Kind, Row, try_tables};
use crate::support::texts::beginning;
use std::alloc::{AllocError, Global};
use std::test::Fail;

const COMMAND: &str = "crdx sample crd.json v1 --pools pools.json --limit 4 --count";

static WALKS: &str = r#"
2 rows: name | option | ends
samples | - | 3 15 36 56 73 90 117 143 170 196
    > @TEN_LINES
samples with a name | ␠--name w | 72 154 245 335 422 509 606 702 799 895
    > {"apiVersion":"example.org/v1","kind":"Widget","metadata":{"name":"w"}}
    > {"apiVersion":"example.org/v1","kind":"Widget","metadata":{"name":"w"},"spec":{}}
    > {"apiVersion":"example.org/v1","kind":"Widget","metadata":{"name":"w"},"spec":{"b":false}}
    > {"apiVersion":"example.org/v1","kind":"Widget","metadata":{"name":"w"},"spec":{"b":true}}
    > {"apiVersion":"example.org/v1","kind":"Widget","metadata":{"name":"w"},"spec":{"a":0}}
    > {"apiVersion":"example.org/v1","kind":"Widget","metadata":{"name":"w"},"spec":{"a":1}}
    > {"apiVersion":"example.org/v1","kind":"Widget","metadata":{"name":"w"},"spec":{"a":0,"b":false}}
    > {"apiVersion":"example.org/v1","kind":"Widget","metadata":{"name":"w"},"spec":{"a":0,"b":true}}
    > {"apiVersion":"example.org/v1","kind":"Widget","metadata":{"name":"w"},"spec":{"a":1,"b":false}}
    > {"apiVersion":"example.org/v1","kind":"Widget","metadata":{"name":"w"},"spec":{"a":1,"b":true}}
"#;

/// How many lines end within so many bytes.
fn whole_lines(ends: &str, room: usize) -> u64 {
    let mut lines: u64 = 0;
    for end in ends.split(' ') {
        if end.parse::<usize>().unwrap_or(usize::MAX) <= room {
            lines = lines.saturating_add(1);
        }
    }
    lines
}

/// After how many bytes so many lines end.
fn end_of(ends: &str, lines: usize) -> usize {
    let Some(last) = lines.checked_sub(1) else {
        return 0;
    };
    match ends.split(' ').nth(last) {
        Some(end) => end.parse::<usize>().unwrap_or(0),
        None => 0,
    }
}

fn run_walk(alloc: Global, command: &str, sink: FailingSink) -> Result<Output, AllocError> {
    let inputs = FakeInputs::new(alloc, WIDGET, ZERO_AND_ONE);
    run_on(alloc, command, inputs, sink)
}

/// The sink takes so many bytes and then fails: the whole lines are counted.
fn stops(report: &mut Report, alloc: Global, walk: &Row, room: usize) -> Result<(), AllocError> {
    let option = walk.text("option");
    let command = format!(in alloc; "{COMMAND} 10{option}")?;
    let sink = FailingSink::new(alloc, room, usize::MAX, false);
    let output = run_walk(alloc, command.as_str(), sink)?;
    let lines = whole_lines(walk.text("ends"), room);
    has_failed(report, alloc, &output, beginning(walk.out(), room), lines)
}

/// The walk past the last of so many whole lines, or the same walk again where there is none, writes the others.
fn command_after(
    alloc: Global,
    out: &str,
    left: usize,
    option: &str,
) -> Result<String, AllocError> {
    match out.lines().last() {
        Some(last) => format!(in alloc; "{COMMAND} {left}{option} --after {last}"),
        None => format!(in alloc; "{COMMAND} {left}{option}"),
    }
}

fn goes_on(report: &mut Report, alloc: Global, walk: &Row, lines: usize) -> Result<(), AllocError> {
    let out = beginning(walk.out(), end_of(walk.text("ends"), lines));
    let left = 10usize.saturating_sub(lines);
    let command = command_after(alloc, out, left, walk.text("option"))?;
    let output = run_walk(alloc, command.as_str(), FailingSink::endless(alloc))?;
    let joined = format!(in alloc; "{out}{}", output.out.text())?;
    report.is_text("both outputs", joined.as_str(), walk.out());
    report.is_text("standard error", output.err.text(), "crdx: end\n");
    Ok(())
}

/// An option, the ten lines, and after how many bytes each of them ends.
struct TenLines;

impl Kind for TenLines {
    fn attempt(&self, report: &mut Report, alloc: Global, row: &Row) -> Result<(), Fail> {
        for room in 0..row.out().len() {
            stops(report, alloc, row, room)?;
        }
        for lines in 0..10 {
            goes_on(report, alloc, row, lines)?;
        }
        Ok(())
    }
}

#[test]
fn walks_go_on(rt: HostRuntime) -> Result<(), Fail> {
    try_tables(&rt, rt.alloc(), &TenLines, &[WALKS])
}
