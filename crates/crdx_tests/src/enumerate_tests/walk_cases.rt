//! Enumerations step by step, and walks.
use crate::support::fakes::FailingSink;
use crate::support::given::{given_of, made};
use crate::support::harness::is_same;
use crate::support::pages::{WalkInput, walked};
use crate::support::report::Report;
use crate::support::rows::{Kind, Row, try_tables};
use enumerate::{EFault, Live, page};
use jtree::Tree;
use plan::{Meter, Plan};
use std::alloc::Global;
use std::test::Fail;

// What the tables name.
static NAMED: &str = r#"
// The first of the ten lines.
@SEVEN_LINES
    > {}
    > {"spec":{}}
    > {"spec":{"b":false}}
    > {"spec":{"b":true}}
    > {"spec":{"a":0}}
    > {"spec":{"a":1}}
    > {"spec":{"a":0,"b":false}}
"#;

static ENUMERATIONS: &str = r#"
2 rows: name | schema | pools | limit | count | steps | most
two fields | @SPEC | {"integers":[0,1]} | 4 | 10 | 60 | 660
a map list | @MAP_LIST | {"strings":["a","b"],"integers":[0]} | 8 | 14 | 108 | 1620
"#;

fn moves(
    report: &mut Report,
    live: &mut Live<'_, u64>,
    wanted: Result<bool, EFault>,
    steps: u64,
    meter: &mut Meter,
) -> Result<(), Fail> {
    let most = meter.steps().saturating_add(steps);
    report.is_value("a move", &live.advance(meter), &wanted);
    report.holds("few steps", meter.steps() <= most);
    Ok(())
}

fn goes_through(
    report: &mut Report,
    live: &mut Live<'_, u64>,
    samples: &[Tree],
    row: &Row,
    meter: &mut Meter,
) -> Result<(), Fail> {
    for (place, sample) in samples.iter().enumerate() {
        report.holds("a sample", is_same(live.tree(), sample));
        let more = place.saturating_add(1) < row.small("count") as usize;
        moves(report, live, Ok(more), row.number("steps"), meter)?;
    }
    is_over(report, live, meter)
}

fn is_over(report: &mut Report, live: &mut Live<'_, u64>, meter: &mut Meter) -> Result<(), Fail> {
    for _ in 0..2 {
        report.holds("no sample", live.tree().is_none());
        moves(report, live, Err(EFault::Ended), 0, meter)?;
    }
    report.holds("no sample", live.tree().is_none());
    Ok(())
}

/// An enumeration goes through these samples, and then it is over.
fn is_enumerated(
    report: &mut Report,
    alloc: Global,
    plan: &Plan<u64>,
    samples: &[Tree],
    row: &Row,
    meter: &mut Meter,
) -> Result<(), Fail> {
    report.is_number(
        "the number",
        samples.len() as u64,
        u64::from(row.small("count")),
    );
    let Some(mut live) = Live::first(alloc, plan, meter)? else {
        return Err(Fail::from("no sample"));
    };
    report.holds("few steps", meter.steps() <= row.number("steps"));
    goes_through(report, &mut live, samples, row, meter)
}

/// An enumeration goes through the samples of a page of as many as there are.
fn is_paged(
    report: &mut Report,
    alloc: Global,
    plan: &Plan<u64>,
    row: &Row,
    meter: &mut Meter,
    other: &mut Meter,
) -> Result<(), Fail> {
    let page = page(alloc, plan, None, row.small("count").clamp(1, 10000), meter)?;
    report.holds("the end", page.end);
    is_enumerated(report, alloc, plan, &page.items, row, other)
}

/// How many samples there are, the most steps from one to the next, and the most steps of a page of them all.
struct Enumeration;

impl Kind for Enumeration {
    fn attempt(&self, report: &mut Report, alloc: Global, row: &Row) -> Result<(), Fail> {
        let mut plan = made(alloc, given_of(row))?;
        let mut meter = plan.meter();
        let mut other = plan.meter();
        is_paged(report, alloc, &plan, row, &mut meter, &mut other)?;
        report.holds("some steps", meter.steps() > 0);
        report.holds("few steps", meter.steps() <= row.number("most"));
        report.is_number("the steps", other.steps(), meter.steps());
        Ok(())
    }
}

#[test]
fn enumerations(rt: HostRuntime) -> Result<(), Fail> {
    try_tables(&rt, rt.alloc(), &Enumeration, &[ENUMERATIONS])
}

static WALKS: &str = r#"
8 rows: name | schema | pools | limit | place | page | total | room | answer
pages of one | @SPEC | {"integers":[0,1]} | 4 | none | 1 | 7 | 1000 | Ok(Walked { lines: 7, end: false })
    > @SEVEN_LINES
pages of three | @SPEC | {"integers":[0,1]} | 4 | none | 3 | 7 | 1000 | Ok(Walked { lines: 7, end: false })
    > @SEVEN_LINES
a page of 64 | @SPEC | {"integers":[0,1]} | 4 | none | 64 | 7 | 1000 | Ok(Walked { lines: 7, end: false })
    > @SEVEN_LINES
as many lines as there are, by pages of one | @SPEC | {"integers":[0,1]} | 4 | none | 1 | 10 | 1000 | Ok(Walked { lines: 10, end: true })
    > @TEN_LINES
as many lines as there are, by pages of three | @SPEC | {"integers":[0,1]} | 4 | none | 3 | 10 | 1000 | Ok(Walked { lines: 10, end: true })
    > @TEN_LINES
as many lines as there are, by a page of 64 | @SPEC | {"integers":[0,1]} | 4 | none | 64 | 10 | 1000 | Ok(Walked { lines: 10, end: true })
    > @TEN_LINES
a line more, by pages of one | @SPEC | {"integers":[0,1]} | 4 | none | 1 | 11 | 1000 | Ok(Walked { lines: 10, end: true })
    > @TEN_LINES
a line more, by a page of 64 | @SPEC | {"integers":[0,1]} | 4 | none | 64 | 11 | 1000 | Ok(Walked { lines: 10, end: true })
    > @TEN_LINES
"#;

static BEGINNINGS_AND_ROOMS: &str = r#"
6 rows: name | schema | pools | limit | place | page | total | room | answer
the lines past the third | @SPEC | {"integers":[0,1]} | 4 | {"spec":{"b":false}} | 2 | 7 | 1000 | Ok(Walked { lines: 7, end: true })
    > @LAST_LINES
no line past the last | @SPEC | {"integers":[0,1]} | 4 | {"spec":{"a":1,"b":true}} | 64 | 10000 | 1000 | Ok(Walked { lines: 0, end: true })
a set at the greatest limit | @SET | {"integers":[2,1,2]} | 63 | none | 4 | 10000 | 1000 | Ok(Walked { lines: 6, end: true })
    > @SIX_SETS
one node | @SPEC | {"integers":[0,1]} | 1 | none | 1 | 1 | 1000 | Ok(Walked { lines: 1, end: true })
    > {}
a place that is no sample | @SPEC | {"integers":[0,1]} | 4 | {"zzz":1} | 64 | 100 | 1000 | Err(NotASample)
room for 40 bytes | @SPEC | {"integers":[0,1]} | 4 | none | 64 | 100 | 40 | Err(Write(3))
    > {}
    > {"spec":{}}
    > {"spec":{"b":false}}
    > {"sp␄
"#;

/// A walk, how many bytes there is room for, what is out, and what is answered.
struct WalkRow;

impl Kind for WalkRow {
    fn attempt(&self, report: &mut Report, alloc: Global, row: &Row) -> Result<(), Fail> {
        let mut sink = FailingSink::new(alloc, row.count("room"), usize::MAX, false);
        let walk = WalkInput {
            given: given_of(row),
            place: row.optional("place"),
            page: row.small("page"),
            total: row.small("total"),
        };
        let found = walked(alloc, walk, &mut sink)?;
        report.is_shown("the answer", &found, row.text("answer"))?;
        report.is_text("the output", sink.text(), row.out());
        Ok(())
    }
}

#[test]
fn walks(rt: HostRuntime) -> Result<(), Fail> {
    try_tables(
        &rt,
        rt.alloc(),
        &WalkRow,
        &[NAMED, WALKS, BEGINNINGS_AND_ROOMS],
    )
}
