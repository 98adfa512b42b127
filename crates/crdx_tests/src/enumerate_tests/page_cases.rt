//! Pages from place to place, with their steps.
use crate::support::given::{FIFTEEN_ITEMS, Given, given_of, made};
use crate::support::harness::is_said;
use crate::support::pages::{lines_of, list_before_three, next_three_lists, place_of};
use crate::support::report::Report;
use crate::support::rows::{Kind, Row, all_rows, try_tables};
use enumerate::{EFault, Live, page};
use jtree::Tree;
use plan::{Meter, Plan};
use std::alloc::{AllocError, Global};
use std::test::Fail;

static PAGES: &str = r#"
5 rows: name | schema | pools | limit | after | end | steps
the first page | @SPEC | {"integers":[0,1]} | 4 | none | no | 240
    > {}
    > {"spec":{}}
    > {"spec":{"b":false}}
the second page | @SPEC | {"integers":[0,1]} | 4 | {"spec":{"b":false}} | no | 240
    > {"spec":{"b":true}}
    > {"spec":{"a":0}}
    > {"spec":{"a":1}}
the third page | @SPEC | {"integers":[0,1]} | 4 | {"spec":{"a":1}} | no | 240
    > {"spec":{"a":0,"b":false}}
    > {"spec":{"a":0,"b":true}}
    > {"spec":{"a":1,"b":false}}
the fourth page | @SPEC | {"integers":[0,1]} | 4 | {"spec":{"a":1,"b":false}} | yes | 240
    > {"spec":{"a":1,"b":true}}
the page past the last sample | @SPEC | {"integers":[0,1]} | 4 | {"spec":{"a":1,"b":true}} | yes | 240
"#;

/// The place that a page of three items goes on from, its lines, whether it is the last, and the most steps that it takes.
#[derive(Clone, Copy)]
struct PageOf<'a> {
    after: Option<&'a str>,
    lines: &'a str,
    end: bool,
    steps: u64,
}

fn is_page(
    report: &mut Report,
    alloc: Global,
    plan: &Plan<u64>,
    wanted: PageOf<'_>,
    meter: &mut Meter,
) -> Result<(), Fail> {
    let place = place_of(alloc, wanted.after)?;
    let page = page(alloc, plan, place.as_ref(), 3, meter)?;
    report.is_value("the end", &page.end, &wanted.end);
    report.holds("few steps", meter.steps() <= wanted.steps);
    is_said(
        report,
        "the lines",
        lines_of(alloc, &page.items),
        wanted.lines,
    )
}

fn try_page(
    report: &mut Report,
    alloc: Global,
    given: Given<'_>,
    wanted: PageOf<'_>,
) -> Result<(), Fail> {
    let mut plan = made(alloc, given)?;
    let mut meter = plan.meter();
    is_page(report, alloc, &plan, wanted, &mut meter)
}

/// What a plan is made of, and a page of it.
struct PageRow;

impl Kind for PageRow {
    fn attempt(&self, report: &mut Report, alloc: Global, row: &Row) -> Result<(), Fail> {
        let wanted = PageOf {
            after: row.optional("after"),
            lines: row.out(),
            end: row.is("end"),
            steps: row.number("steps"),
        };
        try_page(report, alloc, given_of(row), wanted)
    }
}

/// A page amid 8^15 samples.
fn try_fifteen(report: &mut Report, alloc: Global) -> Result<(), Fail> {
    let place = list_before_three(alloc, 15)?;
    let lines = next_three_lists(alloc, 15)?;
    let wanted = PageOf {
        after: Some(place.as_str()),
        lines: lines.as_str(),
        end: false,
        steps: 4096,
    };
    try_page(report, alloc, FIFTEEN_ITEMS, wanted)
}

#[test]
fn pages(rt: HostRuntime) -> Result<(), Fail> {
    enumerate::laws::pages_agree();
    let mut report = Report::new(rt.alloc());
    all_rows(&mut report, rt.alloc(), &PageRow, &[PAGES]);
    let ended = try_fifteen(&mut report, rt.alloc());
    report.row("fifteen items", ended);
    report.end(&rt)
}

static PLACES: &str = r#"
13 rows: name | schema | pools | limit | place | steps | answer
another member | @SPEC | {"integers":[0,1]} | 4 | {"zzz":1} | 60 | no sample
a list | @SPEC | {"integers":[0,1]} | 4 | [] | 60 | no sample
null | @SPEC | {"integers":[0,1]} | 4 | null | 60 | no sample
a node too many | @SPEC | {"integers":[0,1]} | 3 | {"spec":{"a":0,"b":false}} | 48 | no sample
as many nodes as may be | @SPEC | {"integers":[0,1]} | 4 | {"spec":{"a":0,"b":false}} | 60 | {"spec":{"a":0,"b":true}}
the last sample | @SPEC | {"integers":[0,1]} | 4 | {"spec":{"a":1,"b":true}} | 60 | none
an object without a default | @DEFAULTED | {"integers":[0,7]} | 3 | {"spec":{}} | 48 | no sample
items with equal keys | @MAP_LIST | {"strings":["a","b"],"integers":[0]} | 8 | {"m":[{"k":"a"},{"k":"a"}]} | 108 | no sample
a key of no pool | @MAP_LIST | {"strings":["a","b"],"integers":[0]} | 8 | {"m":[{"k":"c"}]} | 108 | no sample
an item without a key | @MAP_LIST | {"strings":["a","b"],"integers":[0]} | 8 | {"m":[{"v":0}]} | 108 | no sample
another member after a map list | @MAP_LIST | {"strings":["a","b"],"integers":[0]} | 8 | {"m":[],"z":1} | 108 | no sample
items of too many nodes | @MAP_LIST | {"strings":["a","b"],"integers":[0]} | 4 | {"m":[{"k":"a"},{"k":"b"}]} | 60 | no sample
items of other keys | @MAP_LIST | {"strings":["a","b"],"integers":[0]} | 8 | {"m":[{"k":"b"},{"k":"a"}]} | 108 | {"m":[{"k":"a"},{"k":"b","v":0}]}
"#;

fn said_of_live(alloc: Global, live: &Live<'_, u64>) -> Result<String, Fail> {
    match live.tree() {
        Some(tree) => Ok(tree.to_text(alloc)?),
        None => Err(Fail::from("ended")),
    }
}

/// The next sample, or why there is none.
fn said_of_place(
    alloc: Global,
    plan: &Plan<u64>,
    place: &Tree,
    meter: &mut Meter,
) -> Result<String, Fail> {
    match Live::after(alloc, plan, place, meter) {
        Ok(Some(next)) => said_of_live(alloc, &next),
        Ok(None) => Ok(String::from_str(alloc, "none")?),
        Err(EFault::NotASample) => Ok(String::from_str(alloc, "no sample")?),
        Err(fault) => Err(fault.into()),
    }
}

fn is_place(
    report: &mut Report,
    alloc: Global,
    plan: &Plan<u64>,
    row: &Row,
    meter: &mut Meter,
) -> Result<(), Fail> {
    let place = Tree::from_bytes(alloc, row.text("place").as_bytes())?;
    is_said(
        report,
        "the answer",
        said_of_place(alloc, plan, &place, meter),
        row.text("answer"),
    )?;
    report.holds("few steps", meter.steps() <= row.number("steps"));
    Ok(())
}

/// A place to go on from, how many steps that takes at most, and what is answered.
struct Place;

impl Kind for Place {
    fn attempt(&self, report: &mut Report, alloc: Global, row: &Row) -> Result<(), Fail> {
        let mut plan = made(alloc, given_of(row))?;
        let mut meter = plan.meter();
        is_place(report, alloc, &plan, row, &mut meter)
    }
}

#[test]
fn places(rt: HostRuntime) -> Result<(), Fail> {
    try_tables(&rt, rt.alloc(), &Place, &[PLACES])
}

fn try_code(
    report: &mut Report,
    alloc: Global,
    fault: EFault,
    code: &str,
) -> Result<(), AllocError> {
    let text = fault.to_string(alloc)?;
    report.is_text("the code", text.as_str(), code);
    report.row(code, Ok(()));
    Ok(())
}

#[test]
fn codes_of_faults(rt: HostRuntime) -> Result<(), Fail> {
    let mut report = Report::new(rt.alloc());
    try_code(&mut report, rt.alloc(), EFault::NotASample, "E1")?;
    try_code(&mut report, rt.alloc(), EFault::NoMemory, "E2")?;
    try_code(&mut report, rt.alloc(), EFault::Ended, "E3")?;
    report.end(&rt)
}
