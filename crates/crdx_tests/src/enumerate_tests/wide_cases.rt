//! Plans over words of 128 bits: limits above 63, and the same pages as over words of 64 bits below.
use crate::support::documents::THIRTY_ONE;
use crate::support::given::{Given, given_of, made};
use crate::support::harness::is_said;
use crate::support::pages::{lines_of, list_before_three, next_three_lists};
use crate::support::report::Report;
use crate::support::rows::{Kind, Row, try_tables};
use enumerate::page;
use jtree::Tree;
use plan::{Meter, Plan};
use schema::Profile;
use std::alloc::Global;
use std::test::Fail;

fn wide(alloc: Global, given: Given<'_>) -> Result<Plan<u128>, Fail> {
    let schema = given.schema(alloc)?;
    let pools = given.pools(alloc)?;
    Ok(Plan::new(alloc, schema, pools, given.limit)?)
}

fn is_next(
    report: &mut Report,
    alloc: Global,
    plan: &Plan<u128>,
    meter: &mut Meter,
) -> Result<(), Fail> {
    let place = list_before_three(alloc, 31)?;
    let place = Tree::from_bytes(alloc, place.as_bytes())?;
    let page = page(alloc, plan, Some(&place), 3, meter)?;
    report.holds("no end", !page.end);
    report.holds("few steps", meter.steps() <= 8192);
    let wanted = next_three_lists(alloc, 31)?;
    is_said(report, "the lines", lines_of(alloc, &page.items), &wanted)
}

/// One page amid 8^31 samples of 126 nodes.
fn try_thirty_one(report: &mut Report, alloc: Global) -> Result<(), Fail> {
    let given = Given {
        profile: Profile::Core,
        schema: THIRTY_ONE,
        pools: "{}",
        limit: 127,
    };
    let mut plan = wide(alloc, given)?;
    report.is_number("the width", plan.width(), 3);
    let mut meter = plan.meter();
    is_next(report, alloc, &plan, &mut meter)
}

#[test]
fn thirty_one_items(rt: HostRuntime) -> Result<(), Fail> {
    let mut report = Report::new(rt.alloc());
    let ended = try_thirty_one(&mut report, rt.alloc());
    report.row("thirty-one items", ended);
    report.end(&rt)
}

static PLANS: &str = r#"
9 rows: name | schema | pools | limit
two fields | @SPEC | {"integers":[0,1]} | 4
two fields, and more room | @SPEC | {"integers":[0,1]} | 63
a map list | @MAP_LIST | {"strings":["a","b"],"integers":[0]} | 8
a set | @SET | {"integers":[2,1,2]} | 63
a field with a default | @DEFAULTED | {"integers":[0,7]} | 5
a map | @LABELS | {"names":["k","j","k"],"strings":["x"]} | 9
any value | @OPEN | {"any":[[1,2,3],"x"]} | 6
one of two fields | @ONE_OF_TWO | {} | 4
fifteen objects | @FIFTEEN | {} | 63
"#;

fn are_same(
    report: &mut Report,
    alloc: Global,
    plan: &Plan<u64>,
    other: &Plan<u128>,
    meter: &mut Meter,
) -> Result<(), Fail> {
    let found = page(alloc, plan, None, 100, meter)?;
    let wide = page(alloc, other, None, 100, meter)?;
    report.holds(
        "the same page",
        found.items.as_slice() == wide.items.as_slice(),
    );
    report.holds("the same end", found.end == wide.end);
    report.holds("a sample", !found.items.is_empty());
    Ok(())
}

/// A plan that both words can have.
struct WidePlan;

impl Kind for WidePlan {
    fn attempt(&self, report: &mut Report, alloc: Global, row: &Row) -> Result<(), Fail> {
        let mut plan = made(alloc, given_of(row))?;
        let other = wide(alloc, given_of(row))?;
        let mut meter = plan.meter();
        are_same(report, alloc, &plan, &other, &mut meter)
    }
}

#[test]
fn pages_of_both_words(rt: HostRuntime) -> Result<(), Fail> {
    try_tables(&rt, rt.alloc(), &WidePlan, &[PLANS])
}
