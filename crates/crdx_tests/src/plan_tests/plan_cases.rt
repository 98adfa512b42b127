//! Plans: their nodes, their slots, how wide they are, and their limits.
ghost use Rattle.std.specs.Prelude.{length, ◌<◌};
ghost use Rattle.plan.specs.Samples.Sites.{sites_of};

use crate::support::documents::{SPEC, ZERO_AND_ONE};
use crate::support::given::{Given, MAP_LISTS, given_of, made};
use crate::support::harness::{is_said, pools_of, schema_of};
use crate::support::plans::{node_at, place_of, slot_of};
use crate::support::report::Report;
use crate::support::rows::{Kind, Row, try_tables};
use plan::{Meter, PFault, Plan, PlanNode, Sort};
use std::alloc::{AllocError, Global};
use std::test::Fail;

static SORTS: &str = r#"
6 rows: name | schema | pools | limit | at | sort | nullable | distinct
an integer | @SPEC | {"integers":[0,1]} | 4 | slot 0 | Leaf | no | none
an object that may be null | @NULLABLE | {} | 2 | first | Row | yes | none
a map | @LABELS | {"names":["k","j","k"],"strings":["x"]} | 4 | first | Row | no | none
a map list | @MAP_LIST | {"strings":["a","b"],"integers":[0]} | 8 | first | List | no | Keys
a set | @SET | {"integers":[2,1,2]} | 4 | first | List | no | Whole
fifteen objects | @FIFTEEN | {} | 63 | first | List | no | Free
"#;

fn is_sorted(
    report: &mut Report,
    plan: &Plan<u64>,
    meter: &mut Meter,
    row: &Row,
) -> Result<(), Fail> {
    let Some(node) = node_at(plan, row.text("at"), meter) else {
        return Err(Fail::from("no such node"));
    };
    report.is_shown("the sort", &plan.sort(node), row.text("sort"))?;
    report.is_value("null", &plan.null_ok(node), &row.is("nullable"));
    if let Some(distinct) = row.optional("distinct") {
        report.is_shown("the items", &plan.distinct(node), distinct)?;
    }
    Ok(())
}

/// A node, its sort, whether null is accepted there, and, of a list, which items may not be in it together.
struct Sorted;

impl Kind for Sorted {
    fn attempt(&self, report: &mut Report, alloc: Global, row: &Row) -> Result<(), Fail> {
        let mut plan = made(alloc, given_of(row))?;
        let mut meter = plan.meter();
        is_sorted(report, &plan, &mut meter, row)
    }
}

#[test]
fn sorts(rt: HostRuntime) -> Result<(), Fail> {
    try_tables(&rt, rt.alloc(), &Sorted, &[SORTS])
}

/// A slot: whether it must be filled, whether it is a key, its place among the named fields, and how many tuples the keys after it
/// have.
#[derive(Clone, Copy, Debug)]
struct Slot<'a> {
    name: &'a str,
    must: bool,
    key: bool,
    bit: Option<u8>,
    later: u64,
}

static SLOTS: &str = r#"
4 rows: name | schema | pools | limit | at | names_fields
an item of a map list with three keys
    | {"type":"object","properties":{"m":{"type":"array","x-kubernetes-list-type":"map","x-kubernetes-list-map-keys":["d","a","c"],
    "items":{"type":"object","properties":{"a":{"type":"integer"},"b":{"type":"string"},"c":{"type":"boolean"},"d":{"type":"string"}},
    "required":["a","c","d"]}}}} | {"strings":["a","b"],"integers":[0]} | 8 | item | no
    > Slot { name: "a", must: true, key: true, bit: None, later: 4 }
    > Slot { name: "b", must: false, key: false, bit: None, later: 4 }
    > Slot { name: "c", must: true, key: true, bit: None, later: 2 }
    > Slot { name: "d", must: true, key: true, bit: None, later: 1 }
a field with a default | @DEFAULTED | {"integers":[0,7]} | 3 | first | no
    > Slot { name: "f", must: true, key: false, bit: None, later: 1 }
a map over names with a repeat | @LABELS | {"names":["k","j","k"],"strings":["x"]} | 4 | first | no
    > Slot { name: "j", must: false, key: false, bit: None, later: 1 }
    > Slot { name: "k", must: false, key: false, bit: None, later: 1 }
an object whose junctors name four fields
    | {"type":"object","properties":{"o":{"type":"object","not":{"required":["z","b","a0"]},"anyOf":[{"required":["b"]},{"not":{"required":["a"]}}],
    "properties":{"a":{"type":"boolean"},"a0":{"type":"boolean"},"b":{"type":"boolean"},"c":{"type":"boolean"},"z":{"type":"boolean"}}}}}
    | {} | 8 | first | yes
    > Slot { name: "a", must: false, key: false, bit: Some(0), later: 1 }
    > Slot { name: "a0", must: false, key: false, bit: Some(1), later: 1 }
    > Slot { name: "b", must: false, key: false, bit: Some(2), later: 1 }
    > Slot { name: "c", must: false, key: false, bit: None, later: 1 }
    > Slot { name: "z", must: false, key: false, bit: Some(3), later: 1 }
"#;

fn slot_at<'a>(
    plan: &'a Plan<u64>,
    node: PlanNode,
    place: u64,
    meter: &mut Meter,
) -> Option<Slot<'a>>
    requires { node < length (sites_of plan.now.pools plan.now.root) }
{
    match plan.sort(node) {
        Sort::Row => match plan.slot(node, place, meter) {
            Some(slot) => Some(Slot {
                name: slot.name,
                must: slot.must,
                key: slot.key,
                bit: slot.bit,
                later: slot.later,
            }),
            None => None,
        },
        Sort::Leaf | Sort::List => None,
    }
}

/// The number of slots of a row, and whether its junctors name some of its fields.
fn row_parts(plan: &Plan<u64>, node: PlanNode) -> Option<(u64, bool)>
    requires { node < length (sites_of plan.now.pools plan.now.root) }
{
    match plan.sort(node) {
        Sort::Row => Some((plan.slot_count(node), plan.names_fields(node))),
        Sort::Leaf | Sort::List => None,
    }
}

fn are_slots(
    report: &mut Report,
    plan: &Plan<u64>,
    meter: &mut Meter,
    row: &Row,
) -> Result<(), Fail> {
    let Some(node) = node_at(plan, row.text("at"), meter) else {
        return Err(Fail::from("no such node"));
    };
    let count = place_of(row.out().lines().count());
    let wanted = (count, row.is("names_fields"));
    report.is_value("the row", &row_parts(plan, node), &Some(wanted));
    for (place, wanted) in row.out().lines().enumerate() {
        match slot_at(plan, node, place_of(place), meter) {
            Some(slot) => report.is_shown("a slot", &slot, wanted)?,
            None => report.holds("there is a slot", false),
        }
    }
    let after = slot_of(plan, node, count, meter);
    report.holds("no slot after the last", after.is_none());
    Ok(())
}

/// A node, whether its junctors name some of its fields, and its slots.
struct SlotsRow;

impl Kind for SlotsRow {
    fn attempt(&self, report: &mut Report, alloc: Global, row: &Row) -> Result<(), Fail> {
        let mut plan = made(alloc, given_of(row))?;
        let mut meter = plan.meter();
        are_slots(report, &plan, &mut meter, row)
    }
}

#[test]
fn slots(rt: HostRuntime) -> Result<(), Fail> {
    try_tables(&rt, rt.alloc(), &SlotsRow, &[SLOTS])
}

static WIDTHS: &str = r#"
4 rows: name | schema | pools | limit | width | bound
a map list | @MAP_LIST | {"strings":["a","b"],"integers":[0]} | 8 | 2 | 108
two fields | @SPEC | {"integers":[0,1]} | 4 | 2 | 60
fifteen objects | @FIFTEEN | {} | 63 | 3 | 1024
two values of more nodes than the limit | @OPEN | {"any":[[1,2,3],[4,5,6]]} | 2 | 1 | 24
"#;

/// The width of a plan, and four times the product of what is one more than the limit and of what is one more than the width.
struct Width;

impl Kind for Width {
    fn attempt(&self, report: &mut Report, alloc: Global, row: &Row) -> Result<(), Fail> {
        let plan = made(alloc, given_of(row))?;
        let width = plan.width();
        let limit = u64::from(plan.limit());
        drop(plan);
        report.is_number("the width", width, row.number("width"));
        let bound = limit.wrapping_add(1).wrapping_mul(width.wrapping_add(1));
        report.is_number("the bound", bound.wrapping_mul(4), row.number("bound"));
        Ok(())
    }
}

#[test]
fn widths(rt: HostRuntime) -> Result<(), Fail> {
    try_tables(&rt, rt.alloc(), &Width, &[WIDTHS])
}

static LIMITS: &str = r#"
4 rows: name | limit | wanted
no node | 0 | P4
63 nodes | 63 | 63
64 nodes | 64 | P4
the highest number | 4294967295 | P4
"#;

fn limit_said(alloc: Global, limit: u32) -> Result<String, Fail> {
    let schema = schema_of(alloc, SPEC)?;
    let pools = pools_of(alloc, ZERO_AND_ONE)?;
    let made = Plan::<u64>::new(alloc, schema, pools, limit);
    Ok(said_of_made(alloc, &made)?)
}

fn said_of_made(alloc: Global, made: &Result<Plan<u64>, PFault>) -> Result<String, AllocError> {
    match made {
        Ok(plan) => format!(in alloc; "{}", plan.limit()),
        Err(fault) => fault.to_string(alloc),
    }
}

/// A limit, and the limit of the plan, or the code of the fault.
struct Limit;

impl Kind for Limit {
    fn attempt(&self, report: &mut Report, alloc: Global, row: &Row) -> Result<(), Fail> {
        let found = limit_said(alloc, row.small("limit"));
        is_said(report, "what is made", found, row.text("wanted"))
    }
}

#[test]
fn limits(rt: HostRuntime) -> Result<(), Fail> {
    try_tables(&rt, rt.alloc(), &Limit, &[LIMITS])
}

/// The width of a plan after its laws were called, for which nothing runs and which leave it as it is.
fn width_of(alloc: Global, given: Given<'_>) -> Result<u64, Fail> {
    let plan = made(alloc, given)?;
    plan.no_dead_end();
    plan.sound_parts();
    let width = plan.width();
    drop(plan);
    Ok(width)
}

#[test]
fn laws(rt: HostRuntime) -> Result<(), Fail> {
    schema::laws::items_are_distinct();
    schema::laws::junctors_name_fields();
    stored::laws::stored_by_parts();
    let mut report = Report::new(rt.alloc());
    report.is_number("the width", width_of(rt.alloc(), MAP_LISTS)?, 2);
    report.row("a map list", Ok(()));
    report.end(&rt)
}
