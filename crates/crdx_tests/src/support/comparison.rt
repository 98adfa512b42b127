//! What a plan says, and its pages, against the plain reference.
ghost use Rattle.std.specs.Prelude.{◌≡◌, ◌<◌, ◌≤◌, length, IfSome};
ghost use Rattle.plan.specs.Samples.Sites.{site_at, sites_of};
ghost use Rattle.plan.specs.Samples.Candidates.{sort_of};
ghost use Rattle.plan.specs.declared.sort.Sort.TheVariants as sort;

use crate::support::given::{Given, made};
use crate::support::harness::is_same;
use crate::support::plain_cover::try_cover;
use crate::support::plain_stored::{Before, is_plainly_stored};
use crate::support::plans::{are_sizes, item_of, more_of, place_of, rest_of, slot_of};
use crate::support::reference::{
    Choice, Ending, map_ending, node_below, plain_more, plain_named, plain_parts, plain_rest,
    plain_slots, plain_values,
};
use crate::support::report::Report;
use enumerate::page;
use explain::{Step, path_below};
use jtree::{Text, Tree};
use plan::{Meter, Plan, PlanNode, Pools, Sort};
use schema::{Fields, Node, Sort as NodeSort};
use std::alloc::Global;
use std::test::Fail;
use stored::is_stored;

/// A plan, and the pools that it is over.
#[derive(Clone, Copy)]
struct Compared<'a> {
    alloc: Global,
    plan: &'a Plan<u64>,
    pools: &'a Pools,
}

fn are_candidates(
    report: &mut Report,
    plan: &Plan<u64>,
    node: PlanNode,
    wanted: &[Tree],
    meter: &mut Meter,
) -> Result<(), Fail>
    requires node { node < length (sites_of plan.now.pools plan.now.root) }
    requires leaf { sort_of (site_at (sites_of plan.now.pools plan.now.root) node) ≡ sort.Leaf }
{
    let count = wanted.len();
    report.is_number("the count", plan.count(node), count as u64);
    for (place, tree) in wanted.iter().enumerate() {
        let found = plan.candidate(node, place_of(place), meter);
        report.holds("a candidate", is_same(found, tree));
    }
    let after = plan.candidate(node, place_of(count), meter);
    report.holds("no candidate after the last", after.is_none());
    Ok(())
}

/// The candidates of a leaf are its parts of at most as many nodes as the limit.
fn try_leaf(
    report: &mut Report,
    of: Compared<'_>,
    number: PlanNode,
    node: &Node,
    path: &str,
    meter: &mut Meter,
) -> Result<(), Fail>
    requires { number < length (sites_of of.plan.now.pools of.plan.now.root) }
{
    match of.plan.sort(number) {
        Sort::Leaf => {
            let limit = u64::from(of.plan.limit());
            let parts = plain_parts(of.alloc, node, path, of.pools, limit)?;
            are_candidates(report, of.plan, number, &parts, meter)
        }
        Sort::Row | Sort::List => {
            report.holds("a leaf", false);
            Ok(())
        }
    }
}

/// The sizes are the numbers of nodes of these trees in order.
fn is_size(report: &mut Report, alloc: Global, sizes: u64, parts: &[Tree]) -> Result<(), Fail> {
    let mut wanted = Vec::new(alloc);
    for part in parts {
        wanted.push(part.nodes().min(99) as u32)?;
    }
    wanted.dedup();
    are_sizes(report, alloc, "the sizes", sizes, &wanted)
}

/// What can follow after so many items, up to more than a list within the limit has.
fn try_more(
    report: &mut Report,
    of: Compared<'_>,
    number: PlanNode,
    parts: &[Tree],
) -> Result<(), Fail>
    requires { number < length (sites_of of.plan.now.pools of.plan.now.root) }
{
    for taken in 0..=of.plan.limit() {
        is_more(
            report,
            of.alloc,
            more_of(of.plan, number, taken),
            parts,
            taken,
        )?;
    }
    Ok(())
}

fn is_more(
    report: &mut Report,
    alloc: Global,
    found: Option<u64>,
    parts: &[Tree],
    taken: u32,
) -> Result<(), Fail> {
    let Some(more) = found else {
        report.holds("a list", false);
        return Ok(());
    };
    let wanted = plain_more(alloc, parts, taken)?;
    are_sizes(report, alloc, "what can follow", more, &wanted)
}

/// What the slots of a row can take from each place on.
fn all_rests(
    report: &mut Report,
    of: Compared<'_>,
    number: PlanNode,
    ending: Ending<'_>,
    slots: &[Choice],
    meter: &mut Meter,
) -> Result<(), Fail>
    requires { number < length (sites_of of.plan.now.pools of.plan.now.root) }
{
    for place in 0..=slots.len() {
        let (_, after) = slots.split_at(place);
        rests_at(report, of, number, ending, after, place_of(place), meter)?;
    }
    Ok(())
}

/// From one place on, after each number of members and each choice of the named fields.
fn rests_at(
    report: &mut Report,
    of: Compared<'_>,
    number: PlanNode,
    ending: Ending<'_>,
    after: &[Choice],
    place: u64,
    meter: &mut Meter,
) -> Result<(), Fail>
    requires { number < length (sites_of of.plan.now.pools of.plan.now.root) }
{
    let named = plain_named(of.alloc, ending)?;
    report.holds("few named fields", named.len() <= 4);
    for taken in 0..=place.min(99) as u32 {
        for seen in 0..choices_of(&named) {
            let before = Before {
                taken: u64::from(taken),
                named: &named,
                seen,
            };
            let rest = rest_of(of.plan, number, place, taken, seen, meter);
            is_rest(report, of, rest, ending, before, after)?;
        }
    }
    Ok(())
}

/// How many sets there are of at most four names.
fn choices_of(named: &[Text]) -> u8 {
    match named.len() {
        0 => 1,
        1 => 2,
        2 => 4,
        3 => 8,
        _ => 16,
    }
}

fn is_rest(
    report: &mut Report,
    of: Compared<'_>,
    found: Option<u64>,
    ending: Ending<'_>,
    before: Before<'_>,
    after: &[Choice],
) -> Result<(), Fail> {
    let Some(rest) = found else {
        report.holds("a place", false);
        return Ok(());
    };
    let limit = u64::from(of.plan.limit());
    let wanted = plain_rest(of.alloc, after, limit, ending, before)?;
    are_sizes(report, of.alloc, "the rest", rest, &wanted)
}

/// What a plan says of a node, of which these are the parts, and of each node below it.
#[cycle(nodes)]
fn try_nodes(
    report: &mut Report,
    of: Compared<'_>,
    number: PlanNode,
    node: &Node,
    path: &str,
    parts: &[Tree],
    meter: &mut Meter,
) -> Result<(), Fail>
    requires { number < length (sites_of of.plan.now.pools of.plan.now.root) }
{
    is_size(report, of.alloc, of.plan.sizes(number), parts)?;
    if of.pools.fixed_at(path).is_some() {
        return try_leaf(report, of, number, node, path, meter);
    }
    match &node.sort {
        NodeSort::Scalar(_) | NodeSort::Open => try_leaf(report, of, number, node, path, meter),
        NodeSort::Object(_) | NodeSort::Map(_) => try_row(report, of, number, node, path, meter),
        NodeSort::List(list) => {
            try_more(report, of, number, parts)?;
            let below = path_below(of.alloc, path, Step::Item)?;
            let has_items = match parts.last() {
                Some(part) => part.nodes() > 1,
                None => false,
            };
            let item = node_below(&list.item);
            try_items(report, of, number, item, &below, has_items, meter)
        }
    }
}

/// What a plan says of the first item of a list, where there is one. The number is that of the list, the path that of its items.
#[cycle(nodes)]
fn try_items(
    report: &mut Report,
    of: Compared<'_>,
    number: PlanNode,
    item: &Node,
    path: &str,
    has_items: bool,
    meter: &mut Meter,
) -> Result<(), Fail>
    requires { number < length (sites_of of.plan.now.pools of.plan.now.root) }
{
    let found = item_of(of.plan, number, 0, meter);
    report.holds("an item", found.is_some() == has_items);
    let Some(below) = found else {
        return Ok(());
    };
    let limit = u64::from(of.plan.limit());
    let parts = plain_parts(of.alloc, item, path, of.pools, limit)?;
    try_nodes(report, of, below, item, path, &parts, meter)
}

/// What a plan says of the slots of an object or a map: of each of an object, and of the first of a map.
#[cycle(nodes)]
fn try_row(
    report: &mut Report,
    of: Compared<'_>,
    number: PlanNode,
    node: &Node,
    path: &str,
    meter: &mut Meter,
) -> Result<(), Fail>
    requires { number < length (sites_of of.plan.now.pools of.plan.now.root) }
{
    let limit = u64::from(of.plan.limit());
    let slots = plain_slots(of.alloc, node, path, of.pools, limit)?;
    match &node.sort {
        NodeSort::Object(object) => {
            let ending = Ending {
                bounds: object.bounds,
                junctors: Some(&object.junctors),
            };
            all_rests(report, of, number, ending, &slots, meter)?;
            try_fields(report, of, number, &object.fields, path, &slots, meter)
        }
        NodeSort::Map(map) => {
            let ending = map_ending(of.alloc, map.bounds, path, of.pools)?;
            all_rests(report, of, number, ending, &slots, meter)?;
            let below = path_below(of.alloc, path, Step::Value)?;
            let found = slot_of(of.plan, number, 0, meter);
            let value = node_below(&map.value);
            try_slot(report, of, found, value, &below, slots.first(), meter)
        }
        NodeSort::Scalar(_) | NodeSort::Open | NodeSort::List(_) => Ok(()),
    }
}

#[cycle(nodes)]
fn try_fields(
    report: &mut Report,
    of: Compared<'_>,
    number: PlanNode,
    fields: &Fields,
    path: &str,
    slots: &[Choice],
    meter: &mut Meter,
) -> Result<(), Fail>
    requires { number < length (sites_of of.plan.now.pools of.plan.now.root) }
{
    for (place, field) in fields.fields.iter().enumerate() {
        let below = path_below(of.alloc, path, Step::Field(field.name.as_str()))?;
        let found = slot_of(of.plan, number, place_of(place), meter);
        let slot = slots.get(place);
        try_slot(report, of, found, &field.node, &below, slot, meter)?;
    }
    Ok(())
}

/// What a plan says of a slot, which it has where the plain reference has one.
#[cycle(nodes)]
fn try_slot(
    report: &mut Report,
    of: Compared<'_>,
    found: Option<PlanNode>,
    node: &Node,
    path: &str,
    slot: Option<&Choice>,
    meter: &mut Meter,
) -> Result<(), Fail>
    requires { IfSome found (λ n. n < length (sites_of of.plan.now.pools of.plan.now.root)) }
{
    report.holds("a slot", found.is_some() == slot.is_some());
    match (found, slot) {
        (Some(below), Some(slot)) => {
            try_nodes(report, of, below, node, path, &slot.values, meter)
        }
        _ => Ok(()),
    }
}

/// A page past the last of these samples has the first of those that come next.
fn try_page(
    report: &mut Report,
    of: Compared<'_>,
    before: &[Tree],
    next: &[Tree],
    count: u32,
    meter: &mut Meter,
) -> Result<(), Fail>
    requires least { 1 ≤ count }
    requires most { count ≤ 10000 }
{
    let page = page(of.alloc, of.plan, before.last(), count, meter)?;
    let wanted = next.get(..count as usize).unwrap_or(next);
    report.holds("a page", page.items.as_slice() == wanted);
    let end = next.len() <= count as usize;
    report.holds("the end of a page", page.end == end);
    Ok(())
}

/// All samples in one page, and a page of two past each of them.
fn try_samples(
    report: &mut Report,
    of: Compared<'_>,
    samples: &[Tree],
    meter: &mut Meter,
) -> Result<(), Fail> {
    report.holds("few samples", samples.len() <= 5000);
    try_page(report, of, &[], samples, 10000, meter)?;
    for place in 0..=samples.len() {
        let (before, next) = samples.split_at(place);
        try_page(report, of, before, next, 2, meter)?;
    }
    Ok(())
}

/// `is_stored` answers of each value that is made at the root as the plain reference does.
fn try_stored(report: &mut Report, of: Compared<'_>, root: &Node) -> Result<(), Fail> {
    let limit = u64::from(of.plan.limit());
    for value in plain_values(of.alloc, root, "", of.pools, limit)? {
        if is_stored(root, &value) != is_plainly_stored(root, &value) {
            let text = value.to_text(of.alloc)?;
            report.holds_of("the same answer of `is_stored`", text.as_str(), false);
        }
    }
    Ok(())
}

fn try_made(
    report: &mut Report,
    alloc: Global,
    plan: &Plan<u64>,
    given: Given<'_>,
    meter: &mut Meter,
) -> Result<Vec<Tree>, Fail> {
    let schema = given.schema(alloc)?;
    let pools = given.pools(alloc)?;
    let of = Compared {
        alloc,
        plan,
        pools: &pools,
    };
    let root = schema.root();
    try_stored(report, of, root)?;
    let samples = plain_parts(alloc, root, "", &pools, u64::from(given.limit))?;
    try_samples(report, of, &samples, meter)?;
    try_nodes(report, of, plan.root(), root, "", &samples, meter)?;
    Ok(samples)
}

/// What the plan of a schema, pools and a node limit says of its nodes, against the plain reference.
fn try_plan(report: &mut Report, alloc: Global, given: Given<'_>) -> Result<(), Fail> {
    let mut plan = made(alloc, given)?;
    let mut meter = plan.meter();
    let samples = try_made(report, alloc, &plan, given, &mut meter)?;
    drop(plan);
    try_cover(report, alloc, given, &samples)
}

/// A row for a plan, which is named by what it is of and by its limit.
pub fn compare_plan(report: &mut Report, alloc: Global, given: Given<'_>, name: &str) {
    let limit = given.limit;
    let ended = try_plan(report, alloc, given);
    report.row_of(format!(in alloc; "{name}, of at most {limit} nodes"), ended);
}
