//! What a plan says of a node, where it may be asked.
ghost use Rattle.std.specs.Prelude.{◌≡◌, ◌<◌, ◌≤◌, length, IfSome};
ghost use Rattle.plan.specs.Samples.Sites.{site_at, sites_of};
ghost use Rattle.plan.specs.Samples.Candidates.{sort_of};
ghost use Rattle.plan.specs.declared.sort.Sort.TheVariants as sort;

use crate::support::report::Report;
use plan::{Meter, Plan, PlanNode, SizeSet, Sort};
use std::alloc::Global;
use std::test::Fail;

/// A place in a short table.
pub fn place_of(index: usize) -> u64 {
    index.min(99) as u64
}

/// The node of a slot.
pub fn slot_of(plan: &Plan<u64>, node: PlanNode, place: u64, meter: &mut Meter) -> Option<PlanNode>
    requires { node < length (sites_of plan.now.pools plan.now.root) }
    ensures { IfSome result (λ n. n < length (sites_of plan.now.pools plan.now.root)) }
{
    match plan.sort(node) {
        Sort::Row => match plan.slot(node, place, meter) {
            Some(slot) => Some(slot.node),
            None => None,
        },
        Sort::Leaf | Sort::List => None,
    }
}

pub fn item_of(plan: &Plan<u64>, node: PlanNode, place: u32, meter: &mut Meter) -> Option<PlanNode>
    requires { node < length (sites_of plan.now.pools plan.now.root) }
    ensures { IfSome result (λ i. i < length (sites_of plan.now.pools plan.now.root)) }
{
    match plan.sort(node) {
        Sort::List => plan.item(node, place, meter),
        Sort::Leaf | Sort::Row => None,
    }
}

/// Notes it unless a set has these sizes, and no other.
pub fn are_sizes<S: SizeSet>(
    report: &mut Report,
    alloc: Global,
    what: &str,
    set: S,
    wanted: &[u32],
) -> Result<(), Fail> {
    let mut sizes = Vec::new(alloc);
    for n in 0..S::BITS {
        if set.has(n) {
            sizes.push(n)?;
        }
    }
    report.is_value(what, &sizes.as_slice(), &wanted);
    Ok(())
}

/// As `are_sizes`, of a text with the numbers.
pub fn are_sizes_of<S: SizeSet>(
    report: &mut Report,
    alloc: Global,
    what: &str,
    set: S,
    wanted: &str,
) -> Result<(), Fail> {
    let mut sizes = Vec::new(alloc);
    for size in wanted.split_whitespace() {
        sizes.push(size.parse::<u32>()?)?;
    }
    are_sizes(report, alloc, what, set, sizes.as_slice())
}

/// The sizes that the slots of a row from a place on can take; none where there is no such place.
pub fn rest_of(
    plan: &Plan<u64>,
    node: PlanNode,
    place: u64,
    taken: u32,
    seen: u8,
    meter: &mut Meter,
) -> Option<u64>
    requires { node < length (sites_of plan.now.pools plan.now.root) }
{
    match plan.sort(node) {
        Sort::Row if u64::from(taken) <= place => rest_at(plan, node, place, taken, seen, meter),
        _ => None,
    }
}

fn rest_at(
    plan: &Plan<u64>,
    node: PlanNode,
    place: u64,
    taken: u32,
    seen: u8,
    meter: &mut Meter,
) -> Option<u64>
    requires node { node < length (sites_of plan.now.pools plan.now.root) }
    requires row { sort_of (site_at (sites_of plan.now.pools plan.now.root) node) ≡ sort.Row }
    requires taken { taken ≤ place }
{
    if place == 0 {
        return Some(plan.rest(node, 0, 0, seen));
    }
    match plan.slot(node, place - 1, meter) {
        Some(_) => Some(plan.rest(node, place, taken, seen)),
        None => None,
    }
}

pub fn more_of(plan: &Plan<u64>, node: PlanNode, taken: u32) -> Option<u64>
    requires { node < length (sites_of plan.now.pools plan.now.root) }
{
    match plan.sort(node) {
        Sort::List => Some(plan.more(node, taken)),
        Sort::Leaf | Sort::Row => None,
    }
}

fn place_in(text: &str) -> Option<u64> {
    match text.strip_prefix("slot ") {
        Some(place) => place.parse::<u64>().ok(),
        None => None,
    }
}

/// A node of a plan: the root, the root's first slot, a slot of this one, or its items, by their names.
pub fn node_at(plan: &Plan<u64>, at: &str, meter: &mut Meter) -> Option<PlanNode>
    ensures { IfSome result (λ n. n < length (sites_of plan.now.pools plan.now.root)) }
{
    let root = plan.root();
    if at == "root" {
        return Some(root);
    }
    let first = slot_of(plan, root, 0, meter)?;
    match at {
        "first" => Some(first),
        "item" => item_of(plan, first, 0, meter),
        _ => slot_of(plan, first, place_in(at)?, meter),
    }
}
