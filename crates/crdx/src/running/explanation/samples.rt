//! Why there is no sample.
ghost use Rattle.std.specs.Prelude.{◌≡◌, ◌<◌, length, IfSome};
ghost use Rattle.plan.specs.Samples.Sites.{sites_of, site_at};
ghost use Rattle.plan.specs.Samples.Candidates.{sort_of};
ghost use Rattle.plan.specs.declared.sort.Sort.TheVariants as sort;

use crate::arguments::MOST_LIMIT;
use crate::running::answer::json_text;
use explain::{Step, path_below};
use plan::{Meter, Plan, PlanNode, SizeSet, Slot, Sort};
use std::alloc::{AllocError, Global};

/// Why a plan has no sample: its limit is below the fewest nodes of a sample, or a field that has to be there has no value.
pub(crate) fn no_sample_text<Z: SizeSet>(
    alloc: Global,
    plan: Plan<Z>,
) -> Result<Option<String>, AllocError> {
    let limit = plan.limit();
    let (schema, pools) = plan.into_parts();
    match Plan::new(alloc, schema, pools, MOST_LIMIT) {
        Ok(mut plan) => {
            let text = reason_text(alloc, &mut plan, limit);
            drop(plan);
            Ok(Some(text?))
        }
        Err(_) => Err(AllocError),
    }
}

/// The same, by the plan with the greatest limit.
fn reason_text(alloc: Global, plan: &mut Plan<u128>, limit: u32) -> Result<String, AllocError> {
    if let Some(fewest) = plan.sizes(plan.root()).next(0) {
        return format!(in alloc;
            "found a least sample of {fewest} nodes; allowed are {limit} (--limit)"
        );
    }
    let path = missing_path(alloc, plan)?;
    if path.is_empty() {
        return format!(in alloc; "found no sample of at most {MOST_LIMIT} nodes");
    }
    let path = json_text(alloc, &path)?;
    format!(in alloc;
        "found no value of at most {MOST_LIMIT} nodes for {path}, which has to be there"
    )
}

/// The path of the first field that has to be there and has no value; empty where the root has none for another reason.
fn missing_path(alloc: Global, plan: &mut Plan<u128>) -> Result<String, AllocError> {
    let mut meter = plan.meter();
    let mut node = plan.root();
    let mut path = String::new(alloc);
    for _ in 0..MOST_LIMIT {
        let Some(slot) = missing_slot(plan, node, &mut meter) else {
            break;
        };
        path = path_below(alloc, &path, Step::Field(slot.name))?;
        node = slot.node;
    }
    Ok(path)
}

/// The first slot of a node that has to be filled and has no value.
fn missing_slot<'p>(plan: &'p Plan<u128>, node: PlanNode, meter: &mut Meter) -> Option<Slot<'p>>
    requires { node < length (sites_of plan.now.pools plan.now.root) }
    ensures { IfSome result (λ slot. slot.node < node) }
{
    if plan.sort(node) != Sort::Row {
        return None;
    }
    for place in 0..plan.slot_count(node) {
        let Some(slot) = plan.slot(node, place, meter) else {
            return None;
        };
        if slot.must && plan.sizes(slot.node).next(0).is_none() {
            return Some(slot);
        }
    }
    None
}
