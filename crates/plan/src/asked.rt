//! What the pools ask for directly below a node, and what that makes of null and of bounds.
ghost use Rattle.std.specs.Prelude.{◌≡◌, IfOk};
ghost use Rattle.schema.specs.Nodes.View.{node_of};
ghost use Rattle.explain.specs.Paths.StepView.{step_of};
ghost use Rattle.plan.specs.Pools.Pools.{is_present};
ghost use Rattle.plan.specs.Samples.Site.{below};
ghost use Rattle.plan.specs.Samples.Over;
ghost use Rattle.plan.specs.Samples.Sizes;
ghost use Rattle.plan.specs.Samples.RuleOfParts;

use crate::Pools;
use explain::{Step, path_below};
use schema::{Bounds, Fields, Node, Sort};
use std::alloc::{AllocError, Global};

/// Whether null is accepted at a node with this path.
pub(crate) fn takes_null(
    alloc: Global,
    pools: &Pools,
    path: &str,
    node: &Node,
) -> Result<bool, AllocError>
    ensures { IfOk result (λ takes. takes ≡ RuleOfParts.takes_null pools.now path.now (node_of node.now)) }
{
    if node.nullable {
        Ok(!asks_below(alloc, pools, path, node)?)
    } else {
        Ok(false)
    }
}

/// Whether the pools ask for something directly below a node with this path.
fn asks_below(alloc: Global, pools: &Pools, path: &str, node: &Node) -> Result<bool, AllocError>
    ensures { IfOk result (λ asks. asks ≡ Over.asks_below pools.now path.now (node_of node.now)) }
{
    match &node.sort {
        Sort::Object(object) => asks_field(alloc, pools, path, &object.fields),
        Sort::Map(_) => asks_step(alloc, pools, path, Step::Value),
        Sort::List(_) => asks_step(alloc, pools, path, Step::Item),
        Sort::Scalar(_) | Sort::Open => Ok(false),
    }
}

fn asks_field(alloc: Global, pools: &Pools, path: &str, fields: &Fields) -> Result<bool, AllocError>
    ensures { IfOk result (λ asks. asks ≡ Over.asks_field pools.now path.now fields.now) }
{
    for field in &fields.fields {
        if asks_step(alloc, pools, path, Step::Field(field.name.as_str()))? {
            return Ok(true);
        }
    }
    Ok(false)
}

/// Whether the pools ask for what this step leads to.
fn asks_step(alloc: Global, pools: &Pools, path: &str, step: Step<'_>) -> Result<bool, AllocError>
    ensures { IfOk result (λ asks. asks ≡ is_present (below path.now (step_of step.entry)) pools.now) }
{
    let below = path_below(alloc, path, step)?;
    Ok(pools.is_present(&below))
}

/// The bounds with at least one, where that is asked.
pub(crate) fn raised(bounds: Bounds, asked: bool) -> Bounds
    ensures { result ≡ Sizes.raised asked bounds }
{
    if !asked {
        return bounds;
    }
    Bounds {
        least: Some(bounds.least.unwrap_or(0).max(1)),
        most: bounds.most,
    }
}
