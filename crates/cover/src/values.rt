//! The values that are wanted at a path.
ghost use Rattle.std.specs.Prelude.{◌≡◌, true, Some, IfOk, All, map};
ghost use Rattle.jtree.specs.View.{data_of};
ghost use Rattle.schema.specs.Nodes.View.{node_of};
ghost use Rattle.explain.specs.Fields.Declared.{IsDeclared};
ghost use Rattle.explain.specs.Fields.PathFault.{IsTextOf};
ghost use Rattle.explain.specs.Paths.FieldPath.{FieldPath};
ghost use Rattle.explain.specs.Paths.PathText.{path_text};
ghost use Rattle.cover.specs.Wanted.{AreValuesAt, AreValuesOf};
ghost use Rattle.cover.specs.Internal.Narrowed.{MayBeWanted};

use explain::resolve;
use jtree::Tree;
use plan::{Pools, candidates};
use schema::{Node, Sort};
use std::alloc::{AllocError, Global};
use stored::Schema;

/// The values that are wanted at the declared path of this text: none, or with `values` all candidates of a scalar.
pub(crate) fn values_of(
    alloc: Global,
    values: bool,
    schema: &Schema,
    pools: &Pools,
    limit: u32,
    path: &str,
) -> Result<Vec<Tree>, AllocError>
    requires { IsTextOf (IsDeclared schema.now) path.now }
    ensures values { IfOk result (λ vs. AreValuesOf values (record { root = schema.now; pools = pools.now; limit = limit }) path.now (map (λ v. data_of v) vs.items)) }
    ensures wanted { IfOk result (λ vs. (p : FieldPath) → path_text p ≡ path.now → All (λ v. MayBeWanted schema.now pools.now (Some (data_of v)) p) vs.items) }
{
    explain::laws::paths_have_one_text();
    schema::laws::items_are_distinct();
    schema.root();
    match resolve(schema, path) {
        Ok(node) => values_at(alloc, values, pools, limit, path, node),
        Err(_) => Ok(Vec::new(alloc)),
    }
}

/// The values that are wanted at a node with this path.
fn values_at(
    alloc: Global,
    values: bool,
    pools: &Pools,
    limit: u32,
    path: &str,
    node: &Node,
) -> Result<Vec<Tree>, AllocError>
    ensures { IfOk result (λ vs. AreValuesAt values pools.now limit path.now (node_of node.now) (map (λ v. data_of v) vs.items)) }
{
    match &node.sort {
        Sort::Scalar(_) if values => candidates(alloc, pools, limit, path, node),
        _ => Ok(Vec::new(alloc)),
    }
}
