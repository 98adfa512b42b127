//! Whether an object is as the API server stores it.
ghost use Rattle.std.specs.Prelude.{Decides, IfOk};
ghost use Rattle.jtree.specs.View.{data_of};
ghost use Rattle.schema.specs.Nodes.View.{node_of};
ghost use Rattle.stored.specs.Objects.Becomes.{IsStored};

use crate::defaults::is_faultless;
use crate::is_filled::is_filled;
use crate::is_pruned::is_pruned;
use crate::validity::valid;
use jtree::Tree;
use schema::Node;
use std::alloc::{AllocError, Global};

/// Whether an object is valid at a node, and neither pruning nor defaulting changes it (apiextensions.k8s.io/v1, "field pruning"
/// and "defaulting"). It takes no memory. Work is as that of `valid`.
pub fn is_stored(node: &Node, tree: &Tree) -> bool
    ensures { Decides result (IsStored (node_of node.now) (data_of tree.now)) }
{
    valid(node, tree) && (is_pruned(node, tree) && is_filled(node, tree))
}

/// With so few nodes, pairs of items are compared sooner than tables of them are made.
const FEW_NODES: u64 = 64;

/// As `is_stored`, in time that is close to linear in the tree, also for sets and map lists whose items do not ascend: where there are
/// many, it keeps tables of their items or keys. `AllocError` where an allocation fails.
pub fn check_stored(alloc: Global, node: &Node, tree: &Tree) -> Result<bool, AllocError>
    ensures { IfOk result (λ b. Decides b (IsStored (node_of node.now) (data_of tree.now))) }
{
    tree.reveal_invariant();
    if tree.nodes() <= FEW_NODES {
        return Ok(is_stored(node, tree));
    }
    let valid = is_faultless(alloc, node, tree)?;
    Ok(valid && (is_pruned(node, tree) && is_filled(node, tree)))
}
