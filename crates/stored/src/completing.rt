//! Completing: pruning, and then defaulting.
ghost use Rattle.std.specs.Prelude.{◌≡◌, ◌↔◌, Some, IfOk};
ghost use Rattle.jtree.specs.Data.{Data, IsTree};
ghost use Rattle.jtree.specs.View.{data_of};
ghost use Rattle.schema.specs.Document.Places.{Place};
ghost use Rattle.schema.specs.Nodes.Node as Nodes;
ghost use Rattle.schema.specs.Nodes.ByPlace.{node_at};
ghost use Rattle.schema.specs.Nodes.View.{node_of};
ghost use Rattle.stored.specs.Objects.Parts.{Leading};
ghost use Rattle.stored.specs.Objects.Becomes.{Becomes, IsPruned, IsCompleted};
ghost use Rattle.stored.specs.Schemas.Defaults.{HasGoodDefaults};

use crate::defaulting::fill;
use crate::pruning::prune;
use jtree::Tree;
use schema::Node;
use std::alloc::{AllocError, Global};

/// What becomes of a value at its node where nothing refuses it: a copy, pruned as by `prune` and then filled with defaults
/// ("field pruning", "defaulting" and "nullable" of apiextensions.k8s.io/v1). A declared field that is absent, or a null that
/// its node does not accept, gets its default, which is filled in turn. A null that is not accepted is dropped where it has no
/// default, and from a map. Where the node is one of a schema whose defaults are good, as those of a `Schema` are, pruning or
/// completing the answer again gives the same value; below a bad default it can give another one. An `Err` says that an
/// allocation failed.
pub fn complete(alloc: Global, node: &Node, tree: &Tree) -> Result<Tree, AllocError>
    ensures completed { IfOk result (λ t. IsCompleted (node_of node.now) (data_of tree.now) (data_of t)) }
    ensures again { let N = node_of node.now in IfOk result (λ t. (root : Nodes.Node) (p : Place) (w : Data) → HasGoodDefaults root → node_at root p ≡ Some N → IsTree w → (IsPruned N (data_of t) w ↔ (w ≡ data_of t)) × (IsCompleted N (data_of t) w ↔ (w ≡ data_of t))) }
{
    // one copy, pruned in place and filled by moving its parts: besides it only defaults are copied
    let mut pruned = tree.try_clone(alloc)?;
    prune(node, &mut pruned);
    pruned.reveal_invariant();
    let completed = fill(alloc, node, pruned)?;
    completed.reveal_invariant();
    Ok(completed)
}
