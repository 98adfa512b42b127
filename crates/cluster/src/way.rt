//! The way of an object into a cluster.
ghost use Rattle.std.specs.Prelude.{◌≡◌, IfOk};
ghost use Rattle.jtree.specs.View.{data_of};
ghost use Rattle.cluster.specs.WayIn.{way_in as way_in_of};

use crate::filling::fill;
use crate::metadata::prune_metadata;
use crate::nulls::drop_nulls;
use crate::pruning::prune;
use jtree::Tree;
use std::alloc::{AllocError, Global};

/// What a cluster makes of an object before it is judged, by the schema of its version ("field pruning", "nullable" and "defaulting" of
/// apiextensions.k8s.io/v1): a copy, pruned as by `prune`, without the nulls that `drop_nulls` drops, with metadata as
/// `prune_metadata` leaves it, and filled as by `fill`. `AllocError`
/// where an allocation fails.
pub fn way_in(alloc: Global, schema: &Tree, object: &Tree) -> Result<Tree, AllocError>
    ensures { IfOk result (λ t. data_of t ≡ way_in_of (data_of schema.now) (data_of object.now)) }
{
    let mut made = object.try_clone(alloc)?;
    prune(schema, &mut made);
    drop_nulls(schema, &mut made);
    prune_metadata(alloc, schema, &mut made);
    fill(alloc, schema, made)
}
