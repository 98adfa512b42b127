//! The candidates of a leaf: a scalar, an open node, or a node whose values are fixed.
ghost use Rattle.std.specs.Prelude.{◌≡◌, ℕ, true, ◌≤◌, ◌<◌, ◌↔◌, ◌⊎◌, ◌∷◌, IfOk, map, option_map};
ghost use Rattle.std.specs.List.{slice_get};
ghost use Rattle.std.specs.Bool.{Decides};
ghost use Rattle.std.specs.Option.{option_copied};
ghost use Rattle.jtree.specs.Data.{null};
ghost use Rattle.jtree.specs.Nodes.{node_count};
ghost use Rattle.jtree.specs.View.{data_of};
ghost use Rattle.jtree.specs.declared.value.Tree.{Tree};
ghost use Rattle.schema.specs.Nodes.View.{node_of};
ghost use Rattle.plan.specs.Pools.Pools.{Pools as PoolsData};
ghost use Rattle.plan.specs.Samples.Sites.{Site, plain, where_fixed};
ghost use Rattle.plan.specs.Samples.Leasts.{leasts};
ghost use Rattle.plan.specs.Samples.Over.{listed_for, listed};
ghost use Rattle.plan.specs.Samples.Candidates.{sort_at, sort_of, AreCandidates};
ghost use Rattle.plan.specs.Samples.Sizes.{HasSize, IsUpTo};
ghost use Rattle.plan.specs.Internal.Values.{trees_of, IsBase, AreValues, base_of, tree_of, at_places};
ghost use Rattle.plan.specs.Internal.Values.{IsStoredWithin, AreStored, AreKinds, choices_at, candidates_of};
ghost use Rattle.plan.specs.declared.values.Values.{Values};
ghost use Rattle.plan.specs.declared.sort.Sort.TheVariants as sort;

use crate::kinds::bare_kind;
use crate::values::{Values, in_order, with_null};
use crate::{Pools, SizeSet, laws};
use jtree::Tree;
use schema::{Node, ScalarKind, Sort};
use std::alloc::{AllocError, Global};
use stored::check_stored;

/// The trees among which the candidates of a leaf are: the values of the pools, which all nodes share, or a list of its own (`enum`, a
/// list for its path, or its fixed values).
#[derive(Drop)]
pub(crate) enum Base {
    /// The values for a scalar of this kind.
    Scalars(ScalarKind),
    Any,
    Own(Vec<Tree>),
}

/// The candidates of a leaf, by their places in its base.
#[derive(Drop)]
pub(crate) struct Leaf {
    pub base: Base,
    pub places: Vec<usize>,
}

/// The candidates of a leaf at this path: its choices within the limit, as far as they are stored there.
pub(crate) fn leaf_of(
    alloc: Global,
    pools: &Pools,
    limit: u32,
    values: &Values,
    fixed: Option<&[Tree]>,
    path: &str,
    node: &Node,
) -> Result<Leaf, AllocError>
    ensures { IfOk result (λ l. (s : Site) → AreValues pools.now values.now → s.node ≡ node_of node.now → s.path ≡ path.now → s.fixed ≡ option_map (λ ts. trees_of ts.now) fixed.entry → sort_of s ≡ sort.Leaf → AreCandidates pools.now limit s (candidates_of values.now l)) }
{
    laws::parts_one_level();
    let base = base_for(alloc, pools, fixed, path, node)?;
    let places = places_in(alloc, limit, values, &base, node)?;
    Ok(Leaf { base, places })
}

/// The places in its base of the candidates of a leaf.
fn places_in(
    alloc: Global,
    limit: u32,
    values: &Values,
    base: &Base,
    node: &Node,
) -> Result<Vec<usize>, AllocError>
    ensures { IfOk result (λ places. AreKinds values.now.scalars.items values.now.numbers.items values.now.kinds → (past : Tree) → AreStored limit (node_of node.now) (trees_of (base_of values.now base.now)) (at_places past (base_of values.now base.now) places.items)) }
{
    match (base, bare_kind(node)) {
        (Base::Scalars(listed), Some(kind)) if limit > 0 && is_same(*listed, kind) => {
            Vec::from_slice(alloc, values.kinds.places(kind))
        }
        _ => stored_places(alloc, limit, node, base.trees(values)),
    }
}

fn is_same(kind: ScalarKind, other: ScalarKind) -> bool
    ensures { result ≡ true → kind ≡ other }
{
    match kind {
        ScalarKind::Boolean => matches!(other, ScalarKind::Boolean),
        ScalarKind::Integer => matches!(other, ScalarKind::Integer),
        ScalarKind::Number => matches!(other, ScalarKind::Number),
        ScalarKind::String => matches!(other, ScalarKind::String),
        ScalarKind::IntOrString => matches!(other, ScalarKind::IntOrString),
    }
}

/// The candidates of a leaf, in the tree order, each once: the values that a scalar or an open node with this path can have, or, where
/// the pools fix its values, those of them that are stored there; in both cases with at most `limit` nodes. A value with more is not
/// compared with the node. `AllocError` where an allocation fails.
pub fn candidates(
    alloc: Global,
    pools: &Pools,
    limit: u32,
    path: &str,
    node: &Node,
) -> Result<Vec<Tree>, AllocError>
    ensures { IfOk result (λ vs. sort_at (node_of node.now) ≡ sort.Leaf → AreCandidates pools.now limit (plain pools.now path.now (node_of node.now)) (map (λ v. data_of v) vs.items)) }
{
    let values = Values::new(alloc, pools)?;
    let fixed = pools.fixed_at(path);
    let leaf = leaf_of(alloc, pools, limit, &values, fixed, path, node)?;
    copies(alloc, &values, &leaf)
}

/// Copies of the leaf's candidates.
fn copies(alloc: Global, values: &Values, leaf: &Leaf) -> Result<Vec<Tree>, AllocError>
    ensures { IfOk result (λ vs. trees_of vs.items ≡ candidates_of values.now leaf.now) }
{
    let mut copies = Vec::new(alloc);
    for place in &leaf.places {
        let tree = leaf.base.tree(values, *place);
        copies.push(tree.try_clone(alloc)?)?;
    }
    Ok(copies)
}

/// The base with the choices of a leaf at this path.
fn base_for(
    alloc: Global,
    pools: &Pools,
    fixed: Option<&[Tree]>,
    path: &str,
    node: &Node,
) -> Result<Base, AllocError>
    ensures { IfOk result (λ b. (v : Values) → AreValues pools.now v → where_fixed (option_map (λ ts. trees_of ts.now) fixed.entry) sort.Leaf (sort_at (node_of node.now)) ≡ sort.Leaf
        → IsBase (choices_at pools.now (option_map (λ ts. trees_of ts.now) fixed.entry) path.now (node_of node.now)) (base_of v b)) }
{
    match fixed {
        Some(list) => Ok(Base::Own(in_order(alloc, Vec::new(alloc), list)?)),
        None => base_at(alloc, pools, path, node),
    }
}

/// The base with null and what is listed for a scalar or an open node at this path.
fn base_at(alloc: Global, pools: &Pools, path: &str, node: &Node) -> Result<Base, AllocError>
    ensures { IfOk result (λ b. (v : Values) → AreValues pools.now v → sort_at (node_of node.now) ≡ sort.Leaf → IsBase (null ∷ listed pools.now path.now (node_of node.now)) (base_of v b)) }
{
    match pools.list_at(path) {
        Some(list) => Ok(Base::Own(with_null(alloc, list)?)),
        None => base_by_node(alloc, node),
    }
}

/// The base with null and what is listed for each scalar or open node like this one.
fn base_by_node(alloc: Global, node: &Node) -> Result<Base, AllocError>
    ensures { IfOk result (λ b. (P : PoolsData) (v : Values) → AreValues P v → sort_at (node_of node.now) ≡ sort.Leaf → IsBase (null ∷ leasts (listed_for P (node_of node.now))) (base_of v b)) }
{
    match &node.sort {
        Sort::Scalar(scalar) => match &scalar.validations.constraints.choices {
            Some(choices) => Ok(Base::Own(with_null(alloc, &choices.items)?)),
            None => Ok(Base::Scalars(scalar.kind)),
        },
        _ => Ok(Base::Any),
    }
}

/// The places of the trees of at most `limit` nodes that are stored at the node.
pub(crate) fn stored_places(
    alloc: Global,
    limit: u32,
    node: &Node,
    trees: &[Tree],
) -> Result<Vec<usize>, AllocError>
    ensures { IfOk result (λ places. (past : Tree) → AreStored limit (node_of node.now) (trees_of trees.now) (at_places past trees.now places.items)) }
{
    let mut places = Vec::with_capacity(alloc, trees.len())?;
    for (place, tree) in trees.iter().enumerate() {
        if is_stored_within(alloc, limit, node, tree)? {
            places.push(place)?;
        }
    }
    // without the room to grow that is left
    Vec::from_slice(alloc, &places)
}

/// Whether the tree is stored at the node and has at most `limit` nodes. One with more is not compared with the node.
fn is_stored_within(alloc: Global, limit: u32, node: &Node, tree: &Tree) -> Result<bool, AllocError>
    ensures { IfOk result (λ stored. Decides stored (IsStoredWithin limit (node_of node.now) (data_of tree.now))) }
{
    tree.reveal_invariant();
    if tree.nodes() > limit as u64 {
        return Ok(false);
    }
    check_stored(alloc, node, tree)
}

impl Base {
    /// The trees of the base.
    pub(crate) fn trees<'a>(&'a self, values: &'a Values) -> &'a [Tree]
        ensures { result.now ≡ base_of values.now self.now }
    {
        match self {
            Base::Scalars(ScalarKind::Number) => values.numbers.as_slice(),
            Base::Scalars(_) => values.scalars.as_slice(),
            Base::Any => values.any.as_slice(),
            Base::Own(trees) => trees.as_slice(),
        }
    }

    /// The tree at a place of the base, and null past the last.
    fn tree<'a>(&'a self, values: &'a Values, place: usize) -> &'a Tree
        ensures { result.now ≡ tree_of values.now self.now place }
    {
        self.trees(values).get(place).unwrap_or(&values.null)
    }
}

/// The candidate at a place among the leaf's, and `None` past the last.
pub(crate) fn candidate<'a>(values: &'a Values, leaf: &'a Leaf, place: usize) -> Option<&'a Tree>
    ensures { option_map data_of (option_copied result) ≡ slice_get (candidates_of values.now leaf.now) place }
{
    let place = leaf.places.get(place)?;
    Some(leaf.base.tree(values, *place))
}

/// The sizes of the candidates, up to the limit.
pub(crate) fn leaf_sizes<Z: SizeSet>(values: &Values, leaf: &Leaf, limit: u32) -> Z
    requires { limit < Z.BITS }
    ensures { (P : PoolsData) (s : Site) → AreCandidates P limit s (candidates_of values.now leaf.now) → IsUpTo limit (Z.holds result) (HasSize P s) }
{
    let mut sizes = Z::empty();
    for place in &leaf.places {
        sizes = with_size(sizes, leaf.base.tree(values, *place), limit);
    }
    sizes
}

/// The sizes, and that of the tree where it is within the limit.
fn with_size<Z: SizeSet>(sizes: Z, tree: &Tree, limit: u32) -> Z
    requires { limit < Z.BITS }
    ensures { (n : ℕ) → Z.holds result n ↔ (Z.holds sizes n ⊎ ((n ≤ limit) × (node_count (data_of tree.now) ≡ n))) }
{
    let nodes = tree.nodes();
    if nodes <= limit as u64 {
        sizes.union(Z::one(nodes as u32))
    } else {
        sizes
    }
}
