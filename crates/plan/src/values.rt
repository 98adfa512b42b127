//! The values that samples may hold, in the tree order, each once, and of numbers of one value the least alone: shared by all leaves of
//! a plan.
ghost use Rattle.std.specs.Prelude.{◌≡◌, List, ◌∷◌, ◌++◌, map, IfOk, OnOk};
ghost use Rattle.std.specs.declared.cmp.Ordering.TheVariants.{Equal};
ghost use Rattle.jtree.specs.Data.{Data, null, integer, text};
ghost use Rattle.jtree.specs.View.{data_of};
ghost use Rattle.plan.specs.Samples.Leasts.{same_number, leasts};
ghost use Rattle.plan.specs.Samples.Over.{scalars_of};
ghost use Rattle.plan.specs.Samples.Names;
ghost use Rattle.plan.specs.Internal.Values.{trees_of, IsInOrder, IsBase};

use crate::Pools;
use crate::arena::SlotName;
use crate::kinds::Kinds;
use jtree::{Text, Tree};
use std::alloc::{AllocError, Global};

/// The values of the pools, in order, each value once; null is among the trees.
#[derive(Drop)]
pub(crate) struct Values {
    /// Null, which is the tree of a place past the last one.
    pub null: Tree,
    /// Null, both booleans, the integers and the strings.
    pub scalars: Vec<Tree>,
    /// These and the numbers.
    pub numbers: Vec<Tree>,
    /// The places of each kind among the scalars, of numbers among the latter.
    pub kinds: Kinds,
    /// Null, and the values of open nodes.
    pub any: Vec<Tree>,
    /// The names at maps.
    pub names: Vec<Text>,
}

impl Values {
    ghost use Rattle.plan.specs.Internal.Values.{AreValues};
    ghost use Rattle.plan.specs.Internal.Arena.{name_of};

    /// The name of a slot.
    pub(crate) fn name<'a>(&'a self, name: &'a SlotName) -> &'a str
        ensures { result.now ≡ name_of self.now.names.items name.now }
    {
        match name {
            SlotName::Field(text) => text.as_str(),
            SlotName::Pool(place) => match self.names.get(*place) {
                Some(text) => text.as_str(),
                None => "",
            },
        }
    }

    /// The values of these pools.
    pub(crate) fn new(alloc: Global, pools: &Pools) -> Result<Values, AllocError>
        ensures { IfOk result (λ v. AreValues pools.now v) }
    {
        let scalars = scalars_beside(alloc, pools, &[])?;
        let numbers = scalars_beside(alloc, pools, pools.numbers())?;
        Ok(Values {
            kinds: Kinds::new(alloc, &scalars, &numbers)?,
            scalars,
            numbers,
            any: with_null(alloc, pools.any())?,
            names: names(alloc, pools.names())?,
            null: Tree::Null,
        })
    }
}

/// Null, these trees, both booleans, the integers and the strings, in order, each value once.
fn scalars_beside(alloc: Global, pools: &Pools, beside: &[Tree]) -> Result<Vec<Tree>, AllocError>
    ensures { IfOk result (λ v. IsBase (null ∷ leasts (trees_of beside.now ++ scalars_of pools.now)) v.items) }
{
    let mut trees = vec![in alloc; Tree::Null]?;
    push_trees(alloc, &mut trees, beside)?;
    trees.push(Tree::Bool(false))?;
    trees.push(Tree::Bool(true))?;
    push_integers(&mut trees, pools.integers())?;
    push_texts(alloc, &mut trees, pools.strings())?;
    put_values_in_order(&mut trees);
    Ok(trees)
}

/// Adds copies of these trees.
fn push_trees(alloc: Global, trees: &mut Vec<Tree>, more: &[Tree]) -> Result<(), AllocError>
    ensures { OnOk result (trees.new.items ≡ trees.old.items ++ more.now) }
{
    for tree in more {
        trees.push(tree.try_clone(alloc)?)?;
    }
    Ok(())
}

/// Adds these integers.
fn push_integers(trees: &mut Vec<Tree>, integers: &[i64]) -> Result<(), AllocError>
    ensures { OnOk result (trees_of trees.new.items ≡ trees_of trees.old.items ++ map (λ z. integer z) integers.now) }
{
    for number in integers {
        trees.push(Tree::Int(*number))?;
    }
    Ok(())
}

/// Adds these texts.
fn push_texts(alloc: Global, trees: &mut Vec<Tree>, texts: &[Text]) -> Result<(), AllocError>
    ensures { OnOk result (trees_of trees.new.items ≡ trees_of trees.old.items ++ map (λ t. text t) texts.now) }
{
    for text in texts {
        trees.push(Tree::Text(text.copy(alloc)?))?;
    }
    Ok(())
}

/// Null and these trees, in order, each value once.
pub(crate) fn with_null(alloc: Global, trees: &[Tree]) -> Result<Vec<Tree>, AllocError>
    ensures { IfOk result (λ v. IsBase (null ∷ leasts (trees_of trees.now)) v.items) }
{
    in_order(alloc, vec![in alloc; Tree::Null]?, trees)
}

/// The first trees and these, in order, each value once.
pub(crate) fn in_order(
    alloc: Global,
    first: Vec<Tree>,
    trees: &[Tree],
) -> Result<Vec<Tree>, AllocError>
    ensures { IfOk result (λ v. IsBase (leasts (trees_of first.items ++ trees_of trees.now)) v.items) }
{
    let mut copies = first;
    push_trees(alloc, &mut copies, trees)?;
    put_values_in_order(&mut copies);
    Ok(copies)
}

/// Puts the trees in order, each once, and of numbers of one value the least alone.
fn put_values_in_order(trees: &mut Vec<Tree>)
    ensures { IsBase (leasts (trees_of trees.old.items)) trees.new.items }
{
    put_in_order(trees);
    // numbers of one value are neighbours
    trees.dedup_by(|next, kept| is_same_number(next, kept));
}

/// Whether the two are numbers of one value, and no integers.
fn is_same_number(tree: &Tree, other: &Tree) -> bool
    ensures { result ≡ same_number (data_of tree.now) (data_of other.now) }
{
    match (tree, other) {
        (Tree::Number(_), Tree::Number(_)) => tree.has_value_of(other),
        _ => false,
    }
}

/// The names in the order of their bytes, each once.
fn names(alloc: Global, names: &[Text]) -> Result<Vec<Text>, AllocError>
    ensures { IfOk result (λ v. v.items ≡ Names.in_order names.now) }
{
    let mut copies = Vec::new(alloc);
    for name in names {
        copies.push(name.copy(alloc)?)?;
    }
    put_in_order(&mut copies);
    Ok(copies)
}

/// Puts the elements in order, each once.
pub(crate) fn put_in_order<T: Ord + Drop>(list: &mut Vec<T>)
    ensures { ((x y : T) → T.cmp x y ≡ Equal → x ≡ y) → IsInOrder T.cmp list.old.items list.new.items }
{
    list.sort_unstable();
    list.dedup();
}
