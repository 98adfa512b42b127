//! The pools of values that are suggested for all scalars and open nodes.
ghost use Rattle.std.specs.Prelude.{◌≡◌, IfOk, map};
ghost use Rattle.jtree.specs.Data.{integer, text};
ghost use Rattle.jtree.specs.View.{data_of};
ghost use Rattle.schema.specs.Nodes.View.{node_of};
ghost use Rattle.suggest.specs.View.{trees_of};
ghost use Rattle.suggest.specs.Internal.Parts.{general_of, general_with};
ghost use Rattle.suggest.specs.Suggested.Document.{letters, suggested_any};

use crate::finding::find;
use crate::halves::numbers_for;
use jtree::{Members, Text, Tree};
use plan::PoolLimits;
use schema::Node;
use std::alloc::{AllocError, Global};

/// The pools of values, and the limits of pools.
#[derive(Drop)]
pub(crate) struct General {
    pub integers: Vec<Tree>,
    /// For places of numbers.
    pub numbers: Vec<Tree>,
    pub strings: Vec<Tree>,
    pub any: Vec<Tree>,
    pub limits: PoolLimits,
    /// Around an object, where suggestions come besides what stands there.
    pub beside: bool,
}

/// The pools for a schema with this root, around an object or not.
pub(crate) fn general_pools(
    alloc: Global,
    root: &Node,
    limits: PoolLimits,
    beside: bool,
) -> Result<General, AllocError>
    ensures { IfOk result (λ g. general_of g ≡ general_with beside limits (node_of root.now)) }
{
    let found = find(alloc, root)?;
    let integers = integer_trees(alloc, &found.integers)?;
    let numbers = numbers_for(alloc, root, &found.integers)?;
    let strings = letter_strings(alloc, &found.lengths)?;
    Ok(General {
        integers,
        numbers,
        strings,
        any: open_values(alloc)?,
        limits,
        beside,
    })
}

/// Values of open nodes, in the tree order.
fn open_values(alloc: Global) -> Result<Vec<Tree>, AllocError>
    ensures { IfOk result (λ ts. trees_of ts.items ≡ suggested_any) }
{
    let mut trees = Vec::with_capacity(alloc, 2)?;
    trees.push(text(alloc, "a")?)?;
    trees.push(Tree::Object(Members {
        members: Vec::new(alloc),
    }))?;
    Ok(trees)
}

pub(crate) fn text(alloc: Global, letters: &str) -> Result<Tree, AllocError>
    ensures { IfOk result (λ t. data_of t ≡ text letters.now) }
{
    Ok(Tree::Text(Text::from_str(alloc, letters)?))
}

/// These integers.
fn integer_trees(alloc: Global, integers: &[i64]) -> Result<Vec<Tree>, AllocError>
    ensures { IfOk result (λ ts. trees_of ts.items ≡ map (λ z. integer z) integers.now) }
{
    let mut trees = Vec::with_capacity(alloc, integers.len())?;
    for integer in integers {
        trees.push(Tree::Int(*integer))?;
    }
    Ok(trees)
}

/// Strings of these lengths.
fn letter_strings(alloc: Global, lengths: &[usize]) -> Result<Vec<Tree>, AllocError>
    ensures { IfOk result (λ ts. trees_of ts.items ≡ map (λ n. text (letters n)) lengths.now) }
{
    let mut trees = Vec::with_capacity(alloc, lengths.len())?;
    for length in lengths {
        trees.push(Tree::Text(Text {
            text: "a".repeat(alloc, *length)?,
        }))?;
    }
    Ok(trees)
}
