//! The numbers that are suggested for places of numbers.
ghost use Rattle.std.specs.Prelude.{◌≡◌, ◌++◌, Some, IfOk, OnOk};
ghost use Rattle.jtree.specs.View.{data_of};
ghost use Rattle.schema.specs.Nodes.View.{node_of};
ghost use Rattle.plan.specs.Pools.Document.{is_any_number};
ghost use Rattle.suggest.specs.View.{trees_of};
ghost use Rattle.suggest.specs.Suggested.Halves;

use jtree::{Numbers, Tree};
use schema::{Fields, Node, ScalarKind, Sort};
use std::alloc::{AllocError, Global};

/// The half after the digits of each of these integers, where the schema with this root has a place of numbers; else none.
pub(crate) fn numbers_for(
    alloc: Global,
    root: &Node,
    integers: &[i64],
) -> Result<Vec<Tree>, AllocError>
    ensures { IfOk result (λ ts. trees_of ts.items ≡ Halves.numbers_for (node_of root.now) integers.now) }
{
    if has_numbers(root) {
        halves(alloc, integers)
    } else {
        Ok(Vec::new(alloc))
    }
}

/// Whether the node is one of numbers, or has one below it.
#[cycle(numbers)]
fn has_numbers(node: &Node) -> bool
    ensures { result ≡ Halves.has_numbers (node_of node.now) }
{
    match &node.sort {
        Sort::Scalar(scalar) => matches!(scalar.kind, ScalarKind::Number),
        Sort::Object(object) => have_numbers(&object.fields),
        Sort::Map(map) => has_numbers(&map.value.node),
        Sort::List(list) => has_numbers(&list.item.node),
        Sort::Open => false,
    }
}

#[cycle(numbers)]
fn have_numbers(fields: &Fields) -> bool
    ensures { result ≡ Halves.have_numbers fields.now }
{
    for field in &fields.fields {
        if has_numbers(&field.node) {
            return true;
        }
    }
    false
}

fn halves(alloc: Global, integers: &[i64]) -> Result<Vec<Tree>, AllocError>
    ensures { IfOk result (λ ts. trees_of ts.items ≡ Halves.halves integers.now) }
{
    let mut trees = Vec::new(alloc);
    for integer in integers {
        push_half(alloc, *integer, &mut trees)?;
    }
    Ok(trees)
}

/// Adds the number that is written as the integer, a point and a 5.
fn push_half(alloc: Global, integer: i64, trees: &mut Vec<Tree>) -> Result<(), AllocError>
    ensures { OnOk result (trees_of trees.new.items ≡ trees_of trees.old.items ++ Halves.half_after integer) }
{
    let half = read_half(alloc, integer)?;
    if is_number(&half) {
        trees.push(half)?;
    }
    Ok(())
}

/// What the digits of the integer, a point and a 5 read as. They are a document, so nothing but memory can be missing.
fn read_half(alloc: Global, integer: i64) -> Result<Tree, AllocError>
    ensures { IfOk result (λ t. Halves.half_read integer ≡ Some (data_of t)) }
{
    let mut text = Tree::Int(integer).append_text(Vec::new(alloc))?;
    text.extend_from_slice(b".5")?;
    Tree::from_bytes_with(alloc, &text, Numbers::All).map_err(|_| AllocError)
}

fn is_number(tree: &Tree) -> bool
    ensures { result ≡ is_any_number (data_of tree.now) }
{
    matches!(tree, Tree::Int(_) | Tree::Number(_))
}
