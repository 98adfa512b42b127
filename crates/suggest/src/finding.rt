//! The integers and the lengths in the constraints of a schema's scalars.
ghost use Rattle.std.specs.Prelude.{◌≡◌, ◌++◌, IfOk, OnOk, take};
ghost use Rattle.schema.specs.Nodes.View.{node_of, validations_of};
ghost use Rattle.plan.specs.Pools.Pools.{standard};
ghost use Rattle.suggest.specs.Internal.Finding.{none_or_one};
ghost use Rattle.suggest.specs.Suggested.Scalars.{in_scalar, in_branches, in_scalars, in_fields};
ghost use Rattle.suggest.specs.Suggested.Values;
ghost use Rattle.suggest.specs.View.{tree_at};
ghost use Rattle.suggest.specs.Suggested.Values.{bounds_with_neighbours, short_length, short_lengths, all_integers, all_lengths};

use crate::putting::put_in_order;
use jtree::{Members, Tree};
use plan::PoolLimits;
use schema::{Branches, Constraints, Fields, Node, Sort, Validations};
use std::alloc::{AllocError, Global};
use std::num::saturating_f64_to_i64;

/// The most characters of a text.
const LONGEST: u64 = 64;

/// What is found in the constraints of scalars.
#[derive(Drop)]
pub(crate) struct Found {
    /// Bounds and their neighbours.
    pub integers: Vec<i64>,
    /// Lengths of texts.
    pub lengths: Vec<usize>,
}

/// The integers and the lengths for a schema with this root, in ascending order, each once, as many as pools may have.
pub(crate) fn find(alloc: Global, root: &Node) -> Result<Found, AllocError>
    ensures integers { IfOk result (λ f. f.integers.items ≡ take standard.entries (all_integers (node_of root.now))) }
    ensures lengths { IfOk result (λ f. f.lengths.items ≡ take standard.entries (all_lengths (node_of root.now))) }
{
    let mut found = Found {
        integers: vec![in alloc; 0, 1]?,
        lengths: vec![in alloc; 1]?,
    };
    add_node(&mut found, root)?;
    put_in_order(&mut found.integers);
    put_in_order(&mut found.lengths);
    found.integers.truncate(PoolLimits::STANDARD.entries);
    found.lengths.truncate(PoolLimits::STANDARD.entries);
    Ok(found)
}

/// Adds what is found at a node and below it.
#[cycle(nodes)]
fn add_node(found: &mut Found, node: &Node) -> Result<(), AllocError>
    ensures integers { OnOk result (found.new.integers.items ≡ found.old.integers.items ++ in_scalars bounds_with_neighbours (node_of node.now)) }
    ensures lengths { OnOk result (found.new.lengths.items ≡ found.old.lengths.items ++ in_scalars short_lengths (node_of node.now)) }
{
    match &node.sort {
        Sort::Scalar(scalar) => add_scalar(found, &scalar.validations),
        Sort::Object(object) => add_fields(found, &object.fields),
        Sort::Map(map) => add_node(found, &map.value.node),
        Sort::List(list) => add_node(found, &list.item.node),
        Sort::Open => Ok(()),
    }
}

#[cycle(nodes)]
fn add_fields(found: &mut Found, fields: &Fields) -> Result<(), AllocError>
    ensures integers { OnOk result (found.new.integers.items ≡ found.old.integers.items ++ in_fields bounds_with_neighbours fields.now) }
    ensures lengths { OnOk result (found.new.lengths.items ≡ found.old.lengths.items ++ in_fields short_lengths fields.now) }
{
    for field in &fields.fields {
        add_node(found, &field.node)?;
    }
    Ok(())
}

/// Adds what is found in the constraints of a scalar and in the branches of its junctors.
#[cycle(validations)]
fn add_scalar(found: &mut Found, validations: &Validations) -> Result<(), AllocError>
    ensures integers { OnOk result (found.new.integers.items ≡ found.old.integers.items ++ in_scalar bounds_with_neighbours (validations_of validations.now)) }
    ensures lengths { OnOk result (found.new.lengths.items ≡ found.old.lengths.items ++ in_scalar short_lengths (validations_of validations.now)) }
{
    add_constraints(found, &validations.constraints)?;
    add_branches(found, &validations.all_of)?;
    add_branches(found, &validations.any_of)?;
    add_branches(found, &validations.one_of)?;
    add_branches(found, &validations.negated)
}

#[cycle(validations)]
fn add_branches(found: &mut Found, branches: &Branches) -> Result<(), AllocError>
    ensures integers { OnOk result (found.new.integers.items ≡ found.old.integers.items ++ in_branches bounds_with_neighbours branches.now) }
    ensures lengths { OnOk result (found.new.lengths.items ≡ found.old.lengths.items ++ in_branches short_lengths branches.now) }
{
    for branch in &branches.branches {
        add_scalar(found, branch)?;
    }
    Ok(())
}

fn add_constraints(found: &mut Found, constraints: &Constraints) -> Result<(), AllocError>
    ensures integers { OnOk result (found.new.integers.items ≡ found.old.integers.items ++ bounds_with_neighbours constraints.now) }
    ensures lengths { OnOk result (found.new.lengths.items ≡ found.old.lengths.items ++ short_lengths constraints.now) }
{
    push_with_neighbours(&mut found.integers, constraints.minimum)?;
    push_with_neighbours(&mut found.integers, constraints.maximum)?;
    push_written_bounds(&mut found.integers, &constraints.written)?;
    push_length(&mut found.lengths, constraints.lengths.least)?;
    push_length(&mut found.lengths, constraints.lengths.most)
}

/// Adds the bounds of a schema as it is written that are no integers, without their fractions, with their neighbours.
fn push_written_bounds(integers: &mut Vec<i64>, written: &Option<Members>) -> Result<(), AllocError>
    ensures { OnOk result (integers.new.items ≡ integers.old.items ++ Values.written_bounds written.now) }
{
    if let Some(schema) = written {
        push_with_neighbours(integers, whole_bound(schema.get("minimum")))?;
        push_with_neighbours(integers, whole_bound(schema.get("maximum")))?;
    }
    Ok(())
}

/// A bound that is no integer without its fraction, where that has 64 bits.
fn whole_bound(bound: Option<&Tree>) -> Option<i64>
    ensures { result ≡ Values.whole_bound (tree_at bound.entry) }
{
    match bound {
        Some(Tree::Number(number)) => match saturating_f64_to_i64(number.value()) {
            i64::MIN | i64::MAX => None,
            whole => Some(whole),
        },
        _ => None,
    }
}

/// Adds a bound with its neighbours, as far as they have 64 bits.
fn push_with_neighbours(integers: &mut Vec<i64>, bound: Option<i64>) -> Result<(), AllocError>
    ensures { OnOk result (integers.new.items ≡ integers.old.items ++ Values.with_neighbours bound) }
{
    if let Some(bound) = bound {
        push_some(integers, bound.checked_sub(1))?;
        integers.push(bound)?;
        push_some(integers, bound.checked_add(1))?;
    }
    Ok(())
}

/// Adds an integer, where there is one.
fn push_some(integers: &mut Vec<i64>, integer: Option<i64>) -> Result<(), AllocError>
    ensures { OnOk result (integers.new.items ≡ integers.old.items ++ none_or_one integer) }
{
    if let Some(integer) = integer {
        integers.push(integer)?;
    }
    Ok(())
}

/// Adds a length of a text that is not too long.
fn push_length(lengths: &mut Vec<usize>, length: Option<u64>) -> Result<(), AllocError>
    ensures { OnOk result (lengths.new.items ≡ lengths.old.items ++ short_length length) }
{
    if let Some(length) = length {
        if length <= LONGEST {
            lengths.push(length as usize)?;
        }
    }
    Ok(())
}
