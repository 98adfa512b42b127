//! The values that are listed for a scalar or an open node.
ghost use Rattle.std.specs.Prelude.{◌≡◌, ◌++◌, IfOk, OnOk, take, filter, option_and_then};
ghost use Rattle.std.specs.Option.{option_to_list};
ghost use Rattle.jtree.specs.Path;
ghost use Rattle.jtree.specs.View.{data_of};
ghost use Rattle.schema.specs.Nodes.View.{node_of};
ghost use Rattle.suggest.specs.View.{trees_of, trees_at, tree_at};
ghost use Rattle.suggest.specs.Internal.Parts.{general_of};
ghost use Rattle.suggest.specs.Suggested.LeafValues;
ghost use Rattle.suggest.specs.Suggested.LeafValues.{or_general, besides};

use crate::chosen::chosen;
use crate::formats::texts_of_format;
use crate::general::{General, text};
use jtree::Tree;
use schema::{Node, ScalarKind, Sort};
use std::alloc::{AllocError, Global};
use stored::is_stored;

/// The most values of a pool that are listed beside others.
const FEW: usize = 30;

/// What a schema says of the values of a node.
#[derive(Clone, Copy, Drop)]
pub(crate) struct Hints<'a> {
    pub default: Option<&'a Tree>,
    /// The schema of the node's place as written.
    pub schema: Option<&'a Tree>,
}

/// The values that are listed for the node, where objects have these values there.
pub(crate) fn leaf_values(
    alloc: Global,
    general: &General,
    node: &Node,
    found: &[&Tree],
    hints: &Hints<'_>,
) -> Result<Vec<Tree>, AllocError>
    ensures { IfOk result (λ ts. trees_of ts.items ≡ LeafValues.leaf_values (general_of general.now) (trees_at found.now) (tree_at hints.now.default) (tree_at hints.now.schema) (node_of node.now)) }
{
    let mut values = stored_values(alloc, node, found)?;
    if values.is_empty() {
        values = hinted_values(alloc, general, node, hints)?;
    } else if general.beside {
        values = with_suggested(alloc, general, node, values, hints)?;
    }
    chosen(alloc, general.limits.entries, &values)
}

/// Those of the values that are stored there.
fn stored_values(alloc: Global, node: &Node, found: &[&Tree]) -> Result<Vec<Tree>, AllocError>
    ensures { IfOk result (λ ts. trees_of ts.items ≡ filter (LeafValues.takes (node_of node.now)) (trees_at found.now)) }
{
    let mut values = Vec::new(alloc);
    for value in found {
        if takes(node, value) {
            values.push(value.try_clone(alloc)?)?;
        }
    }
    Ok(values)
}

/// Whether a value other than null is stored at the scalar or open node.
fn takes(node: &Node, value: &Tree) -> bool
    ensures { result ≡ LeafValues.takes (node_of node.now) (data_of value.now) }
{
    stored::laws::stored_by_parts();
    match (&node.sort, value) {
        (_, Tree::Null) => false,
        (Sort::Scalar(_), _) => is_stored(node, value),
        (Sort::Open, _) => true,
        _ => false,
    }
}

/// What is found there, and what is suggested besides; nothing for a node that lists its values itself.
fn with_suggested(
    alloc: Global,
    general: &General,
    node: &Node,
    found: Vec<Tree>,
    hints: &Hints<'_>,
) -> Result<Vec<Tree>, AllocError>
    ensures { IfOk result (λ ts. trees_of ts.items ≡ besides (general_of general.now) (node_of node.now) (trees_of found.items) (LeafValues.hinted_values (general_of general.now) (node_of node.now) (tree_at hints.now.default) (tree_at hints.now.schema))) }
{
    if lists_itself(node) {
        return Ok(Vec::new(alloc));
    }
    let mut values = found;
    let mut suggested = suggested_values(alloc, general, node, hints)?;
    values.append(&mut suggested)?;
    Ok(values)
}

/// What is hinted, or where that is nothing, some of the pools.
fn suggested_values(
    alloc: Global,
    general: &General,
    node: &Node,
    hints: &Hints<'_>,
) -> Result<Vec<Tree>, AllocError>
    ensures { IfOk result (λ ts. trees_of ts.items ≡ or_general (LeafValues.hinted_values (general_of general.now) (node_of node.now) (tree_at hints.now.default) (tree_at hints.now.schema)) (LeafValues.general_values (general_of general.now) (node_of node.now))) }
{
    let mut values = hinted_values(alloc, general, node, hints)?;
    if values.is_empty() {
        push_general(alloc, general, node, &mut values)?;
    }
    Ok(values)
}

/// What is hinted: its default, its example, bounds of a number and texts of its format, else some of the pools too.
fn hinted_values(
    alloc: Global,
    general: &General,
    node: &Node,
    hints: &Hints<'_>,
) -> Result<Vec<Tree>, AllocError>
    ensures { IfOk result (λ ts. trees_of ts.items ≡ LeafValues.hinted_values (general_of general.now) (node_of node.now) (tree_at hints.now.default) (tree_at hints.now.schema)) }
{
    let mut values = Vec::new(alloc);
    if lists_itself(node) {
        return Ok(values);
    }
    push_own(alloc, node, hints, &mut values)?;
    let own = values.len();
    push_texts(alloc, node, hints.schema, &mut values)?;
    if own > 0 && values.len() == own {
        push_general(alloc, general, node, &mut values)?;
    }
    Ok(values)
}

/// Whether no value has to be listed: of a boolean both values are candidates, and of an `enum` all its values.
fn lists_itself(node: &Node) -> bool
    ensures { result ≡ LeafValues.lists_itself (node_of node.now) }
{
    match &node.sort {
        Sort::Scalar(scalar) => match scalar.kind {
            ScalarKind::Boolean => true,
            _ => scalar.validations.constraints.choices.is_some(),
        },
        _ => false,
    }
}

/// Adds its default, its example and the bounds of a number that are no integers, where they are stored there.
fn push_own(
    alloc: Global,
    node: &Node,
    hints: &Hints<'_>,
    values: &mut Vec<Tree>,
) -> Result<(), AllocError>
    ensures { OnOk result (trees_of values.new.items ≡ trees_of values.old.items ++ LeafValues.own_values (node_of node.now) (tree_at hints.now.default) (tree_at hints.now.schema)) }
{
    push_taken(alloc, node, hints.default, values)?;
    push_taken(alloc, node, under(hints.schema, "example"), values)?;
    push_bounds(alloc, node, hints.schema, values)
}

/// Adds the bounds of numbers that are no integers, where they are stored there.
fn push_bounds(
    alloc: Global,
    node: &Node,
    schema: Option<&Tree>,
    values: &mut Vec<Tree>,
) -> Result<(), AllocError>
    ensures { OnOk result (trees_of values.new.items ≡ trees_of values.old.items ++ filter (LeafValues.takes (node_of node.now)) (LeafValues.other_bounds (node_of node.now) (tree_at schema.entry))) }
{
    if !takes_numbers(node) {
        return Ok(());
    }
    push_taken(alloc, node, other_number(under(schema, "minimum")), values)?;
    push_taken(alloc, node, other_number(under(schema, "maximum")), values)
}

fn takes_numbers(node: &Node) -> bool
    ensures { result ≡ LeafValues.takes_numbers (node_of node.now) }
{
    match &node.sort {
        Sort::Scalar(scalar) => matches!(scalar.kind, ScalarKind::Number),
        _ => false,
    }
}

/// A number that is no integer.
fn other_number<'a>(value: Option<&'a Tree>) -> Option<&'a Tree>
    ensures { tree_at result ≡ LeafValues.other_number (tree_at value.entry) }
{
    match value {
        Some(Tree::Number(_)) => value,
        _ => None,
    }
}

/// Adds a value, where there is one and it is stored there.
fn push_taken(
    alloc: Global,
    node: &Node,
    value: Option<&Tree>,
    values: &mut Vec<Tree>,
) -> Result<(), AllocError>
    ensures { OnOk result (trees_of values.new.items ≡ trees_of values.old.items ++ filter (LeafValues.takes (node_of node.now)) (option_to_list (tree_at value.entry))) }
{
    if let Some(value) = value {
        if takes(node, value) {
            values.push(value.try_clone(alloc)?)?;
        }
    }
    Ok(())
}

/// What is under a name.
pub(crate) fn under<'a>(tree: Option<&'a Tree>, name: &str) -> Option<&'a Tree>
    ensures { tree_at result ≡ option_and_then (λ d. Path.under d name.now) (tree_at tree.entry) }
{
    match tree {
        Some(tree) => tree.get(name),
        None => None,
    }
}

/// Adds texts of its format, where they are stored there and it takes texts alone.
fn push_texts(
    alloc: Global,
    node: &Node,
    schema: Option<&Tree>,
    values: &mut Vec<Tree>,
) -> Result<(), AllocError>
    ensures { OnOk result (trees_of values.new.items ≡ trees_of values.old.items ++ LeafValues.format_values (node_of node.now) (tree_at schema.entry)) }
{
    if !takes_texts_alone(node) {
        return Ok(());
    }
    let Some(Tree::Text(format)) = under(schema, "format") else {
        return Ok(());
    };
    for letters in texts_of_format(format.as_str()) {
        let value = text(alloc, letters)?;
        push_taken(alloc, node, Some(&value), values)?;
    }
    Ok(())
}

fn takes_texts_alone(node: &Node) -> bool
    ensures { result ≡ LeafValues.takes_texts_alone (node_of node.now) }
{
    match &node.sort {
        Sort::Scalar(scalar) => matches!(scalar.kind, ScalarKind::String),
        _ => false,
    }
}

/// Adds some values of the pools.
fn push_general(
    alloc: Global,
    general: &General,
    node: &Node,
    values: &mut Vec<Tree>,
) -> Result<(), AllocError>
    ensures { OnOk result (trees_of values.new.items ≡ trees_of values.old.items ++ LeafValues.general_values (general_of general.now) (node_of node.now)) }
{
    if let Sort::Open = &node.sort {
        return push_few(alloc, node, &general.any, values);
    }
    push_few(alloc, node, &general.integers, values)?;
    push_few(alloc, node, others_of(general, node), values)
}

/// The values besides the integers: the numbers for a scalar of numbers, else the strings.
fn others_of<'a>(general: &'a General, node: &Node) -> &'a [Tree]
    ensures { trees_of result.now ≡ LeafValues.others_of (general_of general.now) (node_of node.now) }
{
    match &node.sort {
        Sort::Scalar(scalar) => match scalar.kind {
            ScalarKind::Number => general.numbers.as_slice(),
            _ => general.strings.as_slice(),
        },
        _ => general.strings.as_slice(),
    }
}

/// Adds the first of those of a pool that are stored there.
fn push_few(
    alloc: Global,
    node: &Node,
    pool: &[Tree],
    values: &mut Vec<Tree>,
) -> Result<(), AllocError>
    ensures { OnOk result (trees_of values.new.items ≡ trees_of values.old.items ++ take LeafValues.few (filter (LeafValues.takes (node_of node.now)) (trees_of pool.now))) }
{
    let mut left = FEW;
    for value in pool {
        if left == 0 {
            return Ok(());
        }
        if takes(node, value) {
            values.push(value.try_clone(alloc)?)?;
            left -= 1;
        }
    }
    Ok(())
}
