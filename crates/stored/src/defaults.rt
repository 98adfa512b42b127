//! Which defaults of a schema are not good.
ghost use Rattle.std.specs.Prelude.{◌≡◌, ◌++◌, Decides, OnOk, IfOk, map, option_map, string_bytes};
ghost use Rattle.jtree.specs.Pointer.{name_token};
ghost use Rattle.jtree.specs.View.{data_of};
ghost use Rattle.schema.specs.Nodes.View.{node_of};
ghost use Rattle.schema.specs.Rules.Breaks.{reported};
ghost use Rattle.stored.specs.Objects.Fault.{IsValid};
ghost use Rattle.stored.specs.Schemas.Defaults.{IsGoodDefault};
ghost use Rattle.stored.specs.Internal.DefaultList.{own_default, defaults_of, defaults_in_fields, defaults_in_field, AreAdded};

use crate::all_faults::faults;
use crate::defaulting::fill;
use crate::is_pruned::is_pruned;
use jtree::{Tree, push_name};
use schema::{Below, Field, Fields, Node, Rule, Sort, Violation};
use std::alloc::{AllocError, Global};

/// Adds the places below a node whose defaults are not good, in path order. The pointer is that of the node.
#[cycle(defaults)]
pub(crate) fn find_bad(
    alloc: Global,
    node: &Node,
    pointer: &str,
    found: &mut Vec<Violation>,
) -> Result<(), AllocError>
    ensures { OnOk result (AreAdded pointer.now (defaults_of (node_of node.now)) (map reported found.old.items) (map reported found.new.items)) }
{
    match &node.sort {
        Sort::Object(object) => find_bad_fields(alloc, &object.fields, pointer, found),
        Sort::Map(map) => {
            find_bad_below(alloc, &map.value, pointer, "additionalProperties", found)
        }
        Sort::List(list) => find_bad_below(alloc, &list.item, pointer, "items", found),
        Sort::Scalar(_) | Sort::Open => Ok(()),
    }
}

/// Adds what is found below a keyword.
#[cycle(defaults)]
fn find_bad_below(
    alloc: Global,
    node: &Below,
    pointer: &str,
    keyword: &str,
    found: &mut Vec<Violation>,
) -> Result<(), AllocError>
    ensures { OnOk result (AreAdded (pointer.now ++ name_token keyword.now) (defaults_of node.now) (map reported found.old.items) (map reported found.new.items)) }
{
    let place = pointer_below(alloc, pointer, keyword)?;
    find_bad(alloc, &node.node, place.as_str(), found)
}

#[cycle(defaults)]
fn find_bad_fields(
    alloc: Global,
    fields: &Fields,
    pointer: &str,
    found: &mut Vec<Violation>,
) -> Result<(), AllocError>
    ensures { OnOk result (AreAdded pointer.now (defaults_in_fields fields.now) (map reported found.old.items) (map reported found.new.items)) }
{
    for field in &fields.fields {
        find_bad_field(alloc, field, pointer, found)?;
    }
    Ok(())
}

#[cycle(defaults)]
fn find_bad_field(
    alloc: Global,
    field: &Field,
    pointer: &str,
    found: &mut Vec<Violation>,
) -> Result<(), AllocError>
    ensures { OnOk result (AreAdded pointer.now (defaults_in_field field.now) (map reported found.old.items) (map reported found.new.items)) }
{
    let properties = pointer_below(alloc, pointer, "properties")?;
    let place = pointer_below(alloc, properties.as_str(), field.name.as_str())?;
    add_bad(alloc, field, place.as_str(), found)?;
    find_bad(alloc, &field.node, place.as_str(), found)
}

/// Adds the place of a field whose default is not good.
fn add_bad(
    alloc: Global,
    field: &Field,
    pointer: &str,
    found: &mut Vec<Violation>,
) -> Result<(), AllocError>
    ensures { OnOk result (AreAdded pointer.now (own_default (node_of field.now.node) (option_map data_of field.now.default)) (map reported found.old.items) (map reported found.new.items)) }
{
    if let Some(default) = &field.default {
        if !is_good(alloc, &field.node, default)? {
            found.push(Violation {
                pointer: String::from_str(alloc, pointer)?,
                rule: Rule::V14,
            })?;
        }
    }
    Ok(())
}

/// Whether pruning leaves a default as it is, and it is valid once it is filled.
fn is_good(alloc: Global, node: &Node, default: &Tree) -> Result<bool, AllocError>
    ensures { IfOk result (λ b. Decides b (IsGoodDefault (node_of node.now) (data_of default.now))) }
{
    if !is_pruned(node, default) {
        return Ok(false);
    }
    let value = fill(alloc, node, default.try_clone(alloc)?)?;
    value.reveal_invariant();
    Ok(is_faultless(alloc, node, &value)?)
}

/// Whether an object is valid, in time that is close to linear.
pub(crate) fn is_faultless(alloc: Global, node: &Node, tree: &Tree) -> Result<bool, AllocError>
    ensures { IfOk result (λ b. Decides b (IsValid (node_of node.now) (data_of tree.now))) }
{
    Ok(faults(alloc, node, tree)?.as_slice().is_empty())
}

/// The pointer of a member, by the pointer of its object.
fn pointer_below(alloc: Global, pointer: &str, name: &str) -> Result<String, AllocError>
    ensures { IfOk result (λ s. string_bytes s ≡ pointer.now ++ name_token name.now) }
{
    let mut longer = String::from_str(alloc, pointer)?;
    match push_name(&mut longer, name) {
        Ok(()) => Ok(longer),
        Err(_fault) => Err(AllocError),
    }
}
