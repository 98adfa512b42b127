//! Whether defaulting leaves a value as it is.
ghost use Rattle.std.specs.Prelude.{◌≡◌, Some, None, Decides, option_map};
ghost use Rattle.jtree.specs.Path.{member_at};
ghost use Rattle.jtree.specs.View.{data_of};
ghost use Rattle.schema.specs.Nodes.View.{node_of};
ghost use Rattle.stored.specs.Objects.Becomes.{is_nullable, IsFilled};
ghost use Rattle.stored.specs.Internal.FilledTest;
ghost use Rattle.stored.specs.Internal.FilledTest.{stays, is_null_default, all_values, all_items};

use jtree::{Items, Members, Tree};
use schema::{Field, Fields, Node, Sort};

/// Whether defaulting leaves a value at its node as it is. It takes no memory.
pub(crate) fn is_filled(node: &Node, tree: &Tree) -> bool
    ensures { Decides result (IsFilled (node_of node.now) (data_of tree.now) (data_of tree.now)) }
{
    node.reveal_invariant();
    tree.reveal_invariant();
    is_tree_filled(node, tree)
}

#[cycle(is_filled)]
fn is_tree_filled(node: &Node, tree: &Tree) -> bool
    ensures { result ≡ FilledTest.is_filled (node_of node.now) (data_of tree.now) }
{
    match (&node.sort, tree) {
        (Sort::Object(object), Tree::Object(members)) => {
            are_fields_filled(&object.fields, members)
        }
        (Sort::Map(map), Tree::Object(members)) => are_values_filled(&map.value.node, members),
        (Sort::List(list), Tree::List(items)) => are_items_filled(&list.item.node, items),
        _ => true,
    }
}

#[cycle(is_filled)]
fn are_fields_filled(fields: &Fields, members: &Members) -> bool
    ensures { result ≡ FilledTest.are_fields_filled fields.now members.now }
{
    for field in &fields.fields {
        if !is_field_filled(field, members) {
            return false;
        }
    }
    true
}

/// Whether what is under the name of a field stays.
#[cycle(is_filled)]
fn is_field_filled(field: &Field, members: &Members) -> bool
    ensures { result ≡ stays (is_nullable (node_of field.now.node)) (option_map data_of field.now.default) (λ v. FilledTest.is_filled (node_of field.now.node) v) (member_at field.now.name members.now) }
{
    match members.get(field.name.as_str()) {
        None => field.default.is_none(),
        Some(Tree::Null) => field.node.nullable || is_null(&field.default),
        Some(value) => is_tree_filled(&field.node, value),
    }
}

fn is_null(default: &Option<Tree>) -> bool
    ensures { result ≡ is_null_default (option_map data_of default.now) }
{
    match default {
        Some(Tree::Null) => true,
        _ => false,
    }
}

#[cycle(is_filled)]
fn are_values_filled(node: &Node, members: &Members) -> bool
    ensures { result ≡ all_values (λ v. stays (is_nullable (node_of node.now)) None (λ w. FilledTest.is_filled (node_of node.now) w) (Some v)) members.now }
{
    for member in &members.members {
        if !is_value_filled(node, &member.tree) {
            return false;
        }
    }
    true
}

/// Whether a value of a map stays.
#[cycle(is_filled)]
fn is_value_filled(node: &Node, tree: &Tree) -> bool
    ensures { result ≡ stays (is_nullable (node_of node.now)) None (λ w. FilledTest.is_filled (node_of node.now) w) (Some (data_of tree.now)) }
{
    match tree {
        Tree::Null => node.nullable,
        tree => is_tree_filled(node, tree),
    }
}

#[cycle(is_filled)]
fn are_items_filled(node: &Node, items: &Items) -> bool
    ensures { result ≡ all_items (λ v. FilledTest.is_filled (node_of node.now) v) items.now }
{
    for item in &items.items {
        if !is_tree_filled(node, item) {
            return false;
        }
    }
    true
}
