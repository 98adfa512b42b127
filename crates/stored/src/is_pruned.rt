//! Whether pruning leaves a value as it is.
ghost use Rattle.std.specs.Prelude.{◌≡◌, Some, true, Decides};
ghost use Rattle.jtree.specs.Data as tree;
ghost use Rattle.jtree.specs.View.{data_of};
ghost use Rattle.schema.specs.Nodes.View.{node_of};
ghost use Rattle.stored.specs.Objects.Becomes.{IsPruned};
ghost use Rattle.stored.specs.Internal.Pruning;
ghost use Rattle.stored.specs.Internal.Pruning.{by_node, field_node, are_pruned, are_items_pruned};

use crate::fields::field_named;
use jtree::{Items, Member, Members, Tree};
use schema::{Fields, Node, Sort};

/// Whether pruning leaves a value at its node as it is. It takes no memory.
pub(crate) fn is_pruned(node: &Node, tree: &Tree) -> bool
    ensures { Decides result (IsPruned (node_of node.now) (data_of tree.now) (data_of tree.now)) }
{
    tree.reveal_invariant();
    is_tree_pruned(tree, node)
}

#[cycle(is_pruned)]
fn is_tree_pruned(tree: &Tree, node: &Node) -> bool
    ensures { result ≡ Pruning.is_pruned (node_of node.now) (data_of tree.now) }
{
    match tree {
        Tree::Object(members) => is_object_pruned(members, node),
        Tree::List(items) => is_list_pruned(items, node),
        _ => true,
    }
}

#[cycle(is_pruned)]
fn is_object_pruned(members: &Members, node: &Node) -> bool
    ensures { result ≡ Pruning.is_pruned (node_of node.now) (tree.object members.now) }
{
    match &node.sort {
        Sort::Object(object) => are_fields_pruned(members, &object.fields, object.preserves),
        Sort::Map(map) => are_values_pruned(members, &map.value.node),
        _ => true,
    }
}

#[cycle(is_pruned)]
fn is_list_pruned(items: &Items, node: &Node) -> bool
    ensures { result ≡ Pruning.is_pruned (node_of node.now) (tree.list items.now) }
{
    match &node.sort {
        Sort::List(list) => are_each_pruned(items, &list.item.node),
        _ => true,
    }
}

#[cycle(is_pruned)]
fn are_fields_pruned(members: &Members, fields: &Fields, preserves: bool) -> bool
    ensures { result ≡ are_pruned (field_node fields.now) preserves members.now }
{
    for member in &members.members {
        if !is_member_pruned(member, fields, preserves) {
            return false;
        }
    }
    true
}

#[cycle(is_pruned)]
fn is_member_pruned(member: &Member, fields: &Fields, preserves: bool) -> bool
    ensures { result ≡ by_node (field_node fields.now member.now.name) (λ N. Pruning.is_pruned N (data_of member.now.tree)) preserves }
{
    match field_named(fields, member.name.as_str()) {
        Some(field) => is_tree_pruned(&member.tree, &field.node),
        None => preserves,
    }
}

#[cycle(is_pruned)]
fn are_values_pruned(members: &Members, node: &Node) -> bool
    ensures { result ≡ are_pruned (λ k. Some (node_of node.now)) true members.now }
{
    for member in &members.members {
        if !is_tree_pruned(&member.tree, node) {
            return false;
        }
    }
    true
}

#[cycle(is_pruned)]
fn are_each_pruned(items: &Items, node: &Node) -> bool
    ensures { result ≡ are_items_pruned (node_of node.now) items.now }
{
    for item in &items.items {
        if !is_tree_pruned(item, node) {
            return false;
        }
    }
    true
}
