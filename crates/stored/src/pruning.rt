//! Pruning: members that no node declares are dropped.
ghost use Rattle.std.specs.Prelude.{◌≡◌, Some, map, filter};
ghost use Rattle.jtree.specs.Data as tree;
ghost use Rattle.jtree.specs.View.{data_of};
ghost use Rattle.schema.specs.Nodes.View.{node_of};
ghost use Rattle.stored.specs.Objects.Becomes.{IsPruned};
ghost use Rattle.stored.specs.Internal.Pruning.{pruned, field_node, is_declared_member, pruned_member, pruned_tree};

use crate::fields::field_named;
use jtree::{Items, Member, Members, Tree};
use schema::{Fields, Node, Sort};

/// Prunes a value at its node, in place ("field pruning" of apiextensions.k8s.io/v1): from an object at an object node that
/// does not keep undeclared fields the members that are not declared are dropped, at each level that has a node. It takes no
/// memory.
pub fn prune(node: &Node, tree: &mut Tree)
    ensures { IsPruned (node_of node.now) (data_of tree.old) (data_of tree.new) }
{
    prune_tree(node, tree);
}

/// Prunes the value by its levels.
#[cycle(prune)]
fn prune_tree(node: &Node, tree: &mut Tree)
    ensures { tree.new ≡ pruned_tree (node_of node.now) tree.old }
{
    match tree {
        Tree::Object(members) => prune_object(node, members),
        Tree::List(items) => prune_list(node, items),
        _ => {}
    }
}

#[cycle(prune)]
fn prune_object(node: &Node, members: &mut Members)
    ensures { tree.object members.new ≡ pruned (node_of node.now) (tree.object members.old) }
{
    match &node.sort {
        Sort::Object(object) => {
            prune_fields(&object.fields, &mut members.members);
            if !object.preserves {
                drop_undeclared(&object.fields, &mut members.members);
            }
        }
        Sort::Map(map) => prune_values(&map.value.node, &mut members.members),
        _ => {}
    }
}

#[cycle(prune)]
fn prune_list(node: &Node, items: &mut Items)
    ensures { tree.list items.new ≡ pruned (node_of node.now) (tree.list items.old) }
{
    if let Sort::List(list) = &node.sort {
        prune_items(&list.item.node, &mut items.items);
    }
}

#[cycle(prune)]
fn prune_fields(fields: &Fields, members: &mut Vec<Member>)
    ensures { members.new.items ≡ map (pruned_member (field_node fields.now)) members.old.items }
{
    for member in members.iter_mut() {
        if let Some(field) = field_named(fields, member.name.as_str()) {
            prune_tree(&field.node, &mut member.tree);
        }
    }
}

#[cycle(prune)]
fn prune_values(node: &Node, members: &mut Vec<Member>)
    ensures { members.new.items ≡ map (pruned_member (λ k. Some (node_of node.now))) members.old.items }
{
    for member in members.iter_mut() {
        prune_tree(node, &mut member.tree);
    }
}

#[cycle(prune)]
fn prune_items(node: &Node, items: &mut Vec<Tree>)
    ensures { items.new.items ≡ map (pruned_tree (node_of node.now)) items.old.items }
{
    for item in items.iter_mut() {
        prune_tree(node, item);
    }
}

/// Drops the members that are not declared.
fn drop_undeclared(fields: &Fields, members: &mut Vec<Member>)
    ensures { members.new.items ≡ filter (is_declared_member fields.now) members.old.items }
{
    members.retain(|member| field_named(fields, member.name.as_str()).is_some());
}
