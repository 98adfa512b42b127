//! Whether an object is valid.
ghost use Rattle.std.specs.Prelude.{◌≡◌, Decides, option_map};
ghost use Rattle.jtree.specs.Path.{member_at};
ghost use Rattle.jtree.specs.View.{data_of, items_of};
ghost use Rattle.schema.specs.Rules.Keywords.{any_item};
ghost use Rattle.schema.specs.Nodes.ByPlace.{field_at};
ghost use Rattle.schema.specs.Nodes.View.{node_of};
ghost use Rattle.stored.specs.Objects.Fault;
ghost use Rattle.stored.specs.Objects.Fault.{IsValid};
ghost use Rattle.stored.specs.Objects.StoredByParts;
ghost use Rattle.stored.specs.Internal.ValidByLevel;
ghost use Rattle.stored.specs.Internal.ValidByLevel.{true_if_any};

use crate::ascending::are_ordered;
use crate::constraints::{accepts_scalar, holds, is_within, meets_junctors, null_fails_enum};
use jtree::{Equality, Items, Member, Members, Text, Tree};
use schema::{Fields, ListNode, ListType, Node, Sort};

/// Whether an object is valid at a node: no part of it has a fault (OpenAPI 3.0, Schema Object; apiextensions.k8s.io/v1,
/// nullable and merge markers). It is judged as it is, and not completed first. It takes no memory. Work is linear in the
/// object, but for the items of a set or a map list that do not ascend, which are compared in pairs.
pub fn valid(node: &Node, tree: &Tree) -> bool
    ensures { Decides result (IsValid (node_of node.now) (data_of tree.now)) }
{
    node.reveal_invariant();
    tree.reveal_invariant();
    is_valid(node, tree)
}

#[cycle(valid)]
fn is_valid(node: &Node, tree: &Tree) -> bool
    ensures { result ≡ ValidByLevel.is_valid (node_of node.now) (data_of tree.now) }
{
    match (&node.sort, tree) {
        (Sort::Scalar(scalar), Tree::Null) => {
            node.nullable && !null_fails_enum(&scalar.validations.constraints)
        }
        (_, Tree::Null) => node.nullable,
        (Sort::Scalar(scalar), _) => {
            accepts_scalar(scalar.kind, tree) && holds(&scalar.validations, tree)
        }
        (Sort::Object(object), Tree::Object(members)) => {
            is_within(object.bounds, members_count(members) as u64)
                && (meets_junctors(&object.junctors, tree)
                    && (has_required(&object.fields, members)
                        && are_fields_valid(&object.fields, members)))
        }
        (Sort::Map(map), Tree::Object(members)) => {
            is_within(map.bounds, members_count(members) as u64)
                && are_values_valid(&map.value.node, members)
        }
        (Sort::List(list), Tree::List(items)) => {
            is_within(list.bounds, items_count(items) as u64)
                && (are_apart(list, items) && are_items_valid(&list.item.node, items))
        }
        (Sort::Open, _) => true,
        _ => false,
    }
}

pub(crate) fn members_count(members: &Members) -> usize
    ensures { result ≡ Fault.members_count members.now }
{
    members.members.as_slice().len()
}

pub(crate) fn items_count(items: &Items) -> usize
    ensures { result ≡ Fault.items_count items.now }
{
    items.items.as_slice().len()
}

/// Whether no required field is absent.
fn has_required(fields: &Fields, members: &Members) -> bool
    ensures { result ≡ ValidByLevel.has_required fields.now members.now }
{
    for field in &fields.fields {
        if field.required && members.get(field.name.as_str()).is_none() {
            return false;
        }
    }
    true
}

#[cycle(valid)]
fn are_fields_valid(fields: &Fields, members: &Members) -> bool
    ensures { result ≡ ValidByLevel.are_fields_valid fields.now members.now }
{
    for member in &members.members {
        if !is_member_valid(fields, member) {
            return false;
        }
    }
    true
}

/// Whether a member is valid at the node of its field, where it is declared.
#[cycle(valid)]
fn is_member_valid(fields: &Fields, member: &Member) -> bool
    ensures { result ≡ true_if_any (option_map (λ f. ValidByLevel.is_valid f.node (data_of member.now.tree)) (field_at member.now.name fields.now)) }
{
    for field in &fields.fields {
        if member.name == field.name {
            return is_valid(&field.node, &member.tree);
        }
    }
    true
}

#[cycle(valid)]
fn are_values_valid(node: &Node, members: &Members) -> bool
    ensures { result ≡ ValidByLevel.are_values_valid (node_of node.now) members.now }
{
    for member in &members.members {
        if !is_valid(node, &member.tree) {
            return false;
        }
    }
    true
}

#[cycle(valid)]
fn are_items_valid(node: &Node, items: &Items) -> bool
    ensures { result ≡ ValidByLevel.are_items_valid (node_of node.now) items.now }
{
    for item in &items.items {
        if !is_valid(node, item) {
            return false;
        }
    }
    true
}

/// Whether any two items may be in one list.
fn are_apart(list: &ListNode, items: &Items) -> bool
    ensures { result ≡ StoredByParts.are_apart (Fault.are_alike list.now.list_type list.now.keys.items) items.now }
{
    are_ordered(list, items) || are_apart_in_pairs(list, items)
}

/// The same where the items may be in any order.
fn are_apart_in_pairs(list: &ListNode, items: &Items) -> bool
    ensures { result ≡ StoredByParts.are_apart (Fault.are_alike list.now.list_type list.now.keys.items) items.now }
{
    let mut rest = items.items.as_slice();
    while let [item, later @ ..] = rest {
        if is_repeated(list, item, later) {
            return false;
        }
        rest = later;
    }
    true
}

/// Whether an item may not be in one list with one of those that follow.
fn is_repeated(list: &ListNode, item: &Tree, later: &[Tree]) -> bool
    ensures { result ≡ any_item (Fault.are_alike list.now.list_type list.now.keys.items (data_of item.now)) (items_of later.now) }
{
    for other in later {
        if are_alike(list, item, other) {
            return true;
        }
    }
    false
}

/// Whether two items may not be in one list: in a set those that count as the same, in a map list objects that agree on all keys.
fn are_alike(list: &ListNode, item: &Tree, other: &Tree) -> bool
    ensures { result ≡ Fault.are_alike list.now.list_type list.now.keys.items (data_of item.now) (data_of other.now) }
{
    match (list.list_type, item, other) {
        (ListType::Set(equality), _, _) => item.is_equal_by(other, equality),
        (ListType::Map(equality), Tree::Object(members), Tree::Object(others)) => {
            agree(equality, &list.keys, members, others)
        }
        _ => false,
    }
}

/// Whether two objects agree on all keys.
fn agree(equality: Equality, keys: &[Text], members: &Members, others: &Members) -> bool
    ensures { result ≡ Fault.agree equality keys.now members.now others.now }
{
    for key in keys {
        if !agree_at(equality, key.as_str(), members, others) {
            return false;
        }
    }
    true
}

/// Whether two objects have values under a name that count as the same, or both have none.
fn agree_at(equality: Equality, name: &str, members: &Members, others: &Members) -> bool
    ensures { result ≡ Fault.agree_at equality (member_at name.now members.now) (member_at name.now others.now) }
{
    match (members.get(name), others.get(name)) {
        (Some(value), Some(other)) => value.is_equal_by(other, equality),
        (None, None) => true,
        _ => false,
    }
}
