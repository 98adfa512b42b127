//! Defaulting: what is declared, and absent or a null that is not accepted, gets its default.
ghost use Rattle.std.specs.Prelude.{◌≡◌, ◌++◌, OnOk, Some, None, IfOk, IfSome, option_map};
ghost use Rattle.std.specs.Option.{option_to_list};
ghost use Rattle.jtree.specs.Data as tree;
ghost use Rattle.jtree.specs.View.{data_of};
ghost use Rattle.schema.specs.Nodes.View.{node_of};
ghost use Rattle.stored.specs.Objects.Parts.{at};
ghost use Rattle.stored.specs.Objects.Becomes.{IsFilled, admitted, filled_under};
ghost use Rattle.stored.specs.Internal.Fields.{declared_of};
ghost use Rattle.stored.specs.Internal.Defaulting.{AreFilledFields, AreFilledItems, AreFilledValues, IsFilledAt, IsPassed, tree_in};

use jtree::{Items, Member, Members, Tree};
use schema::{Field, Fields, Node, Sort};
use std::alloc::{AllocError, Global};
use std::cmp::Ordering;
use std::collections::VecDeque;

/// The value filled with the defaults at and below its node ("defaulting" and "nullable" of apiextensions.k8s.io/v1). A
/// declared field that is absent, or a null that its node does not accept, gets its default, which is filled in turn. Such a
/// null is dropped where it has no default, and from a map. It takes memory for what it fills in, and for lists of what there
/// was.
#[cycle(fill)]
pub(crate) fn fill(alloc: Global, node: &Node, tree: Tree) -> Result<Tree, AllocError>
    ensures { IfOk result (λ t. IsFilled (node_of node.now) (data_of tree) (data_of t)) }
{
    match tree {
        Tree::Object(members) => Ok(Tree::Object(fill_object(alloc, node, members)?)),
        Tree::List(items) => Ok(Tree::List(fill_list(alloc, node, items)?)),
        tree => Ok(tree),
    }
}

#[cycle(fill)]
fn fill_object(alloc: Global, node: &Node, members: Members) -> Result<Members, AllocError>
    ensures { IfOk result (λ ns. IsFilled (node_of node.now) (tree.object members) (tree.object ns)) }
{
    match &node.sort {
        Sort::Object(object) => fill_fields(alloc, &object.fields, members),
        Sort::Map(map) => fill_values(alloc, &map.value.node, members),
        _ => Ok(members),
    }
}

#[cycle(fill)]
fn fill_list(alloc: Global, node: &Node, items: Items) -> Result<Items, AllocError>
    ensures { IfOk result (λ es. IsFilled (node_of node.now) (tree.list items) (tree.list es)) }
{
    match &node.sort {
        Sort::List(list) => fill_items(alloc, &list.item.node, items),
        _ => Ok(items),
    }
}

#[cycle(fill)]
fn fill_items(alloc: Global, node: &Node, items: Items) -> Result<Items, AllocError>
    ensures { IfOk result (λ es. AreFilledItems (node_of node.now) items es) }
{
    let mut filled = Vec::with_capacity(alloc, items.items.len())?;
    for item in items.items {
        let tree = fill(alloc, node, item)?;
        tree.reveal_invariant();
        filled.push(tree)?;
    }
    Ok(Items { items: filled })
}

#[cycle(fill)]
fn fill_values(alloc: Global, node: &Node, members: Members) -> Result<Members, AllocError>
    ensures { IfOk result (λ ns. AreFilledValues (node_of node.now) members ns) }
{
    let mut filled = Vec::with_capacity(alloc, members.members.len())?;
    for member in members.members {
        push_some(&mut filled, fill_value(alloc, node, member)?)?;
    }
    Ok(Members { members: filled })
}

#[cycle(fill)]
fn fill_value(alloc: Global, node: &Node, member: Member) -> Result<Option<Member>, AllocError>
    ensures { IfOk result (λ m. IsFilledAt member.name (option_map (at (node_of node.now)) (admitted (node_of node.now) (Some (data_of member.tree)))) m) }
{
    let Some(tree) = admit(node, member.tree) else {
        return Ok(None);
    };
    let tree = fill(alloc, node, tree)?;
    tree.reveal_invariant();
    let name = member.name;
    Ok(Some(Member { name, tree }))
}

/// The members and the fields are both in the order of their names, so one walk over both merges them.
#[cycle(fill)]
fn fill_fields(alloc: Global, fields: &Fields, members: Members) -> Result<Members, AllocError>
    ensures { IfOk result (λ ns. AreFilledFields fields.now members ns) }
{
    let mut filled = Vec::with_capacity(alloc, members.members.len())?;
    let mut rest = VecDeque::from_vec(members.members);
    for field in &fields.fields {
        let found = pass_to(&mut rest, field.name.as_str(), &mut filled)?;
        push_some(&mut filled, fill_field(alloc, field, found)?)?;
    }
    filled.append(&mut rest.into_vec())?;
    Ok(Members { members: filled })
}

#[cycle(fill)]
fn fill_field(
    alloc: Global,
    field: &Field,
    found: Option<Member>,
) -> Result<Option<Member>, AllocError>
    requires { IfSome found (λ m. m.name ≡ field.now.name) }
    ensures { IfOk result (λ m. IsFilledAt field.now.name (filled_under (Some (declared_of field.now)) (tree_in found)) m) }
{
    let Some(member) = found else {
        return fill_default(alloc, field);
    };
    let Some(tree) = admit(&field.node, member.tree) else {
        return fill_default(alloc, field);
    };
    let tree = fill(alloc, &field.node, tree)?;
    tree.reveal_invariant();
    let name = member.name;
    Ok(Some(Member { name, tree }))
}

/// The default of a field, filled in turn.
#[cycle(fill)]
fn fill_default(alloc: Global, field: &Field) -> Result<Option<Member>, AllocError>
    ensures { IfOk result (λ m. IsFilledAt field.now.name (filled_under (Some (declared_of field.now)) None) m) }
{
    let Some(default) = &field.default else {
        return Ok(None);
    };
    let tree = fill(alloc, &field.node, default.try_clone(alloc)?)?;
    tree.reveal_invariant();
    let name = field.name.copy(alloc)?;
    Ok(Some(Member { name, tree }))
}

/// The value, and `None` for a null that the node does not accept.
fn admit(node: &Node, tree: Tree) -> Option<Tree>
    ensures { option_map data_of result ≡ admitted (node_of node.now) (Some (data_of tree)) }
{
    match tree {
        Tree::Null => {
            if node.nullable {
                Some(Tree::Null)
            } else {
                None
            }
        }
        tree => Some(tree),
    }
}

/// Passes the members before a name on, and takes out the one of the name.
fn pass_to(
    members: &mut VecDeque<Member>,
    name: &str,
    passed: &mut Vec<Member>,
) -> Result<Option<Member>, AllocError>
    ensures { IfOk result (λ found. IsPassed name.now members.old.items members.new.items passed.old.items passed.new.items found) }
{
    while let Some(member) = members.pop_front() {
        match member.name.as_str().cmp(name) {
            Ordering::Less => passed.push(member)?,
            Ordering::Equal => return Ok(Some(member)),
            Ordering::Greater => {
                members.push_front(member)?;
                return Ok(None);
            }
        }
    }
    Ok(None)
}

fn push_some(members: &mut Vec<Member>, member: Option<Member>) -> Result<(), AllocError>
    ensures { OnOk result (members.new.items ≡ members.old.items ++ option_to_list member) }
{
    if let Some(member) = member {
        members.push(member)?;
    }
    Ok(())
}
