//! Objects without what stands at the paths that never occur.
ghost use Rattle.std.specs.Prelude.{◌≡◌, [], Some, IfOk, OnOk, map, option_map};
ghost use Rattle.jtree.specs.Data.{no_members};
ghost use Rattle.jtree.specs.View.{data_of, members_of};
ghost use Rattle.schema.specs.Nodes.View.{node_of};
ghost use Rattle.suggest.specs.View.{trees_of, texts_at};
ghost use Rattle.stored.specs.Internal.Defaulting.{joined};
ghost use Rattle.suggest.specs.Internal.Parts.{place_at};
ghost use Rattle.suggest.specs.Suggested.Without.{place_of_field, left_at, left_member, taken_out, members_left, items_left};

use crate::varying::is_path_among;
use explain::{Step, path_below};
use jtree::{Items, Member, Members, Text, Tree};
use schema::{Fields, Node, Sort};
use std::alloc::{AllocError, Global};

/// Copies of these objects without what stands at the paths.
pub(crate) fn objects_without(
    alloc: Global,
    without: &[&str],
    root: &Node,
    objects: &[Tree],
) -> Result<Vec<Tree>, AllocError>
    ensures { IfOk result (λ ts. trees_of ts.items ≡ map (λ v. taken_out (texts_at without.now) [] (node_of root.now) v) (trees_of objects.now)) }
{
    let mut copies = Vec::with_capacity(alloc, objects.len())?;
    for object in objects {
        copies.push(tree_without(alloc, without, "", root, object)?)?;
    }
    Ok(copies)
}

/// A copy of the value at the node with this path.
#[cycle(without)]
fn tree_without(
    alloc: Global,
    without: &[&str],
    path: &str,
    node: &Node,
    tree: &Tree,
) -> Result<Tree, AllocError>
    ensures { IfOk result (λ t. data_of t ≡ taken_out (texts_at without.now) path.now (node_of node.now) (data_of tree.now)) }
{
    match (&node.sort, tree) {
        (Sort::Object(object), Tree::Object(members)) => {
            let members = fields_without(alloc, without, path, &object.fields, members)?;
            Ok(Tree::Object(members))
        }
        (Sort::Map(map), Tree::Object(members)) => {
            let below = path_below(alloc, path, Step::Value)?;
            let members = values_without(alloc, without, &below, &map.value.node, members)?;
            Ok(Tree::Object(members))
        }
        (Sort::List(list), Tree::List(items)) => {
            let below = path_below(alloc, path, Step::Item)?;
            let items = items_without(alloc, without, &below, &list.item.node, items)?;
            Ok(Tree::List(items))
        }
        _ => tree.try_clone(alloc),
    }
}

/// Copies of the members of an object.
#[cycle(without)]
fn fields_without(
    alloc: Global,
    without: &[&str],
    path: &str,
    fields: &Fields,
    members: &Members,
) -> Result<Members, AllocError>
    ensures { IfOk result (λ ms. ms ≡ members_left (texts_at without.now) (place_of_field path.now fields.now) members.now) }
{
    let mut copies = Vec::new(alloc);
    for member in &members.members {
        let tree = field_without(alloc, without, path, fields, member)?;
        push_member(alloc, &mut copies, &member.name, tree)?;
    }
    Ok(Members { members: copies })
}

/// A copy of the value of a member of an object, unless its path is one of those.
#[cycle(without)]
fn field_without(
    alloc: Global,
    without: &[&str],
    path: &str,
    fields: &Fields,
    member: &Member,
) -> Result<Option<Tree>, AllocError>
    ensures { IfOk result (λ t. option_map (λ d. data_of d) t ≡ left_at (texts_at without.now) (place_of_field path.now fields.now member.now.name) (λ P. taken_out (texts_at without.now) P.path P.node (data_of member.now.tree)) (data_of member.now.tree)) }
{
    let name = member.name.as_str();
    for field in &fields.fields {
        if name == field.name.as_str() {
            let below = path_below(alloc, path, Step::Field(name))?;
            return part_without(alloc, without, &below, &field.node, &member.tree);
        }
    }
    Ok(Some(member.tree.try_clone(alloc)?))
}

/// Copies of the members of a map, whose values have this path.
#[cycle(without)]
fn values_without(
    alloc: Global,
    without: &[&str],
    path: &str,
    node: &Node,
    members: &Members,
) -> Result<Members, AllocError>
    ensures { IfOk result (λ ms. ms ≡ members_left (texts_at without.now) (λ k. Some (place_at path.now (node_of node.now))) members.now) }
{
    let mut copies = Vec::new(alloc);
    for member in &members.members {
        let tree = part_without(alloc, without, path, node, &member.tree)?;
        push_member(alloc, &mut copies, &member.name, tree)?;
    }
    Ok(Members { members: copies })
}

/// Copies of the items of a list, which have this path.
#[cycle(without)]
fn items_without(
    alloc: Global,
    without: &[&str],
    path: &str,
    node: &Node,
    items: &Items,
) -> Result<Items, AllocError>
    ensures { IfOk result (λ ds. ds ≡ items_left (texts_at without.now) (place_at path.now (node_of node.now)) items.now) }
{
    let mut copies = Vec::new(alloc);
    for item in &items.items {
        if let Some(tree) = part_without(alloc, without, path, node, item)? {
            copies.push(tree)?;
        }
    }
    Ok(Items { items: copies })
}

/// A copy of the value at the node with this path, unless the path is one of those.
#[cycle(without)]
fn part_without(
    alloc: Global,
    without: &[&str],
    path: &str,
    node: &Node,
    tree: &Tree,
) -> Result<Option<Tree>, AllocError>
    ensures { IfOk result (λ t. option_map (λ d. data_of d) t ≡ left_at (texts_at without.now) (Some (place_at path.now (node_of node.now))) (λ P. taken_out (texts_at without.now) P.path P.node (data_of tree.now)) (data_of tree.now)) }
{
    if is_path_among(path, without) {
        return Ok(None);
    }
    Ok(Some(tree_without(alloc, without, path, node, tree)?))
}

/// Adds a member of this name, where there is a value.
fn push_member(
    alloc: Global,
    members: &mut Vec<Member>,
    name: &Text,
    tree: Option<Tree>,
) -> Result<(), AllocError>
    ensures { OnOk result (members_of members.new.items ≡ joined (members_of members.old.items) (left_member name.now (option_map (λ d. data_of d) tree) no_members)) }
{
    if let Some(tree) = tree {
        let name = name.copy(alloc)?;
        members.push(Member { name, tree })?;
    }
    Ok(())
}
