//! All leaves of a stored object, in order.
ghost use Rattle.std.specs.Prelude.{◌≡◌, ◌++◌, ℕ, ◌∷◌, [], OnOk, IfOk, IfErr, Some, map, option_map, codes};
ghost use Rattle.jtree.specs.Data.{Data};
ghost use Rattle.jtree.specs.Path;
ghost use Rattle.jtree.specs.View.{data_of};
ghost use Rattle.schema.specs.Document.Places.{Place};
ghost use Rattle.schema.specs.Document.Raw.{Raw};
ghost use Rattle.schema.specs.Nodes.ByPlace.{node_at};
ghost use Rattle.schema.specs.Nodes.Node as Nodes;
ghost use Rattle.schema.specs.Nodes.Shape.{IsRootOf};
ghost use Rattle.schema.specs.Nodes.View.{node_of};
ghost use Rattle.stored.specs.declared.fault.LFault.TheVariants.{NotStored};
ghost use Rattle.stored.specs.Objects.Becomes.{IsStored};
ghost use Rattle.stored.specs.Objects.Leaves;
ghost use Rattle.stored.specs.Objects.Leaves.{is_divided, elements_of, AreLeaves, AreApart, IsCovered};
ghost use Rattle.stored.specs.Internal.Pruning.{field_node};
ghost use Rattle.stored.specs.Internal.LeavesByLevel.{divides_object, divides_list, here, below, leaves_below, of_members, of_items, leaves_by_level};
ghost use Rattle.stored.specs.Internal.LeavesByLevel.{part_leaves, walked, added};

use crate::fault::LFault;
use crate::fields::field_named;
use crate::leaf::{Leaf, copy_texts, item_element, text_element};
use crate::storing::check_stored;
use jtree::{Items, Member, Members, Text, Tree};
use schema::{Fields, ListNode, ListType, MapNode, MapType, Node, Sort};
use std::alloc::{AllocError, Global};

/// The leaves of a stored object at its node: what an applier owns of it, each as the elements of its path (apiextensions.k8s.io/v1,
/// merge markers; Server-Side Apply, FieldsV1). A granular object or map has the leaves of each member, after `f:` and the name. A
/// set has one leaf for each item, `v:` and its compact JSON text. A map list has the leaves of each item, after `k:` and the
/// compact JSON text of its keys. Everything else is one leaf as a whole, and so is what is empty. The leaves are in the order of
/// members by the bytes of their names and of items by index. Each scalar and null belongs to exactly one, and at a node of a
/// schema that breaks no rule no leaf begins another.
///
/// `NotStored` where the object is not valid, or pruning or defaulting changes it. `NoMemory` where an allocation fails. Work is
/// linear in the object, the nodes and the leaves, but for the items of a set or a map list, which are sorted.
pub fn leaves(alloc: Global, node: &Node, tree: &Tree) -> Result<Vec<Leaf>, LFault>
    ensures leaves { IfOk result (λ ls. AreLeaves (node_of node.now) (data_of tree.now) (map elements_of ls.items)) }
    ensures stored { OnOk result (IsStored (node_of node.now) (data_of tree.now)) }
    ensures not_stored { IfErr result (λ e. e ≡ NotStored → IsStored (node_of node.now) (data_of tree.now) → ⊥) }
    ensures apart { IfOk result (λ ls. (raw : Raw) (root : Nodes.Node) (p : Place) → IsRootOf root raw → node_at root p ≡ Some (node_of node.now) → AreApart (map elements_of ls.items)) }
    ensures covered { OnOk result (IsCovered (node_of node.now) (data_of tree.now)) }
{
    tree.reveal_invariant();
    schema::laws::items_are_distinct();
    jtree::laws::texts_are_unique();
    if !check_stored(alloc, node, tree)? {
        return Err(LFault::NotStored);
    }
    let mut walk = Walk {
        way: Vec::new(alloc),
        leaves: Vec::new(alloc),
    };
    list_tree(alloc, &mut walk, tree, node)?;
    Ok(walk.leaves)
}

/// How far the walk over an object has come.
#[derive(Drop)]
struct Walk {
    /// The elements on the way to the place.
    way: Vec<Text>,
    /// The leaves so far.
    leaves: Vec<Leaf>,
}

impl Walk {
    /// Adds the place as a leaf.
    fn add_leaf(&mut self, alloc: Global) -> Result<(), AllocError>
        ensures { OnOk result (walked self.new ≡ added (walked self.old) (here ∷ [])) }
    {
        let elements = copy_texts(alloc, &self.way)?;
        self.leaves.push(Leaf { elements })?;
        Ok(())
    }
}

/// Adds the leaves of a value.
#[cycle(list)]
fn list_tree(alloc: Global, walk: &mut Walk, tree: &Tree, node: &Node) -> Result<(), AllocError>
    ensures { OnOk result (walked walk.new ≡ added (walked walk.old) (leaves_by_level (node_of node.now) (data_of tree.now))) }
{
    if is_divided(node, tree) {
        list_below(alloc, walk, tree, node)
    } else {
        walk.add_leaf(alloc)
    }
}

/// Whether the leaves of a value are those of its parts.
fn is_divided(node: &Node, tree: &Tree) -> bool
    ensures { result ≡ is_divided (node_of node.now) (data_of tree.now) }
{
    match (&node.sort, tree) {
        (Sort::Object(object), Tree::Object(members)) => {
            is_object_divided(object.map_type, members)
        }
        (Sort::Map(map), Tree::Object(members)) => is_object_divided(map.map_type, members),
        (Sort::List(list), Tree::List(items)) => is_list_divided(list.list_type, items),
        _ => false,
    }
}

fn is_object_divided(map_type: MapType, members: &Members) -> bool
    ensures { result ≡ divides_object map_type members.now }
{
    match map_type {
        MapType::Granular => !members.members.is_empty(),
        MapType::Atomic => false,
    }
}

fn is_list_divided(list_type: ListType, items: &Items) -> bool
    ensures { result ≡ divides_list list_type items.now }
{
    match list_type {
        ListType::Atomic => false,
        _ => !items.items.is_empty(),
    }
}

/// Adds the leaves of the parts of a value.
#[cycle(list)]
fn list_below(alloc: Global, walk: &mut Walk, tree: &Tree, node: &Node) -> Result<(), AllocError>
    ensures { OnOk result (walked walk.new ≡ added (walked walk.old) (leaves_below (node_of node.now) (data_of tree.now))) }
{
    match (&node.sort, tree) {
        (Sort::Object(object), Tree::Object(members)) => {
            list_fields(alloc, walk, members, &object.fields)
        }
        (Sort::Map(map), Tree::Object(members)) => list_values(alloc, walk, members, map),
        (Sort::List(list), Tree::List(items)) => list_items(alloc, walk, items, list),
        _ => Ok(()),
    }
}

/// Adds the leaves of an object with declared fields.
#[cycle(list)]
fn list_fields(
    alloc: Global,
    walk: &mut Walk,
    members: &Members,
    fields: &Fields,
) -> Result<(), AllocError>
    ensures { OnOk result (walked walk.new ≡ added (walked walk.old) (of_members (field_node fields.now) members.now)) }
{
    for member in &members.members {
        list_field(alloc, walk, member, fields)?;
    }
    Ok(())
}

/// Adds the leaves of a member, which is one leaf where its name is not declared.
#[cycle(list)]
fn list_field(
    alloc: Global,
    walk: &mut Walk,
    member: &Member,
    fields: &Fields,
) -> Result<(), AllocError>
    ensures { OnOk result (walked walk.new ≡ added (walked walk.old)
        (map (below (Path.name member.now.name) (codes "f:" ++ member.now.name)) (part_leaves (field_node fields.now member.now.name) (data_of member.now.tree)))) }
{
    match field_named(fields, member.name.as_str()) {
        Some(field) => list_named(alloc, walk, member, Some(&field.node)),
        None => list_named(alloc, walk, member, None),
    }
}

/// Adds the leaves of a map.
#[cycle(list)]
fn list_values(
    alloc: Global,
    walk: &mut Walk,
    members: &Members,
    map: &MapNode,
) -> Result<(), AllocError>
    ensures { OnOk result (walked walk.new ≡ added (walked walk.old) (of_members (λ k. Some map.now.value) members.now)) }
{
    for member in &members.members {
        list_named(alloc, walk, member, Some(&map.value.node))?;
    }
    Ok(())
}

/// Adds the leaves of a member with a node, or a member as one leaf.
#[cycle(list)]
fn list_named(
    alloc: Global,
    walk: &mut Walk,
    member: &Member,
    node: Option<&Node>,
) -> Result<(), AllocError>
    ensures { OnOk result (walked walk.new ≡ added (walked walk.old)
        (map (below (Path.name member.now.name) (codes "f:" ++ member.now.name)) (part_leaves (option_map (λ n. node_of n.now) node.entry) (data_of member.now.tree)))) }
{
    let depth = walk.way.len();
    walk.way
        .push(text_element(alloc, "f:", member.name.as_str())?)?;
    list_value(alloc, walk, &member.tree, node)?;
    walk.way.truncate(depth);
    Ok(())
}

/// Adds the leaves of a value with a node, or the value as one leaf.
#[cycle(list)]
fn list_value(
    alloc: Global,
    walk: &mut Walk,
    tree: &Tree,
    node: Option<&Node>,
) -> Result<(), AllocError>
    ensures { OnOk result (walked walk.new ≡ added (walked walk.old) (part_leaves (option_map (λ n. node_of n.now) node.entry) (data_of tree.now))) }
{
    match node {
        Some(node) => list_tree(alloc, walk, tree, node),
        None => walk.add_leaf(alloc),
    }
}

/// Adds the leaves of a set or a map list.
#[cycle(list)]
fn list_items(
    alloc: Global,
    walk: &mut Walk,
    items: &Items,
    list: &ListNode,
) -> Result<(), AllocError>
    ensures { OnOk result (walked walk.new ≡ added (walked walk.old) (of_items list.now.item (Leaves.item_element list.now.list_type list.now.keys.items) 0 items.now)) }
{
    for item in &items.items {
        list_item(alloc, walk, item, list)?;
    }
    Ok(())
}

/// Adds the leaves of an item, which may be at any index.
#[cycle(list)]
fn list_item(alloc: Global, walk: &mut Walk, item: &Tree, list: &ListNode) -> Result<(), AllocError>
    ensures { OnOk result ((i : ℕ) → walked walk.new ≡ added (walked walk.old)
        (map (below (Path.index i) (Leaves.item_element list.now.list_type list.now.keys.items (data_of item.now))) (leaves_by_level list.now.item (data_of item.now)))) }
{
    let depth = walk.way.len();
    walk.way.push(item_element(alloc, list, item)?)?;
    list_tree(alloc, walk, item, &list.item.node)?;
    walk.way.truncate(depth);
    Ok(())
}
