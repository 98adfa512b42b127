//! The metadata of resources: what is no field of ObjectMeta is dropped.
ghost use Rattle.std.specs.Prelude.{◌≡◌, Some, map};
ghost use Rattle.jtree.specs.Data as tree;
ghost use Rattle.jtree.specs.View.{data_of};
ghost use Rattle.cluster.specs.Keywords.{is_embedded as is_embedded_of};
ghost use Rattle.cluster.specs.Metadata.{is_metadata as is_metadata_of, with_object_meta, metadata_pruned};
ghost use Rattle.cluster.specs.Internal.Trees.{schema_of, tree_with_meta, member_with_meta};

use crate::keywords::{is_set, keyword, member_schema};
use crate::object_meta::prune_fields;
use crate::pruning::EMBEDDED;
use jtree::{Items, Member, Members, Tree};
use std::alloc::Global;

/// Prunes the metadata of an object of a version, and of the embedded resources in it, to the fields of an ObjectMeta
/// (k8s.io/apimachinery, pkg/apis/meta/v1). Fields without a value are dropped too: null, an empty text, list or object, and a generation
/// of 0. It takes no memory.
pub fn prune_metadata(alloc: Global, schema: &Tree, object: &mut Tree)
    ensures { data_of object.new ≡ metadata_pruned (data_of schema.now) (data_of object.old) }
{
    prune_in_tree(alloc, true, Some(schema), object);
}

#[cycle(metadata)]
fn prune_in_tree(alloc: Global, is_resource: bool, schema: Option<&Tree>, tree: &mut Tree)
    ensures { tree.new ≡ tree_with_meta is_resource (schema_of schema.entry) tree.old }
{
    match tree {
        Tree::Object(members) => prune_in_object(alloc, is_resource, schema, members),
        Tree::List(items) => prune_in_list(alloc, is_resource, schema, items),
        _ => {}
    }
}

#[cycle(metadata)]
fn prune_in_object(alloc: Global, is_resource: bool, schema: Option<&Tree>, members: &mut Members)
    ensures { tree.object members.new ≡ with_object_meta is_resource (schema_of schema.entry) (tree.object members.old) }
{
    prune_in_members(alloc, is_resource, schema, &mut members.members);
}

#[cycle(metadata)]
fn prune_in_list(alloc: Global, is_resource: bool, schema: Option<&Tree>, items: &mut Items)
    ensures { tree.list items.new ≡ with_object_meta is_resource (schema_of schema.entry) (tree.list items.old) }
{
    prune_in_items(alloc, keyword(schema, "items"), &mut items.items);
}

#[cycle(metadata)]
fn prune_in_items(alloc: Global, schema: Option<&Tree>, items: &mut Vec<Tree>)
    ensures { items.new.items ≡ map (tree_with_meta (is_embedded_of (schema_of schema.entry)) (schema_of schema.entry)) items.old.items }
{
    for item in items.iter_mut() {
        prune_in_tree(alloc, is_set(schema, EMBEDDED), schema, item);
    }
}

#[cycle(metadata)]
fn prune_in_members(
    alloc: Global,
    is_resource: bool,
    schema: Option<&Tree>,
    members: &mut Vec<Member>,
)
    ensures { members.new.items ≡ map (member_with_meta is_resource (schema_of schema.entry)) members.old.items }
{
    for member in members.iter_mut() {
        prune_in_member(alloc, is_resource, schema, member);
    }
}

#[cycle(metadata)]
fn prune_in_member(alloc: Global, is_resource: bool, schema: Option<&Tree>, member: &mut Member)
    ensures { member.new ≡ member_with_meta is_resource (schema_of schema.entry) member.old }
{
    if is_metadata(is_resource, member.name.as_str()) {
        prune_fields(alloc, &mut member.tree);
    } else {
        let below = member_schema(schema, member.name.as_str());
        prune_in_tree(alloc, is_set(below, EMBEDDED), below, &mut member.tree);
    }
}

fn is_metadata(is_resource: bool, name: &str) -> bool
    ensures { result ≡ is_metadata_of is_resource name.now }
{
    is_resource && name == "metadata"
}
