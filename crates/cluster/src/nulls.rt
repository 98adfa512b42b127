//! Nulls that have no place.
ghost use Rattle.std.specs.Prelude.{◌≡◌, Some, false, codes, map, filter};
ghost use Rattle.jtree.specs.Data as tree;
ghost use Rattle.jtree.specs.View.{data_of};
ghost use Rattle.cluster.specs.WithoutNulls.{refuses_null as refuses_null_of, is_dropped as is_dropped_of, without_nulls, object_without_nulls};
ghost use Rattle.cluster.specs.Internal.Trees.{schema_of, tree_without, member_without, is_left_member};

use crate::keywords::{is_schema, is_set, keyword, member_schema};
use crate::pruning::is_enveloped;
use jtree::{Items, Member, Members, Tree};

/// Drops the nulls of an object of a version that have no place, by the schema of the version ("nullable" of apiextensions.k8s.io/v1): the
/// members that are null where their schema is neither nullable nor has a default. Items stay, and so do `apiVersion`, `kind` and
/// `metadata` of the object. It takes no memory.
pub fn drop_nulls(schema: &Tree, object: &mut Tree)
    ensures { data_of object.new ≡ object_without_nulls (data_of schema.now) (data_of object.old) }
{
    drop_in_tree(true, Some(schema), object);
}

#[cycle(nulls)]
fn drop_in_tree(is_resource: bool, schema: Option<&Tree>, tree: &mut Tree)
    ensures { tree.new ≡ tree_without is_resource (schema_of schema.entry) tree.old }
{
    match tree {
        Tree::Object(members) => drop_in_object(is_resource, schema, members),
        Tree::List(items) => drop_in_list(is_resource, schema, items),
        _ => {}
    }
}

#[cycle(nulls)]
fn drop_in_object(is_resource: bool, schema: Option<&Tree>, members: &mut Members)
    ensures { tree.object members.new ≡ without_nulls is_resource (schema_of schema.entry) (tree.object members.old) }
{
    drop_in_members(is_resource, schema, &mut members.members);
    drop_members(is_resource, schema, &mut members.members);
}

#[cycle(nulls)]
fn drop_in_list(is_resource: bool, schema: Option<&Tree>, items: &mut Items)
    ensures { tree.list items.new ≡ without_nulls is_resource (schema_of schema.entry) (tree.list items.old) }
{
    drop_in_items(keyword(schema, "items"), &mut items.items);
}

#[cycle(nulls)]
fn drop_in_items(schema: Option<&Tree>, items: &mut Vec<Tree>)
    ensures { items.new.items ≡ map (tree_without false (schema_of schema.entry)) items.old.items }
{
    for item in items.iter_mut() {
        drop_in_tree(false, schema, item);
    }
}

#[cycle(nulls)]
fn drop_in_members(is_resource: bool, schema: Option<&Tree>, members: &mut Vec<Member>)
    ensures { members.new.items ≡ map (member_without is_resource (schema_of schema.entry)) members.old.items }
{
    for member in members.iter_mut() {
        drop_in_member(is_resource, schema, member);
    }
}

#[cycle(nulls)]
fn drop_in_member(is_resource: bool, schema: Option<&Tree>, member: &mut Member)
    ensures { member.new ≡ member_without is_resource (schema_of schema.entry) member.old }
{
    if !is_enveloped(is_resource, member.name.as_str()) {
        let below = member_schema(schema, member.name.as_str());
        drop_in_tree(false, below, &mut member.tree);
    }
}

fn drop_members(is_resource: bool, schema: Option<&Tree>, members: &mut Vec<Member>)
    ensures { members.new.items ≡ filter (is_left_member is_resource (schema_of schema.entry)) members.old.items }
{
    members.retain(|member| !is_dropped(is_resource, schema, member));
}

fn is_dropped(is_resource: bool, schema: Option<&Tree>, member: &Member) -> bool
    ensures { result ≡ is_dropped_of is_resource (schema_of schema.entry) member.now.name (data_of member.now.tree) }
{
    match &member.tree {
        Tree::Null => {
            !is_enveloped(is_resource, member.name.as_str())
                && refuses_null(member_schema(schema, member.name.as_str()))
        }
        _ => false,
    }
}

/// Whether a null has no place under a schema.
fn refuses_null(schema: Option<&Tree>) -> bool
    ensures { result ≡ refuses_null_of (schema_of schema.entry) }
{
    is_schema(schema) && (!is_set(schema, "nullable") && keyword(schema, "default").is_none())
}
