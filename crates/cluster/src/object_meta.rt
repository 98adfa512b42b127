//! The fields of an ObjectMeta.
ghost use Rattle.std.specs.Prelude.{◌≡◌, map, filter};
ghost use Rattle.jtree.specs.Data as tree;
ghost use Rattle.jtree.specs.View.{data_of};
ghost use Rattle.cluster.specs.Metadata.{is_owner_field as is_owner_field_of, is_managed_field as is_managed_field_of, is_empty_text as is_empty_text_of};
ghost use Rattle.cluster.specs.Metadata.{stays_in_entry as stays_in_entry_of, is_text_field as is_text_field_of, is_time_field as is_time_field_of};
ghost use Rattle.cluster.specs.Metadata.{is_collection_field as is_collection_field_of, is_meta_field as is_meta_field_of, has_no_value as has_no_value_of};
ghost use Rattle.cluster.specs.Metadata.{has_no_items as has_no_items_of, has_no_members as has_no_members_of};
ghost use Rattle.cluster.specs.Metadata.{stays_in_metadata as stays_in_metadata_of, has_entries as has_entries_of, object_meta, entries, entry};
ghost use Rattle.cluster.specs.WithoutNulls.{is_null as is_null_of};
ghost use Rattle.cluster.specs.Internal.Trees.{meta_tree, meta_member, entries_tree, entry_tree, stays_member, stays_entry_member};

use jtree::{Items, Member, Members, Tree};
use std::alloc::Global;

/// Prunes metadata to the fields of an ObjectMeta that have a value.
pub(crate) fn prune_fields(alloc: Global, metadata: &mut Tree)
    ensures { metadata.new ≡ meta_tree metadata.old }
{
    match metadata {
        Tree::Object(members) => prune_members(members),
        Tree::Null => {
            *metadata = Tree::Object(Members {
                members: Vec::new(alloc),
            });
        }
        _ => {}
    }
}

fn prune_members(members: &mut Members)
    ensures { tree.object members.new ≡ object_meta (tree.object members.old) }
{
    prune_values(&mut members.members);
    drop_fields(&mut members.members);
}

fn prune_values(members: &mut Vec<Member>)
    ensures { members.new.items ≡ map meta_member members.old.items }
{
    for member in members.iter_mut() {
        prune_value(member);
    }
}

fn prune_value(member: &mut Member)
    ensures { member.new ≡ meta_member member.old }
{
    if has_entries(member.name.as_str()) {
        let managed = member.name.as_str() == "managedFields";
        prune_entries(managed, &mut member.tree);
    }
}

fn prune_entries(managed: bool, value: &mut Tree)
    ensures { value.new ≡ entries_tree managed value.old }
{
    match value {
        Tree::List(items) => prune_list(managed, items),
        _ => {}
    }
}

fn prune_list(managed: bool, items: &mut Items)
    ensures { tree.list items.new ≡ entries managed (tree.list items.old) }
{
    prune_each(managed, &mut items.items);
}

fn prune_each(managed: bool, items: &mut Vec<Tree>)
    ensures { items.new.items ≡ map (entry_tree managed) items.old.items }
{
    for item in items.iter_mut() {
        prune_entry(managed, item);
    }
}

fn prune_entry(managed: bool, value: &mut Tree)
    ensures { value.new ≡ entry_tree managed value.old }
{
    match value {
        Tree::Object(members) => prune_entry_object(managed, members),
        _ => {}
    }
}

fn prune_entry_object(managed: bool, members: &mut Members)
    ensures { tree.object members.new ≡ entry managed (tree.object members.old) }
{
    drop_in_entry(managed, &mut members.members);
}

fn drop_in_entry(managed: bool, members: &mut Vec<Member>)
    ensures { members.new.items ≡ filter (stays_entry_member managed) members.old.items }
{
    members.retain(|member| stays_in_entry(managed, member));
}

fn stays_in_entry(managed: bool, member: &Member) -> bool
    ensures { result ≡ stays_in_entry_of managed member.now.name (data_of member.now.tree) }
{
    let name = member.name.as_str();
    if managed {
        is_managed_field(name) && !(is_null(&member.tree) || is_empty_text(&member.tree))
    } else {
        is_owner_field(name) && !is_null(&member.tree)
    }
}

fn is_null(value: &Tree) -> bool
    ensures { result ≡ is_null_of (data_of value.now) }
{
    match value {
        Tree::Null => true,
        _ => false,
    }
}

fn is_empty_text(value: &Tree) -> bool
    ensures { result ≡ is_empty_text_of (data_of value.now) }
{
    match value {
        Tree::Text(text) => text.as_str().is_empty(),
        _ => false,
    }
}

fn is_owner_field(name: &str) -> bool
    ensures { result ≡ is_owner_field_of name.now }
{
    name == "apiVersion"
        || (name == "blockOwnerDeletion"
            || (name == "controller" || (name == "kind" || (name == "name" || name == "uid"))))
}

fn is_managed_field(name: &str) -> bool
    ensures { result ≡ is_managed_field_of name.now }
{
    name == "apiVersion"
        || (name == "fieldsType"
            || (name == "fieldsV1"
                || (name == "manager"
                    || (name == "operation" || (name == "subresource" || name == "time")))))
}

fn drop_fields(members: &mut Vec<Member>)
    ensures { members.new.items ≡ filter stays_member members.old.items }
{
    members.retain(|member| stays_in_metadata(member));
}

fn stays_in_metadata(member: &Member) -> bool
    ensures { result ≡ stays_in_metadata_of member.now.name (data_of member.now.tree) }
{
    is_meta_field(member.name.as_str()) && !has_no_value(member)
}

fn has_no_value(member: &Member) -> bool
    ensures { result ≡ has_no_value_of member.now.name (data_of member.now.tree) }
{
    match &member.tree {
        Tree::Null => true,
        Tree::Text(text) => text.as_str().is_empty(),
        Tree::List(items) => has_no_items(items),
        Tree::Object(members) => has_no_members(members),
        Tree::Int(number) => member.name.as_str() == "generation" && *number == 0,
        _ => false,
    }
}

fn has_no_items(items: &Items) -> bool
    ensures { result ≡ has_no_items_of items.now }
{
    items.items.as_slice().is_empty()
}

fn has_no_members(members: &Members) -> bool
    ensures { result ≡ has_no_members_of members.now }
{
    members.members.as_slice().is_empty()
}

fn has_entries(name: &str) -> bool
    ensures { result ≡ has_entries_of name.now }
{
    name == "managedFields" || name == "ownerReferences"
}

fn is_meta_field(name: &str) -> bool
    ensures { result ≡ is_meta_field_of name.now }
{
    is_text_field(name) || (is_time_field(name) || is_collection_field(name))
}

fn is_text_field(name: &str) -> bool
    ensures { result ≡ is_text_field_of name.now }
{
    name == "generateName"
        || (name == "name"
            || (name == "namespace"
                || (name == "resourceVersion" || (name == "selfLink" || name == "uid"))))
}

fn is_time_field(name: &str) -> bool
    ensures { result ≡ is_time_field_of name.now }
{
    name == "creationTimestamp"
        || (name == "deletionGracePeriodSeconds"
            || (name == "deletionTimestamp" || name == "generation"))
}

fn is_collection_field(name: &str) -> bool
    ensures { result ≡ is_collection_field_of name.now }
{
    name == "annotations"
        || (name == "finalizers"
            || (name == "labels" || (name == "managedFields" || name == "ownerReferences")))
}
