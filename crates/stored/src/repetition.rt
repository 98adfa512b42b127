//! Which items of a list repeat another.
ghost use Rattle.std.specs.Prelude.{◌≡◌, ◌<◌, ◌||◌, ℕ, List, Bool, Option, IfOk, OnOk, length, map, option_map};
ghost use Rattle.std.proofs.Common.{get_or};
ghost use Rattle.jtree.specs.Equality.{keyed};
ghost use Rattle.jtree.specs.Path.{item_at};
ghost use Rattle.jtree.specs.View.{data_of};
ghost use Rattle.stored.specs.Objects.Fault;
ghost use Rattle.stored.specs.Objects.Fault.{are_alike, has_alike_before};
ghost use Rattle.stored.specs.Internal.ItemKeys;
ghost use Rattle.stored.specs.Internal.ItemKeys.{ItemKey, item_key, has_key, passes, HasKeys};

use crate::ascending::are_ordered;
use crate::validity::items_count;
use jtree::{Equality, Items, Members, Text, Tree, TreeKey};
use schema::{ListNode, ListType};
use std::alloc::{AllocError, Global};
use std::collections::BTreeSet;

/// Of each item of a list whether it may not be in one list with one before it. Items that ascend are compared in one pass; of
/// others the keys are kept in a sorted set.
pub(crate) fn repeats(
    alloc: Global,
    list: &ListNode,
    items: &Items,
) -> Result<Vec<bool>, AllocError>
    ensures count { IfOk result (λ v. length v.items ≡ Fault.items_count items.now) }
    ensures each { IfOk result (λ v. (i : ℕ) (b : Bool) → i < Fault.items_count items.now → get_or v.items i b ≡ has_alike_before (are_alike list.now.list_type list.now.keys.items) i items.now (item_at i items.now)) }
{
    if are_ordered(list, items) {
        return vec![in alloc; false; items_count(items)];
    }
    repeats_by_keys(alloc, list, items)
}

/// The same where the items may be in any order.
fn repeats_by_keys(alloc: Global, list: &ListNode, items: &Items) -> Result<Vec<bool>, AllocError>
    ensures count { IfOk result (λ v. length v.items ≡ Fault.items_count items.now) }
    ensures each { IfOk result (λ v. (i : ℕ) (b : Bool) → i < Fault.items_count items.now → get_or v.items i b ≡ has_alike_before (are_alike list.now.list_type list.now.keys.items) i items.now (item_at i items.now)) }
{
    let mut seen = BTreeSet::new(alloc);
    let mut repeated = Vec::with_capacity(alloc, items.items.len())?;
    for item in &items.items {
        repeated.push(is_seen(alloc, list, item, &mut seen)?)?;
    }
    Ok(repeated)
}

/// Whether the key of an item is among those of the items before it, to which it is added.
fn is_seen<'a>(
    alloc: Global,
    list: &ListNode,
    item: &'a Tree,
    seen: &mut BTreeSet<Vec<Option<TreeKey<'a>>>>,
) -> Result<bool, AllocError>
    ensures answer { IfOk result (λ found. (held : ItemKey → Bool) → HasKeys seen.old held → found ≡ passes held (item_key list.now.list_type list.now.keys.items (data_of item.now))) }
    ensures added { OnOk result ((held : ItemKey → Bool) → HasKeys seen.old held → HasKeys seen.new (λ k. has_key (item_key list.now.list_type list.now.keys.items (data_of item.now)) k || held k)) }
{
    match key_of(alloc, list, item)? {
        Some(key) => Ok(!seen.insert(key)?),
        None => Ok(false),
    }
}

/// What distinguishes an item: in a set the item itself, in a map list the values of an object under the keys.
fn key_of<'a>(
    alloc: Global,
    list: &ListNode,
    item: &'a Tree,
) -> Result<Option<Vec<Option<TreeKey<'a>>>>, AllocError>
    ensures { IfOk result (λ key. option_map ItemKeys.key_of key ≡ item_key list.now.list_type list.now.keys.items (data_of item.now)) }
{
    match (list.list_type, item) {
        (ListType::Set(equality), _) => {
            let mut key = Vec::with_capacity(alloc, 1)?;
            key.push(Some(TreeKey {
                tree: item,
                equality,
            }))?;
            Ok(Some(key))
        }
        (ListType::Map(equality), Tree::Object(members)) => {
            Ok(Some(values_at(alloc, equality, &list.keys, members)?))
        }
        _ => Ok(None),
    }
}

/// The values of an object under the keys, in the order of the keys.
fn values_at<'a>(
    alloc: Global,
    equality: Equality,
    keys: &[Text],
    members: &'a Members,
) -> Result<Vec<Option<TreeKey<'a>>>, AllocError>
    ensures { IfOk result (λ values. ItemKeys.key_of values ≡ map (ItemKeys.value_at equality members.now) keys.now) }
{
    let mut values = Vec::with_capacity(alloc, keys.len())?;
    for key in keys {
        values.push(value_at(equality, key.as_str(), members))?;
    }
    Ok(values)
}

/// The value of an object under a name, if there is one.
fn value_at<'a>(equality: Equality, name: &str, members: &'a Members) -> Option<TreeKey<'a>>
    ensures { option_map keyed result ≡ ItemKeys.value_at equality members.now name.now }
{
    match members.get(name) {
        Some(tree) => Some(TreeKey { tree, equality }),
        None => None,
    }
}
