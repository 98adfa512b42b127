//! The order of the items of a list by what distinguishes them.
ghost use Rattle.std.specs.Prelude.{◌≡◌, map};
ghost use Rattle.std.specs.Option.{option_cmp};
ghost use Rattle.jtree.specs.Equality.{keyed_cmp};
ghost use Rattle.jtree.specs.View.{data_of, items_of};
ghost use Rattle.stored.specs.Internal.ItemKeys;
ghost use Rattle.stored.specs.Internal.ItemKeys.{value_at, values_cmp, item_cmp};

use jtree::{Equality, Items, Members, Text, Tree};
use schema::{ListNode, ListType};
use std::cmp::Ordering;

/// Whether one pass, without memory, shows that no item repeats another. It does where the items of a set or a map list ascend;
/// in an atomic list no item ever repeats another.
pub(crate) fn are_ordered(list: &ListNode, items: &Items) -> bool
    ensures { result ≡ ItemKeys.are_ordered list.now.list_type list.now.keys.items items.now }
{
    match list.list_type {
        ListType::Atomic => true,
        ListType::Set(_) | ListType::Map(_) => ascend(list, items),
    }
}

/// Whether each item comes before the next one.
fn ascend(list: &ListNode, items: &Items) -> bool
    ensures { result ≡ ItemKeys.ascend (item_cmp list.now.list_type list.now.keys.items) items.now }
{
    let mut rest = items.items.as_slice();
    while let [item, later @ ..] = rest {
        if !is_before_first(list, item, later) {
            return false;
        }
        rest = later;
    }
    true
}

/// Whether an item comes before the first of those that follow, if there is one.
fn is_before_first(list: &ListNode, item: &Tree, later: &[Tree]) -> bool
    ensures { result ≡ ItemKeys.is_before_first (item_cmp list.now.list_type list.now.keys.items) (data_of item.now) (items_of later.now) }
{
    match later.first() {
        Some(next) => compare_items(list, item, next).is_lt(),
        None => true,
    }
}

/// Two items in the order of what distinguishes them: in a set the items themselves, in a map list the values under the keys,
/// after all items that are no objects.
fn compare_items(list: &ListNode, item: &Tree, other: &Tree) -> Ordering
    ensures { result ≡ item_cmp list.now.list_type list.now.keys.items (data_of item.now) (data_of other.now) }
{
    match (list.list_type, item, other) {
        (ListType::Set(equality), _, _) => item.compare_by(other, equality),
        (ListType::Map(equality), Tree::Object(members), Tree::Object(others)) => {
            compare_values(equality, &list.keys, members, others)
        }
        (ListType::Map(_), Tree::Object(_), _) => Ordering::Greater,
        (ListType::Map(_), _, Tree::Object(_)) => Ordering::Less,
        _ => Ordering::Equal,
    }
}

/// The values of two objects under the keys, one key after the other, where an absent value comes first.
fn compare_values(
    equality: Equality,
    keys: &[Text],
    members: &Members,
    others: &Members,
) -> Ordering
    ensures { result ≡ values_cmp (map (value_at equality members.now) keys.now) (map (value_at equality others.now) keys.now) }
{
    for key in keys {
        let order = compare_at(equality, key.as_str(), members, others);
        if order.is_ne() {
            return order;
        }
    }
    Ordering::Equal
}

/// The values of two objects under a name, where an absent one comes first.
fn compare_at(equality: Equality, name: &str, members: &Members, others: &Members) -> Ordering
    ensures { result ≡ option_cmp keyed_cmp (value_at equality members.now name.now) (value_at equality others.now name.now) }
{
    match (members.get(name), others.get(name)) {
        (Some(value), Some(other)) => value.compare_by(other, equality),
        (Some(_), None) => Ordering::Greater,
        (None, Some(_)) => Ordering::Less,
        (None, None) => Ordering::Equal,
    }
}
