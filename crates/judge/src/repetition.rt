//! Which items of a set or a map list repeat an earlier one.
ghost use Rattle.std.specs.Prelude.{◌≡◌, ◌<◌, ◌≤◌, ◌&&◌, ◌++◌, not, ℕ, List, length, option_map};
ghost use Rattle.jtree.specs.Path.{item_at};
ghost use Rattle.jtree.specs.View.{data_of, items_of};
ghost use Rattle.judge.specs.Keywords.{text_list, texts_of, names, same_if_there as same_if_there_of, agree, are_of_keys as are_of_keys_of};
ghost use Rattle.judge.specs.Keywords.{are_alike as are_alike_of, any_before, any_before_if, repeats as repeats_of, some_index};
ghost use Rattle.judge.specs.Keywords.{passes_distinct as passes_distinct_of};
ghost use Rattle.judge.specs.Asked.{repeats_by as repeats_by_of, some_repeats as some_repeats_of, schemas_of};

use jtree::{Items, Members, Tree};

fn same_if_there(left: Option<&Tree>, right: Option<&Tree>) -> bool
    ensures { result ≡ same_if_there_of (option_map (λ t. data_of t.now) left.entry) (option_map (λ t. data_of t.now) right.entry) }
{
    match (left, right) {
        (None, None) => true,
        (Some(left), Some(right)) => left.has_value_of(right),
        _ => false,
    }
}

/// Whether two objects agree on a key, where it is a text.
fn agree_on(key: &Tree, left: &Members, right: &Members) -> bool
    ensures { (rest : List (List ℕ)) → agree (text_list (data_of key.now) ++ rest) left.now right.now ≡ (result && agree rest left.now right.now) }
{
    match key {
        Tree::Text(key) => same_if_there(left.get(key.as_str()), right.get(key.as_str())),
        _ => true,
    }
}

fn agree_on_all(keys: &Items, left: &Members, right: &Members) -> bool
    ensures { result ≡ agree (texts_of keys.now) left.now right.now }
{
    for key in &keys.items {
        if !agree_on(key, left, right) {
            return false;
        }
    }
    true
}

/// Whether two items are objects that agree on the keys.
fn are_of_keys(keys: Option<&Tree>, left: &Tree, right: &Tree) -> bool
    ensures { result ≡ are_of_keys_of (names (option_map (λ t. data_of t.now) keys.entry)) (data_of left.now) (data_of right.now) }
{
    match (left, right) {
        (Tree::Object(left), Tree::Object(right)) => match keys {
            Some(Tree::List(keys)) => agree_on_all(keys, left, right),
            _ => true,
        },
        _ => false,
    }
}

/// Whether two items may not stand in one list.
fn are_alike(list_type: Option<&Tree>, keys: Option<&Tree>, left: &Tree, right: &Tree) -> bool
    ensures { result ≡ are_alike_of (option_map (λ t. data_of t.now) list_type.entry) (names (option_map (λ t. data_of t.now) keys.entry)) (data_of left.now) (data_of right.now) }
{
    match list_type {
        Some(Tree::Text(name)) => match name.as_str() {
            "set" => left.has_value_of(right),
            "map" => are_of_keys(keys, left, right),
            _ => false,
        },
        _ => false,
    }
}

/// Whether an item is like one of those before an index.
fn is_like_earlier(
    list_type: Option<&Tree>,
    keys: Option<&Tree>,
    items: &[Tree],
    index: usize,
    item: &Tree,
) -> bool
    requires { index ≤ length items.now }
    ensures { result ≡ any_before (are_alike_of (option_map (λ t. data_of t.now) list_type.entry) (names (option_map (λ t. data_of t.now) keys.entry))) index (items_of items.now) (data_of item.now) }
{
    for i in 0..index {
        if are_alike(list_type, keys, &items[i], item) {
            return true;
        }
    }
    false
}

/// Whether an item repeats an earlier one of a set or a map list. Work is linear in the index.
fn repeats_in(list_type: Option<&Tree>, keys: Option<&Tree>, items: &[Tree], index: usize) -> bool
    requires { index < length items.now }
    ensures { result ≡ any_before_if (are_alike_of (option_map (λ t. data_of t.now) list_type.entry) (names (option_map (λ t. data_of t.now) keys.entry))) index (items_of items.now) (item_at index (items_of items.now)) }
{
    match list_type {
        Some(_) => is_like_earlier(list_type, keys, items, index, &items[index]),
        None => false,
    }
}

fn repeats(schema: &Members, items: &[Tree], index: usize) -> bool
    requires { index < length items.now }
    ensures { result ≡ repeats_of schema.now (items_of items.now) index }
{
    let keys = schema.get("x-kubernetes-list-map-keys");
    repeats_in(schema.get("x-kubernetes-list-type"), keys, items, index)
}

fn repeats_by(schema: &Tree, items: &[Tree], index: usize) -> bool
    requires { index < length items.now }
    ensures { result ≡ repeats_by_of (data_of schema.now) (items_of items.now) index }
{
    match schema {
        Tree::Object(schema) => repeats(schema, items, index),
        _ => false,
    }
}

/// Whether an item repeats an earlier one by one of the schemas.
pub(crate) fn some_repeats(schemas: &[&Tree], items: &[Tree], index: usize) -> bool
    requires { index < length items.now }
    ensures { result ≡ some_repeats_of (schemas_of schemas.now) (items_of items.now) index }
{
    for schema in schemas {
        if repeats_by(schema, items, index) {
            return true;
        }
    }
    false
}

fn are_distinct(schema: &Members, items: &[Tree]) -> bool
    ensures { result ≡ not (some_index (repeats_of schema.now (items_of items.now)) 0 (items_of items.now)) }
{
    for i in 0..items.len() {
        if repeats(schema, items, i) {
            return false;
        }
    }
    true
}

pub(crate) fn passes_distinct(schema: &Members, value: &Tree) -> bool
    ensures { result ≡ passes_distinct_of schema.now (data_of value.now) }
{
    match value {
        Tree::List(items) => are_distinct(schema, &items.items),
        _ => true,
    }
}
