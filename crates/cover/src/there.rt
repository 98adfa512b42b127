//! Whether a path is there in a value.
ghost use Rattle.std.specs.Prelude.{◌≡◌, List, option_map};
ghost use Rattle.jtree.specs.View.{data_of};
ghost use Rattle.cover.specs.There.{has_items, has_values};
ghost use Rattle.cover.specs.There;
ghost use Rattle.cover.specs.Internal.Ways.{path_of};

use crate::way::PathStep;
use jtree::{Items, Members, Tree};

/// Whether the path of these steps is there: each name on the way, and an item of each list and of each map, with the rest of the
/// path in every one. Where a value is wanted, each value at the end of the path is that one.
#[cycle(there)]
pub(crate) fn is_there(value: Option<&Tree>, steps: &[PathStep], tree: &Tree) -> bool
    ensures { result ≡ There.is_there (option_map (λ w. data_of w.now) value.entry) (path_of steps.now) (data_of tree.now) }
{
    let [step, rest @ ..] = steps else {
        return is_one(value, tree);
    };
    match (step, tree) {
        (PathStep::Field(name), Tree::Object(members)) => match members.get(name.as_str()) {
            Some(below) => is_there(value, rest, below),
            None => false,
        },
        (PathStep::Item, Tree::List(items)) => is_in_items(value, rest, items),
        (PathStep::Value, Tree::Object(members)) => is_in_values(value, rest, members),
        _ => false,
    }
}

/// Whether any value is wanted, or this one.
fn is_one(value: Option<&Tree>, tree: &Tree) -> bool
    ensures { result ≡ There.is_one (option_map (λ w. data_of w.now) value.entry) (data_of tree.now) }
{
    match value {
        Some(value) => tree == value,
        None => true,
    }
}

#[cycle(there)]
fn is_in_items(value: Option<&Tree>, rest: &[PathStep], items: &Items) -> bool
    ensures { result ≡ has_items (There.is_there (option_map (λ w. data_of w.now) value.entry) (path_of rest.now)) items.now }
{
    for item in &items.items {
        if !is_there(value, rest, item) {
            return false;
        }
    }
    !items.items.is_empty()
}

#[cycle(there)]
fn is_in_values(value: Option<&Tree>, rest: &[PathStep], members: &Members) -> bool
    ensures { result ≡ has_values (There.is_there (option_map (λ w. data_of w.now) value.entry) (path_of rest.now)) members.now }
{
    for member in &members.members {
        if !is_there(value, rest, &member.tree) {
            return false;
        }
    }
    !members.members.is_empty()
}
