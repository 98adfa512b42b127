//! Lengths and counts, `pattern`, `format` and `required`.
ghost use Rattle.std.specs.Prelude.{◌≡◌, ◌&&◌, ◌++◌, ℕ, List, IfOk, Some, length, chars, codes, option_map};
ghost use Rattle.std.specs.Option.{is_some};
ghost use Rattle.jtree.specs.Path.{member_at};
ghost use Rattle.jtree.specs.View.{data_of};
ghost use Rattle.judge.specs.Keywords.{texts, text_list, texts_of, names, is_at_least as is_at_least_of, is_at_most as is_at_most_of};
ghost use Rattle.judge.specs.Keywords.{items_count as items_count_of, members_count as members_count_of, passes_length, passes_items, passes_members};
ghost use Rattle.judge.specs.Keywords.{passes_pattern as passes_pattern_of, passes_format as passes_format_of, has_members};
ghost use Rattle.judge.specs.Keywords.{passes_required as passes_required_of};

use jtree::{Items, Members, Tree};
use std::alloc::AllocError;
use text_tests::{FormatTests, TextTests};

fn is_at_least(least: &Tree, count: usize) -> bool
    ensures { result ≡ is_at_least_of (Some (data_of least.now)) count }
{
    match least {
        Tree::Int(least) => *least as i128 <= count as i128,
        _ => true,
    }
}

fn is_at_most(most: &Tree, count: usize) -> bool
    ensures { result ≡ is_at_most_of (Some (data_of most.now)) count }
{
    match most {
        Tree::Int(most) => count as i128 <= *most as i128,
        _ => true,
    }
}

fn characters(text: &str) -> usize
    ensures { result ≡ length (chars text.now) }
{
    text.chars().count()
}

fn items_count(items: &Items) -> usize
    ensures { result ≡ items_count_of items.now }
{
    items.items.as_slice().len()
}

fn members_count(members: &Members) -> usize
    ensures { result ≡ members_count_of members.now }
{
    members.members.as_slice().len()
}

/// Whether a value is no string with fewer Unicode scalar values than the schema's `minLength`.
pub fn is_long(schema: &Members, value: &Tree) -> bool
    ensures { result ≡ passes_length (is_at_least_of (member_at (codes "minLength") schema.now)) (data_of value.now) }
{
    match value {
        Tree::Text(text) => match schema.get("minLength") {
            Some(least) => is_at_least(least, characters(text.as_str())),
            None => true,
        },
        _ => true,
    }
}

/// Whether a value is no string with more Unicode scalar values than the schema's `maxLength`.
pub fn is_short(schema: &Members, value: &Tree) -> bool
    ensures { result ≡ passes_length (is_at_most_of (member_at (codes "maxLength") schema.now)) (data_of value.now) }
{
    match value {
        Tree::Text(text) => match schema.get("maxLength") {
            Some(most) => is_at_most(most, characters(text.as_str())),
            None => true,
        },
        _ => true,
    }
}

pub(crate) fn has_many_items(schema: &Members, value: &Tree) -> bool
    ensures { result ≡ passes_items (is_at_least_of (member_at (codes "minItems") schema.now)) (data_of value.now) }
{
    match value {
        Tree::List(items) => match schema.get("minItems") {
            Some(least) => is_at_least(least, items_count(items)),
            None => true,
        },
        _ => true,
    }
}

pub(crate) fn has_few_items(schema: &Members, value: &Tree) -> bool
    ensures { result ≡ passes_items (is_at_most_of (member_at (codes "maxItems") schema.now)) (data_of value.now) }
{
    match value {
        Tree::List(items) => match schema.get("maxItems") {
            Some(most) => is_at_most(most, items_count(items)),
            None => true,
        },
        _ => true,
    }
}

pub(crate) fn has_many_members(schema: &Members, value: &Tree) -> bool
    ensures { result ≡ passes_members (is_at_least_of (member_at (codes "minProperties") schema.now)) (data_of value.now) }
{
    match value {
        Tree::Object(members) => match schema.get("minProperties") {
            Some(least) => is_at_least(least, members_count(members)),
            None => true,
        },
        _ => true,
    }
}

pub(crate) fn has_few_members(schema: &Members, value: &Tree) -> bool
    ensures { result ≡ passes_members (is_at_most_of (member_at (codes "maxProperties") schema.now)) (data_of value.now) }
{
    match value {
        Tree::Object(members) => match schema.get("maxProperties") {
            Some(most) => is_at_most(most, members_count(members)),
            None => true,
        },
        _ => true,
    }
}

pub(crate) fn passes_pattern<T: TextTests + FormatTests>(
    tests: &mut T,
    pattern: Option<&Tree>,
    value: &Tree,
) -> Result<bool, AllocError>
    ensures { IfOk result (λ yes. yes ≡ passes_pattern_of (texts T.matches T.is_format T.has_format) (option_map (λ t. data_of t.now) pattern.entry) (data_of value.now)) }
{
    match (pattern, value) {
        (Some(Tree::Text(pattern)), Tree::Text(text)) => {
            if pattern.as_str().is_empty() {
                return Ok(true);
            }
            Ok(tests.test(pattern.as_str(), text.as_str())?)
        }
        _ => Ok(true),
    }
}

pub(crate) fn passes_format<T: TextTests + FormatTests>(
    tests: &mut T,
    format: Option<&Tree>,
    value: &Tree,
) -> Result<bool, AllocError>
    ensures { IfOk result (λ yes. yes ≡ passes_format_of (texts T.matches T.is_format T.has_format) (option_map (λ t. data_of t.now) format.entry) (data_of value.now)) }
{
    match (format, value) {
        (Some(Tree::Text(format)), Tree::Text(text)) => {
            if !tests.knows(format.as_str()) {
                return Ok(true);
            }
            Ok(tests.test_format(format.as_str(), text.as_str())?)
        }
        _ => Ok(true),
    }
}

/// Whether an object has a member of a name, where it is a text.
fn has_name(members: &Members, name: &Tree) -> bool
    ensures { (rest : List (List ℕ)) → has_members members.now (text_list (data_of name.now) ++ rest) ≡ (result && has_members members.now rest) }
{
    match name {
        Tree::Text(name) => members.get(name.as_str()).is_some(),
        _ => true,
    }
}

fn has_names(members: &Members, names: &Items) -> bool
    ensures { result ≡ has_members members.now (texts_of names.now) }
{
    for name in &names.items {
        if !has_name(members, name) {
            return false;
        }
    }
    true
}

pub(crate) fn passes_required(schema: &Members, value: &Tree) -> bool
    ensures { result ≡ passes_required_of schema.now (data_of value.now) }
{
    match (schema.get("required"), value) {
        (Some(Tree::List(names)), Tree::Object(members)) => has_names(members, names),
        _ => true,
    }
}
