//! The first number of a JSON value that is not an integer of 64 bits: where it is, and how it is written.
ghost use Rattle.std.specs.Prelude.{◌≡◌, ◌++◌, ℕ, List, true, Some, IfOk, OnOk, MatchOption, is_some, option_map, string_bytes};
ghost use Rattle.serde_json.specs.Data as json;
ghost use Rattle.serde_json.specs.Data.{Num, number, array, object};
ghost use Rattle.serde_json.specs.Read.{of_json, number_of};
ghost use Rattle.serde_json.specs.View.{view, items_view, members_view};
ghost use Rattle.json.specs.Value.{value_view};
ghost use Rattle.jtree.specs.PathOrder.{IsFirst};
ghost use Rattle.jtree.specs.Pointer.{pointer, token};
ghost use Rattle.jtree.specs.Reads.{tree_of, IsJson};
ghost use Rattle.jtree.specs.Refusal.{value_at, IsOtherNumberAt};
ghost use Rattle.jtree.specs.Internal.Steps.{step_of, path_of, part_of};

use crate::pointer::{push_index, push_name};
use crate::read::MOST_DEPTH;
use json::{Reader, Scratch};
use serde_json::{Map, Value};
use std::alloc::{AllocError, Global};

/// A step of a path: to the member of a name, or to the item at an index.
#[derive(Clone, Copy)]
pub(crate) enum Step<'a> {
    Name(&'a str),
    Index(usize),
}

/// The path to the first number, in path order, that is not an integer of 64 bits. `None` where all numbers are.
#[cycle(find)]
pub(crate) fn find_other_number(
    alloc: Global,
    value: &Value,
) -> Result<Option<Vec<Step<'_>>>, AllocError>
    ensures { IfOk result (λ o. MatchOption o (is_some (tree_of (view value.now)) ≡ true) (λ path. IsFirst (IsOtherNumberAt (view value.now)) (path_of path.items))) }
{
    match value {
        Value::Number(number) => match number.as_i64() {
            Some(_) => Ok(None),
            None => Ok(Some(Vec::new(alloc))),
        },
        Value::Array(values) => find_in_items(alloc, values),
        Value::Object(map) => find_in_members(alloc, map),
        Value::Null | Value::Bool(_) | Value::String(_) => Ok(None),
    }
}

#[cycle(find)]
fn find_in_items(alloc: Global, values: &Vec<Value>) -> Result<Option<Vec<Step<'_>>>, AllocError>
    ensures { let v = array (items_view values.now.items) in IfOk result (λ o. MatchOption o (is_some (tree_of v) ≡ true) (λ path. IsFirst (IsOtherNumberAt v) (path_of path.items))) }
{
    for (index, value) in values.iter().enumerate() {
        if let Some(mut path) = find_other_number(alloc, value)? {
            path.insert(0, Step::Index(index))?;
            return Ok(Some(path));
        }
    }
    Ok(None)
}

#[cycle(find)]
fn find_in_members(
    alloc: Global,
    map: &Map<String, Value>,
) -> Result<Option<Vec<Step<'_>>>, AllocError>
    ensures { let v = object (members_view map.now.entries) in IfOk result (λ o. MatchOption o (is_some (tree_of v) ≡ true) (λ path. IsFirst (IsOtherNumberAt v) (path_of path.items))) }
{
    for (key, value) in map.iter() {
        if let Some(mut path) = find_other_number(alloc, value)? {
            path.insert(0, Step::Name(key.as_str()))?;
            return Ok(Some(path));
        }
    }
    Ok(None)
}

/// The pointer of a path.
pub(crate) fn pointer_text(alloc: Global, path: &[Step<'_>]) -> Result<String, AllocError>
    ensures { IfOk result (λ s. string_bytes s ≡ pointer (path_of path.now)) }
{
    let mut text = String::new(alloc);
    for step in path {
        push_step(&mut text, *step)?;
    }
    Ok(text)
}

fn push_step(text: &mut String, step: Step<'_>) -> Result<(), AllocError>
    ensures { OnOk result (string_bytes text.new ≡ string_bytes text.old ++ token (step_of step.entry)) }
{
    match step {
        Step::Name(name) => push_name(text, name),
        Step::Index(index) => push_index(text, index as u64),
    }
    .map_err(|_| AllocError)
}

/// The number at a path of a document, as it is written there.
pub(crate) fn number_text(
    alloc: Global,
    bytes: &[u8],
    path: &[Step<'_>],
) -> Result<String, AllocError>
    requires { (v : json.Data) × IsJson bytes.now v × IsOtherNumberAt v (path_of path.now) }
    ensures { IfOk result (λ s. (v : json.Data) → IsJson bytes.now v → option_map number (number_of (string_bytes s)) ≡ value_at v (path_of path.now)) }
{
    let text = str::from_utf8(bytes).unwrap();
    let mut scratch = Scratch::new(alloc);
    let mut reader = Reader::new(text, &mut scratch)?;
    match json::Value::read(alloc, &mut reader, MOST_DEPTH) {
        Ok(document) => String::from_str(alloc, number_at(&document, path).unwrap()),
        Err(_) => Err(AllocError),
    }
}

#[cycle(number_at)]
fn number_at<'a>(value: &json::Value<'a>, path: &[Step<'_>]) -> Option<&'a str>
    ensures { (v : json.Data) (n : Num) → of_json (value_view value.now) ≡ Some v → value_at v (path_of path.now) ≡ Some (number n) → (s : List ℕ) × (option_map (λ t. t.now) result ≡ Some s) × (number_of s ≡ Some n) }
{
    match path {
        [] => value.as_number(),
        [step, rest @ ..] => number_at(part_by(value, *step)?, rest),
    }
}

fn part_by<'v, 'a>(value: &'v json::Value<'a>, step: Step<'_>) -> Option<&'v json::Value<'a>>
    ensures { option_map (λ w. value_view w.now) result ≡ part_of (value_view value.now) (step_of step.entry) }
{
    match step {
        Step::Name(name) => value.get(name),
        Step::Index(index) => value.at(index),
    }
}
