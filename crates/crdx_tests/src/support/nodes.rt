//! Nodes, and nodes as texts.
use schema::{
    Bounds, Field, ListNode, ListType, MapNode, MapType, Node, ObjectNode, ScalarKind, Sort,
};
use std::alloc::Global;
use std::fmt::Write;
use std::test::Fail;

/// The node: its sort and its parts, without the constraints of scalars.
pub fn node_text(alloc: Global, node: &Node) -> Result<String, Fail> {
    let mut out = String::from_str(alloc, sort_keyword(&node.sort))?;
    push_flag(&mut out, node.nullable, "nullable")?;
    if let Some(description) = &node.description {
        push_keyword(&mut out, "description", description.as_str())?;
    }
    match &node.sort {
        Sort::Object(object) => push_object(alloc, &mut out, object)?,
        Sort::Map(map) => push_map(&mut out, map)?,
        Sort::List(list) => push_list(&mut out, list)?,
        Sort::Scalar(_) | Sort::Open => {}
    }
    Ok(out)
}

fn sort_keyword(sort: &Sort) -> &str {
    match sort {
        Sort::Scalar(scalar) => match scalar.kind {
            ScalarKind::Boolean => "boolean",
            ScalarKind::Integer => "integer",
            ScalarKind::Number => "number",
            ScalarKind::String => "string",
            ScalarKind::IntOrString => "int-or-string",
        },
        Sort::Object(_) => "object",
        Sort::Map(_) => "map",
        Sort::List(_) => "list",
        Sort::Open => "open",
    }
}

/// A space and a keyword, where it holds.
pub fn push_flag(out: &mut String, is: bool, keyword: &str) -> Result<(), Fail> {
    if is {
        write!(out, " {keyword}")?;
    }
    Ok(())
}

/// A space, a name, and what it equals.
pub fn push_keyword(out: &mut String, name: &str, keyword: &str) -> Result<(), Fail> {
    Ok(write!(out, " {name}={keyword}")?)
}

fn push_count(out: &mut String, name: &str, count: Option<u64>) -> Result<(), Fail> {
    match count {
        Some(count) => Ok(write!(out, " {name}={count}")?),
        None => Ok(()),
    }
}

fn push_bounds(out: &mut String, bounds: &Bounds) -> Result<(), Fail> {
    push_count(out, "least", bounds.least)?;
    push_count(out, "most", bounds.most)
}

fn push_object(alloc: Global, out: &mut String, object: &ObjectNode) -> Result<(), Fail> {
    for field in &object.fields.fields {
        push_field(alloc, out, field)?;
    }
    push_flag(out, object.preserves, "preserves")?;
    push_flag(out, object.map_type == MapType::Atomic, "atomic")?;
    push_bounds(out, &object.bounds)
}

fn push_field(alloc: Global, out: &mut String, field: &Field) -> Result<(), Fail> {
    push_keyword(out, field.name.as_str(), sort_keyword(&field.node.sort))?;
    push_flag(out, field.required, "required")?;
    match &field.default {
        Some(default) => push_keyword(out, "default", default.to_text(alloc)?.as_str()),
        None => Ok(()),
    }
}

fn push_map(out: &mut String, map: &MapNode) -> Result<(), Fail> {
    push_keyword(out, "of", sort_keyword(&map.value.node.sort))?;
    push_flag(out, map.map_type == MapType::Atomic, "atomic")?;
    push_bounds(out, &map.bounds)
}

fn push_list(out: &mut String, list: &ListNode) -> Result<(), Fail> {
    push_keyword(out, "of", sort_keyword(&list.item.node.sort))?;
    push_flag(out, matches!(list.list_type, ListType::Set(_)), "set")?;
    push_flag(out, matches!(list.list_type, ListType::Map(_)), "map")?;
    for key in &list.keys {
        push_keyword(out, "key", key.as_str())?;
    }
    push_bounds(out, &list.bounds)
}

/// The node of the first field of an object.
pub fn first_field(root: &Node) -> Result<&Node, Fail> {
    let Sort::Object(object) = &root.sort else {
        return Err(Fail::from("no object"));
    };
    match object.fields.fields.as_slice() {
        [field, ..] => Ok(&field.node),
        [] => Err(Fail::from("no field")),
    }
}
