//! The description of a field.
ghost use Rattle.std.specs.Prelude.{◌≡◌, ◌++◌, OnOk, IfOk, option_map, string_bytes};
ghost use Rattle.jtree.specs.Data;
ghost use Rattle.jtree.specs.View.{data_of};
ghost use Rattle.schema.specs.Nodes.View.{node_of, sort_of};
ghost use Rattle.explain.specs.Fields.Field.{list_type_of, map_type_of, keys_of, items_or_none, choices_of};
ghost use Rattle.explain.specs.Fields.TypeText;
ghost use Rattle.explain.specs.Fields.View.{field_of};
ghost use Rattle.explain.specs.Internal.ListedByLevel.{listed_as};

use crate::field::Field;
use jtree::{Items, Text, Tree};
use schema::{ListType, MapType, Node, ScalarKind, Sort};
use std::alloc::{AllocError, Global};

/// The field of this path and this node.
pub(crate) fn describe(
    alloc: Global,
    path: &str,
    node: &Node,
    required: bool,
    default: Option<Tree>,
) -> Result<Field, AllocError>
    ensures { IfOk result (λ f. field_of f ≡ listed_as path.now required (option_map data_of default) (node_of node.now)) }
{
    Ok(Field {
        path: Text::from_str(alloc, path)?,
        type_text: type_text(alloc, node)?,
        required,
        nullable: node.nullable,
        list_type: list_type(&node.sort),
        map_type: map_type(&node.sort),
        keys: keys(alloc, &node.sort)?,
        choices: choices(alloc, &node.sort)?,
        default,
        description: copied_text(alloc, &node.description)?,
    })
}

fn type_text(alloc: Global, node: &Node) -> Result<Text, AllocError>
    ensures { IfOk result (λ t. t ≡ TypeText.type_text (node_of node.now)) }
{
    let mut text = String::new(alloc);
    push_type_text(&mut text, node)?;
    Ok(Text { text })
}

fn push_type_text(text: &mut String, node: &Node) -> Result<(), AllocError>
    ensures { OnOk result (string_bytes text.new ≡ string_bytes text.old ++ TypeText.type_text (node_of node.now)) }
{
    match &node.sort {
        Sort::Scalar(scalar) => text.push_str(scalar_text(scalar.kind)),
        Sort::Object(_) => text.push_str("Object"),
        Sort::Map(map) => {
            text.push_str("map[string]")?;
            push_type_text(text, &map.value.node)
        }
        Sort::List(list) => {
            text.push_str("[]")?;
            push_type_text(text, &list.item.node)
        }
        Sort::Open => text.push_str("any"),
    }
}

fn scalar_text(kind: ScalarKind) -> &'static str
    ensures { result.now ≡ TypeText.scalar_text kind }
{
    match kind {
        ScalarKind::Boolean => "boolean",
        ScalarKind::Integer => "integer",
        ScalarKind::String => "string",
        ScalarKind::Number => "number",
        ScalarKind::IntOrString => "int-or-string",
    }
}

fn list_type(sort: &Sort) -> Option<ListType>
    ensures { result ≡ list_type_of (sort_of sort.now) }
{
    match sort {
        Sort::List(list) => Some(list.list_type),
        _ => None,
    }
}

fn map_type(sort: &Sort) -> Option<MapType>
    ensures { result ≡ map_type_of (sort_of sort.now) }
{
    match sort {
        Sort::Object(object) => Some(object.map_type),
        Sort::Map(map) => Some(map.map_type),
        _ => None,
    }
}

fn keys(alloc: Global, sort: &Sort) -> Result<Vec<Text>, AllocError>
    ensures { IfOk result (λ v. v.items ≡ keys_of (sort_of sort.now)) }
{
    match sort {
        Sort::List(list) => copied_texts(alloc, list.keys.as_slice()),
        _ => Ok(Vec::new(alloc)),
    }
}

fn choices(alloc: Global, sort: &Sort) -> Result<Items, AllocError>
    ensures { IfOk result (λ c. c ≡ choices_of (sort_of sort.now)) }
{
    match sort {
        Sort::Scalar(scalar) => copied_choices(alloc, &scalar.validations.constraints.choices),
        _ => Ok(no_items(alloc)),
    }
}

fn copied_choices(alloc: Global, choices: &Option<Items>) -> Result<Items, AllocError>
    ensures { IfOk result (λ c. c ≡ items_or_none choices.now) }
{
    match choices {
        Some(items) => copied_items(alloc, items),
        None => Ok(no_items(alloc)),
    }
}

fn no_items(alloc: Global) -> Items
    ensures { result ≡ Data.no_items }
{
    Items {
        items: Vec::new(alloc),
    }
}

fn copied_items(alloc: Global, items: &Items) -> Result<Items, AllocError>
    ensures { IfOk result (λ c. c ≡ items.now) }
{
    let mut copies = Vec::with_capacity(alloc, items.items.len())?;
    for item in &items.items {
        copies.push_reserved(item.try_clone(alloc)?);
    }
    Ok(Items { items: copies })
}

fn copied_texts(alloc: Global, texts: &[Text]) -> Result<Vec<Text>, AllocError>
    ensures { IfOk result (λ v. v.items ≡ texts.now) }
{
    let mut copies = Vec::with_capacity(alloc, texts.len())?;
    for text in texts {
        copies.push_reserved(text.copy(alloc)?);
    }
    Ok(copies)
}

fn copied_text(alloc: Global, text: &Option<Text>) -> Result<Option<Text>, AllocError>
    ensures { IfOk result (λ t. t ≡ text.now) }
{
    match text {
        Some(text) => Ok(Some(text.copy(alloc)?)),
        None => Ok(None),
    }
}

/// An equal default, where there is one.
pub(crate) fn copied_default(
    alloc: Global,
    default: &Option<Tree>,
) -> Result<Option<Tree>, AllocError>
    ensures { IfOk result (λ d. d ≡ default.now) }
{
    match default {
        Some(tree) => Ok(Some(tree.try_clone(alloc)?)),
        None => Ok(None),
    }
}
