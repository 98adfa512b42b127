//! The node of a path.
ghost use Rattle.std.specs.Prelude.{◌≡◌, Some, IfOk, IfErr, option_map};
ghost use Rattle.schema.specs.Nodes.ByPlace;
ghost use Rattle.schema.specs.Nodes.View.{node_of};
ghost use Rattle.explain.specs.Fields.Declared.{IsDeclared};
ghost use Rattle.explain.specs.Fields.PathFault.{IsTextOf, IsPathFault};
ghost use Rattle.explain.specs.Internal.Resolving.{IsNodeAt, IsNodeAfter, IsNodeBelow, field_below};
ghost use Rattle.explain.specs.Paths.FieldPath.{place_of};

use crate::fault::XFault;
use crate::reading::{after, after_name, is_path_text};
use schema::{Fields, Node, Sort};
use stored::Schema;

/// The node at the path of this text, which is the text of its steps, one after the other: `/` and the name of a field with `~`,
/// `/`, `[` and `{` written `~0`, `~1`, `~2` and `~3`, `/[]` for the items of a list, and `/{}` for the values of a map (this
/// project's own, after RFC 6901). It does not allocate.
///
/// `BadPath` where the text is not that of a path. `NoSuchField` where it is, but the schema declares no field there, as for the
/// empty text, which is the path of the root.
pub fn resolve<'a>(schema: &'a Schema, path: &str) -> Result<&'a Node, XFault>
    ensures node { IfOk result (λ n. IsTextOf (λ p. IsDeclared schema.now p × (ByPlace.node_at schema.now (place_of p) ≡ Some (node_of n.now))) path.now) }
    ensures fault { IfErr result (IsPathFault (IsDeclared schema.now) path.now) }
{
    if !is_path_text(path) {
        return Err(XFault::BadPath);
    }
    if path.is_empty() {
        return Err(XFault::NoSuchField);
    }
    match node_at(schema.root(), path.as_bytes()) {
        Some(node) => Ok(node),
        None => Err(XFault::NoSuchField),
    }
}

/// The node to which a path leads, by its text.
#[cycle(resolve)]
fn node_at<'a>(node: &'a Node, text: &[u8]) -> Option<&'a Node>
    ensures { IsNodeAt (node_of node.now) text.now (option_map (λ n. node_of n.now) result) }
{
    if text.is_empty() {
        return Some(node);
    }
    match &node.sort {
        Sort::Object(object) => node_in(&object.fields, text),
        Sort::Map(map) => node_after(&map.value.node, text, b"/{}"),
        Sort::List(list) => node_after(&list.item.node, text, b"/[]"),
        Sort::Scalar(_) | Sort::Open => None,
    }
}

/// The node to which a path leads from the node below this step.
#[cycle(resolve)]
fn node_after<'a>(node: &'a Node, text: &[u8], step: &[u8]) -> Option<&'a Node>
    ensures { IsNodeAfter step.now (node_of node.now) text.now (option_map (λ n. node_of n.now) result) }
{
    node_at(node, after(text, step)?)
}

/// The node to which a path leads from an object with these fields.
#[cycle(resolve)]
fn node_in<'a>(fields: &'a Fields, text: &[u8]) -> Option<&'a Node>
    ensures { IsNodeBelow (field_below fields.now) text.now (option_map (λ n. node_of n.now) result) }
{
    for field in &fields.fields {
        if let Some(rest) = after_name(text, field.name.as_str().as_bytes()) {
            return node_at(&field.node, rest);
        }
    }
    None
}
