//! How the values of fields are read.
ghost use Rattle.std.specs.Prelude.{◌≡◌, option_map};
ghost use Rattle.jtree.specs.View.{data_of};
ghost use Rattle.definition.specs.Reading as spec;

use jtree::{Members, Tree};

/// Whether a field is there and not null.
pub(crate) fn is_there(field: Option<&Tree>) -> bool
    ensures { result ≡ spec.is_there (option_map (λ t. data_of t.now) field.entry) }
{
    match field {
        None | Some(Tree::Null) => false,
        _ => true,
    }
}

/// Whether a field is null, an empty text, or not there.
pub(crate) fn is_absent(field: Option<&Tree>) -> bool
    ensures { result ≡ spec.is_absent (option_map (λ t. data_of t.now) field.entry) }
{
    match field {
        None | Some(Tree::Null) => true,
        Some(Tree::Text(text)) => text.as_str().is_empty(),
        _ => false,
    }
}

/// The text of a field, or an empty one.
pub(crate) fn text_or_empty(field: Option<&Tree>) -> &str
    ensures { result.now ≡ spec.text_or_empty (option_map (λ t. data_of t.now) field.entry) }
{
    match field {
        Some(Tree::Text(text)) => text.as_str(),
        _ => "",
    }
}

pub(crate) fn is_true(field: Option<&Tree>) -> bool
    ensures { result ≡ spec.is_true (option_map (λ t. data_of t.now) field.entry) }
{
    match field {
        Some(Tree::Bool(value)) => *value,
        _ => false,
    }
}

pub(crate) fn is_false(field: Option<&Tree>) -> bool
    ensures { result ≡ spec.is_false (option_map (λ t. data_of t.now) field.entry) }
{
    match field {
        Some(Tree::Bool(value)) => !*value,
        _ => false,
    }
}

/// Whether a field is an object with a member.
pub(crate) fn has_members(field: Option<&Tree>) -> bool
    ensures { result ≡ spec.has_members (option_map (λ t. data_of t.now) field.entry) }
{
    match field {
        Some(Tree::Object(members)) => has_member(members),
        _ => false,
    }
}

fn has_member(object: &Members) -> bool
    ensures { result ≡ spec.has_member object.now }
{
    match object.members.as_slice() {
        [] => false,
        _ => true,
    }
}
