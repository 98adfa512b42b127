//! What a place of each kind may have.
ghost use Rattle.std.specs.Prelude.{◌≡◌, not, codes, option_map};
ghost use Rattle.jtree.specs.Data.{object};
ghost use Rattle.jtree.specs.View.{data_of, items_of};
ghost use Rattle.schema.specs.Internal.KindView.{is_accepted};
ghost use Rattle.schema.specs.Rules.Keywords.{members_in, members_under, any_item};
ghost use Rattle.schema.specs.Rules.Kinds;
ghost use Rattle.schema.specs.Rules.Profile as ProfileSpec;

use crate::keywords::{
    Keywords, has, has_keyword, has_other_text, has_true, is_empty, object_under,
};
use crate::kinds::{Kind, is_list, is_untyped, kind_of_members};
use crate::node::ScalarKind;
use crate::profile::Profile;
use crate::rules::required::{FieldNames, lists_no_field};
use jtree::{Members, Tree};

/// V17: a place that is in no branch is outside the profile.
pub(crate) fn is_outside_profile(profile: Profile, root: bool, schema: &Members) -> bool
    ensures { result ≡ ProfileSpec.is_outside_profile profile root (object schema.now) }
{
    is_other_root(root, schema)
        || has_no_root_keyword(root, schema)
        || has_unknown_type(profile, schema)
        || is_bad_preserving(schema)
        || has_foreign_keyword(profile, schema)
        || lacks_items(profile, schema)
        || requires_undeclared(root, schema)
        || has_bad_choices(profile, schema)
        || has_true(schema, "additionalProperties")
}

/// Whether the root is something other than an object.
fn is_other_root(root: bool, schema: &Members) -> bool
    ensures { result ≡ ProfileSpec.is_other_root root (object schema.now) }
{
    root && (is_no_object(schema) || is_untyped_open(schema))
}

/// Whether another type than object is given, or the place is int-or-string.
fn is_no_object(schema: &Members) -> bool
    ensures { result ≡ ProfileSpec.is_no_object (object schema.now) }
{
    has_other_text(schema, "type", &["", "object"])
        || has_true(schema, "x-kubernetes-int-or-string")
}

/// Whether unknown fields are kept, and no type is given.
pub(crate) fn is_untyped_open(schema: &Members) -> bool
    ensures { result ≡ ProfileSpec.is_untyped_open (object schema.now) }
{
    preserves(schema) && is_untyped(schema)
}

/// Whether unknown fields are kept.
pub(crate) fn preserves(schema: &Members) -> bool
    ensures { result ≡ Kinds.preserves (object schema.now) }
{
    has_true(schema, "x-kubernetes-preserve-unknown-fields")
}

/// Whether the root takes null, or has a keyword that it may not have.
fn has_no_root_keyword(root: bool, schema: &Members) -> bool
    ensures { result ≡ ProfileSpec.has_no_root_keyword root (object schema.now) }
{
    root && (has_true(schema, "nullable") || has_keyword(schema, Keywords::NotAtRoot))
}

/// Whether the type is none of the profile.
pub(crate) fn has_unknown_type(profile: Profile, schema: &Members) -> bool
    ensures { result ≡ ProfileSpec.has_unknown_type profile (object schema.now) }
{
    let types = ["", "integer", "string", "boolean", "array", "object"];
    let wider = [
        "number", "", "integer", "string", "boolean", "array", "object",
    ];
    match profile {
        Profile::Core => has_other_text(schema, "type", &types),
        Profile::Cluster => has_other_text(schema, "type", &wider),
    }
}

/// Whether unknown fields are kept where `type` or another keyword does not go with that.
fn is_bad_preserving(schema: &Members) -> bool
    ensures { result ≡ ProfileSpec.is_bad_preserving (object schema.now) }
{
    preserves(schema) && (is_no_object(schema) || has(schema, "additionalProperties"))
}

/// Whether a place has a keyword that places of its kind may not have.
fn has_foreign_keyword(profile: Profile, schema: &Members) -> bool
    ensures { result ≡ ProfileSpec.has_foreign_keyword profile (object schema.now) }
{
    has_keyword(schema, Keywords::Foreign(kind_of_members(profile, schema)))
}

/// Whether a list has no `items`.
pub(crate) fn lacks_items(profile: Profile, schema: &Members) -> bool
    ensures { result ≡ ProfileSpec.lacks_items profile (object schema.now) }
{
    is_list(profile, schema) && object_under(schema, "items").is_none()
}

/// Whether a required name is no property; at the root the names of the envelope are let through.
pub(crate) fn requires_undeclared(root: bool, schema: &Members) -> bool
    ensures { result ≡ ProfileSpec.requires_undeclared root (object schema.now) }
{
    let fields = FieldNames {
        at_root: root,
        envelope: true,
        properties: properties_of(schema),
    };
    lists_no_field(&fields, schema)
}

/// The properties of a schema, where they are an object.
pub(crate) fn properties_of(schema: &Members) -> Option<&Members>
    ensures { members_in (option_map (λ m. object m.now) result) ≡ members_under (object schema.now) (codes "properties") }
{
    match schema.get("properties") {
        Some(Tree::Object(properties)) => Some(properties),
        _ => None,
    }
}

/// Whether the `enum` of a scalar is empty, or lists a value that its kind does not accept.
fn has_bad_choices(profile: Profile, schema: &Members) -> bool
    ensures { result ≡ ProfileSpec.has_bad_choices profile (object schema.now) }
{
    has_no_choice(profile, schema) || has_other_choice(profile, schema)
}

/// Whether the place is a scalar whose `enum` lists no value.
pub(crate) fn has_no_choice(profile: Profile, schema: &Members) -> bool
    ensures { result ≡ ProfileSpec.has_no_choice (Kinds.kind_of profile (object schema.now)) (object schema.now) }
{
    match kind_of_members(profile, schema) {
        Some(Kind::Scalar(_)) => has_empty_enum(schema),
        _ => false,
    }
}

/// Whether the place is a scalar whose `enum` lists a value that its kind does not accept.
pub(crate) fn has_other_choice(profile: Profile, schema: &Members) -> bool
    ensures { result ≡ ProfileSpec.has_other_choice (Kinds.kind_of profile (object schema.now)) (object schema.now) }
{
    match kind_of_members(profile, schema) {
        Some(Kind::Scalar(kind)) => lists_other(schema, Some(kind)),
        _ => false,
    }
}

/// Whether `enum` lists no value.
pub(crate) fn has_empty_enum(schema: &Members) -> bool
    ensures { result ≡ ProfileSpec.has_empty_enum (object schema.now) }
{
    match schema.get("enum") {
        Some(Tree::List(values)) => is_empty(values.items.as_slice()),
        _ => false,
    }
}

/// Whether `enum` lists a value that is not accepted: of the kind, and without one any scalar.
pub(crate) fn lists_other(schema: &Members, kind: Option<ScalarKind>) -> bool
    ensures { result ≡ ProfileSpec.lists_other (is_accepted kind) (object schema.now) }
{
    match schema.get("enum") {
        Some(Tree::List(values)) => are_others(kind, values.items.as_slice()),
        _ => false,
    }
}

/// Whether one of these values is not accepted.
fn are_others(kind: Option<ScalarKind>, values: &[Tree]) -> bool
    ensures { result ≡ any_item (λ d. not (is_accepted kind d)) (items_of values.now) }
{
    for value in values {
        if !accepts(kind, value) {
            return true;
        }
    }
    false
}

fn accepts(kind: Option<ScalarKind>, value: &Tree) -> bool
    ensures { result ≡ is_accepted kind (data_of value.now) }
{
    match kind {
        Some(ScalarKind::Boolean) => matches!(value, Tree::Bool(_)),
        Some(ScalarKind::Integer) => matches!(value, Tree::Int(_)),
        Some(ScalarKind::Number) => matches!(value, Tree::Int(_) | Tree::Number(_)),
        Some(ScalarKind::String) => matches!(value, Tree::Text(_)),
        Some(ScalarKind::IntOrString) => matches!(value, Tree::Int(_) | Tree::Text(_)),
        None => matches!(
            value,
            Tree::Bool(_) | Tree::Int(_) | Tree::Number(_) | Tree::Text(_)
        ),
    }
}
