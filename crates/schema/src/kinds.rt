//! The kind of a place that is in no branch of a junctor.
ghost use Rattle.std.specs.Prelude.{◌≡◌, codes, option_map};
ghost use Rattle.jtree.specs.Data.{object};
ghost use Rattle.jtree.specs.Path.{under};
ghost use Rattle.jtree.specs.View.{data_of};
ghost use Rattle.schema.specs.Rules.Kinds;
ghost use Rattle.schema.specs.Rules.Junctors;
ghost use Rattle.schema.specs.Internal.KindView.{kind_view};

use crate::keywords::has_true;
use crate::node::ScalarKind;
use crate::profile::Profile;
use jtree::{Members, Tree};

/// The kind of a place that is in no branch of a junctor.
#[derive(Clone, Copy, Drop)]
pub(crate) enum Kind {
    Scalar(ScalarKind),
    /// Any value is accepted.
    Open,
    List,
    Map,
    Object,
}

/// The kind of a schema, the first that fits; none where none does, and for what is no object.
pub(crate) fn kind_of(profile: Profile, schema: &Tree) -> Option<Kind>
    ensures { option_map kind_view result ≡ Kinds.kind_of profile (data_of schema.now) }
{
    match schema {
        Tree::Object(members) => kind_of_members(profile, members),
        _ => None,
    }
}

/// The kind of a schema that is an object.
pub(crate) fn kind_of_members(profile: Profile, schema: &Members) -> Option<Kind>
    ensures { option_map kind_view result ≡ Kinds.kind_of profile (object schema.now) }
{
    if has_true(schema, "x-kubernetes-int-or-string") {
        return Some(Kind::Scalar(ScalarKind::IntOrString));
    }
    match schema.get("type") {
        Some(Tree::Text(text)) => named_kind(profile, schema, text.as_str()),
        Some(_) => None,
        None => untyped_kind(schema),
    }
}

/// The kind of a schema without a type.
fn untyped_kind(schema: &Members) -> Option<Kind>
    ensures { option_map kind_view result ≡ Kinds.untyped_kind (object schema.now) }
{
    if has_true(schema, "x-kubernetes-preserve-unknown-fields") {
        Some(Kind::Open)
    } else {
        None
    }
}

/// The kind of a schema by the string of its type.
fn named_kind(profile: Profile, schema: &Members, name: &str) -> Option<Kind>
    ensures { option_map kind_view result ≡ Kinds.named_kind profile (object schema.now) name.now }
{
    match name {
        "" => untyped_kind(schema),
        "integer" => Some(Kind::Scalar(ScalarKind::Integer)),
        "string" => Some(Kind::Scalar(ScalarKind::String)),
        "boolean" => Some(Kind::Scalar(ScalarKind::Boolean)),
        "array" => Some(Kind::List),
        "object" => Some(object_kind(schema)),
        "number" => number_kind(profile),
        _ => None,
    }
}

/// The kind of numbers, which is one of a cluster alone.
fn number_kind(profile: Profile) -> Option<Kind>
    ensures { option_map kind_view result ≡ Kinds.number_kind profile }
{
    match profile {
        Profile::Core => None,
        Profile::Cluster => Some(Kind::Scalar(ScalarKind::Number)),
    }
}

/// The kind of an object: a map where `additionalProperties` is an object.
fn object_kind(schema: &Members) -> Kind
    ensures { kind_view result ≡ Kinds.object_kind (under (object schema.now) (codes "additionalProperties")) }
{
    match schema.get("additionalProperties") {
        Some(Tree::Object(_)) => Kind::Map,
        _ => Kind::Object,
    }
}

/// Whether a schema is of a scalar kind.
pub(crate) fn is_scalar(profile: Profile, schema: &Members) -> bool
    ensures { result ≡ Kinds.is_scalar_kind (Kinds.kind_of profile (object schema.now)) }
{
    is_scalar_kind(kind_of_members(profile, schema))
}

pub(crate) fn is_list(profile: Profile, schema: &Members) -> bool
    ensures { result ≡ Kinds.is_list_kind (Kinds.kind_of profile (object schema.now)) }
{
    is_list_kind(kind_of_members(profile, schema))
}

/// Whether a schema is of an object, maps among them.
pub(crate) fn is_object(profile: Profile, schema: &Members) -> bool
    ensures { result ≡ Kinds.is_object_kind (Kinds.kind_of profile (object schema.now)) }
{
    is_object_kind(kind_of_members(profile, schema))
}

/// Whether a schema is of an object with declared fields, and no map.
pub(crate) fn declares_fields(profile: Profile, schema: &Members) -> bool
    ensures { result ≡ Junctors.declares_fields (Kinds.kind_of profile (object schema.now)) }
{
    match kind_of_members(profile, schema) {
        Some(Kind::Object) => true,
        _ => false,
    }
}

pub(crate) fn is_scalar_kind(kind: Option<Kind>) -> bool
    ensures { result ≡ Kinds.is_scalar_kind (option_map kind_view kind) }
{
    matches!(kind, Some(Kind::Scalar(_)))
}

pub(crate) fn is_list_kind(kind: Option<Kind>) -> bool
    ensures { result ≡ Kinds.is_list_kind (option_map kind_view kind) }
{
    matches!(kind, Some(Kind::List))
}

pub(crate) fn is_object_kind(kind: Option<Kind>) -> bool
    ensures { result ≡ Kinds.is_object_kind (option_map kind_view kind) }
{
    matches!(kind, Some(Kind::Object | Kind::Map))
}

pub(crate) fn is_open_kind(kind: Option<Kind>) -> bool
    ensures { result ≡ Kinds.is_open_kind (option_map kind_view kind) }
{
    matches!(kind, Some(Kind::Open))
}

/// Whether a schema has neither a type, nor is int-or-string, nor accepts every value.
pub(crate) fn lacks_type(schema: &Members) -> bool
    ensures { result ≡ Kinds.lacks_type (object schema.now) }
{
    is_untyped(schema)
        && !has_true(schema, "x-kubernetes-int-or-string")
        && !has_true(schema, "x-kubernetes-preserve-unknown-fields")
}

/// Whether `type` is absent or empty.
pub(crate) fn is_untyped(schema: &Members) -> bool
    ensures { result ≡ Kinds.is_untyped (under (object schema.now) (codes "type")) }
{
    match schema.get("type") {
        Some(Tree::Text(text)) => text.as_str().is_empty(),
        Some(_) => false,
        None => true,
    }
}
