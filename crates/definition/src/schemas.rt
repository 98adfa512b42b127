//! Which rules a schema breaks, by its own keywords and where it stands.
ghost use Rattle.std.specs.Prelude.{◌≡◌};
ghost use Rattle.jtree.specs.View.{data_of, members_of};
ghost use Rattle.definition.specs.Fields.{texts_at};
ghost use Rattle.definition.specs.Schemas as spec;

use crate::part::{Fields, Needed, Place};
use crate::reading::{has_members, is_false, is_there, is_true, text_or_empty};
use crate::rule::Rule;
use crate::texts::is_one_of;
use jtree::{Member, Tree};

fn has_true(schema: &Tree, keyword: &str) -> bool
    ensures { result ≡ spec.flag (data_of schema.now) keyword.now }
{
    is_true(schema.get(keyword))
}

fn has_type(schema: &Tree, name: &str) -> bool
    ensures { result ≡ spec.has_type (data_of schema.now) name.now }
{
    text_or_empty(schema.get("type")) == name
}

/// Whether a type is given that is none of these.
fn has_other_type(schema: &Tree, names: &[&str]) -> bool
    ensures { result ≡ spec.has_other_type (data_of schema.now) (texts_at names.now) }
{
    let name = text_or_empty(schema.get("type"));
    !name.is_empty() && !is_one_of(name, names)
}

fn has(schema: &Tree, keyword: &str) -> bool
    ensures { result ≡ spec.is_there_under (data_of schema.now) keyword.now }
{
    is_there(schema.get(keyword))
}

fn preserves(schema: &Tree) -> bool
    ensures { result ≡ spec.preserves (data_of schema.now) }
{
    has_true(schema, "x-kubernetes-preserve-unknown-fields")
}

fn is_embedded(schema: &Tree) -> bool
    ensures { result ≡ spec.is_embedded (data_of schema.now) }
{
    has_true(schema, "x-kubernetes-embedded-resource")
}

fn has_unknown_type(schema: &Tree) -> bool
    ensures { result ≡ spec.has_unknown_type (data_of schema.now) }
{
    has_other_type(
        schema,
        &["array", "boolean", "integer", "number", "object", "string"],
    )
}

fn is_bad_root(place: Place, schema: &Tree) -> bool
    ensures { result ≡ spec.is_bad_root place (data_of schema.now) }
{
    place.is_root
        && (has_other_type(schema, &["object"])
            || has_true(schema, "nullable")
            || has(schema, "additionalProperties"))
}

fn is_beside_status(keyword: &str) -> bool
    ensures { result ≡ spec.is_beside_status keyword.now }
{
    is_one_of(
        keyword,
        &[
            "description",
            "example",
            "exclusiveMaximum",
            "exclusiveMinimum",
            "externalDocs",
            "format",
            "items",
            "maxItems",
            "maxLength",
            "maximum",
            "minItems",
            "minLength",
            "minimum",
            "multipleOf",
            "pattern",
            "properties",
            "required",
            "title",
            "type",
            "uniqueItems",
            "x-kubernetes-preserve-unknown-fields",
            "x-kubernetes-validations",
        ],
    )
}

/// Whether a value is more than the absent one: null, false or an empty text.
fn is_said(value: &Tree) -> bool
    ensures { result ≡ spec.is_said (data_of value.now) }
{
    match value {
        Tree::Null => false,
        Tree::Bool(value) => *value,
        Tree::Text(text) => !text.as_str().is_empty(),
        _ => true,
    }
}

fn is_not_beside_status(keyword: &str, value: &Tree) -> bool
    ensures { result ≡ spec.is_not_beside_status keyword.now (data_of value.now) }
{
    Fields::Schema.has(keyword) && !is_beside_status(keyword) && is_said(value)
}

fn some_not_beside_status(keywords: &[Member]) -> bool
    ensures { result ≡ spec.some_not_beside_status (members_of keywords.now) }
{
    for keyword in keywords {
        if is_not_beside_status(keyword.name.as_str(), &keyword.tree) {
            return true;
        }
    }
    false
}

/// Whether a root with the subresource `status` has a keyword that does not go with it.
fn does_not_go_with_status(place: Place, schema: &Tree) -> bool
    ensures { result ≡ spec.does_not_go_with_status place (data_of schema.now) }
{
    match schema {
        Tree::Object(keywords) => place.has_status && some_not_beside_status(&keywords.members),
        _ => false,
    }
}

fn lacks_items(place: Place, schema: &Tree) -> bool
    ensures { result ≡ spec.lacks_items place (data_of schema.now) }
{
    !place.is_inside && has_type(schema, "array") && !has(schema, "items")
}

fn preserves_false(schema: &Tree) -> bool
    ensures { result ≡ spec.preserves_false (data_of schema.now) }
{
    is_false(schema.get("x-kubernetes-preserve-unknown-fields"))
}

fn has_members_under(schema: &Tree, keyword: &str) -> bool
    ensures { result ≡ spec.has_members_under (data_of schema.now) keyword.now }
{
    has_members(schema.get(keyword))
}

/// Whether a schema is no object, has other members than its properties, or has none and keeps none.
fn is_no_resource(schema: &Tree) -> bool
    ensures { result ≡ spec.is_no_resource (data_of schema.now) }
{
    !has_type(schema, "object")
        || has(schema, "additionalProperties")
        || !(preserves(schema) || has_members_under(schema, "properties"))
}

fn is_bad_resource(place: Place, schema: &Tree) -> bool
    ensures { result ≡ spec.is_bad_resource place (data_of schema.now) }
{
    is_embedded(schema) && (place.is_in_metadata || (!place.is_inside && is_no_resource(schema)))
}

fn lacks_type(needed: Needed, schema: &Tree) -> bool
    ensures { result ≡ spec.lacks_type needed (data_of schema.now) }
{
    match needed {
        Needed::Anything => false,
        Needed::String => !has_type(schema, "string"),
        Needed::Object => !has_type(schema, "object"),
        Needed::Nothing => true,
    }
}

fn has_text_under(schema: &Tree, keyword: &str) -> bool
    ensures { result ≡ spec.has_text_under (data_of schema.now) keyword.now }
{
    !text_or_empty(schema.get(keyword)).is_empty()
}

fn has_identifier(schema: &Tree) -> bool
    ensures { result ≡ spec.has_identifier (data_of schema.now) }
{
    has_text_under(schema, "id") || has_text_under(schema, "$schema")
}

/// Whether a schema has others by name that are not its properties.
fn has_schemas_aside(schema: &Tree) -> bool
    ensures { result ≡ spec.has_schemas_aside (data_of schema.now) }
{
    has_members_under(schema, "definitions") || has_members_under(schema, "patternProperties")
}

/// Whether a schema has a keyword that is not supported.
fn has_unsupported(schema: &Tree) -> bool
    ensures { result ≡ spec.has_unsupported (data_of schema.now) }
{
    has(schema, "$ref")
        || has(schema, "additionalItems")
        || has(schema, "dependencies")
        || has_identifier(schema)
        || has_schemas_aside(schema)
}

fn is_bad_int_or_string(place: Place, schema: &Tree) -> bool
    ensures { result ≡ spec.is_bad_int_or_string place (data_of schema.now) }
{
    !place.is_inside
        && has_true(schema, "x-kubernetes-int-or-string")
        && (preserves(schema) || is_embedded(schema))
}

/// Whether a schema breaks a rule.
pub(crate) fn place_breaks(rule: Rule, place: Place, schema: &Tree) -> bool
    ensures { result ≡ spec.place_breaks rule place (data_of schema.now) }
{
    match rule {
        Rule::UnknownType => has_unknown_type(schema),
        Rule::BadRoot => is_bad_root(place, schema),
        Rule::BesideStatus => does_not_go_with_status(place, schema),
        Rule::MissingItems => lacks_items(place, schema),
        Rule::PreserveFalse => preserves_false(schema),
        Rule::BadResource => is_bad_resource(place, schema),
        Rule::UnsupportedKeyword => has_unsupported(schema),
        Rule::BadIntOrString => is_bad_int_or_string(place, schema),
        Rule::BadEnvelope => lacks_type(place.needed, schema),
        _ => false,
    }
}
