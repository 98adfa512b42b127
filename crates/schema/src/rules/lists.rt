//! The rules on list types and map types.
ghost use Rattle.std.specs.Prelude.{◌≡◌, codes, option_map};
ghost use Rattle.jtree.specs.Data.{object};
ghost use Rattle.jtree.specs.View.{data_of, items_of};
ghost use Rattle.schema.specs.Document.Places.{property, schema_by};
ghost use Rattle.schema.specs.Rules.Keywords.{texts_of, items_under};
ghost use Rattle.schema.specs.Rules.Lists;
ghost use Rattle.schema.specs.Rules.Lists.{list_types, map_types, has_bad_list_type, has_bad_map_type, has_bad_set_items, has_bad_keys};

use crate::keywords::{
    has, has_other_text, has_text_among, has_true, is_empty, is_listed, lists_text, object_under,
};
use crate::kinds::{is_list, is_object, is_scalar};
use crate::profile::Profile;
use jtree::{Items, Members, Tree};

/// V10: a list type is at a place that is no list, or is none of the three.
pub(crate) fn bad_list_type(profile: Profile, schema: &Members) -> bool
    ensures { result ≡ has_bad_list_type profile (object schema.now) }
{
    let types = ["atomic", "set", "map"];
    has(schema, "x-kubernetes-list-type")
        && (!is_list(profile, schema) || has_other_text(schema, "x-kubernetes-list-type", &types))
}

/// V11: keys of what is no map list, or a map list whose items have not its keys.
pub(crate) fn bad_keys(profile: Profile, schema: &Members) -> bool
    ensures { result ≡ has_bad_keys profile (object schema.now) }
{
    if is_of_list_type(schema, "map") {
        is_list(profile, schema)
            && !have_keys(profile, object_under(schema, "items"), keys_of(schema))
    } else {
        has(schema, "x-kubernetes-list-map-keys")
    }
}

/// V12: the items of a set are no scalars, or take null.
pub(crate) fn bad_set_items(profile: Profile, schema: &Members) -> bool
    ensures { result ≡ has_bad_set_items profile (object schema.now) }
{
    is_list(profile, schema)
        && is_of_list_type(schema, "set")
        && !is_plain_scalar(profile, object_under(schema, "items"))
}

/// V13: a map type is at a place that is neither an object nor a map, or is none of the two.
pub(crate) fn bad_map_type(profile: Profile, schema: &Members) -> bool
    ensures { result ≡ has_bad_map_type profile (object schema.now) }
{
    let types = ["granular", "atomic"];
    has(schema, "x-kubernetes-map-type")
        && (!is_object(profile, schema) || has_other_text(schema, "x-kubernetes-map-type", &types))
}

pub(crate) fn is_of_list_type(schema: &Members, name: &str) -> bool
    ensures { result ≡ Lists.is_of_list_type name.now (object schema.now) }
{
    has_text_among(schema, "x-kubernetes-list-type", &[name])
}

/// Whether a place is a scalar that takes no null.
fn is_plain_scalar(profile: Profile, schema: Option<&Members>) -> bool
    ensures { result ≡ Lists.is_plain_scalar profile (option_map (λ m. object m.now) schema.entry) }
{
    match schema {
        Some(schema) => is_scalar(profile, schema) && !has_true(schema, "nullable"),
        None => false,
    }
}

/// The keys of a map list, as written.
pub(crate) fn keys_of(schema: &Members) -> &[Tree]
    ensures { items_of result.now ≡ items_under (object schema.now) (codes "x-kubernetes-list-map-keys") }
{
    match schema.get("x-kubernetes-list-map-keys") {
        Some(Tree::List(keys)) => keys.items.as_slice(),
        _ => &[],
    }
}

/// Whether the items are objects that take no null and have these keys, at least one.
fn have_keys(profile: Profile, items: Option<&Members>, keys: &[Tree]) -> bool
    ensures { result ≡ Lists.have_keys profile (option_map (λ m. object m.now) items.entry) (items_of keys.now) }
{
    match items {
        Some(items) => {
            is_object(profile, items)
                && !has_true(items, "nullable")
                && !is_empty(keys)
                && are_keys(profile, items, keys)
        }
        None => false,
    }
}

/// Whether each of these is a key of the items, and none occurs twice. There are at most four.
fn are_keys(profile: Profile, items: &Members, keys: &[Tree]) -> bool
    ensures { result ≡ Lists.are_keys profile (object items.now) (texts_of (items_of keys.now)) }
{
    match keys {
        [Tree::Text(key), rest @ ..] => {
            let key = key.as_str();
            is_key(profile, items, key) && !is_listed(rest, key) && are_keys(profile, items, rest)
        }
        [_, rest @ ..] => are_keys(profile, items, rest),
        [] => true,
    }
}

/// Whether a name is that of a scalar property that takes no null, and that each item has.
fn is_key(profile: Profile, items: &Members, name: &str) -> bool
    ensures { result ≡ Lists.is_key profile (object items.now) name.now }
{
    let property = property_of(items, name);
    is_plain_scalar(profile, property)
        && (lists_text(items, "required", name) || has_default(property))
}

/// The schema of a property.
pub(crate) fn property_of<'a>(schema: &'a Members, name: &str) -> Option<&'a Members>
    ensures { option_map (λ m. object m.now) result ≡ schema_by (object schema.now) (property name.now) }
{
    object_under(object_under(schema, "properties")?, name)
}

fn has_default(schema: Option<&Members>) -> bool
    ensures { result ≡ Lists.has_default (option_map (λ m. object m.now) schema.entry) }
{
    match schema {
        Some(schema) => has(schema, "default"),
        None => false,
    }
}
