//! The reasons of the rules on keys of map lists and on items of sets.
ghost use Rattle.std.specs.Prelude.{◌≡◌, ◌&&◌, not, codes, option_map};
ghost use Rattle.std.specs.Str.{bytes_eq};
ghost use Rattle.jtree.specs.Data.{object};
ghost use Rattle.jtree.specs.View.{items_of};
ghost use Rattle.schema.specs.Document.Places;
ghost use Rattle.schema.specs.Document.Places.{schema_by};
ghost use Rattle.schema.specs.Rules.Keywords;
ghost use Rattle.schema.specs.Rules.Keywords.{flag, texts_of, texts_under};
ghost use Rattle.schema.specs.Rules.Kinds.{kind_of, is_scalar_kind};
ghost use Rattle.schema.specs.Rules.Reasons;
ghost use Rattle.schema.specs.Rules.Reasons.{any_text, passes, map_keys};

use crate::keywords::{has, has_true, is_empty, is_listed, lists_text, object_under};
use crate::kinds::{is_list, is_object, is_scalar};
use crate::profile::Profile;
use crate::reason::Reason;
use crate::rules::lists::{is_of_list_type, keys_of, property_of};
use jtree::{Members, Tree};

/// V11: keys of what is no map list, or a map list whose items have not its keys.
pub(crate) fn is_keys_reason(
    profile: Profile,
    schema: &Members,
    keyword: &str,
    reason: Reason,
) -> bool
    ensures { result ≡ (bytes_eq keyword.now (Reasons.list_keyword reason) && Reasons.breaks_keys_by profile reason (object schema.now)) }
{
    keyword == list_keyword(reason) && breaks_keys_by(profile, schema, reason)
}

/// V12: the items of a set are absent, no scalars, or nullable.
pub(crate) fn is_set_reason(
    profile: Profile,
    schema: &Members,
    keyword: &str,
    reason: Reason,
) -> bool
    ensures { result ≡ (bytes_eq keyword.now (Reasons.list_keyword reason) && Reasons.breaks_set_by profile reason (object schema.now)) }
{
    keyword == list_keyword(reason) && breaks_set_by(profile, schema, reason)
}

/// The keyword that a reason is about.
fn list_keyword(reason: Reason) -> &'static str
    ensures { result.now ≡ Reasons.list_keyword reason }
{
    match reason {
        Reason::NoKeys | Reason::NoItems => "x-kubernetes-list-type",
        Reason::ItemsNotObjects | Reason::ItemsNotScalars | Reason::NullableItems => "items",
        _ => "x-kubernetes-list-map-keys",
    }
}

fn breaks_keys_by(profile: Profile, schema: &Members, reason: Reason) -> bool
    ensures { result ≡ Reasons.breaks_keys_by profile reason (object schema.now) }
{
    if is_of_list_type(schema, "map") {
        is_list(profile, schema) && is_map_list_reason(profile, schema, reason)
    } else {
        is_other_list_reason(reason)
    }
}

fn is_other_list_reason(reason: Reason) -> bool
    ensures { result ≡ Reasons.is_other_list_reason reason }
{
    match reason {
        Reason::KeysOfOtherList => true,
        _ => false,
    }
}

fn is_map_list_reason(profile: Profile, schema: &Members, reason: Reason) -> bool
    ensures { result ≡ Reasons.is_map_list_reason profile reason (object schema.now) }
{
    match reason {
        Reason::NoKeys => is_empty(keys_of(schema)),
        Reason::NoItems => object_under(schema, "items").is_none(),
        Reason::ItemsNotObjects | Reason::NullableItems => has_items(profile, schema, reason),
        Reason::RepeatedKey => has_repeated(keys_of(schema)),
        _ => any_key(profile, schema, reason),
    }
}

fn breaks_set_by(profile: Profile, schema: &Members, reason: Reason) -> bool
    ensures { result ≡ Reasons.breaks_set_by profile reason (object schema.now) }
{
    is_list(profile, schema)
        && (is_of_list_type(schema, "set") && is_items_reason(profile, schema, reason))
}

fn is_items_reason(profile: Profile, schema: &Members, reason: Reason) -> bool
    ensures { result ≡ Reasons.is_items_reason profile reason (object schema.now) }
{
    match reason {
        Reason::NoItems => object_under(schema, "items").is_none(),
        Reason::ItemsNotScalars | Reason::NullableItems => has_items(profile, schema, reason),
        _ => false,
    }
}

/// Whether the items are there, and are not as they have to be.
fn has_items(profile: Profile, schema: &Members, reason: Reason) -> bool
    ensures { result ≡ passes (Reasons.is_item_reason profile reason) (schema_by (object schema.now) Places.items) }
{
    match object_under(schema, "items") {
        Some(items) => is_item_reason(profile, items, reason),
        None => false,
    }
}

fn is_item_reason(profile: Profile, items: &Members, reason: Reason) -> bool
    ensures { result ≡ Reasons.is_item_reason profile reason (object items.now) }
{
    match reason {
        Reason::ItemsNotObjects => !is_object(profile, items),
        Reason::ItemsNotScalars => !is_scalar(profile, items),
        Reason::NullableItems => has_true(items, "nullable"),
        _ => false,
    }
}

/// Whether a key is listed twice.
fn has_repeated(keys: &[Tree]) -> bool
    ensures { result ≡ Reasons.has_repeated (texts_of (items_of keys.now)) }
{
    match keys {
        [Tree::Text(key), rest @ ..] => is_listed(rest, key.as_str()) || has_repeated(rest),
        [_, rest @ ..] => has_repeated(rest),
        [] => false,
    }
}

/// Whether the items are there, and some key is not as it has to be.
fn any_key(profile: Profile, schema: &Members, reason: Reason) -> bool
    ensures { result ≡ passes (λ t. any_text (Reasons.is_key_reason profile reason t) (texts_under (object schema.now) map_keys)) (schema_by (object schema.now) Places.items) }
{
    match object_under(schema, "items") {
        Some(items) => any_listed(profile, items, keys_of(schema), reason),
        None => false,
    }
}

fn any_listed(profile: Profile, items: &Members, keys: &[Tree], reason: Reason) -> bool
    ensures { result ≡ any_text (Reasons.is_key_reason profile reason (object items.now)) (texts_of (items_of keys.now)) }
{
    for key in keys {
        if let Tree::Text(key) = key {
            if is_key_reason(profile, items, key.as_str(), reason) {
                return true;
            }
        }
    }
    false
}

fn is_key_reason(profile: Profile, items: &Members, key: &str, reason: Reason) -> bool
    ensures { result ≡ Reasons.is_key_reason profile reason (object items.now) key.now }
{
    let property = property_of(items, key);
    match reason {
        Reason::UndeclaredKey => property.is_none(),
        Reason::KeyNotScalar => is_no_scalar(profile, property),
        Reason::NullableKey => is_nullable(property),
        Reason::OptionalKey => !lists_text(items, "required", key) && lacks_default(property),
        _ => false,
    }
}

fn is_no_scalar(profile: Profile, schema: Option<&Members>) -> bool
    ensures { result ≡ passes (λ s. not (is_scalar_kind (kind_of profile s))) (option_map (λ m. object m.now) schema.entry) }
{
    match schema {
        Some(schema) => !is_scalar(profile, schema),
        None => false,
    }
}

fn is_nullable(schema: Option<&Members>) -> bool
    ensures { result ≡ passes (λ s. flag s (codes "nullable")) (option_map (λ m. object m.now) schema.entry) }
{
    match schema {
        Some(schema) => has_true(schema, "nullable"),
        None => false,
    }
}

fn lacks_default(schema: Option<&Members>) -> bool
    ensures { result ≡ passes (λ s. not (Keywords.has s (codes "default"))) (option_map (λ m. object m.now) schema.entry) }
{
    match schema {
        Some(schema) => !has(schema, "default"),
        None => false,
    }
}
