//! The reasons of the rule on the profile.
ghost use Rattle.std.specs.Prelude.{◌≡◌, option_map};
ghost use Rattle.jtree.specs.Data.{object};
ghost use Rattle.schema.specs.Internal.KindView.{kind_view};
ghost use Rattle.schema.specs.Rules.Kinds.{kind_of};
ghost use Rattle.schema.specs.Rules.Reasons;

use crate::keywords::{has_other_text, has_true, is_foreign, is_not_at_root};
use crate::kinds::{Kind, is_list_kind, is_object_kind, is_open_kind, is_scalar_kind};
use crate::profile::Profile;
use crate::reason::Reason;
use crate::rules::profile::{
    has_no_choice, has_other_choice, has_unknown_type, is_untyped_open, lacks_items, preserves,
    requires_undeclared,
};
use jtree::Members;

/// V17: a place that is in no branch is outside the profile.
pub(crate) fn is_profile_reason(
    profile: Profile,
    root: bool,
    kind: Option<Kind>,
    schema: &Members,
    keyword: &str,
    reason: Reason,
) -> bool
    requires { option_map kind_view kind ≡ kind_of profile (object schema.now) }
    ensures { result ≡ Reasons.is_profile_reason profile root reason keyword.now (object schema.now) }
{
    match reason {
        Reason::RootNotObject => root && makes_other_root(schema, keyword),
        Reason::NotAtRoot => root && is_no_root_keyword(schema, keyword),
        Reason::UnknownType => keyword == "type" && has_unknown_type(profile, schema),
        Reason::NotWithPreserving => is_no_preserving(schema, keyword) && preserves(schema),
        Reason::NoItems => keyword == "type" && lacks_items(profile, schema),
        Reason::UndeclaredField => keyword == "required" && requires_undeclared(root, schema),
        Reason::EmptyEnum => keyword == "enum" && has_no_choice(profile, schema),
        Reason::EnumOfOtherKind => keyword == "enum" && has_other_choice(profile, schema),
        Reason::AdditionalPropertiesTrue => {
            keyword == "additionalProperties" && has_true(schema, "additionalProperties")
        }
        _ => is_about_kind(reason, kind) && is_foreign(kind, keyword),
    }
}

/// Whether the keyword makes the root something other than an object.
fn makes_other_root(schema: &Members, keyword: &str) -> bool
    ensures { result ≡ Reasons.makes_other_root keyword.now (object schema.now) }
{
    makes_no_object(schema, keyword)
        || (keyword == "x-kubernetes-preserve-unknown-fields" && is_untyped_open(schema))
}

/// Whether the keyword gives another type than object, or says that the place is int-or-string.
fn makes_no_object(schema: &Members, keyword: &str) -> bool
    ensures { result ≡ Reasons.makes_no_object keyword.now (object schema.now) }
{
    (keyword == "type" && has_other_text(schema, "type", &["", "object"]))
        || (keyword == "x-kubernetes-int-or-string"
            && has_true(schema, "x-kubernetes-int-or-string"))
}

/// Whether the root may not have the keyword, or is nullable by it.
fn is_no_root_keyword(schema: &Members, keyword: &str) -> bool
    ensures { result ≡ Reasons.is_no_root_keyword keyword.now (object schema.now) }
{
    (keyword == "nullable" && has_true(schema, "nullable")) || is_not_at_root(keyword)
}

/// Whether the keyword does not go with keeping unknown fields.
fn is_no_preserving(schema: &Members, keyword: &str) -> bool
    ensures { result ≡ Reasons.is_no_preserving keyword.now (object schema.now) }
{
    makes_no_object(schema, keyword) || keyword == "additionalProperties"
}

/// Whether the reason is about places of this kind.
fn is_about_kind(reason: Reason, kind: Option<Kind>) -> bool
    ensures { result ≡ Reasons.is_about_kind reason (option_map kind_view kind) }
{
    match reason {
        Reason::NotOfScalars => is_scalar_kind(kind),
        Reason::NotOfLists => is_list_kind(kind),
        Reason::NotOfObjects => is_object_kind(kind),
        Reason::NotOfOpenPlaces => is_open_kind(kind),
        _ => false,
    }
}
