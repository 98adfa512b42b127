//! What a rule reads of the keywords of a schema.
ghost use Rattle.std.specs.Prelude.{◌≡◌, map, option_map, option_and_then};
ghost use Rattle.jtree.specs.Data.{object, item, no_items};
ghost use Rattle.jtree.specs.Path.{member_at, under};
ghost use Rattle.jtree.specs.View.{data_of, items_of};
ghost use Rattle.schema.specs.Document.Places.{only_object};
ghost use Rattle.schema.specs.Document.Texts.{is_among};
ghost use Rattle.schema.specs.Internal.KindView;
ghost use Rattle.schema.specs.Internal.KindView.{kind_view};
ghost use Rattle.schema.specs.Rules.Broken.{metadata_keywords};
ghost use Rattle.schema.specs.Rules.Profile as ProfileSpec;
ghost use Rattle.schema.specs.Rules.Profile.{not_at_root, own_keywords, keywords_of_all, junctor_keywords, outside_keywords, unsupported_keywords};
ghost use Rattle.schema.specs.Rules.Profile.{keywords_of_scalars, keywords_of_objects, keywords_of_lists};
ghost use Rattle.schema.specs.Rules.Junctors as JunctorsSpec;
ghost use Rattle.schema.specs.Rules.Keywords as KeywordsSpec;
ghost use Rattle.schema.specs.Rules.Keywords.{is_false, flag, has_name, texts_of, texts_under};

use crate::kinds::Kind;
use jtree::{Members, Tree};

/// Whether a keyword is there.
pub(crate) fn has(schema: &Members, keyword: &str) -> bool
    ensures { result ≡ KeywordsSpec.has (object schema.now) keyword.now }
{
    schema.get(keyword).is_some()
}

/// Whether a keyword is there and is true.
pub(crate) fn has_true(schema: &Members, keyword: &str) -> bool
    ensures { result ≡ flag (object schema.now) keyword.now }
{
    match schema.get(keyword) {
        Some(Tree::Bool(value)) => *value,
        _ => false,
    }
}

/// Whether a keyword is there and is false.
pub(crate) fn has_false(schema: &Members, keyword: &str) -> bool
    ensures { result ≡ is_false (under (object schema.now) keyword.now) }
{
    match schema.get(keyword) {
        Some(Tree::Bool(value)) => !*value,
        _ => false,
    }
}

/// Which keywords are asked for.
#[derive(Clone, Copy, Drop)]
pub(crate) enum Keywords {
    /// Those with branches.
    Junctors,
    /// Those that no branch of a junctor may have, besides `type`.
    Outside,
    /// Those that no place may have.
    Unsupported,
    /// All but those of the schema of `metadata`.
    BesideMetadata,
    /// All but those of a branch that asks of the value.
    BesideBranch,
    /// All but those of a branch that asks which fields are present.
    BesidePresence,
    /// All but those of a place of the kind; none where there is no kind.
    Foreign(Option<Kind>),
    /// Those that the root may not have, besides `nullable`.
    NotAtRoot,
}

/// Whether such a keyword is there.
pub(crate) fn has_keyword(schema: &Members, keywords: Keywords) -> bool
    ensures { result ≡ has_name (KindView.is_asked keywords) schema.now }
{
    for member in &schema.members {
        if is_asked(member.name.as_str(), keywords) {
            return true;
        }
    }
    false
}

fn is_asked(keyword: &str, keywords: Keywords) -> bool
    ensures { result ≡ KindView.is_asked keywords keyword.now }
{
    match keywords {
        Keywords::Junctors => is_junctor_keyword(keyword),
        Keywords::Outside => is_outside_keyword(keyword),
        Keywords::Unsupported => is_unsupported_keyword(keyword),
        Keywords::BesideMetadata => !is_metadata_keyword(keyword),
        Keywords::BesideBranch => !is_branch_keyword(keyword),
        Keywords::BesidePresence => !is_presence_keyword(keyword),
        Keywords::Foreign(kind) => is_foreign(kind, keyword),
        Keywords::NotAtRoot => is_not_at_root(keyword),
    }
}

fn is_metadata_keyword(keyword: &str) -> bool
    ensures { result ≡ is_among keyword.now metadata_keywords }
{
    is_one_of(keyword, &["type", "description", "properties"])
}

pub(crate) fn is_branch_keyword(keyword: &str) -> bool
    ensures { result ≡ JunctorsSpec.is_branch_keyword keyword.now }
{
    (is_keyword_of_scalars(keyword) || is_junctor_keyword(keyword)) || is_judged_elsewhere(keyword)
}

pub(crate) fn is_presence_keyword(keyword: &str) -> bool
    ensures { result ≡ JunctorsSpec.is_presence_keyword keyword.now }
{
    (keyword == "required" || is_junctor_keyword(keyword)) || is_judged_elsewhere(keyword)
}

/// Whether other rules say where the keyword may be.
fn is_judged_elsewhere(keyword: &str) -> bool
    ensures { result ≡ JunctorsSpec.is_judged_elsewhere keyword.now }
{
    keyword == "type" || (is_outside_keyword(keyword) || is_unsupported_keyword(keyword))
}

/// Whether a place of the kind may not have the keyword; where it is of none it may.
pub(crate) fn is_foreign(kind: Option<Kind>, keyword: &str) -> bool
    ensures { result ≡ ProfileSpec.is_foreign (option_map kind_view kind) keyword.now }
{
    match kind {
        Some(kind) => !(is_common_keyword(keyword) || is_own_keyword(keyword, kind)),
        None => false,
    }
}

fn is_common_keyword(keyword: &str) -> bool
    ensures { result ≡ ProfileSpec.is_common_keyword keyword.now }
{
    is_keyword_of_all(keyword) || (is_junctor_keyword(keyword) || is_unsupported_keyword(keyword))
}

/// Whether a keyword is one of a kind alone.
fn is_own_keyword(keyword: &str, kind: Kind) -> bool
    ensures { result ≡ is_among keyword.now (own_keywords (kind_view kind)) }
{
    match kind {
        Kind::Scalar(_) => is_keyword_of_scalars(keyword),
        Kind::Object | Kind::Map => is_keyword_of_objects(keyword),
        Kind::List => is_keyword_of_lists(keyword),
        Kind::Open => false,
    }
}

fn is_keyword_of_all(keyword: &str) -> bool
    ensures { result ≡ is_among keyword.now keywords_of_all }
{
    is_one_of(
        keyword,
        &[
            "type",
            "description",
            "title",
            "format",
            "example",
            "externalDocs",
            "nullable",
            "default",
            "uniqueItems",
            "x-kubernetes-int-or-string",
            "x-kubernetes-preserve-unknown-fields",
            "x-kubernetes-list-type",
            "x-kubernetes-list-map-keys",
            "x-kubernetes-map-type",
        ],
    )
}

pub(crate) fn is_junctor_keyword(keyword: &str) -> bool
    ensures { result ≡ is_among keyword.now junctor_keywords }
{
    is_one_of(keyword, &["allOf", "anyOf", "oneOf", "not"])
}

pub(crate) fn is_outside_keyword(keyword: &str) -> bool
    ensures { result ≡ is_among keyword.now outside_keywords }
{
    is_one_of(
        keyword,
        &["description", "default", "additionalProperties", "nullable"],
    )
}

pub(crate) fn is_unsupported_keyword(keyword: &str) -> bool
    ensures { result ≡ is_among keyword.now unsupported_keywords }
{
    is_one_of(
        keyword,
        &[
            "definitions",
            "dependencies",
            "deprecated",
            "discriminator",
            "id",
            "patternProperties",
            "readOnly",
            "writeOnly",
            "xml",
            "$ref",
        ],
    )
}

fn is_keyword_of_scalars(keyword: &str) -> bool
    ensures { result ≡ is_among keyword.now keywords_of_scalars }
{
    is_one_of(
        keyword,
        &[
            "enum",
            "minimum",
            "maximum",
            "exclusiveMinimum",
            "exclusiveMaximum",
            "minLength",
            "maxLength",
        ],
    )
}

fn is_keyword_of_objects(keyword: &str) -> bool
    ensures { result ≡ is_among keyword.now keywords_of_objects }
{
    is_one_of(
        keyword,
        &[
            "properties",
            "additionalProperties",
            "required",
            "minProperties",
            "maxProperties",
        ],
    )
}

fn is_keyword_of_lists(keyword: &str) -> bool
    ensures { result ≡ is_among keyword.now keywords_of_lists }
{
    is_one_of(keyword, &["items", "minItems", "maxItems"])
}

pub(crate) fn is_not_at_root(keyword: &str) -> bool
    ensures { result ≡ is_among keyword.now not_at_root }
{
    is_one_of(
        keyword,
        &["additionalProperties", "minProperties", "maxProperties"],
    )
}

/// Whether a text is one of these.
pub(crate) fn is_one_of(text: &str, values: &[&str]) -> bool
    ensures { result ≡ is_among text.now (map (λ w. w.now) values.now) }
{
    for value in values {
        if text == *value {
            return true;
        }
    }
    false
}

/// Whether a keyword is there and is one of these strings.
pub(crate) fn has_text_among(schema: &Members, keyword: &str, values: &[&str]) -> bool
    ensures { result ≡ KeywordsSpec.has_text_among (map (λ w. w.now) values.now) (object schema.now) keyword.now }
{
    match schema.get(keyword) {
        Some(Tree::Text(text)) => is_one_of(text.as_str(), values),
        _ => false,
    }
}

/// Whether a keyword is there and is none of these strings.
pub(crate) fn has_other_text(schema: &Members, keyword: &str, values: &[&str]) -> bool
    ensures { result ≡ KeywordsSpec.has_other_text (map (λ w. w.now) values.now) (object schema.now) keyword.now }
{
    has(schema, keyword) && !has_text_among(schema, keyword, values)
}

/// Whether a string is in the list under a keyword.
pub(crate) fn lists_text(schema: &Members, keyword: &str, text: &str) -> bool
    ensures { result ≡ is_among text.now (texts_under (object schema.now) keyword.now) }
{
    match schema.get(keyword) {
        Some(Tree::List(items)) => is_listed(items.items.as_slice(), text),
        _ => false,
    }
}

/// Whether one of these trees is this string.
pub(crate) fn is_listed(trees: &[Tree], text: &str) -> bool
    ensures { result ≡ is_among text.now (texts_of (items_of trees.now)) }
{
    for tree in trees {
        if is_text(tree, text) {
            return true;
        }
    }
    false
}

pub(crate) fn is_empty(trees: &[Tree]) -> bool
    ensures { result ≡ KeywordsSpec.is_empty (items_of trees.now) }
{
    match trees {
        [] => true,
        _ => false,
    }
}

fn is_text(tree: &Tree, text: &str) -> bool
    ensures { result ≡ is_among text.now (texts_of (item (data_of tree.now) no_items)) }
{
    match tree {
        Tree::Text(found) => text == found.as_str(),
        _ => false,
    }
}

/// The object under a keyword or a name.
pub(crate) fn object_under<'a>(schema: &'a Members, name: &str) -> Option<&'a Members>
    ensures { option_map (λ m. object m.now) result ≡ option_and_then only_object (member_at name.now schema.now) }
{
    match schema.get(name) {
        Some(Tree::Object(members)) => Some(members),
        _ => None,
    }
}
