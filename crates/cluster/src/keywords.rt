//! What stands under the keywords of a schema.
ghost use Rattle.std.specs.Prelude.{◌≡◌, codes};
ghost use Rattle.cluster.specs.Keywords.{keyword as keyword_of, is_true as is_true_of, member_schema as member_schema_of, is_schema as is_schema_of};
ghost use Rattle.cluster.specs.Internal.Trees.{schema_of};

use jtree::Tree;

/// The value under a keyword, and `None` where it is null.
pub(crate) fn keyword<'s>(schema: Option<&'s Tree>, name: &str) -> Option<&'s Tree>
    ensures { schema_of result ≡ keyword_of name.now (schema_of schema.entry) }
{
    match schema {
        Some(Tree::Object(keywords)) => match keywords.get(name) {
            Some(Tree::Null) => None,
            found => found,
        },
        _ => None,
    }
}

/// Whether a keyword is true.
pub(crate) fn is_set(schema: Option<&Tree>, name: &str) -> bool
    ensures { result ≡ is_true_of (keyword_of name.now (schema_of schema.entry)) }
{
    match keyword(schema, name) {
        Some(Tree::Bool(value)) => *value,
        _ => false,
    }
}

/// The schema of a member: by its name under `properties`, and else `additionalProperties`.
pub(crate) fn member_schema<'s>(schema: Option<&'s Tree>, name: &str) -> Option<&'s Tree>
    ensures { schema_of result ≡ member_schema_of name.now (schema_of schema.entry) }
{
    match keyword(keyword(schema, "properties"), name) {
        Some(found) => Some(found),
        None => keyword(schema, "additionalProperties"),
    }
}

/// Whether it is a schema, and not `true`.
pub(crate) fn is_schema(schema: Option<&Tree>) -> bool
    ensures { result ≡ is_schema_of (schema_of schema.entry) }
{
    match schema {
        Some(Tree::Object(_)) => true,
        _ => false,
    }
}
