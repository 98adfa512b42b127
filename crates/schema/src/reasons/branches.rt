//! The reasons of the rule on junctors.
ghost use Rattle.std.specs.Prelude.{◌≡◌, ◌↔◌, IsTrue, option_map};
ghost use Rattle.jtree.specs.Data.{Data, object};
ghost use Rattle.schema.specs.Document.Raw.{raw_by};
ghost use Rattle.schema.specs.Internal.PlaceView.{place_of};
ghost use Rattle.schema.specs.Internal.Subschemas.{IsSubschema};
ghost use Rattle.schema.specs.Internal.ReasonParts.{AreFacts};
ghost use Rattle.schema.specs.Rules.Reasons;
ghost use Rattle.schema.specs.Rules.Reasons.{Explains};
ghost use Rattle.schema.specs.declared.violation.Rule.TheVariants.{V16};

use crate::keywords::{is_branch_keyword, is_junctor_keyword, is_presence_keyword};
use crate::listing::Subschema;
use crate::reason::Reason;
use crate::reasons::PlaceFacts;
use crate::rules::junctors::{has_too_many_names, requires_no_field, takes_no_junctor};
use crate::rules::profile::{has_empty_enum, lists_other};

/// V16: a junctor where none may be, a branch with what it may not have, or junctors that name too many fields.
pub(crate) fn breaks_junctors_by(
    subschema: &Subschema<'_>,
    facts: &PlaceFacts,
    keyword: &str,
    reason: Reason,
) -> bool
    requires { AreFacts facts.now subschema.now }
    ensures { (raw : Data) → IsSubschema raw subschema.now → IsTrue result ↔ Explains (raw_by facts.now.profile raw) (place_of subschema.now.place.items) (object subschema.now.schema.now) V16 keyword.now reason }
{
    is_junctor_reason(subschema, facts, keyword, reason)
        || (is_names_reason(keyword, reason)
            && has_too_many_names(facts.profile, subschema.place.as_slice(), subschema.schema))
}

fn is_names_reason(keyword: &str, reason: Reason) -> bool
    ensures { result ≡ Reasons.is_names_reason reason keyword.now }
{
    match reason {
        Reason::TooManyNames => is_junctor_keyword(keyword),
        _ => false,
    }
}

fn is_junctor_reason(
    subschema: &Subschema<'_>,
    facts: &PlaceFacts,
    keyword: &str,
    reason: Reason,
) -> bool
    requires { AreFacts facts.now subschema.now }
    ensures { result ≡ Reasons.is_junctor_reason facts.now.profile (place_of subschema.now.place.items) (option_map (λ m. object m.now) subschema.now.outer) reason keyword.now (object subschema.now.schema.now) }
{
    let place = subschema.place.as_slice();
    let schema = subschema.schema;
    let asks_value = facts.is_inside && !facts.asks_presence;
    match reason {
        Reason::MisplacedJunctor => is_junctor_keyword(keyword)
            && takes_no_junctor(facts.profile, place, schema),
        Reason::NotInPresenceBranches => !is_presence_keyword(keyword) && facts.asks_presence,
        Reason::UndeclaredField => {
            keyword == "required"
                && (facts.asks_presence && requires_no_field(place, subschema.outer, schema))
        }
        Reason::NotInScalarBranches => !is_branch_keyword(keyword) && asks_value,
        Reason::EmptyEnum => keyword == "enum" && (asks_value && has_empty_enum(schema)),
        Reason::EnumNotScalars => keyword == "enum" && (asks_value && lists_other(schema, None)),
        _ => false,
    }
}
