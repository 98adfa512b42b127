//! For which reasons a rule is broken at a place.
ghost use Rattle.std.specs.Prelude.{◌≡◌, ◌↔◌, IsTrue};
ghost use Rattle.jtree.specs.Data.{Data, object};
ghost use Rattle.schema.specs.Document.Raw.{raw_by};
ghost use Rattle.schema.specs.Internal.PlaceView.{place_of};
ghost use Rattle.schema.specs.Internal.Subschemas.{IsSubschema};
ghost use Rattle.schema.specs.Internal.ReasonParts.{AreFacts, IsOutsideReason};
ghost use Rattle.schema.specs.Rules.Reasons;
ghost use Rattle.schema.specs.Rules.Reasons.{Explains};

mod branches;
mod keys;
mod profile;

use crate::keywords::{is_outside_keyword, is_unsupported_keyword};
use crate::kinds::{Kind, kind_of_members};
use crate::listing::Subschema;
use crate::profile::Profile;
use crate::reason::Reason;
use crate::reasons::branches::breaks_junctors_by;
use crate::reasons::keys::{is_keys_reason, is_set_reason};
use crate::reasons::profile::is_profile_reason;
use crate::rules::junctors::asks_presence;
use crate::rules::{is_inside, is_root};
use crate::violation::Rule;

/// What the reasons ask of a place whatever the keyword, noted once. They ask more of the place by keywords of a given name
/// alone, which a place has once.
#[derive(Drop)]
pub(crate) struct PlaceFacts {
    /// The profile that the place is judged by.
    pub profile: Profile,
    /// Whether a step of the place is into a branch.
    pub is_inside: bool,
    pub kind: Option<Kind>,
    /// Whether it is a branch that asks which fields are present.
    pub asks_presence: bool,
}

pub(crate) fn facts_of(profile: Profile, subschema: &Subschema<'_>) -> PlaceFacts
    ensures facts { AreFacts result subschema.now }
    ensures profile { result.profile ≡ profile }
{
    let place = subschema.place.as_slice();
    PlaceFacts {
        profile,
        is_inside: is_inside(place),
        kind: kind_of_members(profile, subschema.schema),
        asks_presence: asks_presence(profile, place, subschema.outer),
    }
}

/// Whether a rule is broken at a place for a reason, by a keyword that is there.
pub(crate) fn is_reason(
    subschema: &Subschema<'_>,
    facts: &PlaceFacts,
    rule: Rule,
    keyword: &str,
    reason: Reason,
) -> bool
    requires { AreFacts facts.now subschema.now }
    ensures { (raw : Data) → IsSubschema raw subschema.now → IsTrue result ↔ Explains (raw_by facts.now.profile raw) (place_of subschema.now.place.items) (object subschema.now.schema.now) rule keyword.now reason }
{
    let place = subschema.place.as_slice();
    let schema = subschema.schema;
    match rule {
        Rule::V03 => is_outside_reason(subschema, facts, keyword, reason),
        Rule::V05 => is_support_reason(keyword, reason),
        Rule::V11 => !facts.is_inside && is_keys_reason(facts.profile, schema, keyword, reason),
        Rule::V12 => !facts.is_inside && is_set_reason(facts.profile, schema, keyword, reason),
        Rule::V16 => breaks_junctors_by(subschema, facts, keyword, reason),
        Rule::V17 => {
            !facts.is_inside
                && is_profile_reason(
                    facts.profile,
                    is_root(place),
                    facts.kind,
                    schema,
                    keyword,
                    reason,
                )
        }
        _ => false,
    }
}

/// V03: no branch may have the keyword.
fn is_outside_reason(
    subschema: &Subschema<'_>,
    facts: &PlaceFacts,
    keyword: &str,
    reason: Reason,
) -> bool
    requires { AreFacts facts.now subschema.now }
    ensures { IsTrue result ↔ IsOutsideReason subschema.now keyword.now reason }
{
    facts.is_inside
        && (is_branch_reason(keyword, reason)
            || (is_type_reason(keyword, reason) && !subschema.in_pattern))
}

fn is_branch_reason(keyword: &str, reason: Reason) -> bool
    ensures { result ≡ Reasons.is_branch_reason reason keyword.now }
{
    match reason {
        Reason::NotInBranches => is_outside_keyword(keyword),
        _ => false,
    }
}

fn is_type_reason(keyword: &str, reason: Reason) -> bool
    ensures { result ≡ Reasons.is_type_reason reason keyword.now }
{
    match reason {
        Reason::TypeInBranch => keyword == "type",
        _ => false,
    }
}

/// V05: no place may have the keyword.
fn is_support_reason(keyword: &str, reason: Reason) -> bool
    ensures { result ≡ Reasons.is_support_reason reason keyword.now }
{
    match reason {
        Reason::NotSupported => is_unsupported_keyword(keyword),
        _ => false,
    }
}
