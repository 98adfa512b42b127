//! All that is broken in a schema, with the reasons.
ghost use Rattle.std.specs.Prelude.{◌≡◌, [], All, IfOk, map};
ghost use Rattle.schema.specs.Rules.Breaks.{reported};
ghost use Rattle.schema.specs.Rules.Explained.{AreExplained};
ghost use Rattle.stored.specs.Schemas.Accepted.{IsBroken};

use crate::accepting::bad_default_violations;
use schema::{Explained, RawSchema, Violation};
use std::alloc::{AllocError, Global};

/// All that is broken of the rules V01 to V17, as `violations` answers it, each with all reasons for which its rule is broken
/// there: once, by the bytes of the keyword and then in the order of `Reason`. Each rule is judged once. `AllocError` where an
/// allocation fails.
pub fn explained(alloc: Global, raw: &RawSchema) -> Result<Vec<Explained>, AllocError>
    ensures { IfOk result (λ es. AreExplained (IsBroken raw.now) raw.now es.items) }
{
    match schema::explained(alloc, raw) {
        Ok(explained) => {
            if explained.as_slice().is_empty() {
                without_reasons(alloc, bad_default_violations(alloc, raw)?)
            } else {
                Ok(explained)
            }
        }
        Err(_) => Err(AllocError),
    }
}

/// These violations, of a rule that has no reasons.
fn without_reasons(alloc: Global, violations: Vec<Violation>) -> Result<Vec<Explained>, AllocError>
    ensures violations { IfOk result (λ es. map (λ e. reported e.violation) es.items ≡ map reported violations.items) }
    ensures findings { IfOk result (λ es. All (λ e. e.findings.items ≡ []) es.items) }
{
    let mut explained = Vec::new(alloc);
    for violation in violations {
        explained.push(Explained {
            violation,
            findings: Vec::new(alloc),
        })?;
    }
    Ok(explained)
}
