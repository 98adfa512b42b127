//! The places of a schema, and their pointers.
ghost use Rattle.std.specs.Prelude.{◌≡◌, ◌++◌, ◌∷◌, [], OnOk, IfOk, IfErr, string_bytes};
ghost use Rattle.jtree.specs.Path;
ghost use Rattle.jtree.specs.Pointer.{pointer, name_token, index_token};
ghost use Rattle.schema.specs.Document.Places;
ghost use Rattle.schema.specs.Document.Places.{place_path, step_path};
ghost use Rattle.schema.specs.Internal.PlaceView.{step_of, place_of};

use crate::keywords::is_one_of;
use std::alloc::{AllocError, Global};

/// A step from a place of a schema to a place below it.
#[derive(Clone, Copy, Drop)]
pub(crate) enum Step<'a> {
    /// To the member of `properties` of this name.
    Property(&'a str),
    /// To `additionalProperties`.
    MapValue,
    /// To `items`.
    Items,
    /// To the entry of `allOf` at this index, counted from 0.
    AllOf(u64),
    /// To the entry of `anyOf` at this index.
    AnyOf(u64),
    /// To the entry of `oneOf` at this index.
    OneOf(u64),
    /// To `not`.
    Not,
}

/// Whether a step is into a branch of a junctor.
pub(crate) fn is_junctor(step: Step<'_>) -> bool
    ensures { result ≡ Places.is_junctor (step_of step.entry) }
{
    match step {
        Step::AllOf(_) | Step::AnyOf(_) | Step::OneOf(_) | Step::Not => true,
        _ => false,
    }
}

/// Whether a property of the root is of the envelope of a resource.
pub(crate) fn is_envelope_name(name: &str) -> bool
    ensures { result ≡ Places.is_envelope_name name.now }
{
    is_one_of(name, &["apiVersion", "kind", "metadata"])
}

/// Whether a place is `apiVersion`, `kind` or `metadata` of the root, or below one of these.
pub(crate) fn is_envelope(place: &[Step<'_>]) -> bool
    ensures { result ≡ Places.is_envelope (place_of place.now) }
{
    match place.first() {
        Some(Step::Property(name)) => is_envelope_name(name),
        _ => false,
    }
}

/// The pointer of a place (RFC 6901), counted from the root of the schema.
pub(crate) fn pointer_of(alloc: Global, place: &[Step<'_>]) -> Result<String, AllocError>
    ensures { IfOk result (λ s. string_bytes s ≡ pointer (place_path (place_of place.now))) }
{
    let mut text = String::new(alloc);
    for step in place {
        push_step(&mut text, *step)?;
    }
    Ok(text)
}

/// The pointer of a keyword of a place.
pub(crate) fn keyword_pointer(
    alloc: Global,
    place: &[Step<'_>],
    keyword: &str,
) -> Result<String, AllocError>
    ensures { IfOk result (λ s. string_bytes s ≡ pointer (place_path (place_of place.now) ++ (Path.name keyword.now ∷ []))) }
{
    let mut text = pointer_of(alloc, place)?;
    push_name(&mut text, keyword)?;
    Ok(text)
}

fn push_step(text: &mut String, step: Step<'_>) -> Result<(), AllocError>
    ensures { OnOk result (string_bytes text.new ≡ string_bytes text.old ++ pointer (step_path (step_of step.entry))) }
{
    match step {
        Step::Property(name) => {
            push_name(text, "properties")?;
            push_name(text, name)
        }
        Step::MapValue => push_name(text, "additionalProperties"),
        Step::Items => push_name(text, "items"),
        Step::AllOf(index) => push_branch(text, "allOf", index),
        Step::AnyOf(index) => push_branch(text, "anyOf", index),
        Step::OneOf(index) => push_branch(text, "oneOf", index),
        Step::Not => push_name(text, "not"),
    }
}

fn push_branch(text: &mut String, keyword: &str, index: u64) -> Result<(), AllocError>
    ensures { OnOk result (string_bytes text.new ≡ string_bytes text.old ++ pointer (Path.name keyword.now ∷ Path.index index ∷ [])) }
{
    push_name(text, keyword)?;
    push_index(text, index)
}

/// As `jtree::push_name`, which fails for memory alone.
pub(crate) fn push_name(text: &mut String, name: &str) -> Result<(), AllocError>
    ensures { OnOk result (string_bytes text.new ≡ string_bytes text.old ++ name_token name.now) }
{
    jtree::push_name(text, name).map_err(|_| AllocError)
}

/// As `jtree::push_index`, which fails for memory alone.
pub(crate) fn push_index(text: &mut String, index: u64) -> Result<(), AllocError>
    ensures { OnOk result (string_bytes text.new ≡ string_bytes text.old ++ index_token index) }
{
    jtree::push_index(text, index).map_err(|_| AllocError)
}
