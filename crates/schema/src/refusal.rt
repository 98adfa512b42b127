//! Why no schema is read of a document, with what was found and what has to be there.

ghost use Rattle.std.specs.Prelude.{◌≡◌, ℕ, List, None, IfOk, IfSome};
ghost use Rattle.jtree.specs.Data.{Data};
ghost use Rattle.jtree.specs.View.{data_of};
ghost use Rattle.schema.specs.Document.Forms.{HasForms, HasFormsOf, HasWrittenForms};
ghost use Rattle.schema.specs.Document.Crd.{IsObject};
ghost use Rattle.schema.specs.Document.Limits.{IsWithinLimits};
ghost use Rattle.schema.specs.Document.Raw.{raw_by};
ghost use Rattle.schema.specs.Document.ReadFault.{HasSchema, IsReadFault, IsReadFaultOf, IsWrittenFault};
ghost use Rattle.schema.specs.Document.Refusal as Refusals;
ghost use Rattle.schema.specs.declared.profile.Profile.TheVariants.{Core};
ghost use Rattle.schema.specs.Document.Refusal.{IsRefusal, IsRefusalOf, IsWrittenRefusal, fault_of, form_view};

use crate::definition::{Unfound, find_definition};
use crate::forms::{Form, Misformed, check_schema_forms};
use crate::limits::{Excess, Limits};
use crate::listing::{Unlisted, list_places};
use jtree::{Items, Text, Tree};
use std::alloc::{AllocError, Global};

/// A part of a CustomResourceDefinition that `read_crd` asks for.
#[derive(Clone, Copy, Debug, PartialEq, Eq, Drop)]
pub enum Part {
    /// `apiVersion` and `kind`.
    Header,
    /// `spec.group`.
    Group,
    /// `spec.names.kind`.
    Kind,
    /// `spec.versions`, a list of objects with a string `name` each, no name twice.
    Versions,
    /// `schema.openAPIV3Schema` of the version that is asked for.
    Schema,
}

/// A value that has not its form.
#[derive(Drop)]
pub struct BrokenForm<'a> {
    /// The form that it has to have.
    pub form: Form,
    /// The value.
    pub found: &'a Tree,
}

/// Why no schema is read of a document.
#[derive(Drop)]
pub enum Refusal<'a> {
    /// `SFault::NotACrd`, with the first part that is not as it has to be.
    NotACrd(Part),
    /// `SFault::NoSuchVersion`, with the names of the versions that there are.
    NoSuchVersion(Vec<Text>),
    /// `SFault::KeywordForm`, with its pointer and the value there.
    KeywordForm(String, BrokenForm<'a>),
    /// `SFault::TooLarge`, with its pointer and what there is too much of there.
    TooLarge(Excess),
}

impl<'a> Refusal<'a> {
    /// Why `read_crd_within` reads no schema of the document, with what was found; `None` where it reads one. An `Err` says that an
    /// allocation failed.
    pub fn of_document(
        alloc: Global,
        document: &'a Tree,
        version: &str,
        limits: Limits,
    ) -> Result<Option<Refusal<'a>>, AllocError>
        ensures refused { IfOk result (λ o. IfSome o (IsRefusal limits (data_of document.now) version.now)) }
        ensures fault { IfOk result (λ o. IfSome o (λ r. IsReadFault limits (data_of document.now) version.now (fault_of r))) }
        ensures read { IfOk result (λ o. o ≡ None → (raw : Data) × HasSchema (data_of document.now) version.now raw × HasForms (raw_by Core raw) × IsWithinLimits limits raw) }
    {
        refusal_of(alloc, Form::Object, document, version, limits)
    }

    /// Why `read_written` reads no schema of the document, with what was found; `None` where it reads one. An `Err` says that an
    /// allocation failed.
    pub fn of_written(
        alloc: Global,
        document: &'a Tree,
        version: &str,
        limits: Limits,
    ) -> Result<Option<Refusal<'a>>, AllocError>
        ensures refused { IfOk result (λ o. IfSome o (IsWrittenRefusal limits (data_of document.now) version.now)) }
        ensures fault { IfOk result (λ o. IfSome o (λ r. IsWrittenFault limits (data_of document.now) version.now (fault_of r))) }
        ensures read { IfOk result (λ o. o ≡ None → (raw : Data) × HasSchema (data_of document.now) version.now raw × HasWrittenForms raw × IsWithinLimits limits raw) }
    {
        refusal_of(alloc, Form::WrittenSchema, document, version, limits)
    }
}

/// Why no schema of this form is read of a document.
fn refusal_of<'a>(
    alloc: Global,
    form: Form,
    document: &'a Tree,
    version: &str,
    limits: Limits,
) -> Result<Option<Refusal<'a>>, AllocError>
    ensures refused { IfOk result (λ o. IfSome o (IsRefusalOf (form_view form) limits (data_of document.now) version.now)) }
    ensures fault { IfOk result (λ o. IfSome o (λ r. IsReadFaultOf (form_view form) limits (data_of document.now) version.now (fault_of r))) }
    ensures read { IfOk result (λ o. o ≡ None → (raw : Data) × HasSchema (data_of document.now) version.now raw × HasFormsOf (form_view form) raw × IsWithinLimits limits raw) }
{
    match find_definition(alloc, document, version) {
        Ok(definition) => schema_refusal(alloc, form, definition.schema, limits),
        Err(Unfound::WrongPart(part)) => Ok(Some(Refusal::NotACrd(part))),
        Err(Unfound::NoVersion(versions)) => {
            Ok(Some(Refusal::NoSuchVersion(names_of(alloc, versions)?)))
        }
        Err(Unfound::NoMemory) => Err(AllocError),
    }
}

/// The names of versions.
fn names_of(alloc: Global, versions: &Items) -> Result<Vec<Text>, AllocError>
    ensures { IfOk result (λ names. names.items ≡ Refusals.names_of versions.now) }
{
    let mut names = Vec::new(alloc);
    for version in &versions.items {
        if let Some(name) = version.get_text("name") {
            names.push(Text::from_str(alloc, name)?)?;
        }
    }
    Ok(names)
}

/// Why a schema is refused: a keyword has not its form, or a limit is passed.
fn schema_refusal<'a>(
    alloc: Global,
    form: Form,
    schema: &'a Tree,
    limits: Limits,
) -> Result<Option<Refusal<'a>>, AllocError>
    requires object { IsObject (data_of schema.now) }
    ensures refused { IfOk result (λ o. IfSome o (λ r. (d : Data) (version : List ℕ) → HasSchema d version (data_of schema.now) → IsRefusalOf (form_view form) limits d version r)) }
    ensures read { IfOk result (λ o. o ≡ None → HasFormsOf (form_view form) (data_of schema.now) × IsWithinLimits limits (data_of schema.now)) }
{
    match check_schema_forms(alloc, form, schema) {
        Ok(()) => {}
        Err(Misformed::Broken(pointer, broken)) => {
            return Ok(Some(Refusal::KeywordForm(pointer, broken)));
        }
        Err(Misformed::NoMemory) => return Err(AllocError),
    }
    match schema {
        Tree::Object(members) => match list_places(alloc, limits, members) {
            Ok(_places) => Ok(None),
            Err(Unlisted::Passed(excess)) => Ok(Some(Refusal::TooLarge(excess))),
            Err(Unlisted::NoMemory) => Err(AllocError),
        },
        _ => Ok(None),
    }
}
