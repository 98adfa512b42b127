//! Reads a CustomResourceDefinition (apiextensions.k8s.io/v1).
ghost use Rattle.std.specs.Prelude.{◌≡◌, ◌≢◌, ◌↔◌, ℕ, List, [], None, Some, option_map, codes, OnOk, IfOk, IfErr, IfSome, IsTrue};
ghost use Rattle.jtree.specs.Data as Trees;
ghost use Rattle.jtree.specs.Data.{Data};
ghost use Rattle.jtree.specs.View.{data_of};
ghost use Rattle.schema.specs.Document.Crd.{IsRead, IsSchemaOf, IsObject, HasHeader, IsHead};
ghost use Rattle.schema.specs.Internal.Faults.{IsUnfound};
ghost use Rattle.schema.specs.Document.Refusal.{IsWrongPart, IsGiven, form_view};
ghost use Rattle.schema.specs.Document.Forms.{form_by, HasForms, HasFormsOf};
ghost use Rattle.schema.specs.Document.Limits.{standard, IsWithinLimits};
ghost use Rattle.schema.specs.Document.ReadFault.{IsReadFault, IsReadFaultOf, IsSchemaFaultOf};
ghost use Rattle.jtree.specs.Path.{under2, under3};
ghost use Rattle.schema.specs.declared.profile.Profile.TheVariants.{Core};

use crate::fault::SFault;
use crate::forms::{Form, check_schema_forms};
use crate::laws;
use crate::limits::Limits;
use crate::listing::list_places;
use crate::profile::Profile;
use crate::raw::{RawSchema, Reading};
use crate::refusal::Part;
use crate::versions::select;
use jtree::{Items, Text, Tree};
use std::alloc::Global;

/// What is read of a CustomResourceDefinition.
#[derive(Drop)]
pub struct Crd {
    /// The API group of the resources.
    pub group: Text,
    /// The kind of the resources.
    pub kind: Text,
    /// The name of the version that was asked for.
    pub version: Text,
    /// The schema of that version, as written.
    pub raw: RawSchema,
}

/// The parts of the document that come before its versions are looked at.
#[derive(Drop)]
pub(crate) struct Head<'a> {
    group: &'a str,
    kind: &'a str,
    pub versions: &'a Items,
}

/// What is found of a version before its schema is judged.
#[derive(Drop)]
pub(crate) struct Definition<'a> {
    pub group: &'a str,
    pub kind: &'a str,
    pub schema: &'a Tree,
}

/// Reads the group, the kind and the schema of one version of a CustomResourceDefinition
/// (apiextensions.k8s.io/v1): the schema is the object at `schema.openAPIV3Schema` of the version. It is to be judged by `Profile::Core`.
///
/// `NotACrd` where the document is no CustomResourceDefinition: an object with `apiVersion`
/// `apiextensions.k8s.io/v1`, `kind` `CustomResourceDefinition`, non-empty strings `spec.group` and `spec.names.kind`, and
/// a list `spec.versions` of objects with a string `name` each, no name twice. `NoSuchVersion` where it is one, and no
/// version has the name that is asked for. `NotACrd` where that version has no object as its schema. `KeywordForm` where
/// a keyword of the schema has not its JSON form (OpenAPI 3.0, Schema Object). `TooLarge` where one of `Limits::STANDARD` is
/// passed. `NoMemory` where an allocation fails. They are decided in this order. The document is gone through a bounded number of
/// times.
pub fn read_crd(alloc: Global, document: &Tree, version: &str) -> Result<Crd, SFault>
    ensures ok { IfOk result (λ c. IsRead (data_of document.now) version.now c.group c.kind c.raw.tree) }
    ensures version { IfOk result (λ c. c.version ≡ version.now) }
    ensures profile { IfOk result (λ c. c.raw.profile ≡ Core) }
    ensures forms { IfOk result (λ c. HasForms c.raw) }
    ensures within { IfOk result (λ c. IsWithinLimits standard c.raw.tree) }
    ensures err { IfErr result (IsReadFault standard (data_of document.now) version.now) }
{
    laws::limits_by_name();
    read_crd_within(alloc, document, version, Limits::STANDARD)
}

/// As `read_crd`, but `TooLarge` where one of these limits is passed.
pub fn read_crd_within(
    alloc: Global,
    document: &Tree,
    version: &str,
    limits: Limits,
) -> Result<Crd, SFault>
    ensures ok { IfOk result (λ c. IsRead (data_of document.now) version.now c.group c.kind c.raw.tree) }
    ensures version { IfOk result (λ c. c.version ≡ version.now) }
    ensures profile { IfOk result (λ c. c.raw.profile ≡ Core) }
    ensures forms { IfOk result (λ c. HasForms c.raw) }
    ensures within { IfOk result (λ c. IsWithinLimits limits c.raw.tree) }
    ensures err { IfErr result (IsReadFault limits (data_of document.now) version.now) }
{
    let profile = Profile::Core;
    read_crd_by(alloc, document, version, Reading { profile, limits })
}

/// As `read_crd`, but the schema is to be judged by this profile, `KeywordForm` where a keyword has not the form that it has by the
/// profile, and `TooLarge` where one of these limits is passed.
pub fn read_crd_by(
    alloc: Global,
    document: &Tree,
    version: &str,
    reading: Reading,
) -> Result<Crd, SFault>
    ensures ok { IfOk result (λ c. IsRead (data_of document.now) version.now c.group c.kind c.raw.tree) }
    ensures version { IfOk result (λ c. c.version ≡ version.now) }
    ensures profile { IfOk result (λ c. c.raw.profile ≡ reading.profile) }
    ensures forms { IfOk result (λ c. HasForms c.raw) }
    ensures within { IfOk result (λ c. IsWithinLimits reading.limits c.raw.tree) }
    ensures err { IfErr result (IsReadFaultOf (form_by reading.profile) reading.limits (data_of document.now) version.now) }
{
    let form = form_by(reading.profile);
    let definition = match checked_definition(alloc, form, document, version, reading.limits) {
        Ok(definition) => definition,
        Err(fault) => return Err(fault),
    };
    Ok(Crd {
        group: Text::from_str(alloc, definition.group)?,
        kind: Text::from_str(alloc, definition.kind)?,
        version: Text::from_str(alloc, version)?,
        raw: RawSchema::new(definition.schema.try_clone(alloc)?, reading),
    })
}

/// The form of a schema, by the profile.
fn form_by(profile: Profile) -> Form
    ensures { form_view result ≡ form_by profile }
{
    match profile {
        Profile::Core => Form::Object,
        Profile::Cluster => Form::WrittenSchema,
    }
}

/// The definition that a document is, where its schema has this form and passes no limit.
pub(crate) fn checked_definition<'a>(
    alloc: Global,
    form: Form,
    document: &'a Tree,
    version: &str,
    limits: Limits,
) -> Result<Definition<'a>, SFault>
    ensures ok { IfOk result (λ f. IsRead (data_of document.now) version.now f.group.now f.kind.now (data_of f.schema.now)) }
    ensures forms { IfOk result (λ f. HasFormsOf (form_view form) (data_of f.schema.now)) }
    ensures within { IfOk result (λ f. IsWithinLimits limits (data_of f.schema.now)) }
    ensures err { IfErr result (IsReadFaultOf (form_view form) limits (data_of document.now) version.now) }
{
    let definition = match find_definition(alloc, document, version) {
        Ok(definition) => definition,
        Err(unfound) => return Err(unfound.into()),
    };
    match check_schema(alloc, form, definition.schema, limits) {
        Ok(()) => Ok(definition),
        Err(fault) => Err(fault),
    }
}

/// Why there is no definition with this version and its schema.
#[derive(Drop)]
pub(crate) enum Unfound<'a> {
    /// The first part that is not as it has to be.
    WrongPart(Part),
    /// These are the versions, and none has the name.
    NoVersion(&'a Items),
    NoMemory,
}

impl From<Unfound<'_>> for SFault {
    ghost use Rattle.std.specs.Prelude.{◌≡◌};
    ghost use Rattle.schema.specs.Internal.Faults.{finding_fault};

    ghost from_gives = { λ unfound e. e ≡ finding_fault unfound };

    fn from(unfound: Unfound<'_>) -> SFault {
        match unfound {
            Unfound::WrongPart(_) => SFault::NotACrd,
            Unfound::NoVersion(_) => SFault::NoSuchVersion,
            Unfound::NoMemory => SFault::NoMemory,
        }
    }
}

pub(crate) fn find_definition<'a>(
    alloc: Global,
    document: &'a Tree,
    version: &str,
) -> Result<Definition<'a>, Unfound<'a>>
    ensures ok { IfOk result (λ f. IsRead (data_of document.now) version.now f.group.now f.kind.now (data_of f.schema.now)) }
    ensures err { IfErr result (IsUnfound (data_of document.now) version.now) }
{
    let head = match head_of(document) {
        Ok(head) => head,
        Err(part) => return Err(Unfound::WrongPart(part)),
    };
    let selected = match select(alloc, head.versions, version) {
        Ok(Some(selected)) => selected,
        Ok(None) => return Err(Unfound::NoVersion(head.versions)),
        Err(SFault::NotACrd) => return Err(Unfound::WrongPart(Part::Versions)),
        Err(_) => return Err(Unfound::NoMemory),
    };
    let Some(schema) = schema_of(selected) else {
        return Err(Unfound::WrongPart(Part::Schema));
    };
    Ok(Definition {
        group: head.group,
        kind: head.kind,
        schema,
    })
}

/// Whether each keyword of a schema, which has to have this form, has its form, and no limit is passed.
fn check_schema(alloc: Global, form: Form, schema: &Tree, limits: Limits) -> Result<(), SFault>
    requires object { IsObject (data_of schema.now) }
    ensures forms { OnOk result (HasFormsOf (form_view form) (data_of schema.now)) }
    ensures within { OnOk result (IsWithinLimits limits (data_of schema.now)) }
    ensures err { IfErr result (IsSchemaFaultOf (form_view form) limits (data_of schema.now)) }
{
    schema.reveal_invariant();
    match check_schema_forms(alloc, form, schema) {
        Ok(()) => {}
        Err(misformed) => return Err(misformed.into()),
    }
    match schema {
        Tree::Object(members) => match list_places(alloc, limits, members) {
            Ok(_places) => Ok(()),
            Err(unlisted) => Err(unlisted.into()),
        },
        _ => Ok(()),
    }
}

/// The parts that come before the versions are looked at, or the first that is not as it has to be.
fn head_of(document: &Tree) -> Result<Head<'_>, Part>
    ensures ok { IfOk result (λ h. IsHead (data_of document.now) h.group.now h.kind.now h.versions.now) }
    ensures err { IfErr result (λ part. (version : List ℕ) → IsWrongPart (data_of document.now) version part) }
{
    if !has_header(document) {
        return Err(Part::Header);
    }
    let Some(group) = given_text(part_below(document, "spec", "group")) else {
        return Err(Part::Group);
    };
    let Some(kind) = given_text(kind_part(document)) else {
        return Err(Part::Kind);
    };
    let Some(versions) = list_in(part_below(document, "spec", "versions")) else {
        return Err(Part::Versions);
    };
    Ok(Head {
        group,
        kind,
        versions,
    })
}

fn has_header(document: &Tree) -> bool
    ensures { IsTrue result ↔ HasHeader (data_of document.now) }
{
    document.has_text("apiVersion", "apiextensions.k8s.io/v1")
        && document.has_text("kind", "CustomResourceDefinition")
}

/// What is under a name below another.
fn part_below<'a>(tree: &'a Tree, outer: &str, inner: &str) -> Option<&'a Tree>
    ensures { option_map (λ t. data_of t.now) result ≡ under2 (data_of tree.now) outer.now inner.now }
{
    match tree.get(outer) {
        Some(part) => part.get(inner),
        None => None,
    }
}

/// What is at `spec.names.kind`.
fn kind_part(document: &Tree) -> Option<&Tree>
    ensures { option_map (λ t. data_of t.now) result ≡ under3 (data_of document.now) (codes "spec") (codes "names") (codes "kind") }
{
    match part_below(document, "spec", "names") {
        Some(names) => names.get("kind"),
        None => None,
    }
}

fn list_in(part: Option<&Tree>) -> Option<&Items>
    ensures some { IfSome result (λ ds. option_map (λ t. data_of t.now) part.entry ≡ Some (Trees.list ds.now)) }
    ensures none { result ≡ None → (ds : Trees.Items) → option_map (λ t. data_of t.now) part.entry ≡ Some (Trees.list ds) → ⊥ }
{
    match part {
        Some(Tree::List(items)) => Some(items),
        _ => None,
    }
}

/// A string that is not empty.
fn given_text(part: Option<&Tree>) -> Option<&str>
    ensures some { IfSome result (λ s. IsGiven (option_map (λ t. data_of t.now) part.entry) s.now) }
    ensures none { result ≡ None → (s : List ℕ) → IsGiven (option_map (λ t. data_of t.now) part.entry) s → ⊥ }
{
    match part {
        Some(Tree::Text(text)) => {
            let text = text.as_str();
            if text.is_empty() { None } else { Some(text) }
        }
        _ => None,
    }
}

/// The object at `schema.openAPIV3Schema` of a version.
fn schema_of(version: &Tree) -> Option<&Tree>
    ensures some { IfSome result (λ s. IsSchemaOf (data_of version.now) (data_of s.now)) }
    ensures none { result ≡ None → (s : Data) → IsSchemaOf (data_of version.now) s → ⊥ }
{
    let part = part_below(version, "schema", "openAPIV3Schema");
    match part {
        Some(Tree::Object(_)) => part,
        _ => None,
    }
}
