//! The fields of the objects of a definition.
ghost use Rattle.std.specs.Prelude.{◌≡◌, IfOk};
ghost use Rattle.jtree.specs.View.{data_of};
ghost use Rattle.definition.specs.Fields as spec;
ghost use Rattle.definition.specs.Fields.{texts_at};
ghost use Rattle.definition.specs.Broken.{lacks as lacks_of, lacks_one as lacks_one_of, missing as missing_of, absent_among as absent_among_of};

use crate::part::Fields;
use crate::reading::is_absent;
use crate::texts::is_one_of;
use jtree::Tree;
use std::alloc::{AllocError, Global};

impl Fields {
    /// The names of the fields that the object may have (apiextensions.k8s.io/v1), by their bytes.
    pub fn names(self) -> &'static [&'static str]
        ensures { texts_at result.now ≡ spec.fields self }
    {
        match self {
            Fields::Definition => &["apiVersion", "kind", "metadata", "spec", "status"],
            Fields::Metadata => &[
                "annotations",
                "creationTimestamp",
                "deletionGracePeriodSeconds",
                "deletionTimestamp",
                "finalizers",
                "generateName",
                "generation",
                "labels",
                "managedFields",
                "name",
                "namespace",
                "ownerReferences",
                "resourceVersion",
                "selfLink",
                "uid",
            ],
            Fields::Spec => &[
                "conversion",
                "group",
                "names",
                "preserveUnknownFields",
                "scope",
                "versions",
            ],
            Fields::Names => &[
                "categories",
                "kind",
                "listKind",
                "plural",
                "shortNames",
                "singular",
            ],
            Fields::Version => &[
                "additionalPrinterColumns",
                "deprecated",
                "deprecationWarning",
                "name",
                "schema",
                "selectableFields",
                "served",
                "storage",
                "subresources",
            ],
            Fields::Validation => &["openAPIV3Schema"],
            Fields::Subresources => &["scale", "status"],
            Fields::Scale => &[
                "labelSelectorPath",
                "specReplicasPath",
                "statusReplicasPath",
            ],
            Fields::Column => &[
                "description",
                "format",
                "jsonPath",
                "name",
                "priority",
                "type",
            ],
            Fields::SelectableField => &["jsonPath"],
            Fields::Conversion => &["strategy", "webhook"],
            Fields::Webhook => &["clientConfig", "conversionReviewVersions"],
            Fields::ClientConfig => &["caBundle", "service", "url"],
            Fields::Service => &["name", "namespace", "path", "port"],
            Fields::Schema => &[
                "$ref",
                "$schema",
                "additionalItems",
                "additionalProperties",
                "allOf",
                "anyOf",
                "default",
                "definitions",
                "dependencies",
                "description",
                "enum",
                "example",
                "exclusiveMaximum",
                "exclusiveMinimum",
                "externalDocs",
                "format",
                "id",
                "items",
                "maxItems",
                "maxLength",
                "maxProperties",
                "maximum",
                "minItems",
                "minLength",
                "minProperties",
                "minimum",
                "multipleOf",
                "not",
                "nullable",
                "oneOf",
                "pattern",
                "patternProperties",
                "properties",
                "required",
                "title",
                "type",
                "uniqueItems",
                "x-kubernetes-embedded-resource",
                "x-kubernetes-int-or-string",
                "x-kubernetes-list-map-keys",
                "x-kubernetes-list-type",
                "x-kubernetes-map-type",
                "x-kubernetes-preserve-unknown-fields",
                "x-kubernetes-validations",
            ],
            Fields::ExternalDocs => &["description", "url"],
            Fields::ValidationRule => &[
                "fieldPath",
                "message",
                "messageExpression",
                "optionalOldSelf",
                "reason",
                "rule",
            ],
        }
    }

    /// The names of the fields that have to be there, and not null or an empty text.
    pub fn required(self) -> &'static [&'static str]
        ensures { texts_at result.now ≡ spec.required self }
    {
        match self {
            Fields::Definition => &["metadata", "spec"],
            Fields::Metadata => &["name"],
            Fields::Spec => &["group", "names", "scope", "versions"],
            Fields::Names => &["kind", "plural"],
            Fields::Version => &["name", "schema"],
            Fields::Validation => &["openAPIV3Schema"],
            Fields::Scale => &["specReplicasPath", "statusReplicasPath"],
            Fields::Column => &["jsonPath", "name", "type"],
            Fields::SelectableField => &["jsonPath"],
            Fields::Conversion => &["strategy"],
            Fields::Webhook => &["clientConfig", "conversionReviewVersions"],
            Fields::Service => &["name", "namespace"],
            Fields::ValidationRule => &["rule"],
            _ => &[],
        }
    }

    /// The names of the fields that have to be there and are missing in a value, by their bytes. None where the value is null, which is
    /// absent itself. `Err` where an allocation fails.
    pub fn missing(self, alloc: Global, tree: &Tree) -> Result<Vec<&'static str>, AllocError>
        ensures { IfOk result (λ names. texts_at names.items ≡ missing_of (spec.required self) (data_of tree.now)) }
    {
        match tree {
            Tree::Null => Ok(Vec::new(alloc)),
            _ => absent_among(alloc, tree, self.required()),
        }
    }

    /// Whether the object has a field of the name.
    pub(crate) fn has(self, name: &str) -> bool
        ensures { result ≡ spec.has_field self name.now }
    {
        is_one_of(name, self.names())
    }

    /// Whether an object lacks a field that has to be there. What is null lacks none, since it is absent itself.
    pub(crate) fn lacks(self, tree: &Tree) -> bool
        ensures { result ≡ lacks_of (spec.required self) (data_of tree.now) }
    {
        match tree {
            Tree::Null => false,
            _ => lacks_one(tree, self.required()),
        }
    }
}

fn absent_among(
    alloc: Global,
    tree: &Tree,
    names: &[&'static str],
) -> Result<Vec<&'static str>, AllocError>
    ensures { IfOk result (λ found. texts_at found.items ≡ absent_among_of (texts_at names.now) (data_of tree.now)) }
{
    let mut found = Vec::new(alloc);
    for name in names {
        if is_absent(tree.get(name)) {
            found.push(*name)?;
        }
    }
    Ok(found)
}

fn lacks_one(tree: &Tree, names: &[&str]) -> bool
    ensures { result ≡ lacks_one_of (texts_at names.now) (data_of tree.now) }
{
    for name in names {
        if is_absent(tree.get(name)) {
            return true;
        }
    }
    false
}
