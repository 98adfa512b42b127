//! The envelope of an embedded resource: its `apiVersion`, `kind` and `metadata`.
ghost use Rattle.std.specs.Prelude.{◌≡◌, option_map, codes};
ghost use Rattle.jtree.specs.Path.{member_at};
ghost use Rattle.jtree.specs.View.{data_of};
ghost use Rattle.judge.specs.Envelope as spec;
ghost use Rattle.judge.specs.Keywords.{passes_envelope as passes_envelope_of};
ghost use Rattle.judge.specs.Internal.NameForms.{test_of};

use crate::names::{
    Letters, is_group_version, is_kind_name, is_label, is_name, is_qualified_name, is_segment,
    is_segment_prefix,
};
use crate::numbers::is_true_under;
use jtree::{Members, Tree};

/// A form of texts.
#[derive(Clone, Copy)]
enum Form {
    Any,
    /// A DNS label.
    Label,
    /// A value of a label.
    Name,
    /// A segment of a path.
    Segment,
    /// What a segment may begin with.
    SegmentPrefix,
    LabelKey,
    /// A key of a label, but for the case of its letters.
    AnnotationKey,
}

impl Form {
    fn fits(self, text: &str) -> bool
        ensures { result ≡ test_of self text.now }
    {
        match self {
            Form::Any => true,
            Form::Label => is_label(text),
            Form::Name => is_name(text),
            Form::Segment => is_segment(text),
            Form::SegmentPrefix => is_segment_prefix(text),
            Form::LabelKey => is_qualified_name(text, Letters::Lower),
            Form::AnnotationKey => is_qualified_name(text, Letters::All),
        }
    }
}

/// Whether an object has a good envelope, or no schema asks for one.
pub(crate) fn passes_envelope(schema: &Members, value: &Tree) -> bool
    ensures { result ≡ passes_envelope_of schema.now (data_of value.now) }
{
    match value {
        Tree::Object(members) => {
            !is_true_under(schema, "x-kubernetes-embedded-resource") || has_envelope(members)
        }
        _ => true,
    }
}

fn has_envelope(object: &Members) -> bool
    ensures { result ≡ spec.has_envelope object.now }
{
    is_version(object.get("apiVersion")) && is_kind(object.get("kind")) && has_metadata(object)
}

fn is_version(version: Option<&Tree>) -> bool
    ensures { result ≡ spec.is_version (option_map (λ t. data_of t.now) version.entry) }
{
    match version {
        Some(Tree::Text(text)) => !text.as_str().is_empty() && is_group_version(text.as_str()),
        _ => false,
    }
}

fn is_kind(kind: Option<&Tree>) -> bool
    ensures { result ≡ spec.is_kind (option_map (λ t. data_of t.now) kind.entry) }
{
    match kind {
        Some(Tree::Text(text)) => is_kind_name(text.as_str()),
        _ => false,
    }
}

/// Whether the metadata of an object are good, or absent.
fn has_metadata(object: &Members) -> bool
    ensures { result ≡ spec.if_there spec.is_metadata (member_at (codes "metadata") object.now) }
{
    match object.get("metadata") {
        Some(Tree::Object(metadata)) => are_good(metadata),
        Some(Tree::Null) | None => true,
        Some(_) => false,
    }
}

fn are_good(metadata: &Members) -> bool
    ensures { result ≡ spec.is_good_metadata metadata.now }
{
    has_text(metadata, "name", Form::Segment)
        && has_text(metadata, "generateName", Form::SegmentPrefix)
        && has_text(metadata, "namespace", Form::Label)
        && has_text(metadata, "selfLink", Form::Any)
        && has_text(metadata, "uid", Form::Any)
        && has_text(metadata, "resourceVersion", Form::Any)
        && has_map(metadata, "labels", Form::LabelKey, Form::Name)
        && has_map(metadata, "annotations", Form::AnnotationKey, Form::Any)
}

/// Whether a name is absent, or its value is a text of a form.
fn has_text(object: &Members, name: &str, form: Form) -> bool
    ensures { result ≡ spec.if_there (spec.is_text_where (test_of form)) (member_at name.now object.now) }
{
    match object.get(name) {
        Some(value) => is_text(value, form),
        None => true,
    }
}

/// Whether a value is a text of a form, empty, or null.
fn is_text(value: &Tree, form: Form) -> bool
    ensures { result ≡ spec.is_text_where (test_of form) (data_of value.now) }
{
    match value {
        Tree::Null => true,
        Tree::Text(text) => text.as_str().is_empty() || form.fits(text.as_str()),
        _ => false,
    }
}

/// Whether a name is absent, or its value is an object of texts of a form under keys of a form.
fn has_map(object: &Members, name: &str, keys: Form, values: Form) -> bool
    ensures { result ≡ spec.if_there (spec.is_map_where (test_of keys) (test_of values)) (member_at name.now object.now) }
{
    match object.get(name) {
        Some(Tree::Object(map)) => are_texts(map, keys, values),
        Some(Tree::Null) | None => true,
        Some(_) => false,
    }
}

fn are_texts(map: &Members, keys: Form, values: Form) -> bool
    ensures { result ≡ spec.are_texts_where (test_of keys) (test_of values) map.now }
{
    for member in &map.members {
        if !keys.fits(member.name.as_str()) || !is_text(&member.tree, values) {
            return false;
        }
    }
    true
}
