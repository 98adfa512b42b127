//! The form of each keyword's value, and the first value in path order that has not its form.
ghost use Rattle.std.specs.Prelude.{◌≡◌, ◌++◌, ℕ, Option, Some, None, OnOk, IfOk, IfErr, string_bytes};
ghost use Rattle.jtree.specs.Data.{Data, list, object};
ghost use Rattle.jtree.specs.Path as Paths;
ghost use Rattle.jtree.specs.Path.{Path, part_by};
ghost use Rattle.jtree.specs.Pointer.{name_token, index_token};
ghost use Rattle.jtree.specs.View.{data_of};
ghost use Rattle.schema.specs.Document.Texts.{is_among};
ghost use Rattle.schema.specs.Document.Forms;
ghost use Rattle.schema.specs.Document.Forms.{HasFormsOf, string_keywords, boolean_keywords, count_keywords, form_below};
ghost use Rattle.schema.specs.Document.Refusal.{form_view};
ghost use Rattle.schema.specs.Internal.Faults.{IsFirstBreak, IsMisformed};
ghost use Rattle.schema.specs.Internal.FormBreak.{first_break, items_break, members_break, below};

use crate::fault::SFault;
use crate::keywords::is_one_of;
use crate::places::{push_index, push_name};
use crate::refusal::BrokenForm;
use jtree::{Items, Members, Tree};
use std::alloc::{AllocError, Global};

/// The form of a JSON value.
#[derive(Clone, Copy, Debug, PartialEq, Eq, Drop)]
pub enum Form {
    /// Any value.
    AnyTree,
    /// A string.
    String,
    /// A boolean.
    Boolean,
    /// An object, each of whose members is an object.
    ObjectOfObjects,
    /// A boolean or an object.
    BooleanOrObject,
    /// An object.
    Object,
    /// A list of at least one object, with nothing else in it.
    SomeObjects,
    /// A list of strings.
    Strings,
    /// A list.
    List,
    /// An integer.
    Integer,
    /// An integer, 0 or more.
    Count,
    /// A schema as a cluster reads it: an object with the keywords of JSONSchemaProps (apiextensions.k8s.io/v1).
    WrittenSchema,
    /// An object, each of whose members is a schema as a cluster reads it.
    ObjectOfWrittenSchemas,
    /// A boolean, or a schema as a cluster reads it.
    BooleanOrWrittenSchema,
    /// A list of schemas as a cluster reads them, or an empty list.
    WrittenSchemas,
    /// An integer or another number.
    Number,
}

fn is_string_keyword(keyword: &str) -> bool
    ensures { result ≡ is_among keyword.now string_keywords }
{
    is_one_of(
        keyword,
        &[
            "type",
            "description",
            "title",
            "format",
            "x-kubernetes-list-type",
            "x-kubernetes-map-type",
        ],
    )
}

fn is_boolean_keyword(keyword: &str) -> bool
    ensures { result ≡ is_among keyword.now boolean_keywords }
{
    is_one_of(
        keyword,
        &[
            "nullable",
            "uniqueItems",
            "exclusiveMinimum",
            "exclusiveMaximum",
            "x-kubernetes-int-or-string",
            "x-kubernetes-preserve-unknown-fields",
        ],
    )
}

fn is_count_keyword(keyword: &str) -> bool
    ensures { result ≡ is_among keyword.now count_keywords }
{
    is_one_of(
        keyword,
        &[
            "minLength",
            "maxLength",
            "minItems",
            "maxItems",
            "minProperties",
            "maxProperties",
        ],
    )
}

/// The form of a keyword.
fn form_of(keyword: &str) -> Form
    ensures { form_view result ≡ Forms.form_of keyword.now }
{
    if is_string_keyword(keyword) {
        return Form::String;
    }
    if is_boolean_keyword(keyword) {
        return Form::Boolean;
    }
    if is_count_keyword(keyword) {
        return Form::Count;
    }
    match keyword {
        "properties" => Form::ObjectOfObjects,
        "additionalProperties" => Form::BooleanOrObject,
        "items" | "not" => Form::Object,
        "allOf" | "anyOf" | "oneOf" => Form::SomeObjects,
        "required" | "x-kubernetes-list-map-keys" => Form::Strings,
        "enum" => Form::List,
        "minimum" | "maximum" => Form::Integer,
        _ => Form::AnyTree,
    }
}

/// The form that a cluster reads in place of one of the core table.
fn as_written(form: Form) -> Form
    ensures { form_view result ≡ Forms.as_written (form_view form) }
{
    match form {
        Form::ObjectOfObjects => Form::ObjectOfWrittenSchemas,
        Form::BooleanOrObject => Form::BooleanOrWrittenSchema,
        Form::Object => Form::WrittenSchema,
        Form::SomeObjects => Form::WrittenSchemas,
        Form::Integer => Form::Number,
        other => other,
    }
}

/// The form of a keyword as a cluster reads it.
fn written_form_of(keyword: &str) -> Form
    ensures { form_view result ≡ Forms.written_form_of keyword.now }
{
    match keyword {
        "pattern" | "id" | "$ref" | "$schema" => Form::String,
        "x-kubernetes-embedded-resource" => Form::Boolean,
        "patternProperties" | "definitions" => Form::ObjectOfWrittenSchemas,
        "multipleOf" => Form::Number,
        _ => as_written(form_of(keyword)),
    }
}

/// The form of a member, from the form of its object.
fn form_of_member(form: Form, name: &str) -> Form
    ensures { form_view result ≡ form_below (form_view form) (Paths.name name.now) }
{
    match form {
        Form::Object | Form::BooleanOrObject => form_of(name),
        Form::ObjectOfObjects => Form::Object,
        Form::WrittenSchema | Form::BooleanOrWrittenSchema => written_form_of(name),
        Form::ObjectOfWrittenSchemas => Form::WrittenSchema,
        _ => Form::AnyTree,
    }
}

/// The form of each item, from the form of the list.
fn form_of_items(form: Form) -> Form
    ensures { (i : ℕ) → form_view result ≡ form_below (form_view form) (Paths.index i) }
{
    match form {
        Form::SomeObjects => Form::Object,
        Form::Strings => Form::String,
        Form::WrittenSchemas => Form::WrittenSchema,
        _ => Form::AnyTree,
    }
}

/// Whether a value has a form, whatever its parts are.
fn has_form(form: Form, tree: &Tree) -> bool
    ensures { result ≡ Forms.has_form (form_view form) (data_of tree.now) }
{
    match form {
        Form::AnyTree => true,
        Form::String => matches!(tree, Tree::Text(_)),
        Form::Boolean => matches!(tree, Tree::Bool(_)),
        Form::ObjectOfObjects | Form::Object | Form::WrittenSchema | Form::ObjectOfWrittenSchemas =>
            matches!(tree, Tree::Object(_)),
        Form::BooleanOrObject | Form::BooleanOrWrittenSchema => {
            matches!(tree, Tree::Bool(_) | Tree::Object(_))
        }
        Form::SomeObjects => is_some_list(tree),
        Form::Strings | Form::List | Form::WrittenSchemas => matches!(tree, Tree::List(_)),
        Form::Integer => matches!(tree, Tree::Int(_)),
        Form::Number => matches!(tree, Tree::Int(_) | Tree::Number(_)),
        Form::Count => is_count(tree),
    }
}

fn is_some_list(tree: &Tree) -> bool
    ensures { result ≡ Forms.is_some_list (data_of tree.now) }
{
    match tree {
        Tree::List(items) => !items.items.as_slice().is_empty(),
        _ => false,
    }
}

fn is_count(tree: &Tree) -> bool
    ensures { result ≡ Forms.is_count (data_of tree.now) }
{
    match tree {
        Tree::Int(number) => *number >= 0,
        _ => false,
    }
}

/// Why a value has not its form.
#[derive(Drop)]
pub(crate) enum Misformed<'a> {
    /// The pointer, counted from the value, of the first part in path order that has not its form, and what is there.
    Broken(String, BrokenForm<'a>),
    NoMemory,
}

impl From<Misformed<'_>> for SFault {
    ghost use Rattle.std.specs.Prelude.{◌≡◌};
    ghost use Rattle.schema.specs.Internal.Faults.{form_fault};

    ghost from_gives = { λ misformed e. e ≡ form_fault misformed };

    fn from(misformed: Misformed<'_>) -> SFault {
        match misformed {
            Misformed::Broken(pointer, _) => SFault::KeywordForm(pointer),
            Misformed::NoMemory => SFault::NoMemory,
        }
    }
}

/// Whether each keyword of a schema, which has to have this form, has its form.
pub(crate) fn check_schema_forms<'a>(
    alloc: Global,
    form: Form,
    schema: &'a Tree,
) -> Result<(), Misformed<'a>>
    ensures ok { OnOk result (HasFormsOf (form_view form) (data_of schema.now)) }
    ensures err { IfErr result (IsMisformed (form_view form) (data_of schema.now)) }
{
    schema.reveal_invariant();
    check_form(alloc, form, schema)
}

/// Whether each part of a value has its form, where the value has to have this one.
#[cycle(forms)]
fn check_form<'a>(alloc: Global, form: Form, tree: &'a Tree) -> Result<(), Misformed<'a>>
    ensures ok { OnOk result (first_break (form_view form) (data_of tree.now) ≡ None) }
    ensures err { IfErr result (IsFirstBreak (form_view form) (data_of tree.now) (first_break (form_view form) (data_of tree.now))) }
{
    if !has_form(form, tree) {
        let found = BrokenForm { form, found: tree };
        return Err(Misformed::Broken(String::new(alloc), found));
    }
    match tree {
        Tree::List(items) => check_items(alloc, form, items),
        Tree::Object(members) => check_members(alloc, form, members),
        _ => Ok(()),
    }
}

#[cycle(forms)]
fn check_items<'a>(alloc: Global, form: Form, items: &'a Items) -> Result<(), Misformed<'a>>
    ensures ok { OnOk result (items_break (form_view form) 0 items.now ≡ None) }
    ensures err { IfErr result (IsFirstBreak (form_view form) (list items.now) (items_break (form_view form) 0 items.now)) }
{
    let item_form = form_of_items(form);
    for (i, item) in items.items.iter().enumerate() {
        match check_form(alloc, item_form, item) {
            Ok(()) => {}
            Err(misformed) => return Err(below_index(alloc, i, misformed)),
        }
    }
    Ok(())
}

#[cycle(forms)]
fn check_members<'a>(alloc: Global, form: Form, members: &'a Members) -> Result<(), Misformed<'a>>
    ensures ok { OnOk result (members_break (form_view form) members.now ≡ None) }
    ensures err { IfErr result (IsFirstBreak (form_view form) (object members.now) (members_break (form_view form) members.now)) }
{
    members.reveal_invariant();
    for member in &members.members {
        let name = member.name.as_str();
        match check_form(alloc, form_of_member(form, name), &member.tree) {
            Ok(()) => {}
            Err(misformed) => return Err(below_name(alloc, name, misformed)),
        }
    }
    Ok(())
}

/// The same with its pointer counted from an object, where it was counted from a member.
fn below_name<'a>(alloc: Global, name: &str, misformed: Misformed<'a>) -> Misformed<'a>
    ensures { (f : Forms.Form) (d e : Data) (o : Option Path) → part_by d (Paths.name name.now) ≡ Some e → IsFirstBreak (form_below f (Paths.name name.now)) e o misformed.entry → IsFirstBreak f d (below (Paths.name name.now) o) result }
{
    match misformed {
        Misformed::Broken(pointer, broken) => match name_and(alloc, name, pointer.as_str()) {
            Ok(pointer) => Misformed::Broken(pointer, broken),
            Err(_) => Misformed::NoMemory,
        },
        Misformed::NoMemory => Misformed::NoMemory,
    }
}

fn below_index<'a>(alloc: Global, index: usize, misformed: Misformed<'a>) -> Misformed<'a>
    ensures { (f : Forms.Form) (d e : Data) (o : Option Path) → part_by d (Paths.index index) ≡ Some e → IsFirstBreak (form_below f (Paths.index index)) e o misformed.entry → IsFirstBreak f d (below (Paths.index index) o) result }
{
    match misformed {
        Misformed::Broken(pointer, broken) => {
            match index_and(alloc, index as u64, pointer.as_str()) {
                Ok(pointer) => Misformed::Broken(pointer, broken),
                Err(_) => Misformed::NoMemory,
            }
        }
        Misformed::NoMemory => Misformed::NoMemory,
    }
}

fn name_and(alloc: Global, name: &str, pointer: &str) -> Result<String, AllocError>
    ensures { IfOk result (λ s. string_bytes s ≡ name_token name.now ++ pointer.now) }
{
    let mut joined = String::new(alloc);
    push_name(&mut joined, name)?;
    joined.push_str(pointer)?;
    Ok(joined)
}

fn index_and(alloc: Global, index: u64, pointer: &str) -> Result<String, AllocError>
    ensures { IfOk result (λ s. string_bytes s ≡ index_token index ++ pointer.now) }
{
    let mut joined = String::new(alloc);
    push_index(&mut joined, index)?;
    joined.push_str(pointer)?;
    Ok(joined)
}
