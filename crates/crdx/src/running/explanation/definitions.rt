//! Why no schema is read of a definition.

use crate::running::answer::json_texts;
use crate::running::explanation::values::found_text;
use jtree::Tree;
use schema::{Excess, Form, Limited, Limits, Part, Profile, Reading, Refusal};
use std::alloc::{AllocError, Global};

/// What is wrong with a definition, where something is.
pub(crate) fn definition_text(
    alloc: Global,
    document: &Tree,
    version: &str,
    reading: Reading,
) -> Result<Option<String>, AllocError> {
    let limits = reading.limits;
    let refusal = match reading.profile {
        Profile::Core => Refusal::of_document(alloc, document, version, limits)?,
        Profile::Cluster => Refusal::of_written(alloc, document, version, limits)?,
    };
    match refusal {
        Some(refusal) => Ok(Some(refusal_text(alloc, &refusal, limits)?)),
        None => Ok(None),
    }
}

fn refusal_text(
    alloc: Global,
    refusal: &Refusal<'_>,
    limits: Limits,
) -> Result<String, AllocError> {
    match refusal {
        Refusal::NotACrd(part) => String::from_str(alloc, part_text(*part)),
        Refusal::NoSuchVersion(names) => {
            let names = json_texts(alloc, names.as_slice())?;
            format!(in alloc; "found the versions {names}")
        }
        Refusal::KeywordForm(_, broken) => {
            let found = found_text(alloc, Some(broken.found))?;
            let form = form_text(broken.form);
            format!(in alloc; "found {found}; allowed is {form}")
        }
        Refusal::TooLarge(excess) => excess_text(alloc, excess, limits),
    }
}

/// What a part of a definition has to be.
fn part_text(part: Part) -> &'static str {
    match part {
        Part::Header => {
            r#""apiVersion" has to be "apiextensions.k8s.io/v1", and "kind" "CustomResourceDefinition""#
        }
        Part::Group => r#""group" of "spec" has to be a string that is not empty"#,
        Part::Kind => r#""kind" of "names" of "spec" has to be a string that is not empty"#,
        Part::Versions => {
            r#""versions" of "spec" has to be a list of objects, each with a "name" that no other has"#
        }
        Part::Schema => r#"the version has to have an object at "openAPIV3Schema" of "schema""#,
    }
}

fn form_text(form: Form) -> &'static str {
    match form {
        Form::AnyTree => "any value",
        Form::String => "a string",
        Form::Boolean => "true or false",
        Form::ObjectOfObjects | Form::ObjectOfWrittenSchemas => "an object of objects",
        Form::BooleanOrObject | Form::BooleanOrWrittenSchema => "true, false or an object",
        Form::Object | Form::WrittenSchema => "an object",
        Form::SomeObjects => "a list of at least one object, with nothing else in it",
        Form::WrittenSchemas => "a list of objects, with nothing else in it",
        Form::Strings => "a list of strings",
        Form::List => "a list",
        Form::Integer => "an integer",
        Form::Count => "an integer of at least 0",
        Form::Number => "a number",
    }
}

/// Which limit is passed, and by how much.
fn excess_text(alloc: Global, excess: &Excess, limits: Limits) -> Result<String, AllocError> {
    let what = limited_text(excess.limited);
    let found = excess.found;
    let most = limits.most(excess.limited);
    let large = Limits::LARGE.most(excess.limited);
    if most < large {
        format!(in alloc; "found {found} {what}; allowed are {most}, and {large} with --large")
    } else {
        format!(in alloc; "found {found} {what}; allowed are {most}")
    }
}

fn limited_text(limited: Limited) -> &'static str {
    match limited {
        Limited::Places => "places in the schema",
        Limited::Steps => "steps to this place",
        Limited::Properties => "properties",
        Limited::Required => "required fields",
        Limited::MapKeys => "keys",
        Limited::Choices => "values",
    }
}
