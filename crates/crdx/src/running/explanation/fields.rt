//! Why a path leads to no field.

use crate::running::answer::json_text;
use explain::{XFault, resolve};
use std::alloc::{AllocError, Global};
use stored::Schema;

/// How paths are written.
const SPELLING: &str =
    r#"each step of a path is after a "/": a name with "~0", "~1", "~2" and "~3" for "~", "/", "[" and "{", or "[]" or "{}""#;

/// What is wrong with a path, where something is.
pub(crate) fn field_text(
    alloc: Global,
    schema: &Schema,
    path: Option<&str>,
) -> Result<Option<String>, AllocError> {
    let Some(path) = path else {
        return Ok(None);
    };
    match resolve(schema, path) {
        Ok(_node) => Ok(None),
        Err(XFault::BadPath) => Ok(Some(String::from_str(alloc, SPELLING)?)),
        Err(XFault::NoSuchField) => Ok(Some(beginning_text(
            alloc,
            declared_beginning(schema, path),
        )?)),
    }
}

fn beginning_text(alloc: Global, beginning: &str) -> Result<String, AllocError> {
    if beginning.is_empty() {
        return String::from_str(
            alloc,
            "found no such field; no beginning of the path leads to one",
        );
    }
    let beginning = json_text(alloc, beginning)?;
    format!(in alloc; "found no such field; the longest beginning that leads to one is {beginning}")
}

/// The longest beginning of a path that leads to a field, and the empty text where none does.
fn declared_beginning<'a>(schema: &Schema, path: &'a str) -> &'a str {
    let mut longest = 0;
    for (end, byte) in path.bytes().enumerate() {
        if byte == b'/' && resolve(schema, beginning(path, end)).is_ok() {
            longest = end;
        }
    }
    beginning(path, longest)
}

fn beginning(path: &str, end: usize) -> &str {
    path.get(..end).unwrap_or("")
}
