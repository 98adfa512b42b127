//! Why bytes are no document, in more words than a fault has.
ghost use Rattle.std.specs.Prelude.{◌≡◌, ◌≤◌, length, IfOk, MatchOption};
ghost use Rattle.serde_json.specs.View.{view};
ghost use Rattle.jtree.specs.Data.{Data};
ghost use Rattle.jtree.specs.Reads.{IsJson, Reads, most_bytes};
ghost use Rattle.jtree.specs.Refusal.{IsRefusal};

use crate::other_number::{find_other_number, number_text, pointer_text};
use crate::read::MOST_BYTES;
use serde_json::{Category, Value};
use std::alloc::{AllocError, Global};

/// Why bytes are no document.
#[derive(Debug, Drop)]
pub enum Refusal {
    /// Some number of the document is not an integer of 64 bits. The first such number in path order, as it is written, and a
    /// pointer to it (RFC 6901).
    NotAnInteger {
        number: String,
        pointer: String,
    },
    /// The bytes are not JSON. The line and the column of the fault, as `serde_json` counts them, and whether the text looks like
    /// YAML.
    NotJson {
        line: usize,
        column: usize,
        is_yaml: bool,
    },
    /// There are more than `MOST_BYTES` bytes: so many are at hand.
    TooLong {
        bytes: usize,
    },
}

impl Refusal {
    /// Why the bytes are no document, in the cases of `Tree::from_bytes`; `None` where it reads a tree of them.
    ///
    /// Lines are counted from 1. So are columns, in bytes; the column is 0 where the text ends at the beginning of a line. Text looks
    /// like YAML where its first line that is neither blank nor a comment begins, after white space, with `---`, `- ` or `%YAML`, or
    /// is a plain key and a colon, with a space and a value after it or without.
    ///
    /// `AllocError` where an allocation fails.
    pub fn of_bytes(alloc: Global, bytes: &[u8]) -> Result<Option<Refusal>, AllocError>
        ensures { IfOk result (λ o. MatchOption o ((d : Data) × Reads bytes.now d) (IsRefusal bytes.now)) }
    {
        if bytes.len() > MOST_BYTES {
            return Ok(Some(Refusal::TooLong { bytes: bytes.len() }));
        }
        match Value::from_slice(alloc, bytes) {
            Ok(value) => refusal_of_value(alloc, bytes, &value),
            Err(error) => match error.classify() {
                Category::Memory => Err(AllocError),
                _ => Ok(Some(Refusal::NotJson {
                    line: error.line(),
                    column: error.column(),
                    is_yaml: looks_like_yaml(bytes),
                })),
            },
        }
    }
}

/// Why bytes are no document of which `serde_json` reads the value. `None` where all its numbers are integers of 64 bits.
fn refusal_of_value(
    alloc: Global,
    bytes: &[u8],
    value: &Value,
) -> Result<Option<Refusal>, AllocError>
    requires short { length bytes.now ≤ most_bytes }
    requires json { IsJson bytes.now (view value.now) }
    ensures { IfOk result (λ o. MatchOption o ((d : Data) × Reads bytes.now d) (IsRefusal bytes.now)) }
{
    let Some(path) = find_other_number(alloc, value)? else {
        return Ok(None);
    };
    Ok(Some(Refusal::NotAnInteger {
        number: number_text(alloc, bytes, &path)?,
        pointer: pointer_text(alloc, &path)?,
    }))
}

/// By the first line that is neither blank nor a comment.
fn looks_like_yaml(bytes: &[u8]) -> bool {
    let Ok(text) = str::from_utf8(bytes) else {
        return false;
    };
    for line in text.lines() {
        let line = line.trim_start();
        if !line.is_empty() && !line.starts_with('#') {
            return begins_yaml(line);
        }
    }
    false
}

fn begins_yaml(line: &str) -> bool {
    if line.starts_with("---") || line.starts_with("- ") || line.starts_with("%YAML") {
        return true;
    }
    match line.split_once(": ") {
        Some((key, _)) => is_plain_key(key),
        None => match line.trim_end().strip_suffix(':') {
            Some(key) => is_plain_key(key),
            None => false,
        },
    }
}

fn is_plain_key(key: &str) -> bool {
    !key.is_empty()
        && key.chars().all(|c| c.is_ascii_alphanumeric() || matches!(c, '_' | '-' | '.' | '/'))
}
