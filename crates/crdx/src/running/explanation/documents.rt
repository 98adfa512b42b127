//! Why bytes are no document, and why an object is no sample.

use crate::inputs::{InputName, Unread};
use crate::running::answer::json_text;
use jtree::{MOST_BYTES, Refusal, Tree};
use std::alloc::{AllocError, Global};

/// What is wrong with the bytes of a document, where something is.
pub(crate) fn document_text(
    alloc: Global,
    bytes: &[u8],
    size: Option<u64>,
) -> Result<Option<String>, AllocError> {
    match Refusal::of_bytes(alloc, bytes)? {
        Some(refusal) => Ok(Some(refusal_text(alloc, &refusal, size)?)),
        None => Ok(None),
    }
}

fn refusal_text(alloc: Global, refusal: &Refusal, size: Option<u64>) -> Result<String, AllocError> {
    match refusal {
        Refusal::NotAnInteger { number, pointer } => {
            let pointer = json_text(alloc, pointer.as_str())?;
            format!(in alloc;
                "found {number} at {pointer}; allowed are integers of 64 bits; `--profile cluster` reads other numbers"
            )
        }
        Refusal::NotJson {
            line,
            column,
            is_yaml,
        } => {
            let yaml = if *is_yaml {
                ", which looks like YAML; `yq -o json` makes JSON of it"
            } else {
                ""
            };
            format!(in alloc; "found no JSON at line {line}, column {column}{yaml}")
        }
        Refusal::TooLong { bytes: _ } => match size {
            Some(size) => { format!(in alloc; "found {size} bytes; allowed are {MOST_BYTES}") }
            None => {
                format!(in alloc; "found more than {MOST_BYTES} bytes; allowed are {MOST_BYTES}")
            }
        },
    }
}

/// Why an input was not opened or read.
pub(crate) fn unread_text(
    alloc: Global,
    name: InputName<'_>,
    unread: Unread,
) -> Result<Option<String>, AllocError> {
    let text = match name {
        InputName::File(name) => {
            let name = json_text(alloc, name)?;
            format!(in alloc; "{name} {unread}")?
        }
        InputName::Stdin => format!(in alloc; "the standard input {unread}")?,
    };
    Ok(Some(text))
}

/// Why an object may be no sample within a limit.
pub(crate) fn after_text(
    alloc: Global,
    limit: u32,
    body: Option<&Tree>,
) -> Result<Option<String>, AllocError> {
    let Some(body) = body else {
        return Ok(None);
    };
    let nodes = body.nodes();
    if nodes > limit as u64 {
        return Ok(Some(format!(in alloc; "found {nodes} nodes; allowed are {limit} (--limit)")?));
    }
    Ok(Some(String::from_str(
        alloc,
        "found a value or a name that is not in the pools, or an object that is not as it is stored (`crdx leaves --why`)",
    )?))
}
