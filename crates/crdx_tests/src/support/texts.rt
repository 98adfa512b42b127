//! Long texts, and beginnings of texts.
use crate::support::rows::Row;
use std::alloc::{AllocError, Global};
use std::test::Fail;

/// The long text of a row: a text so many times, a text between, and another text as often.
pub fn border_of(alloc: Global, row: &Row) -> Result<String, AllocError> {
    let (before, middle, after) = (row.text("before"), row.text("middle"), row.text("after"));
    nested(alloc, before, row.count("times"), middle, after)
}

fn push_times(text: &mut String, part: &str, times: usize) -> Result<(), AllocError> {
    for _ in 0..times {
        text.push_str(part)?;
    }
    Ok(())
}

/// A text so many times, a text between, and another text so many times.
pub fn nested(
    alloc: Global,
    before: &str,
    times: usize,
    middle: &str,
    after: &str,
) -> Result<String, AllocError> {
    let mut text = String::new(alloc);
    push_times(&mut text, before, times)?;
    text.push_str(middle)?;
    push_times(&mut text, after, times)?;
    Ok(text)
}

/// A text with so many spaces after it.
pub fn padded(alloc: Global, head: &str, spaces: usize) -> Result<String, Fail> {
    let mut text = String::from_str(alloc, head)?;
    for _ in 0..spaces {
        text.push(' ')?;
    }
    Ok(text)
}

/// The first so many bytes of a text of ASCII, or all of it.
pub fn beginning(text: &str, room: usize) -> &str {
    text.get(..room).unwrap_or(text)
}

fn push_entry(text: &mut String, i: usize, entry: &str) -> Result<(), AllocError> {
    if i > 0 {
        text.push(',')?;
    }
    text.push_str(entry)
}

/// A text, an entry so many times, with commas between, and another text.
pub fn repeated(
    alloc: Global,
    head: &str,
    entry: &str,
    count: usize,
    tail: &str,
) -> Result<String, AllocError> {
    let mut text = String::from_str(alloc, head)?;
    for i in 0..count {
        push_entry(&mut text, i, entry)?;
    }
    text.push_str(tail)?;
    Ok(text)
}
