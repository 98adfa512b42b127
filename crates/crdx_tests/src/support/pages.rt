//! Samples as lines, and walks on a sink.
use crate::support::fakes::FailingSink;
use crate::support::given::{Given, made};
use crate::support::reference::plain_parts;
use crdx::walk::{WFault, Walked, walk};
use jtree::{JFault, Tree};
use std::alloc::{AllocError, Global};
use std::fmt::Write;
use std::test::Fail;

pub fn place_of(alloc: Global, text: Option<&str>) -> Result<Option<Tree>, JFault> {
    match text {
        Some(text) => Ok(Some(Tree::from_bytes(alloc, text.as_bytes())?)),
        None => Ok(None),
    }
}

fn push_line(alloc: Global, lines: &mut String, item: &Tree) -> Result<(), Fail> {
    let line = item.to_text(alloc)?;
    Ok(writeln!(lines, "{line}")?)
}

/// The lines of trees.
pub fn lines_of(alloc: Global, items: &[Tree]) -> Result<String, Fail> {
    let mut lines = String::new(alloc);
    for item in items {
        push_line(alloc, &mut lines, item)?;
    }
    Ok(lines)
}

/// Where a walk begins, after which place, the size of its pages, and the most lines.
#[derive(Clone, Copy)]
pub struct WalkInput<'a> {
    pub given: Given<'a>,
    pub place: Option<&'a str>,
    pub page: u32,
    pub total: u32,
}

/// What a walk writes on a sink, and what it answers.
pub fn walked(
    alloc: Global,
    of: WalkInput<'_>,
    sink: &mut FailingSink,
) -> Result<Result<Walked, WFault>, Fail> {
    let place = place_of(alloc, of.place)?;
    let mut plan = made(alloc, of.given)?;
    let mut meter = plan.meter();
    Ok(walk(
        alloc,
        &plan,
        place.as_ref(),
        of.page.clamp(1, 10000),
        of.total.clamp(1, 10000),
        None,
        &mut meter,
        sink,
    ))
}

/// All samples, by the plain reference.
pub fn listed(alloc: Global, given: Given<'_>) -> Result<Vec<Tree>, Fail> {
    let pools = given.pools(alloc)?;
    let schema = given.schema(alloc)?;
    let limit = u64::from(given.limit);
    Ok(plain_parts(alloc, schema.root(), "", &pools, limit)?)
}

/// The lines of all samples, by the plain reference.
pub fn plain_lines(alloc: Global, given: Given<'_>) -> Result<String, Fail> {
    lines_of(alloc, &listed(alloc, given)?)
}

/// A list of so many objects of three booleans: the first all true, the last this one, and the others all false.
fn list_of(alloc: Global, items: usize, last: &str) -> Result<String, AllocError> {
    let mut text = String::from_str(alloc, r#"{"t":[{"a":true,"b":true,"c":true},"#)?;
    for _ in 2..items {
        text.push_str(r#"{"a":false,"b":false,"c":false},"#)?;
    }
    text.push_str(last)?;
    text.push_str("]}")?;
    Ok(text)
}

/// The list whose last object is all false.
pub fn list_before_three(alloc: Global, items: usize) -> Result<String, AllocError> {
    list_of(alloc, items, r#"{"a":false,"b":false,"c":false}"#)
}

/// The lines of the three lists that come next.
pub fn next_three_lists(alloc: Global, items: usize) -> Result<String, AllocError> {
    let mut lines = String::new(alloc);
    for last in [
        r#"{"a":false,"b":false,"c":true}"#,
        r#"{"a":false,"b":true,"c":false}"#,
        r#"{"a":false,"b":true,"c":true}"#,
    ] {
        lines.push_str(list_of(alloc, items, last)?.as_str())?;
        lines.push('\n')?;
    }
    Ok(lines)
}
