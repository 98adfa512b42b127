//! The pools document that is suggested.
use crate::support::harness::{is_tree, schema_of};
use crate::support::report::Report;
use jtree::Tree;
use plan::PoolLimits;
use std::alloc::{AllocError, Global};
use std::test::Fail;
use suggest::{SuggestFault, Wanted, suggested_pools};

fn words_of<'a>(alloc: Global, line: &'a str) -> Result<Vec<&'a str>, AllocError> {
    let mut words = Vec::new(alloc);
    if !line.is_empty() {
        for word in line.split(' ') {
            words.push(word)?;
        }
    }
    Ok(words)
}

fn suggested_of(
    alloc: Global,
    schema: &str,
    wanted: &Wanted<'_>,
    limits: PoolLimits,
) -> Result<Result<Tree, SuggestFault>, Fail> {
    let raw = Tree::from_bytes(alloc, schema.as_bytes())?;
    let accepted = schema_of(alloc, schema)?;
    Ok(suggested_pools(alloc, &raw, &accepted, wanted, limits))
}

/// The document for a schema, a list of objects, varied paths and paths that never occur.
pub fn suggested(
    alloc: Global,
    schema: &str,
    objects: &str,
    paths: (&str, &str),
    limits: PoolLimits,
) -> Result<Result<Tree, SuggestFault>, Fail> {
    let objects = Tree::from_bytes(alloc, objects.as_bytes())?;
    let varied = words_of(alloc, paths.0)?;
    let without = words_of(alloc, paths.1)?;
    let wanted = Wanted {
        objects: match &objects {
            Tree::List(items) => items.items.as_slice(),
            _ => &[],
        },
        varied: varied.as_slice(),
        without: without.as_slice(),
    };
    suggested_of(alloc, schema, &wanted, limits)
}

/// Notes it unless the document has this member, or none where the text is empty.
pub fn has_member(
    report: &mut Report,
    alloc: Global,
    document: &Tree,
    member: &str,
    wanted: &str,
) -> Result<(), Fail> {
    match document.get(member) {
        Some(tree) => is_tree(report, alloc, member, tree, wanted),
        None => {
            report.is_text(member, "", wanted);
            Ok(())
        }
    }
}
