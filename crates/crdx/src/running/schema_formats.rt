//! The expressions of the formats that a schema names, compiled so that their matchers are kept.
use formats::{Format, expressions_of};
use jtree::{Items, Members, Tree};
use patterns::{Pattern, PatternFault};
use std::alloc::{AllocError, Global};

/// Compiles the expressions that texts of the schema's formats are tested by, each format's once. A test by one of them asks the same
/// without, in more time.
pub(crate) fn compile_formats(
    alloc: Global,
    schema: &Tree,
    patterns: &mut Vec<Pattern>,
) -> Result<(), AllocError> {
    let mut named = Vec::new(alloc);
    add_named(&mut named, schema)?;
    for format in &named {
        for expression in expressions_of(*format) {
            compile(alloc, expression, patterns)?;
        }
    }
    Ok(())
}

/// Adds what an expression compiles to.
fn compile(alloc: Global, expression: &str, patterns: &mut Vec<Pattern>) -> Result<(), AllocError> {
    match Pattern::new(alloc, expression) {
        Ok(pattern) => Ok(patterns.push(pattern)?),
        Err(PatternFault::NoMemory) => Err(AllocError),
        Err(_) => Ok(()),
    }
}

/// Adds the formats that stand under `format` somewhere in a tree.
#[cycle(formats)]
fn add_named(named: &mut Vec<Format>, tree: &Tree) -> Result<(), AllocError> {
    match tree {
        Tree::List(items) => add_in_items(named, items),
        Tree::Object(members) => add_in_members(named, members),
        _ => Ok(()),
    }
}

#[cycle(formats)]
fn add_in_items(named: &mut Vec<Format>, items: &Items) -> Result<(), AllocError> {
    for item in &items.items {
        add_named(named, item)?;
    }
    Ok(())
}

#[cycle(formats)]
fn add_in_members(named: &mut Vec<Format>, members: &Members) -> Result<(), AllocError> {
    for member in &members.members {
        match &member.tree {
            Tree::Text(text) if member.name.as_str() == "format" => {
                add_format(named, text.as_str())?;
            }
            tree => add_named(named, tree)?,
        }
    }
    Ok(())
}

/// Adds the format of this name, where there is one and it is not there yet.
fn add_format(named: &mut Vec<Format>, name: &str) -> Result<(), AllocError> {
    match Format::named(name) {
        Some(format) if !named.as_slice().contains(&format) => Ok(named.push(format)?),
        _ => Ok(()),
    }
}
