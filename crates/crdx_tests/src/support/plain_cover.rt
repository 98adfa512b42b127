//! What `cover` answers, by the definitions alone: of all samples the first one with each path, and with each value at it. It is slow,
//! and uses nothing of `cover` but the names of its answer.
use crate::support::given::{Given, made};
use crate::support::reference::plain_parts;
use crate::support::report::Report;
use cover::{Covered, Line, Wanted, cover};
use explain::{Listing, resolve};
use jtree::{Items, Members, Tree};
use plan::Pools;
use schema::Sort;
use std::alloc::{AllocError, Global};
use std::fmt::Write;
use std::test::Fail;
use stored::Schema;

/// The lines, each with what it is for, and what is missed, as texts; and the samples of the lines.
#[derive(Drop)]
struct Plain<'a> {
    lines: String,
    missed: String,
    chosen: Vec<&'a Tree>,
}

/// The steps of a path whose names have no `~`.
fn steps_of(alloc: Global, path: &str) -> Result<Vec<&str>, AllocError> {
    let mut steps = Vec::new(alloc);
    for step in path.split('/').skip(1) {
        steps.push(step)?;
    }
    Ok(steps)
}

/// Whether the steps lead somewhere from the tree and from everything on their way, and everywhere to the value where one is wanted.
#[cycle(steps)]
fn has(tree: &Tree, steps: &[&str], value: Option<&Tree>) -> bool {
    let Some((step, after)) = steps.split_first() else {
        return match value {
            Some(value) => *tree == *value,
            None => true,
        };
    };
    match (*step, tree) {
        ("[]", Tree::List(items)) => all_items_have(items, after, value),
        ("{}", Tree::Object(members)) => all_members_have(members, after, value),
        (name, Tree::Object(members)) => member_has(members, name, after, value),
        _ => false,
    }
}

#[cycle(steps)]
fn all_items_have(items: &Items, steps: &[&str], value: Option<&Tree>) -> bool {
    for item in &items.items {
        if !has(item, steps, value) {
            return false;
        }
    }
    !items.items.is_empty()
}

#[cycle(steps)]
fn all_members_have(members: &Members, steps: &[&str], value: Option<&Tree>) -> bool {
    for member in &members.members {
        if !has(&member.tree, steps, value) {
            return false;
        }
    }
    !members.members.is_empty()
}

#[cycle(steps)]
fn member_has(members: &Members, name: &str, steps: &[&str], value: Option<&Tree>) -> bool {
    for member in &members.members {
        if member.name.as_str() == name {
            return has(&member.tree, steps, value);
        }
    }
    false
}

fn first_with<'a>(steps: &[&str], value: Option<&Tree>, samples: &[&'a Tree]) -> Option<&'a Tree> {
    for sample in samples {
        if has(sample, steps, value) {
            return Some(*sample);
        }
    }
    None
}

fn text_or(alloc: Global, tree: Option<&Tree>, other: &str) -> Result<String, Fail> {
    match tree {
        Some(tree) => Ok(tree.to_text(alloc)?),
        None => Ok(String::from_str(alloc, other)?),
    }
}

/// The path, the value or `-`, and the sample or that there is none, as a line.
fn push_line(
    alloc: Global,
    lines: &mut String,
    path: &str,
    value: Option<&Tree>,
    sample: Option<&Tree>,
) -> Result<(), Fail> {
    let value = text_or(alloc, value, "-")?;
    let sample = text_or(alloc, sample, "is missed")?;
    Ok(writeln!(lines, "{path} {value} {sample}")?)
}

fn add<'a>(
    alloc: Global,
    path: &str,
    value: Option<&Tree>,
    samples: &[&'a Tree],
    plain: &mut Plain<'a>,
) -> Result<(), Fail> {
    let steps = steps_of(alloc, path)?;
    if first_with(&steps, value, &plain.chosen).is_some() {
        return Ok(());
    }
    match first_with(&steps, value, samples) {
        Some(sample) => {
            plain.chosen.push(sample)?;
            push_line(alloc, &mut plain.lines, path, value, Some(sample))
        }
        None => push_line(alloc, &mut plain.missed, path, value, None),
    }
}

/// The candidates of a scalar at the path, and none of another node.
fn values_at(
    alloc: Global,
    schema: &Schema,
    pools: &Pools,
    path: &str,
) -> Result<Vec<Tree>, AllocError> {
    match resolve(schema, path) {
        Ok(node) => match &node.sort {
            Sort::Scalar(_) => plain_parts(alloc, node, path, pools, 1),
            _ => Ok(Vec::new(alloc)),
        },
        Err(_) => Ok(Vec::new(alloc)),
    }
}

fn add_with_values<'a>(
    alloc: Global,
    path: &str,
    values: &[Tree],
    samples: &[&'a Tree],
    plain: &mut Plain<'a>,
) -> Result<(), Fail> {
    add(alloc, path, None, samples, plain)?;
    for value in values {
        add(alloc, path, Some(value), samples, plain)?;
    }
    Ok(())
}

fn borrowed(alloc: Global, samples: &[Tree]) -> Result<Vec<&Tree>, AllocError> {
    let mut all = Vec::new(alloc);
    for sample in samples {
        all.push(sample)?;
    }
    Ok(all)
}

/// What a cover with values says, by all samples.
fn plain_cover(
    alloc: Global,
    schema: &Schema,
    pools: &Pools,
    samples: &[Tree],
) -> Result<String, Fail> {
    let all = borrowed(alloc, samples)?;
    let mut plain = Plain {
        lines: String::new(alloc),
        missed: String::new(alloc),
        chosen: Vec::new(alloc),
    };
    for field in Listing::new(alloc, schema)?.fields() {
        let path = field.path.as_str();
        let values = values_at(alloc, schema, pools, path)?;
        add_with_values(alloc, path, &values, &all, &mut plain)?;
    }
    Ok(format!(in alloc; "{}{}", plain.lines, plain.missed)?)
}

/// The same of what `cover` answers.
fn text_of(alloc: Global, covered: &Covered) -> Result<String, Fail> {
    let mut text = String::new(alloc);
    for Line { wanted, tree } in &covered.lines {
        let Wanted { path, value } = wanted;
        push_line(alloc, &mut text, path.as_str(), value.as_ref(), Some(tree))?;
    }
    for Wanted { path, value } in &covered.missed {
        push_line(alloc, &mut text, path.as_str(), value.as_ref(), None)?;
    }
    Ok(text)
}

/// What `cover` answers of a schema, pools and a node limit, with values, against the first ones of all samples.
pub fn try_cover(
    report: &mut Report,
    alloc: Global,
    given: Given<'_>,
    samples: &[Tree],
) -> Result<(), Fail> {
    let wanted = plain_cover(alloc, &given.schema(alloc)?, &given.pools(alloc)?, samples)?;
    let found = text_of(alloc, &cover(alloc, made(alloc, given)?, true)?)?;
    report.is_text("a cover", found.as_str(), wanted.as_str());
    Ok(())
}
