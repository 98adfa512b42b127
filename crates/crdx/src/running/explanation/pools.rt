//! Why a document is no pools, why a path of pools is refused, and why no pools are suggested.

use crate::arguments::CommonArguments;
use crate::running::answer::json_text;
use crate::running::causes::{Cause, PlaceCode};
use crate::running::documents::pool_limits_of;
use crate::running::explanation::crd_again;
use crate::running::explanation::values::found_text;
use explain::{XFault, resolve};
use jtree::{MOST_BYTES, Members, Tree, push_name};
use plan::{PFault, PoolLimits, PoolName, Pools, oversized_pool};
use schema::{Node, Profile, Sort};
use std::alloc::{AllocError, Global};
use stored::{Schema, accept};

/// What is wrong with a pools document.
pub(crate) fn pools_text(
    alloc: Global,
    document: &Tree,
    cause: &Cause,
    arguments: &CommonArguments<'_>,
) -> Result<Option<String>, AllocError> {
    match cause {
        Cause::Place(_, PlaceCode::Form, pointer) => Ok(Some(form_text(
            alloc,
            document,
            arguments.profile,
            pointer.as_str(),
        )?)),
        Cause::Pools(PFault::TooLarge) => size_text(alloc, document, pool_limits_of(arguments)),
        _ => Ok(None),
    }
}

/// Which pool has too many entries, and by how much.
fn size_text(
    alloc: Global,
    document: &Tree,
    limits: PoolLimits,
) -> Result<Option<String>, AllocError> {
    let Some(oversized) = oversized_pool(document, limits) else {
        return Ok(None);
    };
    let found = oversized.found;
    let most = oversized.allowed;
    let what = entries_text(alloc, oversized.pool)?;
    let large = most_of(oversized.pool, PoolLimits::LARGE);
    if most < large {
        Ok(Some(format!(in alloc;
            "found {found} {what}; allowed are {most}, and {large} with --large"
        )?))
    } else {
        Ok(Some(format!(in alloc; "found {found} {what}; allowed are {most}")?))
    }
}

fn entries_text(alloc: Global, pool: PoolName<'_>) -> Result<String, AllocError> {
    match pool {
        PoolName::Any => String::from_str(alloc, r#"entries in "any""#),
        PoolName::Fixed => String::from_str(alloc, r#"paths in "fixed""#),
        PoolName::FixedAt(path) => {
            let path = json_text(alloc, path)?;
            format!(in alloc; "fixed values at the path {path}")
        }
        PoolName::Integers => String::from_str(alloc, r#"entries in "integers""#),
        PoolName::Names => String::from_str(alloc, r#"entries in "names""#),
        PoolName::Numbers => String::from_str(alloc, r#"entries in "numbers""#),
        PoolName::Paths => String::from_str(alloc, r#"paths in "paths""#),
        PoolName::At(path) => {
            let path = json_text(alloc, path)?;
            format!(in alloc; "values at the path {path}")
        }
        PoolName::Present => String::from_str(alloc, r#"paths in "present""#),
        PoolName::Strings => String::from_str(alloc, r#"entries in "strings""#),
    }
}

/// The most entries that a pool may have within the limits.
fn most_of(pool: PoolName<'_>, limits: PoolLimits) -> usize {
    match pool {
        PoolName::Names => limits.names,
        PoolName::Fixed | PoolName::Paths | PoolName::Present => limits.paths,
        _ => limits.entries,
    }
}

/// What was found at the pointer of a place that has not its form, and what is allowed there.
fn form_text(
    alloc: Global,
    document: &Tree,
    profile: Profile,
    pointer: &str,
) -> Result<String, AllocError> {
    let mut steps = pointer.split('/');
    steps.next();
    let Some(name) = steps.next() else {
        let found = found_text(alloc, Some(document))?;
        return format!(in alloc; "found {found}; allowed is an object");
    };
    let pool = document.get(name);
    match steps.next() {
        None => {
            let found = found_text(alloc, pool)?;
            let form = pool_text(profile, name);
            format!(in alloc; "found {found}; allowed {form}")
        }
        Some(step) => {
            let found = found_text(alloc, entry_at(alloc, pool, step)?)?;
            let form = entry_text(name);
            format!(in alloc; "found {found}; allowed is {form}")
        }
    }
}

/// The entry of a pool, or the list of a path, at a token of a pointer.
fn entry_at<'a>(
    alloc: Global,
    pool: Option<&'a Tree>,
    token: &str,
) -> Result<Option<&'a Tree>, AllocError> {
    match pool {
        Some(Tree::List(items)) => match token.parse::<usize>() {
            Ok(index) => Ok(items.items.get(index)),
            Err(_) => Ok(None),
        },
        Some(Tree::Object(members)) => member_at(alloc, members, token),
        _ => Ok(None),
    }
}

fn member_at<'a>(
    alloc: Global,
    members: &'a Members,
    token: &str,
) -> Result<Option<&'a Tree>, AllocError> {
    for member in &members.members {
        let mut pointer = String::new(alloc);
        push_name(&mut pointer, member.name.as_str()).map_err(|_| AllocError)?;
        if pointer.as_str().get(1..) == Some(token) {
            return Ok(Some(&member.tree));
        }
    }
    Ok(None)
}

fn pool_text(profile: Profile, name: &str) -> &'static str {
    match name {
        "integers" => "is a list of integers",
        "numbers" => numbers_text(profile),
        "strings" | "names" | "present" => "is a list of strings",
        "any" => "is a list",
        "paths" | "fixed" => "is an object of lists",
        _ => members_text(profile),
    }
}

fn numbers_text(profile: Profile) -> &'static str {
    match profile {
        Profile::Core => members_text(profile),
        Profile::Cluster => "is a list of numbers",
    }
}

fn members_text(profile: Profile) -> &'static str {
    match profile {
        Profile::Core => {
            r#"are the members "any", "fixed", "integers", "names", "paths", "present" and "strings""#
        }
        Profile::Cluster => {
            r#"are the members "any", "fixed", "integers", "names", "numbers", "paths", "present" and "strings""#
        }
    }
}

fn entry_text(name: &str) -> &'static str {
    match name {
        "integers" => "an integer",
        "numbers" => "a number",
        "paths" | "fixed" => "a list",
        _ => "a string",
    }
}

/// Why a path of pools is refused, where one is. The schema and the pools are read again.
pub(crate) fn path_text(
    alloc: Global,
    definition: &Tree,
    pools: Option<&Tree>,
    cause: &Cause,
    arguments: &CommonArguments<'_>,
) -> Result<Option<String>, AllocError> {
    let (Some(document), Cause::Place(_, PlaceCode::BadPath, path)) = (pools, cause) else {
        return Ok(None);
    };
    let crd = crd_again(alloc, definition, arguments)?;
    let schema = accept(alloc, crd.raw).map_err(|_| AllocError)?;
    let limits = pool_limits_of(arguments);
    let pools = Pools::read_by(alloc, document, arguments.profile, limits).map_err(|_| AllocError)?;
    Ok(Some(String::from_str(alloc, refused_path_text(&schema, &pools, path.as_str()))?))
}

fn refused_path_text(schema: &Schema, pools: &Pools, path: &str) -> &'static str {
    match resolve(schema, path) {
        Err(XFault::BadPath) => "found a text that is no path; `crdx explain` lists the paths",
        Err(XFault::NoSuchField) => {
            "found a path that is not declared; `crdx explain` lists those that are"
        }
        Ok(node) if pools.list_at(path).is_some() => compound_text(node),
        Ok(_) => {
            "found the path of the items of a map list; allowed are those of the list and of what is below its items"
        }
    }
}

/// Why no pools are suggested for a schema and so many objects.
pub(crate) fn suggestion_text(
    alloc: Global,
    schema: &Schema,
    cause: &Cause,
    objects: usize,
    limits: PoolLimits,
) -> Result<Option<String>, AllocError> {
    match cause {
        Cause::Place(_, PlaceCode::BadPath, path) => {
            let text = bad_path_text(schema, path.as_str());
            Ok(Some(String::from_str(alloc, text)?))
        }
        Cause::Place(_, PlaceCode::NotInObject, _) if objects == 1 => Ok(Some(String::from_str(
            alloc,
            "the object has no object to which this field belongs; vary a path that is further up",
        )?)),
        Cause::Place(_, PlaceCode::NotInObject, _) => Ok(Some(format!(in alloc;
            "found {objects} objects; --vary takes one"
        )?)),
        Cause::Pools(PFault::TooLarge) => Ok(Some(large_text(alloc, limits)?)),
        _ => Ok(None),
    }
}

fn bad_path_text(schema: &Schema, path: &str) -> &'static str {
    match resolve(schema, path) {
        Err(XFault::BadPath) => "found a text that is no path; `crdx explain` lists the paths",
        Err(XFault::NoSuchField) => {
            "found a path that is not declared; `crdx explain` lists those that are"
        }
        Ok(_) => {
            "found a path through a list or a map; --vary takes a path through objects alone, and --without none of the items of a map list"
        }
    }
}

fn large_text(alloc: Global, limits: PoolLimits) -> Result<String, AllocError> {
    let most = limits.paths;
    let large = PoolLimits::LARGE.paths;
    if most < large {
        format!(in alloc;
            "the pools would be longer than {MOST_BYTES} bytes, or have more than {most} paths in fixed or present, of which {large} are allowed with --large"
        )
    } else {
        format!(in alloc;
            "the pools would be longer than {MOST_BYTES} bytes, or have more than {most} paths in fixed or present"
        )
    }
}

/// What leads to an object, a map or a list has no list of values.
fn compound_text(node: &Node) -> &'static str {
    match &node.sort {
        Sort::Map(_) => "found the path of a map; allowed are those of scalars and of open places",
        Sort::List(_) =>
            "found the path of a list; allowed are those of scalars and of open places",
        _ => "found the path of an object; allowed are those of scalars and of open places",
    }
}
