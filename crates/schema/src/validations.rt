//! What is asked of a scalar besides its kind, and what junctors ask.
ghost use Rattle.std.specs.Prelude.{◌≡◌, [], codes, IfOk};
ghost use Rattle.jtree.specs.Path.{under};
ghost use Rattle.jtree.specs.View.{data_of};
ghost use Rattle.schema.specs.Nodes.Validations.{AreConstraintsOf, AreValidationsOf, AreObjectJunctorsOf, AreBranchesOf, presence, one_item, written_by};
ghost use Rattle.schema.specs.Nodes.View.{validations_of};
ghost use Rattle.schema.specs.Rules.Keywords.{items_under};

use crate::names::Names;
use crate::node::{Bounds, Branches, Constraints, Validations};
use crate::profile::Profile;
use crate::reading::{bounds, copy_list, copy_texts, flag, integer};
use jtree::{Items, Members, Tree};
use std::alloc::{AllocError, Global};

/// The validations of a schema, as its keywords are there.
#[cycle(validations)]
pub(crate) fn read_validations(
    alloc: Global,
    profile: Profile,
    schema: &Tree,
) -> Result<Validations, AllocError>
    ensures { IfOk result (λ c. AreValidationsOf profile (validations_of c) (data_of schema.now)) }
{
    let constraints = read_constraints(alloc, profile, schema)?;
    let all_of = read_junctor(alloc, profile, schema, "allOf")?;
    let any_of = read_junctor(alloc, profile, schema, "anyOf")?;
    let one_of = read_junctor(alloc, profile, schema, "oneOf")?;
    let negated = read_negated(alloc, profile, schema)?;
    Ok(Validations {
        constraints,
        all_of,
        any_of,
        one_of,
        negated,
    })
}

/// The constraints of a schema.
fn read_constraints(
    alloc: Global,
    profile: Profile,
    schema: &Tree,
) -> Result<Constraints, AllocError>
    ensures { IfOk result (λ t. AreConstraintsOf profile t (data_of schema.now)) }
{
    Ok(Constraints {
        choices: copy_list(alloc, schema, "enum")?,
        minimum: integer(schema, "minimum"),
        maximum: integer(schema, "maximum"),
        exclusive_minimum: flag(schema, "exclusiveMinimum"),
        exclusive_maximum: flag(schema, "exclusiveMaximum"),
        lengths: bounds(schema, "minLength", "maxLength"),
        written: written(alloc, profile, schema)?,
        required: Names {
            names: copy_texts(alloc, schema, "required")?,
        },
    })
}

/// The schema as it is written, where a cluster asks by it.
fn written(alloc: Global, profile: Profile, schema: &Tree) -> Result<Option<Members>, AllocError>
    ensures { IfOk result (λ o. o ≡ written_by profile (data_of schema.now)) }
{
    match profile {
        Profile::Core => Ok(None),
        Profile::Cluster => match schema.try_clone(alloc)? {
            Tree::Object(members) => Ok(Some(members)),
            _ => Ok(None),
        },
    }
}

/// The junctors of an object, as its keywords are there.
pub(crate) fn read_object_junctors(alloc: Global, schema: &Tree) -> Result<Validations, AllocError>
    ensures { IfOk result (λ c. AreObjectJunctorsOf (validations_of c) (data_of schema.now)) }
{
    let mut validations = read_validations(alloc, Profile::Core, schema)?;
    validations.constraints = Constraints::none(alloc);
    Ok(validations)
}

impl Constraints {
    /// Constraints that ask nothing.
    pub fn none(alloc: Global) -> Constraints
        ensures { result ≡ presence [] }
    {
        Constraints {
            choices: None,
            minimum: None,
            maximum: None,
            exclusive_minimum: false,
            exclusive_maximum: false,
            lengths: Bounds {
                least: None,
                most: None,
            },
            written: None,
            required: Names {
                names: Vec::new(alloc),
            },
        }
    }
}

/// The branches in the list under a keyword.
#[cycle(validations)]
fn read_junctor(
    alloc: Global,
    profile: Profile,
    schema: &Tree,
    keyword: &str,
) -> Result<Branches, AllocError>
    ensures { IfOk result (λ b. AreBranchesOf profile b (items_under (data_of schema.now) keyword.now)) }
{
    match schema.get(keyword) {
        Some(Tree::List(items)) => read_branches(alloc, profile, items),
        _ => Ok(Branches {
            branches: Vec::new(alloc),
        }),
    }
}

/// A branch for each schema of a list.
#[cycle(validations)]
fn read_branches(alloc: Global, profile: Profile, items: &Items) -> Result<Branches, AllocError>
    ensures { IfOk result (λ b. AreBranchesOf profile b items.now) }
{
    let mut branches = Vec::with_capacity(alloc, items.items.len())?;
    for item in &items.items {
        branches.push(read_validations(alloc, profile, item)?)?;
    }
    Ok(Branches { branches })
}

/// The branch of `not`, where it is there.
#[cycle(validations)]
fn read_negated(alloc: Global, profile: Profile, schema: &Tree) -> Result<Branches, AllocError>
    ensures { IfOk result (λ b. AreBranchesOf profile b (one_item (under (data_of schema.now) (codes "not")))) }
{
    let mut branches = Vec::new(alloc);
    if let Some(negated) = schema.get("not") {
        branches.push(read_validations(alloc, profile, negated)?)?;
    }
    Ok(Branches { branches })
}
