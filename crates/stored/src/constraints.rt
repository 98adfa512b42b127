//! What is asked of a value: of a scalar, and of an object by its junctors.
ghost use Rattle.std.specs.Prelude.{◌≡◌, not, ◌&&◌, length, chars};
ghost use Rattle.jtree.specs.View.{data_of, items_of};
ghost use Rattle.schema.specs.Nodes.View.{validations_of};
ghost use Rattle.stored.specs.Objects.Tests;
ghost use Rattle.stored.specs.Objects.Tests.{is_same, has_member};

use crate::junctors::{self, BranchTest};
use jtree::{Items, Members, Text, Tree};
use judge::{is_long, is_short, passes_enum, passes_maximum, passes_minimum};
use schema::{Bounds, Constraints, ScalarKind, Validations};

/// Whether a value is a scalar of this kind.
pub(crate) fn accepts_scalar(kind: ScalarKind, tree: &Tree) -> bool
    ensures { result ≡ Tests.accepts_scalar kind (data_of tree.now) }
{
    match (kind, tree) {
        (ScalarKind::Boolean, Tree::Bool(_)) => true,
        (ScalarKind::Integer | ScalarKind::IntOrString, Tree::Int(_)) => true,
        (ScalarKind::Number, Tree::Int(_) | Tree::Number(_)) => true,
        (ScalarKind::String | ScalarKind::IntOrString, Tree::Text(_)) => true,
        _ => false,
    }
}

/// Whether a value is one of a list.
fn is_choice(tree: &Tree, choices: &Items) -> bool
    ensures { result ≡ Tests.is_choice (data_of tree.now) choices.now }
{
    for choice in &choices.items {
        if tree == choice {
            return true;
        }
    }
    false
}

/// Whether a number is below a bound.
pub(crate) fn is_below(least: Option<u64>, number: u64) -> bool
    ensures { result ≡ Tests.is_below least number }
{
    match least {
        Some(least) => number < least,
        None => false,
    }
}

/// Whether a number is above a bound.
pub(crate) fn is_above(most: Option<u64>, number: u64) -> bool
    ensures { result ≡ Tests.is_above most number }
{
    match most {
        Some(most) => most < number,
        None => false,
    }
}

/// Whether a number of parts is neither below nor above the bounds.
pub fn is_within(bounds: Bounds, count: u64) -> bool
    ensures { result ≡ (not (Tests.is_below bounds.least count) && not (Tests.is_above bounds.most count)) }
{
    !is_below(bounds.least, count) && !is_above(bounds.most, count)
}

/// Whether a value is not in `enum`.
pub(crate) fn fails_enum(constraints: &Constraints, tree: &Tree) -> bool
    ensures { result ≡ Tests.fails_enum constraints.now (data_of tree.now) }
{
    match (&constraints.written, &constraints.choices) {
        (Some(schema), _) => !passes_enum(schema.get("enum"), tree),
        (None, Some(choices)) => !is_choice(tree, choices),
        (None, None) => false,
    }
}

/// Whether `enum` refuses null, of which it is asked by a schema as it is written alone.
pub(crate) fn null_fails_enum(constraints: &Constraints) -> bool
    ensures { result ≡ Tests.null_fails_enum constraints.now }
{
    match &constraints.written {
        Some(schema) => !passes_enum(schema.get("enum"), &Tree::Null),
        None => false,
    }
}

/// Whether a number is below `minimum`, or equal to it where that is exclusive.
pub(crate) fn fails_minimum(constraints: &Constraints, tree: &Tree) -> bool
    ensures { result ≡ Tests.fails_minimum constraints.now (data_of tree.now) }
{
    match (&constraints.written, constraints.minimum, tree) {
        (Some(schema), _, _) => !passes_minimum(schema, tree),
        (None, Some(least), Tree::Int(number)) => {
            if constraints.exclusive_minimum {
                *number <= least
            } else {
                *number < least
            }
        }
        _ => false,
    }
}

/// Whether a number is above `maximum`, or equal to it where that is exclusive.
pub(crate) fn fails_maximum(constraints: &Constraints, tree: &Tree) -> bool
    ensures { result ≡ Tests.fails_maximum constraints.now (data_of tree.now) }
{
    match (&constraints.written, constraints.maximum, tree) {
        (Some(schema), _, _) => !passes_maximum(schema, tree),
        (None, Some(most), Tree::Int(number)) => {
            if constraints.exclusive_maximum {
                most <= *number
            } else {
                most < *number
            }
        }
        _ => false,
    }
}

/// How many Unicode scalar values a string has.
fn scalar_values(text: &str) -> u64
    ensures { result ≡ length (chars text.now) }
{
    text.chars().count() as u64
}

/// Whether a string is shorter than `minLength`, in Unicode scalar values.
pub(crate) fn fails_least_length(constraints: &Constraints, tree: &Tree) -> bool
    ensures { result ≡ Tests.fails_least_length constraints.now (data_of tree.now) }
{
    match (&constraints.written, constraints.lengths.least, tree) {
        (Some(schema), _, _) => !is_long(schema, tree),
        (None, Some(least), Tree::Text(text)) => scalar_values(text.as_str()) < least,
        _ => false,
    }
}

/// Whether a string is longer than `maxLength`, in Unicode scalar values.
pub(crate) fn fails_most_length(constraints: &Constraints, tree: &Tree) -> bool
    ensures { result ≡ Tests.fails_most_length constraints.now (data_of tree.now) }
{
    match (&constraints.written, constraints.lengths.most, tree) {
        (Some(schema), _, _) => !is_short(schema, tree),
        (None, Some(most), Tree::Text(text)) => most < scalar_values(text.as_str()),
        _ => false,
    }
}

/// Whether a scalar meets all constraints.
fn meets_constraints(constraints: &Constraints, tree: &Tree) -> bool
    ensures { result ≡ Tests.meets_constraints constraints.now (data_of tree.now) }
{
    !fails_enum(constraints, tree)
        && (!fails_minimum(constraints, tree)
            && (!fails_maximum(constraints, tree)
                && (!fails_least_length(constraints, tree)
                    && !fails_most_length(constraints, tree))))
}

/// Whether there are members of all these names.
fn has_all(names: &[Text], members: &Members) -> bool
    ensures { result ≡ Tests.has_all names.now (has_member members.now) }
{
    for name in names {
        if members.get(name.as_str()).is_none() {
            return false;
        }
    }
    true
}

impl BranchTest for Tree {
    ghost test = { λ t. Tests.meets_branch (data_of t) };

    /// Whether the value has all members that the branch requires, where it is an object, and else whether it meets all constraints.
    fn meets(&self, constraints: &Constraints) -> bool {
        match self {
            Tree::Object(members) => has_all(&constraints.required.names, members),
            _ => meets_constraints(constraints, self),
        }
    }
}

/// Whether a value meets what a branch or a scalar node asks, and its junctors.
pub(crate) fn holds(validations: &Validations, tree: &Tree) -> bool
    ensures { result ≡ Tests.holds (validations_of validations.now) (data_of tree.now) }
{
    junctors::holds(tree, validations)
}

/// Whether a value meets the junctors.
pub(crate) fn meets_junctors(validations: &Validations, tree: &Tree) -> bool
    ensures { result ≡ Tests.meets_junctors (validations_of validations.now) (data_of tree.now) }
{
    junctors::meets_junctors(tree, validations)
}
