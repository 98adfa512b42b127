//! Which fields have to be there by the junctors of an object.
ghost use Rattle.std.specs.Prelude.{◌≡◌, ℕ, ◌≤◌, ◌<◌, ◌^◌, ◌++◌, Bool, List, length, get_or, IfOk, OnOk, IfSome};
ghost use Rattle.schema.specs.Nodes.View.{validations_of};
ghost use Rattle.schema.specs.Nodes.Junctors.{names_in, names_of, most_named};
ghost use Rattle.stored.specs.Objects.Tests.{has_names};
ghost use Rattle.stored.specs.Objects.Tests;
ghost use Rattle.plan.specs.Samples.Presence.{named, is_set};
ghost use Rattle.plan.specs.Samples.Presence;
ghost use Rattle.plan.specs.Internal.Tables.{is_seen};

use crate::values::put_in_order;
use jtree::Text;
use schema::{Branches, Constraints, Names, Validations};
use std::alloc::{AllocError, Global};
use stored::junctors::{BranchTest, meets_junctors};

/// The most fields that the junctors of an object name, by the rules of the schema.
const MOST_NAMED: usize = 4;

/// The fields that the junctors name, by bytes, each once.
pub(crate) fn named_fields(alloc: Global, junctors: &Validations) -> Result<Vec<Text>, AllocError>
    ensures few { IfOk result (λ names. length names.items ≤ most_named) }
    ensures names { IfOk result (λ names. length (named (validations_of junctors.now)) ≤ most_named → names.items ≡ named (validations_of junctors.now)) }
{
    let mut names = Vec::new(alloc);
    push_names(alloc, &mut names, junctors)?;
    put_in_order(&mut names);
    names.truncate(MOST_NAMED);
    Ok(names)
}

/// Adds the names that the junctors name, as written.
#[cycle(names)]
fn push_names(
    alloc: Global,
    names: &mut Vec<Text>,
    validations: &Validations,
) -> Result<(), AllocError>
    ensures { OnOk result (names.new.items ≡ names.old.items ++ names_in (validations_of validations.now)) }
{
    push_required(alloc, names, &validations.constraints.required)?;
    push_branch_names(alloc, names, &validations.all_of)?;
    push_branch_names(alloc, names, &validations.any_of)?;
    push_branch_names(alloc, names, &validations.one_of)?;
    push_branch_names(alloc, names, &validations.negated)
}

/// Adds the names that a branch itself names.
fn push_required(alloc: Global, names: &mut Vec<Text>, required: &Names) -> Result<(), AllocError>
    ensures { OnOk result (names.new.items ≡ names.old.items ++ required.now) }
{
    for name in &required.names {
        names.push(name.copy(alloc)?)?;
    }
    Ok(())
}

#[cycle(names)]
fn push_branch_names(
    alloc: Global,
    names: &mut Vec<Text>,
    branches: &Branches,
) -> Result<(), AllocError>
    ensures { OnOk result (names.new.items ≡ names.old.items ++ names_of branches.now) }
{
    for branch in &branches.branches {
        push_names(alloc, names, branch)?;
    }
    Ok(())
}

/// The place of a name.
pub(crate) fn bit_of(name: &Text, names: &[Text]) -> Option<u8>
    requires { length names.now ≤ most_named }
    ensures bit { result ≡ Presence.bit_of name.now names.now }
    ensures below { IfSome result (λ j. j < length names.now) }
{
    for place in 0..names.len() {
        if name == &names[place] {
            return Some(place as u8);
        }
    }
    None
}

/// For each set of the named fields: whether the junctors hold where exactly these are there.
pub(crate) fn ends_for(
    alloc: Global,
    junctors: &Validations,
    names: &[Text],
) -> Result<Vec<bool>, AllocError>
    requires { length names.now ≤ most_named }
    ensures whole { IfOk result (λ ends. length ends.items ≡ 2 ^ length names.now) }
    ensures each { IfOk result (λ ends. (seen : ℕ) (b : Bool) → seen < length ends.items → get_or ends.items seen b ≡ Tests.meets_presence (validations_of junctors.now) (is_seen names.now seen)) }
{
    let mut ends = Vec::new(alloc);
    for seen in 0..1u8 << names.len() {
        ends.push(meets_presence(junctors, names, seen))?;
    }
    Ok(ends)
}

/// Those of the named fields that are there, by their bits.
#[derive(Drop)]
struct Seen<'a> {
    names: &'a [Text],
    bits: u8,
    ghost few: { length names.now ≤ most_named },
}

impl BranchTest for Seen<'_> {
    ghost test = { λ s. has_names (is_seen s.names.now s.bits) };

    /// Whether all fields that the branch requires are there.
    fn meets(&self, constraints: &Constraints) -> bool {
        has_all(&constraints.required, self.names, self.bits)
    }
}

/// Whether the junctors hold where exactly these of the named fields are there.
fn meets_presence(junctors: &Validations, names: &[Text], seen: u8) -> bool
    requires { length names.now ≤ most_named }
    ensures { result ≡ Tests.meets_presence (validations_of junctors.now) (is_seen names.now seen) }
{
    meets_junctors(&Seen { names, bits: seen }, junctors)
}

/// Whether all these fields are there.
fn has_all(required: &Names, names: &[Text], seen: u8) -> bool
    requires { length names.now ≤ most_named }
    ensures { result ≡ Tests.has_all required.now (is_seen names.now seen) }
{
    for name in &required.names {
        if !is_there(name, names, seen) {
            return false;
        }
    }
    true
}

/// Whether a named field is there.
fn is_there(name: &Text, names: &[Text], seen: u8) -> bool
    requires { length names.now ≤ most_named }
    ensures { result ≡ is_seen names.now seen name.now }
{
    match bit_of(name, names) {
        Some(bit) => seen >> bit & 1 == 1,
        None => false,
    }
}
