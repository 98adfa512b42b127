//! Whether junctors hold, by a test of what each branch itself asks (OpenAPI 3.0, Schema Object).
ghost use Rattle.std.specs.Prelude.{◌≡◌, ◌+◌, not, ◌&&◌, ◌||◌, nat_eq};
ghost use Rattle.schema.specs.Nodes.View.{validations_of, branches_of};
ghost use Rattle.stored.specs.Objects.Tests;
ghost use Rattle.stored.specs.Objects.Tests.{holds_by, meets_junctors_by};

use schema::{Branches, Constraints, Validations};

/// A test of what a branch itself asks, its own junctors left aside.
pub trait BranchTest {
    ghost use Rattle.std.specs.Prelude.{◌≡◌, Bool};
    ghost use Rattle.schema.specs.declared.node.Constraints as ConstraintsSpec;

    // The answer for these constraints.
    ghost test: { Self → ConstraintsSpec.Constraints → Bool };

    /// Whether these constraints of a branch are met.
    fn meets(&self, constraints: &Constraints) -> bool
        ensures { result ≡ test self.now constraints.now };
}

/// Whether the junctors hold: `allOf` asks for all branches, `anyOf` for one at least, `oneOf` for exactly one, and `not` that its
/// branch does not hold. A branch holds where the test is met and its own junctors hold. A junctor that is absent asks nothing.
#[cycle(branches)]
pub fn meets_junctors<T: BranchTest>(test: &T, validations: &Validations) -> bool
    ensures { result ≡ meets_junctors_by (T.test test.now) (validations_of validations.now) }
{
    all_hold(test, &validations.all_of)
        && ((is_absent(&validations.any_of) || any_holds(test, &validations.any_of))
            && ((is_absent(&validations.one_of) || holding(test, &validations.one_of) == 1)
                && !any_holds(test, &validations.negated)))
}

/// Whether a branch holds.
#[cycle(branches)]
pub(crate) fn holds<T: BranchTest>(test: &T, validations: &Validations) -> bool
    ensures { result ≡ holds_by (T.test test.now) (validations_of validations.now) }
{
    test.meets(&validations.constraints) && meets_junctors(test, validations)
}

fn is_absent(branches: &Branches) -> bool
    ensures { result ≡ Tests.is_absent branches.now }
{
    match branches.branches.as_slice() {
        [] => true,
        _ => false,
    }
}

#[cycle(branches)]
fn all_hold<T: BranchTest>(test: &T, branches: &Branches) -> bool
    ensures { result ≡ Tests.all_hold (T.test test.now) branches.now }
{
    for branch in &branches.branches {
        if !holds(test, branch) {
            return false;
        }
    }
    true
}

#[cycle(branches)]
fn any_holds<T: BranchTest>(test: &T, branches: &Branches) -> bool
    ensures { result ≡ Tests.any_holds (T.test test.now) branches.now }
{
    for branch in &branches.branches {
        if holds(test, branch) {
            return true;
        }
    }
    false
}

/// How many branches hold.
#[cycle(branches)]
fn holding<T: BranchTest>(test: &T, branches: &Branches) -> usize
    ensures { result ≡ Tests.holding (T.test test.now) branches.now }
{
    let mut count = 0;
    for branch in &branches.branches {
        if holds(test, branch) {
            count += 1;
        }
    }
    count
}
