//! What is known of the paths that were wanted.
ghost use Rattle.std.specs.Prelude.{◌≡◌, ◌++◌, ℕ, true, take};
ghost use Rattle.explain.specs.Paths.FieldPath.{FieldPath};
ghost use Rattle.cover.specs.Internal.Known.{AreKnown, IsKnownAbove};
ghost use Rattle.cover.specs.Internal.Ways.{step_of, path_of};
ghost use Rattle.cover.specs.declared.covering.Covered.{Covered};

use crate::way::PathStep;

/// What is known of a path: so many of the first lines do not have it, and whether it is missed.
#[derive(Clone, Copy)]
pub(crate) struct Known {
    pub lacking: usize,
    pub missed: bool,
}

/// A path that was wanted, by its steps, and what is known of it.
#[derive(Drop)]
pub(crate) struct Front {
    pub steps: Vec<PathStep>,
    pub known: Known,
}

/// What is known of the longest of these paths with which the path of the steps begins; those behind it are taken off. A path is listed
/// before those that continue it, so that they are of no more use.
pub(crate) fn known_above(fronts: &mut Vec<Front>, steps: &[PathStep]) -> Known
    ensures left { (n : ℕ) × (fronts.new.items ≡ take n fronts.old.items) }
    ensures above { (c : Covered) → AreKnown c fronts.old.items → IsKnownAbove c (path_of steps.now) result }
{
    'look: while let Some(front) = fronts.last() {
        if begins(front.steps.as_slice(), steps) {
            return front.known;
        }
        fronts.pop();
    }
    Known {
        lacking: 0,
        missed: false,
    }
}

/// Whether the steps begin with those of the front.
fn begins(front: &[PathStep], steps: &[PathStep]) -> bool
    ensures { result ≡ true → (rest : FieldPath) × (path_of steps.now ≡ path_of front.now ++ rest) }
{
    match (front, steps) {
        ([], _) => true,
        ([first, front @ ..], [step, steps @ ..]) => is_same(first, step) && begins(front, steps),
        _ => false,
    }
}

fn is_same(a: &PathStep, b: &PathStep) -> bool
    ensures { result ≡ true → step_of b.now ≡ step_of a.now }
{
    match (a, b) {
        (PathStep::Field(name), PathStep::Field(other)) => name.as_str() == other.as_str(),
        (PathStep::Item, PathStep::Item) | (PathStep::Value, PathStep::Value) => true,
        _ => false,
    }
}
