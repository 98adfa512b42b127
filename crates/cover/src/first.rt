//! The first sample in which what is wanted is there.
ghost use Rattle.std.specs.Prelude.{◌≡◌, IfOk, None, option_map};
ghost use Rattle.jtree.specs.View.{data_of};
ghost use Rattle.explain.specs.Fields.Declared.{IsDeclared};
ghost use Rattle.explain.specs.Paths.PathText.{path_text};
ghost use Rattle.plan.specs.Pools.PlanFault.{HasGoodPaths};
ghost use Rattle.enumerate.specs.Live.{IsNextSample};
ghost use Rattle.enumerate.specs.View.{tree_of};
ghost use Rattle.cover.specs.Internal.First.{IsFirstSample};
ghost use Rattle.cover.specs.Internal.Narrowed.{MayBeWanted};
ghost use Rattle.cover.specs.Internal.Ways.{path_of};

use crate::narrowing::lists_along;
use crate::way::PathStep;
use enumerate::Live;
use jtree::Tree;
use plan::{Plan, SizeSet};
use std::alloc::{AllocError, Global};

/// What is wanted: that the path of the steps, whose text is `path`, is there, with the value where there is one.
#[derive(Clone, Copy)]
pub(crate) struct Aim<'a> {
    pub path: &'a str,
    pub value: Option<&'a Tree>,
    pub steps: &'a [PathStep],
}

impl<'a> Aim<'a> {
    ghost use Rattle.std.specs.Prelude.{◌≡◌, None};

    /// That the path is there, with any value.
    pub(crate) fn with_any(path: &'a str, steps: &'a [PathStep]) -> Aim<'a>
        ensures { (result.path ≡ path.entry) × (result.steps ≡ steps.entry) × (result.value ≡ None) }
    {
        let value: Option<&'a Tree> = None;
        Aim { path, value, steps }
    }
}

/// The first sample that has what is wanted, `None` where there is none; and the plan.
pub(crate) fn find_first<Z: SizeSet>(
    alloc: Global,
    plan: Plan<Z>,
    aim: Aim<'_>,
) -> Result<(Plan<Z>, Option<Tree>), AllocError>
    requires paths { HasGoodPaths plan.root plan.pools }
    requires declared { IsDeclared plan.root (path_of aim.steps.now) }
    requires text { path_text (path_of aim.steps.now) ≡ aim.path.now }
    requires value { MayBeWanted plan.root plan.pools (option_map (λ v. data_of v.now) aim.value) (path_of aim.steps.now) }
    ensures plan { IfOk result (λ r. r.0 ≡ plan) }
    ensures sample { IfOk result (λ r. IsFirstSample plan (option_map (λ v. data_of v.now) aim.entry.value) (path_of aim.entry.steps.now) (tree_of r.1)) }
{
    explain::laws::paths_have_one_text();
    stored::laws::stored_by_parts();
    let lists = lists_along(alloc, plan.pools(), aim.value, aim.steps)?;
    let (mut narrow, old) = plan.narrow(alloc, aim.steps, lists)?;
    let tree = first_of(alloc, &mut narrow)?;
    let plan = narrow.widen(alloc, aim.steps, old)?;
    Ok((plan, tree))
}

/// The first sample of the plan.
fn first_of<Z: SizeSet>(alloc: Global, plan: &mut Plan<Z>) -> Result<Option<Tree>, AllocError>
    ensures same { plan.new ≡ plan.old }
    ensures sample { IfOk result (λ tree. IsNextSample plan.old None (tree_of tree)) }
{
    let mut meter = plan.meter();
    match Live::first(alloc, plan, &mut meter) {
        Ok(Some(live)) => match live.tree() {
            Some(tree) => Ok(Some(tree.try_clone(alloc)?)),
            None => Ok(None),
        },
        Ok(None) => Ok(None),
        Err(_) => Err(AllocError),
    }
}
