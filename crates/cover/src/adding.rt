//! What a wanted thing adds to a cover.
ghost use Rattle.std.specs.Prelude.{◌≡◌, ◌≤◌, ◌<◌, ◌++◌, ◌∷◌, []};
ghost use Rattle.std.specs.Prelude.{false, true, Some, None, IfOk, OnOk, List, length, take, All, Contains, map, option_map};
ghost use Rattle.jtree.specs.View.{data_of};
ghost use Rattle.explain.specs.Fields.Declared.{IsDeclared};
ghost use Rattle.explain.specs.Fields.PathFault.{IsTextOf};
ghost use Rattle.explain.specs.Paths.PathText.{path_text};
ghost use Rattle.plan.specs.Pools.PlanFault.{HasGoodPaths};
ghost use Rattle.plan.specs.Samples.Question.{Question};
ghost use Rattle.cover.specs.Cover.{AreCovered};
ghost use Rattle.cover.specs.There;
ghost use Rattle.cover.specs.View.{covered_of};
ghost use Rattle.cover.specs.View;
ghost use Rattle.cover.specs.Wanted.{AreValuesOf, Wanted as WantedData, with_any, with_value};
ghost use Rattle.cover.specs.Internal.Known.{AreKnown, IsKnown, IsKnownAbove, IsGrown};
ghost use Rattle.cover.specs.Internal.Narrowed.{MayBeWanted};
ghost use Rattle.cover.specs.Internal.Ways.{path_of};
ghost use Rattle.cover.specs.declared.covering.Line.{Line as CodeLine};

use crate::covering::{Covered, Line, Wanted};
use crate::first::{Aim, find_first};
use crate::known::{Front, Known, known_above};
use crate::there::is_there;
use crate::values::values_of;
use crate::way::{PathStep, steps_of};
use jtree::{Text, Tree};
use plan::{Plan, SizeSet};
use std::alloc::{AllocError, Global};

/// Adds what the declared path of this text adds, and with `values` what it adds with each of its values; and answers the plan.
pub(crate) fn add_path<Z: SizeSet>(
    alloc: Global,
    plan: Plan<Z>,
    values: bool,
    path: &str,
    fronts: &mut Vec<Front>,
    covered: &mut Covered,
) -> Result<Plan<Z>, AllocError>
    requires paths { HasGoodPaths plan.root plan.pools }
    requires declared { IsTextOf (IsDeclared plan.root) path.now }
    requires known { AreKnown covered.now fronts.now.items }
    ensures plan { IfOk result (λ r. r ≡ plan) }
    ensures known { OnOk result (AreKnown covered.new fronts.new.items) }
    ensures grown { OnOk result (IsGrown covered.old covered.new) }
    ensures adds { OnOk result ((q : Question) (wanted : List WantedData) → q ≡ plan → AreCovered q wanted (covered_of covered.old)
        → (vs : _) × AreValuesOf values q path.now vs × AreCovered q (wanted ++ with_any path.now ∷ map (with_value path.now) vs) (covered_of covered.new)) }
{
    let found = values_of(
        alloc,
        values,
        plan.schema(),
        plan.pools(),
        plan.limit(),
        path,
    )?;
    let steps = steps_of(alloc, plan.schema(), path)?;
    explain::laws::paths_have_one_text();
    let aim = Aim::with_any(path, steps.as_slice());
    let above = known_above(fronts, steps.as_slice());
    let (plan, known) = add_wanted(alloc, plan, aim, above, covered)?;
    let plan = add_values(alloc, plan, aim, &found, known, covered)?;
    fronts.push(Front { steps, known })?;
    Ok(plan)
}

/// Adds what the path adds with each of these values, and answers the plan.
fn add_values<Z: SizeSet>(
    alloc: Global,
    plan: Plan<Z>,
    aim: Aim<'_>,
    values: &[Tree],
    known: Known,
    covered: &mut Covered,
) -> Result<Plan<Z>, AllocError>
    requires paths { HasGoodPaths plan.root plan.pools }
    requires declared { IsDeclared plan.root (path_of aim.steps.now) }
    requires text { path_text (path_of aim.steps.now) ≡ aim.path.now }
    requires values { All (λ v. MayBeWanted plan.root plan.pools (Some (data_of v)) (path_of aim.steps.now)) values.now }
    requires known { IsKnown covered.now (path_of aim.steps.now) known }
    ensures plan { IfOk result (λ r. r ≡ plan) }
    ensures grown { OnOk result (IsGrown covered.old covered.new) }
    ensures adds { OnOk result ((q : Question) (wanted : List WantedData) → q ≡ plan → AreCovered q wanted (covered_of covered.old)
        → AreCovered q (wanted ++ map (with_value aim.entry.path.now) (map (λ v. data_of v) values.now)) (covered_of covered.new)) }
{
    let mut plan = plan;
    for value in values {
        let wanted = Some(value);
        let aim = Aim {
            value: wanted,
            ..aim
        };
        let (same, _) = add_wanted(alloc, plan, aim, known, covered)?;
        plan = same;
    }
    Ok(plan)
}

/// Adds what is wanted, and answers the plan and what is now known of the path, where it is wanted with any value.
fn add_wanted<Z: SizeSet>(
    alloc: Global,
    plan: Plan<Z>,
    aim: Aim<'_>,
    above: Known,
    covered: &mut Covered,
) -> Result<(Plan<Z>, Known), AllocError>
    requires paths { HasGoodPaths plan.root plan.pools }
    requires declared { IsDeclared plan.root (path_of aim.steps.now) }
    requires text { path_text (path_of aim.steps.now) ≡ aim.path.now }
    requires value { MayBeWanted plan.root plan.pools (option_map (λ v. data_of v.now) aim.value) (path_of aim.steps.now) }
    requires above { IsKnownAbove covered.now (path_of aim.steps.now) above }
    ensures plan { IfOk result (λ r. r.0 ≡ plan) }
    ensures known { IfOk result (λ r. aim.entry.value ≡ None → IsKnown covered.new (path_of aim.entry.steps.now) r.1) }
    ensures grown { OnOk result (IsGrown covered.old covered.new) }
    ensures adds { OnOk result ((q : Question) (wanted : List WantedData) → q ≡ plan → AreCovered q wanted (covered_of covered.old)
        → AreCovered q (wanted ++ record { path = aim.entry.path.now; value = option_map (λ v. data_of v.now) aim.entry.value } ∷ []) (covered_of covered.new)) }
{
    explain::laws::paths_have_one_text();
    let lacking = lines_without(
        covered.lines.as_slice(),
        aim.value,
        aim.steps,
        above.lacking,
    );
    if lacking < covered.lines.len() {
        return Ok((
            plan,
            Known {
                lacking,
                missed: false,
            },
        ));
    }
    let wanted = wanted_of(alloc, aim.path, aim.value)?;
    if above.missed {
        covered.missed.push(wanted)?;
        return Ok((
            plan,
            Known {
                lacking,
                missed: true,
            },
        ));
    }
    let (plan, tree) = find_first(alloc, plan, aim)?;
    let missed = tree.is_none();
    match tree {
        Some(tree) => covered.lines.push(Line { wanted, tree })?,
        None => covered.missed.push(wanted)?,
    }
    Ok((plan, Known { lacking, missed }))
}

/// That the path of this text is there, or that it is there with the value.
fn wanted_of(alloc: Global, path: &str, value: Option<&Tree>) -> Result<Wanted, AllocError>
    ensures { IfOk result (λ w. View.wanted_of w ≡ record { path = path.now; value = option_map (λ v. data_of v.now) value.entry }) }
{
    let path = Text::from_str(alloc, path)?;
    let value = match value {
        Some(value) => Some(value.try_clone(alloc)?),
        None => None,
    };
    Ok(Wanted { path, value })
}

/// How many of the first lines do not have the path of the steps, with the value where one is wanted: at least `from` of them.
fn lines_without(lines: &[Line], value: Option<&Tree>, steps: &[PathStep], from: usize) -> usize
    requires from { from ≤ length lines.now }
    requires without { All (λ l. There.is_there (option_map (λ v. data_of v.now) value) (path_of steps.now) (data_of l.tree) ≡ false) (take from lines.now) }
    ensures within { result ≤ length lines.now }
    ensures without { All (λ l. There.is_there (option_map (λ v. data_of v.now) value.entry) (path_of steps.now) (data_of l.tree) ≡ false) (take result lines.now) }
    ensures next { result < length lines.now → (l : CodeLine) × (Contains lines.now l × (There.is_there (option_map (λ v. data_of v.now) value.entry) (path_of steps.now) (data_of l.tree) ≡ true)) }
{
    let mut at = from;
    while at < lines.len() {
        if is_there(value, steps, &lines[at].tree) {
            return at;
        }
        at += 1;
    }
    at
}
