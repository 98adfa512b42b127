//! The lists of fixed values with which the first sample of a plan is the first one in which a path is there, with a value where one is
//! wanted.
ghost use Rattle.std.specs.Prelude.{◌≡◌, ◌++◌, ℕ, List, [], Option, Some, IfOk, OnOk, option_map, map};
ghost use Rattle.jtree.specs.Data.{Data, list, item, no_items};
ghost use Rattle.jtree.specs.View.{data_of};
ghost use Rattle.explain.specs.Paths.FieldPath.{FieldPath};
ghost use Rattle.plan.specs.Pools.Along.{lists_of};
ghost use Rattle.cover.specs.There;
ghost use Rattle.cover.specs.Internal.Ways.{path_of};
ghost use Rattle.cover.specs.Internal.Narrowed.{changes, change_at, as_items, kept_of, kept_fixed, end_alone};

use crate::there::is_there;
use crate::way::PathStep;
use jtree::{Items, Text, Tree};
use plan::{ListAt, Pools};
use std::alloc::{AllocError, Global};

/// The lists along the path: of the values that the pools fix there those in which the rest of the path is there, and at its end the
/// value alone, where one is wanted and none are fixed.
pub(crate) fn lists_along(
    alloc: Global,
    pools: &Pools,
    value: Option<&Tree>,
    steps: &[PathStep],
) -> Result<Vec<ListAt>, AllocError>
    ensures { IfOk result (λ ls. lists_of ls.items ≡ changes (option_map (λ w. data_of w.now) value.entry) pools.now [] (path_of steps.now)) }
{
    let mut lists = Vec::new(alloc);
    push_lists(alloc, pools, value, "", steps, &mut lists)?;
    Ok(lists)
}

/// Adds the lists along these steps from the path of this text on.
fn push_lists(
    alloc: Global,
    pools: &Pools,
    value: Option<&Tree>,
    front: &str,
    steps: &[PathStep],
    lists: &mut Vec<ListAt>,
) -> Result<(), AllocError>
    ensures { OnOk result (lists_of lists.new.items ≡ lists_of lists.old.items ++ changes (option_map (λ w. data_of w.now) value.entry) pools.now front.now (path_of steps.now)) }
{
    let [step, rest @ ..] = steps else {
        return Ok(());
    };
    let path = step.below(alloc, front)?;
    let list = kept_list(alloc, value, rest, pools.fixed_at(&path))?;
    push_list(alloc, &path, list, lists)?;
    push_lists(alloc, pools, value, &path, rest, lists)
}

/// Adds a list for the path of this text, where there is one.
fn push_list(
    alloc: Global,
    path: &str,
    list: Option<Items>,
    lists: &mut Vec<ListAt>,
) -> Result<(), AllocError>
    ensures { OnOk result ((fixed : Option (List Data)) → list ≡ option_map as_items fixed → lists_of lists.new.items ≡ lists_of lists.old.items ++ change_at path.now fixed) }
{
    let Some(items) = list else {
        return Ok(());
    };
    let path = Text::from_str(alloc, path)?;
    let list = Some(Tree::List(items));
    lists.push(ListAt { path, list })?;
    Ok(())
}

/// What is fixed where these steps are left of the path, and these values were fixed.
fn kept_list(
    alloc: Global,
    value: Option<&Tree>,
    rest: &[PathStep],
    fixed: Option<&[Tree]>,
) -> Result<Option<Items>, AllocError>
    ensures { IfOk result (λ list. list ≡ option_map as_items (kept_fixed (option_map (λ w. data_of w.now) value.entry) (Some (path_of rest.now)) (option_map (λ ts. map data_of ts.now) fixed.entry))) }
{
    match fixed {
        Some(trees) => Ok(Some(kept_items(alloc, value, rest, trees)?)),
        None => end_list(alloc, value, rest),
    }
}

/// The value alone at the end of the path, where one is wanted.
fn end_list(
    alloc: Global,
    value: Option<&Tree>,
    rest: &[PathStep],
) -> Result<Option<Items>, AllocError>
    ensures { IfOk result (λ list. list ≡ option_map as_items (end_alone (path_of rest.now) (option_map (λ w. data_of w.now) value.entry))) }
{
    let Some(value) = value else {
        return Ok(None);
    };
    if !rest.is_empty() {
        return Ok(None);
    }
    Ok(Some(list_of_one(alloc, value)?))
}

/// The trees in which the path is there.
fn kept_items(
    alloc: Global,
    value: Option<&Tree>,
    steps: &[PathStep],
    trees: &[Tree],
) -> Result<Items, AllocError>
    ensures { IfOk result (λ ds. ds ≡ as_items (kept_of (There.is_there (option_map (λ w. data_of w.now) value.entry) (path_of steps.now)) (map data_of trees.now))) }
{
    let mut kept = Vec::new(alloc);
    for tree in trees {
        tree.reveal_invariant();
        if is_there(value, steps, tree) {
            kept.push(tree.try_clone(alloc)?)?;
        }
    }
    Ok(Items { items: kept })
}

/// This tree alone.
fn list_of_one(alloc: Global, tree: &Tree) -> Result<Items, AllocError>
    ensures { IfOk result (λ ds. ds ≡ item (data_of tree.now) no_items) }
{
    tree.reveal_invariant();
    let items = vec![in alloc; tree.try_clone(alloc)?]?;
    Ok(Items { items })
}
