//! The paths of pools, each of which has to lead where the pools can say something.
ghost use Rattle.std.specs.Prelude.{◌≡◌, ◌↔◌, Contains, IsTrue, OnOk, IfErr, MatchOption, option_map};
ghost use Rattle.schema.specs.Nodes.View.{node_of};
ghost use Rattle.plan.specs.Pools.FixedPaths.{IsFixablePath};
ghost use Rattle.plan.specs.Pools.FixedPaths;
ghost use Rattle.plan.specs.Pools.PlanFault.{IsLeafPath, IsDeclaredPath, HasName, AreGood, IsFirstBad, HasGoodPaths, IsFirstBadPath};
ghost use Rattle.plan.specs.Samples.Candidates.{sort_at};
ghost use Rattle.plan.specs.Internal.PathLists.{IsPathsFault, IsMapListText, LeadsTo, IsBeforeText};
ghost use Rattle.plan.specs.declared.sort.Sort.TheVariants.{Leaf};

use crate::{PFault, Pools};
use explain::resolve;
use jtree::{Members, Text};
use schema::{ListType, Node, Sort};
use std::alloc::Global;
use stored::Schema;

/// Where the paths of a member of the pools have to lead.
#[derive(Clone, Copy)]
enum Destination {
    /// To a scalar or an open node.
    Leaf,
    /// To a node whose values may be fixed.
    Fixable,
    /// To any declared field.
    Declared,
}

/// Answers `BadPath` with the first bad path of the pools.
pub(crate) fn check_paths(alloc: Global, schema: &Schema, pools: &Pools) -> Result<(), PFault>
    ensures good { OnOk result (HasGoodPaths schema.now pools.now) }
    ensures err { IfErr result (IsPathsFault schema.now pools.now) }
{
    match first_bad_path(schema, pools) {
        None => Ok(()),
        Some(path) => Err(PFault::BadPath(String::from_str(alloc, path)?)),
    }
}

/// The first text of the pools that is not that of a path which leads where it has to: of `paths`, to a scalar or an open node; of
/// `fixed`, to a field or a part that is not the item of a map list; of `present`, to any declared path. First come the texts of
/// `paths`, then those of `fixed`, then those of `present`, and of each the first by bytes. `None` where all are good: for these pools
/// `Plan::new` answers `BadPath` with this text exactly where there is one.
pub fn first_bad_path<'a>(schema: &Schema, pools: &'a Pools) -> Option<&'a str>
    ensures { MatchOption result (HasGoodPaths schema.now pools.now) (λ text. IsFirstBadPath schema.now pools.now text.now) }
{
    first_bad_name(schema, pools.paths(), Destination::Leaf)
        .or(first_bad_name(schema, pools.fixed(), Destination::Fixable))
        .or(first_bad_text(schema, pools.present()))
}

/// The first name, in the order of names, of which the path does not lead there.
fn first_bad_name<'a>(schema: &Schema, lists: &'a Members, to: Destination) -> Option<&'a str>
    ensures { MatchOption result (AreGood (HasName lists.now) (LeadsTo to schema.now)) (λ text. IsFirstBad (HasName lists.now) (LeadsTo to schema.now) text.now) }
{
    lists.reveal_invariant();
    for member in &lists.members {
        if !leads_to(schema, member.name.as_str(), to) {
            return Some(member.name.as_str());
        }
    }
    None
}

/// The first text by bytes that is not the path of a field.
fn first_bad_text<'a>(schema: &Schema, texts: &'a [Text]) -> Option<&'a str>
    ensures { MatchOption result (AreGood (Contains texts.now) (IsDeclaredPath schema.now)) (λ text. IsFirstBad (Contains texts.now) (IsDeclaredPath schema.now) text.now) }
{
    let mut first: Option<&str> = None;
    for text in texts {
        if !leads_to(schema, text.as_str(), Destination::Declared)
            && is_before(text.as_str(), first)
        {
            first = Some(text.as_str());
        }
    }
    first
}

/// Whether a text comes before another by bytes, where there is another.
fn is_before(text: &str, other: Option<&str>) -> bool
    ensures { IsTrue result ↔ IsBeforeText text.now (option_map (λ other. other.now) other.entry) }
{
    match other {
        Some(other) => text.cmp(other).is_lt(),
        None => true,
    }
}

/// Whether the text is that of a path that leads there.
fn leads_to(schema: &Schema, text: &str, to: Destination) -> bool
    ensures { IsTrue result ↔ LeadsTo to schema.now text.now }
{
    match to {
        Destination::Leaf => is_leaf_path(schema, text),
        Destination::Fixable => is_fixable_path(schema, text),
        Destination::Declared => is_declared_path(schema, text),
    }
}

/// Whether the text is that of the path of a scalar or an open node.
fn is_leaf_path(schema: &Schema, text: &str) -> bool
    ensures { IsTrue result ↔ IsLeafPath schema.now text.now }
{
    explain::laws::paths_have_one_text();
    match resolve(schema, text) {
        Ok(node) => is_leaf(node),
        Err(_) => false,
    }
}

fn is_leaf(node: &Node) -> bool
    ensures { IsTrue result ↔ (sort_at (node_of node.now) ≡ Leaf) }
{
    matches!(&node.sort, Sort::Scalar(_) | Sort::Open)
}

/// Whether the text is that of the path of a field.
fn is_declared_path(schema: &Schema, text: &str) -> bool
    ensures { IsTrue result ↔ IsDeclaredPath schema.now text.now }
{
    explain::laws::paths_have_one_text();
    match resolve(schema, text) {
        Ok(_) => true,
        Err(_) => false,
    }
}

/// Whether the text is that of a declared path whose values may be fixed: of any but the item of a map list.
pub fn is_fixable_path(schema: &Schema, text: &str) -> bool
    ensures { IsTrue result ↔ IsFixablePath schema.now text.now }
{
    explain::laws::paths_have_one_text();
    match resolve(schema, text) {
        Ok(_) => match text.strip_suffix("/[]") {
            Some(list) => !leads_to_map_list(schema, list),
            None => true,
        },
        Err(_) => false,
    }
}

/// Whether the text is that of a path that leads to a map list; that of the root is empty.
fn leads_to_map_list(schema: &Schema, text: &str) -> bool
    ensures { IsTrue result ↔ IsMapListText schema.now text.now }
{
    explain::laws::paths_have_one_text();
    if text.is_empty() {
        return is_map_list(schema.root());
    }
    match resolve(schema, text) {
        Ok(node) => is_map_list(node),
        Err(_) => false,
    }
}

fn is_map_list(node: &Node) -> bool
    ensures { result ≡ FixedPaths.is_map_list (node_of node.now) }
{
    match &node.sort {
        Sort::List(list) => matches!(list.list_type, ListType::Map(_)),
        _ => false,
    }
}
