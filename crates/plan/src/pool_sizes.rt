//! How many entries the pools of a document have, and which pool has too many.
ghost use Rattle.std.specs.Prelude.{◌≡◌, ◌≤◌, ◌<◌, None, length, filter, option_map, MatchOption};
ghost use Rattle.jtree.specs.Data.{AreMembers};
ghost use Rattle.jtree.specs.Path.{under};
ghost use Rattle.jtree.specs.View.{data_of};
ghost use Rattle.jtree.specs.View;
ghost use Rattle.plan.specs.Pools.Pools.{AreSmall};
ghost use Rattle.plan.specs.Pools.Document.{pools_of, entries_of, members_of};
ghost use Rattle.plan.specs.Pools.Oversized.{IsOversized};
ghost use Rattle.plan.specs.declared.pool_sizes.PoolName.TheVariants.{At, FixedAt};
ghost use Rattle.plan.specs.Internal.PoolBreak.{test_of};
ghost use Rattle.plan.specs.Internal.PathLists.{list_count, IsLongList};
ghost use Rattle.plan.specs.Internal.PathLists;

use crate::PoolLimits;
use crate::pool_form::EntryKind;
use crate::pools::entries;
use jtree::{Member, Tree};

/// A pool of a document: one of its members, or one of the lists under `fixed` or `paths`.
#[derive(Clone, Copy, Drop)]
pub enum PoolName<'a> {
    Any,
    Fixed,
    /// The list under `fixed` for the path of this text.
    FixedAt(&'a str),
    Integers,
    Names,
    Numbers,
    Paths,
    /// The list under `paths` for the path of this text.
    At(&'a str),
    Present,
    Strings,
}

/// A pool with more entries than are allowed.
#[derive(Clone, Copy, Drop)]
pub struct Oversized<'a> {
    pub pool: PoolName<'a>,
    /// How many entries it has; of `fixed` and `paths`, how many paths.
    pub found: usize,
    /// The most that are allowed.
    pub allowed: usize,
}

/// The first pool in path order that has more entries than the limits allow, each repeat counted. `None` where no pool has: of a
/// document that has the form, `Pools::read_by` with these limits answers `TooLarge` exactly where this names a pool.
pub fn oversized_pool(document: &Tree, limits: PoolLimits) -> Option<Oversized<'_>>
    ensures { MatchOption result (AreSmall limits (pools_of (data_of document.now))) (IsOversized limits (pools_of (data_of document.now))) }
{
    let any = count(document, "any", EntryKind::Any);
    let fixed = lists_of(document, "fixed");
    let integers = count(document, "integers", EntryKind::Integer);
    let names = count(document, "names", EntryKind::Text);
    let numbers = count(document, "numbers", EntryKind::Number);
    let paths = lists_of(document, "paths");
    let present = count(document, "present", EntryKind::Text);
    let strings = count(document, "strings", EntryKind::Text);
    over(PoolName::Any, any, limits.entries)
        .or(over(PoolName::Fixed, fixed.len(), limits.paths))
        .or(long_fixed(fixed, limits.entries))
        .or(over(PoolName::Integers, integers, limits.entries))
        .or(over(PoolName::Names, names, limits.names))
        .or(over(PoolName::Numbers, numbers, limits.entries))
        .or(over(PoolName::Paths, paths.len(), limits.paths))
        .or(long_path(paths, limits.entries))
        .or(over(PoolName::Present, present, limits.paths))
        .or(over(PoolName::Strings, strings, limits.entries))
}

/// The pool with its numbers, where it has more entries than are allowed.
fn over(pool: PoolName<'_>, found: usize, allowed: usize) -> Option<Oversized<'_>>
    ensures { MatchOption result (found ≤ allowed) (λ o. (o ≡ record { pool = pool.entry; found = found; allowed = allowed }) × (allowed < found)) }
{
    if found > allowed {
        Some(Oversized {
            pool,
            found,
            allowed,
        })
    } else {
        None
    }
}

/// How many entries of this kind the pool has, none where it is missing.
fn count(document: &Tree, name: &str, kind: EntryKind) -> usize
    ensures { result ≡ length (filter (test_of kind) (entries_of (under (data_of document.now) name.now))) }
{
    let pool = entries(document, name);
    let mut count = 0;
    for entry in pool {
        if kind.admits(entry) {
            count += 1;
        }
    }
    count
}

/// The lists of a member of this name, none where it is missing or no object.
fn lists_of<'a>(document: &'a Tree, name: &str) -> &'a [Member]
    ensures lists { View.members_of result.now ≡ members_of (under (data_of document.now) name.now) }
    ensures ordered { AreMembers (View.members_of result.now) }
{
    match document.get(name) {
        Some(Tree::Object(lists)) => {
            lists.reveal_invariant();
            lists.members.as_slice()
        }
        _ => &[],
    }
}

/// The first list under `fixed` that has more than `most` values.
fn long_fixed(lists: &[Member], most: usize) -> Option<Oversized<'_>>
    ensures { MatchOption result (PathLists.long_list most (View.members_of lists.now) ≡ None) (IsLongList FixedAt most (View.members_of lists.now)) }
{
    let (path, found) = long_list(lists, most)?;
    Some(Oversized {
        pool: PoolName::FixedAt(path),
        found,
        allowed: most,
    })
}

/// The first list under `paths` that has more than `most` values.
fn long_path(lists: &[Member], most: usize) -> Option<Oversized<'_>>
    ensures { MatchOption result (PathLists.long_list most (View.members_of lists.now) ≡ None) (IsLongList At most (View.members_of lists.now)) }
{
    let (path, found) = long_list(lists, most)?;
    Some(Oversized {
        pool: PoolName::At(path),
        found,
        allowed: most,
    })
}

/// The path of the first list that has more than `most` values, and how many it has.
fn long_list(lists: &[Member], most: usize) -> Option<(&str, usize)>
    ensures { option_map (λ found. (found.0.now, found.1)) result ≡ PathLists.long_list most (View.members_of lists.now) }
{
    for member in lists {
        let found = list_len(&member.tree);
        if found > most {
            return Some((member.name.as_str(), found));
        }
    }
    None
}

/// How many items a list has; 0 where the tree is no list.
fn list_len(tree: &Tree) -> usize
    ensures { result ≡ list_count (data_of tree.now) }
{
    match tree {
        Tree::List(items) => items.items.len(),
        _ => 0,
    }
}
