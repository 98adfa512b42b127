//! Lists of fixed values that are changed, one after the other.
ghost use Rattle.std.specs.Prelude.{◌≡◌, IfOk, option_map};
ghost use Rattle.jtree.specs.MemberPlace.{changed_at};
ghost use Rattle.jtree.specs.Path.{member_at};
ghost use Rattle.jtree.specs.View.{data_of};
ghost use Rattle.plan.specs.Pools.Along.{with_lists, list_of, lists_of};

use jtree::{Members, Text, Tree};
use std::alloc::{AllocError, Global};

/// A list of fixed values for the path of this text, or that there is none.
#[derive(Drop)]
pub struct ListAt {
    pub path: Text,
    pub list: Option<Tree>,
}

impl ListAt {
    /// The lists with this one in the place of that for its path, and what was there.
    fn put(self, alloc: Global, lists: Members) -> Result<(Members, ListAt), AllocError>
        ensures lists { IfOk result (λ r. r.0 ≡ changed_at self.path (option_map data_of self.list) lists) }
        ensures old { IfOk result (λ r. list_of r.1 ≡ (self.path, member_at self.path lists)) }
    {
        let ListAt { path, list } = self;
        let mut lists = lists;
        let list = match list {
            Some(tree) => lists.insert(path.copy(alloc)?, tree)?,
            None => lists.remove(path.as_str()),
        };
        Ok((lists, ListAt { path, list }))
    }
}

/// The lists with these ones, the last one first, and what was there, in the order in which it is put back.
pub(crate) fn put_all(
    alloc: Global,
    lists: Members,
    changes: Vec<ListAt>,
) -> Result<(Members, Vec<ListAt>), AllocError>
    ensures lists { IfOk result (λ r. r.0 ≡ with_lists (lists_of changes.items) lists) }
    ensures back { IfOk result (λ r. with_lists (lists_of r.1.items) r.0 ≡ lists) }
{
    let mut lists = lists;
    let mut changes = changes;
    let mut old = Vec::with_capacity(alloc, changes.len())?;
    while let Some(change) = changes.pop() {
        lists.reveal_invariant();
        let (new, was) = change.put(alloc, lists)?;
        lists = new;
        old.push(was)?;
    }
    Ok((lists, old))
}
