//! How many nodes a tree has.
ghost use Rattle.std.specs.Prelude.{◌≡◌, min};

use crate::value::{Member, Members, Tree};

impl Tree {
    ghost use Rattle.jtree.specs.Nodes.{nodes};
    ghost use Rattle.jtree.specs.View.{data_of};

    /// How many nodes the tree has: 1 for null and a scalar, and 1 plus the nodes of the parts for a list or an object.
    /// Names do not count. The answer is 2^64 - 1 where there are more. It visits each node once.
    #[cycle(nodes)]
    pub fn nodes(&self) -> u64
        ensures { result ≡ nodes (data_of self.now) }
    {
        match self {
            Tree::List(list) => items_nodes(&list.items).saturating_add(1),
            Tree::Object(object) => members_nodes(&object.members).saturating_add(1),
            _ => 1,
        }
    }
}

ghost use Rattle.jtree.specs.Nodes.{items_count, members_count, most_nodes};
ghost use Rattle.jtree.specs.View.{items_of, members_of};

impl Members {
    /// The number of nodes of all values together, and 2^64 - 1 where there are more. It visits each node once.
    pub fn nodes(&self) -> u64
        ensures { result ≡ min (members_count self.now) most_nodes }
    {
        members_nodes(&self.members)
    }
}

/// How many nodes the items have together, at most 2^64 - 1.
#[cycle(nodes)]
pub(crate) fn items_nodes(items: &[Tree]) -> u64
    ensures { result ≡ min (items_count (items_of items.now)) most_nodes }
{
    let mut sum: u64 = 0;
    for item in items {
        sum = sum.saturating_add(item.nodes());
    }
    sum
}

/// The number of nodes of all values together, at most 2^64 - 1.
#[cycle(nodes)]
pub(crate) fn members_nodes(members: &[Member]) -> u64
    ensures { result ≡ min (members_count (members_of members.now)) most_nodes }
{
    let mut sum: u64 = 0;
    for member in members {
        sum = sum.saturating_add(member.tree.nodes());
    }
    sum
}
