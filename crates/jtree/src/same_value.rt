//! Trees that are the same by the values of their numbers.
ghost use Rattle.std.specs.Prelude.{◌≡◌, ◌&&◌};
ghost use Rattle.std.specs.Str.{bytes_eq};
ghost use Rattle.jtree.specs.SameValue.{same_value, same_values, same_members};
ghost use Rattle.jtree.specs.View.{data_of, items_of, members_of};

use crate::value::{Member, Tree};

impl Tree {
    /// Whether the two are the same tree where numbers compare by their nearest floats, as `Number::has_value_of` does: `[0.5]` and
    /// `[0.50]` are. An integer of 64 bits is the same as no other number. It visits each node at most once.
    #[cycle(same_value)]
    pub fn has_value_of(&self, other: &Tree) -> bool
        ensures { result ≡ same_value (data_of self.now) (data_of other.now) }
    {
        match (self, other) {
            (Tree::Number(a), Tree::Number(b)) => a.has_value_of(b),
            (Tree::List(a), Tree::List(b)) => have_values_of(&a.items, &b.items),
            (Tree::Object(a), Tree::Object(b)) => are_members_of(&a.members, &b.members),
            _ => self == other,
        }
    }
}

/// Whether the two lists have items of the same values in the same order.
#[cycle(same_value)]
fn have_values_of(left: &[Tree], right: &[Tree]) -> bool
    ensures { result ≡ same_values (items_of left.now) (items_of right.now) }
{
    if left.len() != right.len() {
        return false;
    }
    for i in 0..left.len() {
        if !left[i].has_value_of(&right[i]) {
            return false;
        }
    }
    true
}

/// Whether the two objects have the same names, with the same values under them.
#[cycle(same_value)]
fn are_members_of(left: &[Member], right: &[Member]) -> bool
    ensures { result ≡ same_members (members_of left.now) (members_of right.now) }
{
    if left.len() != right.len() {
        return false;
    }
    for i in 0..left.len() {
        if !is_member_of(&left[i], &right[i]) {
            return false;
        }
    }
    true
}

/// Whether the two have the same name, with the same value under it.
#[cycle(same_value)]
fn is_member_of(left: &Member, right: &Member) -> bool
    ensures { result ≡ (bytes_eq left.now.name right.now.name && same_value (data_of left.now.tree) (data_of right.now.tree)) }
{
    left.name == right.name && left.tree.has_value_of(&right.tree)
}
