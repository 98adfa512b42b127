//! Whether a tree is a row.
ghost use Rattle.std.specs.Prelude.{[], ◌≡◌, ◌+◌, ◌≤◌, ◌<◌, length, drop, ◌↔◌, IsTrue, IfSome, ◌≢◌, IfNone};
ghost use Rattle.jtree.specs.Data.{Data};
ghost use Rattle.jtree.specs.Data as Trees;
ghost use Rattle.jtree.specs.Nodes.{node_count, members_count};
ghost use Rattle.jtree.specs.View.{data_of, members_of};
ghost use Rattle.enumerate.specs.Internal.Answers.{Decides};
ghost use Rattle.enumerate.specs.Internal.Candidates.{used_rows};
ghost use Rattle.enumerate.specs.Internal.Membership.{MakeUnusedRow, MakeUnusedRowFrom, IsUnusedRow};
ghost use Rattle.enumerate.specs.Internal.Nodes.{IsNodeOfSort, IsNodeWithin, Costs};
ghost use Rattle.enumerate.specs.Internal.Rows.{slots_from, ending_at, CostsSlots};
ghost use Rattle.plan.specs.declared.sort.Sort.TheVariants as sort;

use crate::prefix::Before;
use crate::siblings::{Chosen, Rows, still_used};
use crate::walk::Walk;
use jtree::{Member, Tree};
use plan::{Meter, PlanNode, SizeSet};
use std::alloc::AllocError;

impl<'p, Z: SizeSet> Walk<'p, Z> {
    /// Whether the tree is an object that is a part of the row, and differs from each used row in the value of some key.
    #[cycle(part)]
    pub(crate) fn is_unused_row(
        &self,
        node: PlanNode,
        tree: &Tree,
        used: &Rows<'_>,
        meter: &mut Meter,
    ) -> Result<bool, AllocError>
        requires { IsNodeWithin self.now.plan.now node sort.Row (node_count (data_of tree.now)) }
        ensures { Decides result (IsUnusedRow self.now.plan.now node (used_rows used.now) (data_of tree.now)) (Costs self.now.plan.now meter.old meter.new (node_count (data_of tree.now))) }
    {
        match tree {
            Tree::Object(object) => self.make_unused_row(
                node,
                0,
                Before::nothing(),
                used,
                object.members.as_slice(),
                meter,
            ),
            _ => Ok(false),
        }
    }

    /// Whether the members make the rest of such a row: they are in the slots from `place` on, where `before` is what is before it, the
    /// row may end after them, and no used row has the same values under all keys.
    #[cycle(part)]
    fn make_unused_row(
        &self,
        node: PlanNode,
        place: u64,
        before: Before,
        used: &Rows<'_>,
        members: &[Member],
        meter: &mut Meter,
    ) -> Result<bool, AllocError>
        requires node { IsNodeOfSort self.now.plan.now node sort.Row }
        requires place { place ≤ length (slots_from self.now.plan.now node 0) }
        requires count { before.count ≤ place }
        requires limit { before.count + members_count (members_of members.now) < self.now.plan.now.limit }
        ensures { Decides result (MakeUnusedRowFrom self.now.plan.now node place before (used_rows used.now) (members_of members.now)) (CostsSlots self.now.plan.now node place meter.old meter.new (members_count (members_of members.now))) }
    {
        self.laws_of(node);
        let Some(slot) = self.plan.slot(node, place, meter) else {
            return Ok(self.ends_unused_row(node, place, before, used, members));
        };
        let Some(tree) = value_under(members, slot.name) else {
            if slot.must {
                return Ok(false);
            }
            return self.make_unused_row(node, place + 1, before, used, members, meter);
        };
        if !self.is_part(slot.node, tree, meter)? {
            return Ok(false);
        }
        let same = still_used(self.alloc, &slot, tree, used)?;
        let after = after_first(members);
        self.make_unused_row(
            node,
            place + 1,
            before.fill(&slot),
            &Rows::Chosen(Chosen {
                rows: same.as_slice(),
            }),
            after,
            meter,
        )
    }

    /// Whether such a row ends after the last slot: no member is left, no used row has the same values under all keys, and the row may
    /// end there.
    fn ends_unused_row(
        &self,
        node: PlanNode,
        place: u64,
        before: Before,
        used: &Rows<'_>,
        members: &[Member],
    ) -> bool
        requires node { IsNodeOfSort self.now.plan.now node sort.Row }
        requires place { place ≡ length (slots_from self.now.plan.now node 0) }
        requires count { before.count ≤ place }
        ensures { IsTrue result ↔ MakeUnusedRow self.now.plan.now.pools [] (ending_at self.now.plan.now node) before (used_rows used.now) (members_of members.now) }
    {
        if !members.is_empty() {
            return false;
        }
        if !used.is_empty() {
            return false;
        }
        before.rest(self.plan, node, place).has(0)
    }
}

/// The value of the first member, where it has the name.
fn value_under<'a>(members: &'a [Member], name: &str) -> Option<&'a Tree>
    ensures some { IfSome result (λ t. members_of members.now ≡ Trees.member name.now (data_of t.now) (members_of (drop 1 members.now))) }
    ensures within { IfSome result (λ _. 1 ≤ length members.now) }
    ensures none { IfNone result ((v : Data) (ms : Trees.Members) → members_of members.now ≢ Trees.member name.now v ms) }
{
    match members.first() {
        Some(member) => {
            if member.name.as_str() == name {
                Some(&member.tree)
            } else {
                None
            }
        }
        None => None,
    }
}

/// The members after the first.
fn after_first(members: &[Member]) -> &[Member]
    requires { 1 ≤ length members.now }
    ensures { result.now ≡ drop 1 members.now }
{
    &members[1..]
}
