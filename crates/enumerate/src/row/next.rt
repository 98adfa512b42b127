//! The next members of a row.
ghost use Rattle.std.specs.Prelude.{◌≡◌, ◌+◌, ◌-◌, ◌≤◌, ◌<◌, ◌*◌, ◌↔◌, ◌≢◌};
ghost use Rattle.std.specs.Prelude.{ℕ, Option, Some, IsTrue, IfSome, true, None, IfNone, All};
ghost use Rattle.jtree.specs.Data.{Data};
ghost use Rattle.jtree.specs.Data as Trees;
ghost use Rattle.jtree.specs.Nodes.{node_count, members_count};
ghost use Rattle.jtree.specs.View.{data_of, members_of};
ghost use Rattle.plan.specs.Samples.Part.{IsPart};
ghost use Rattle.enumerate.specs.Page.{IsPast};
ghost use Rattle.enumerate.specs.Internal.Answers.{MovesRemoved, MovesRow, FindsNext, GrowsAt, MovesAt, MovesMembersAt};
ghost use Rattle.enumerate.specs.Internal.Candidates.{used_rows};
ghost use Rattle.enumerate.specs.Internal.Moves.{AreMembersOf, WasAt};
ghost use Rattle.enumerate.specs.Internal.Nodes.{IsNodeOfSort, site};
ghost use Rattle.enumerate.specs.Internal.Prefixes.{EndsIn};
ghost use Rattle.enumerate.specs.Internal.Rows.{HasRoom, slots_from, IsRow, slot_there, IsRowSlot, IsOpenAt, IsValueAt, AreUsedAt, AreUsed, FitsAt, larger};
ghost use Rattle.enumerate.specs.Internal.Steps.{CostsTree};
ghost use Rattle.enumerate.specs.Internal.Walks.{IsReached};
ghost use Rattle.plan.specs.declared.sort.Sort.TheVariants as sort;

use crate::names::keep_name;
use crate::prefix::Before;
use crate::row::{Ahead, Removed, RowSlot};
use crate::siblings::Rows;
use crate::sizes::levels_down;
use crate::walk::{NextParts, NextTree, Scratch, Walk};
use jtree::{Member, Members, Tree};
use plan::{Meter, PlanNode, SizeSet};
use std::alloc::AllocError;

impl<'p, Z: SizeSet> Walk<'p, Z> {
    /// The next object of as many nodes that differs from each used row in the value of some key.
    #[cycle(next)]
    pub(crate) fn next_row(
        &self,
        node: PlanNode,
        tree: Tree,
        used: &Rows<'_>,
        scratch: &mut Scratch<'p>,
        meter: &mut Meter,
    ) -> Result<NextTree, AllocError>
        requires node { IsNodeOfSort self.now.plan.now node sort.Row }
        requires known { AreUsed self.now.plan.now.pools (slots_from self.now.plan.now node 0) (used_rows used.now) }
        requires row { IsRow self.now.plan.now node (node_count (data_of tree) - 1) (used_rows used.now) (data_of tree) }
        requires limit { node_count (data_of tree) ≤ self.now.plan.now.limit }
        ensures { FindsNext result (IsRow self.now.plan.now node (node_count (data_of tree) - 1) (used_rows used.now)) (data_of tree) scratch.new.following.items (CostsTree result self.now.plan.now meter.old meter.new (node_count (data_of tree))) }
    {
        self.laws_of(node);
        let Some(mut members) = into_members(tree) else {
            unreachable!()
        };
        match self.next_members(node, used, &mut members, scratch, meter)? {
            NextParts::Made(depth) => Ok(NextTree::To(Tree::Object(Members { members }), depth)),
            NextParts::Last(room) => Ok(NextTree::Last(room + 1)),
        }
    }

    /// Turns the members of a row into the next ones of as many nodes: from the last slot on, and no further than to the one that
    /// moves.
    #[cycle(next)]
    fn next_members(
        &self,
        node: PlanNode,
        used: &Rows<'_>,
        members: &mut Vec<Member>,
        scratch: &mut Scratch<'p>,
        meter: &mut Meter,
    ) -> Result<NextParts, AllocError>
        requires { AreMembersOf self.now.plan.now node (used_rows used.now) members.old.items }
        ensures { MovesRow result self.now.plan.now node (used_rows used.now) members.old.items members.new.items scratch.new.following.items meter.old meter.new }
    {
        self.laws_of(node);
        let mut removed = Removed {
            room: 0,
            before: Before::nothing(),
        };
        let mut place = self.plan.slot_count(node);
        while place > 0 {
            place -= 1;
            let slot = self.slot_at(node, place, meter);
            let here = RowSlot { node, place, slot };
            match self.next_at_slot(&here, &mut removed, used, members, scratch, meter)? {
                NextParts::Made(depth) => return Ok(NextParts::Made(depth)),
                NextParts::Last(nodes) => removed.room = nodes,
            }
        }
        Ok(NextParts::Last(removed.room))
    }

    /// Moves what is in the slot, where the members after it had no next ones and were removed. Where there is no next one either, it
    /// is removed too, and `removed.before` becomes what is before the slot.
    #[cycle(next)]
    fn next_at_slot(
        &self,
        here: &RowSlot<'_>,
        removed: &mut Removed,
        used: &Rows<'_>,
        members: &mut Vec<Member>,
        scratch: &mut Scratch<'p>,
        meter: &mut Meter,
    ) -> Result<NextParts, AllocError>
        requires { IsReached self.now.plan.now here.now removed.old (used_rows used.now) members.old.items }
        ensures { MovesMembersAt result self.now.plan.now here.now removed.old (used_rows used.now) members.old.items removed.new members.new.items scratch.new.following.items meter.old meter.new }
    {
        self.laws_of(here.node);
        if ends_in(members.as_slice(), here.slot.name) {
            return self.next_filled_slot(here, removed, used, members, scratch, meter);
        }
        self.next_empty_slot(here, removed, used, members, scratch, meter)
    }

    /// The same where a member is in the slot.
    #[cycle(next)]
    fn next_filled_slot(
        &self,
        here: &RowSlot<'_>,
        removed: &mut Removed,
        used: &Rows<'_>,
        members: &mut Vec<Member>,
        scratch: &mut Scratch<'p>,
        meter: &mut Meter,
    ) -> Result<NextParts, AllocError>
        requires reached { IsReached self.now.plan.now here.now removed.old (used_rows used.now) members.old.items }
        requires filled { EndsIn (slot_there self.now.plan.now here.now).name members.old.items }
        ensures { MovesMembersAt result self.now.plan.now here.now removed.old (used_rows used.now) members.old.items removed.new members.new.items scratch.new.following.items meter.old meter.new }
    {
        self.laws_of(here.node);
        let Some(member) = members.pop() else {
            unreachable!()
        };
        if self.is_last_key(here, &member.tree, meter) {
            removed.before = Before::unnamed(members.len() as u32);
            let Member { name, tree: _ } = member;
            keep_name(&mut scratch.spare, name);
            return Ok(NextParts::Last(removed.room + 1));
        }
        let prefix = self.prefix_at(here.node, here.place, members.as_slice(), used, meter)?;
        removed.before = prefix.before;
        let ahead = Ahead {
            before: prefix.before,
            room: removed.room,
            used: prefix.rows(used),
        };
        self.next_member(here, &ahead, member, members, scratch, meter)
    }

    /// The same where the slot is empty: a first part that fits is put in it, and the first members after it.
    fn next_empty_slot(
        &self,
        here: &RowSlot<'_>,
        removed: &Removed,
        used: &Rows<'_>,
        members: &mut Vec<Member>,
        scratch: &mut Scratch<'p>,
        meter: &mut Meter,
    ) -> Result<NextParts, AllocError>
        requires reached { IsReached self.now.plan.now here.now removed.now (used_rows used.now) members.old.items }
        requires empty { EndsIn (slot_there self.now.plan.now here.now).name members.old.items → ⊥ }
        ensures { MovesAt result self.now.plan.now here.now removed.now (used_rows used.now) members.old.items removed.now members.new.items scratch.new.following.items meter.old meter.new removed.now.room }
    {
        self.laws_of(here.node);
        if removed.room == 0 || !self.fits(here, removed.before, removed.room) {
            return Ok(NextParts::Last(removed.room));
        }
        let prefix = self.prefix_at(here.node, here.place, members.as_slice(), used, meter)?;
        let ahead = Ahead {
            before: removed.before,
            room: removed.room,
            used: prefix.rows(used),
        };
        match self.grow_members(here, &ahead, 0, members, scratch, meter)? {
            NextParts::Made(depth) => Ok(NextParts::Made(depth)),
            NextParts::Last(_) => unreachable!(),
        }
    }

    /// Whether a part in the slot, and those after it, can have so many nodes together.
    fn fits(&self, here: &RowSlot<'_>, before: Before, room: u32) -> bool
        requires { HasRoom self.now.plan.now here.now before room }
        ensures { IsTrue result ↔ ((n : ℕ) × FitsAt self.now.plan.now here.now before room n) }
    {
        self.least_value(here, before, room, 0).is_some()
    }

    /// Puts back the member that was removed with its next value, and then the first members of `ahead.room` nodes after it, where
    /// those that were there have no next ones; or else a value of more nodes, and the first members after that.
    #[cycle(next)]
    fn next_member(
        &self,
        here: &RowSlot<'_>,
        ahead: &Ahead<'_>,
        member: Member,
        members: &mut Vec<Member>,
        scratch: &mut Scratch<'p>,
        meter: &mut Meter,
    ) -> Result<NextParts, AllocError>
        requires here { IsRowSlot self.now.plan.now here.now }
        requires member { WasAt self.now.plan.now here.now ahead.now members.old.items member }
        ensures { MovesRemoved result self.now.plan.now here.now ahead.now member members.old.items members.new.items scratch.new.following.items meter.old meter.new }
    {
        self.laws_of(here.node);
        let Member { name, tree } = member;
        match self.next_value(here, tree, &ahead.used, scratch, meter)? {
            NextTree::To(tree, depth) => {
                let depth = levels_down(ahead.room, depth);
                self.put_member(here, ahead, Member { name, tree }, members, scratch, meter)?;
                Ok(NextParts::Made(depth))
            }
            NextTree::Last(size) => {
                keep_name(&mut scratch.spare, name);
                self.grow_larger_members(here, ahead, size, members, scratch, meter)
            }
        }
    }

    /// The next part of as many nodes for a slot; for a key, the next one that leaves some tuple of keys unused.
    #[cycle(next)]
    fn next_value(
        &self,
        here: &RowSlot<'_>,
        tree: Tree,
        used: &Rows<'_>,
        scratch: &mut Scratch<'p>,
        meter: &mut Meter,
    ) -> Result<NextTree, AllocError>
        requires here { IsRowSlot self.now.plan.now here.now }
        requires known { AreUsedAt self.now.plan.now here.now (used_rows used.now) }
        requires value { IsValueAt self.now.plan.now here.now (used_rows used.now) (node_count (data_of tree)) (data_of tree) }
        requires limit { node_count (data_of tree) ≤ self.now.plan.now.limit }
        ensures { FindsNext result (IsValueAt self.now.plan.now here.now (used_rows used.now) (node_count (data_of tree))) (data_of tree) scratch.new.following.items (CostsTree result self.now.plan.now meter.old meter.new (node_count (data_of tree))) }
    {
        self.laws_of(here.node);
        if here.slot.key {
            return self.next_key(&here.slot, tree, used, scratch, meter);
        }
        self.next_part(here.slot.node, tree, scratch, meter)
    }

    /// Appends the first part of more than `size` nodes for the slot, and the first members after it, of `ahead.room` and `size` nodes
    /// together; or nothing, where there is no such part.
    #[inline(always)]
    fn grow_larger_members(
        &self,
        here: &RowSlot<'_>,
        ahead: &Ahead<'_>,
        size: u32,
        members: &mut Vec<Member>,
        scratch: &mut Scratch<'p>,
        meter: &mut Meter,
    ) -> Result<NextParts, AllocError>
        requires here { IsRowSlot self.now.plan.now here.now }
        requires open { IsOpenAt self.now.plan.now here.now.node here.now.place (larger ahead.now size) }
        ensures { GrowsAt result self.now.plan.now here.now (larger ahead.now size) (size + 1) members.old.items members.new.items scratch.new.following.items meter.old meter.new }
    {
        self.laws_of(here.node);
        let larger = Ahead {
            before: ahead.before,
            room: ahead.room + size,
            used: ahead.used,
        };
        self.grow_members(here, &larger, size + 1, members, scratch, meter)
    }

    /// Whether the slot is a key without a later candidate, and no field is named: then it has no next value, whatever is before it.
    #[inline(always)]
    fn is_last_key(&self, here: &RowSlot<'_>, tree: &Tree, meter: &mut Meter) -> bool
        requires here { IsRowSlot self.now.plan.now here.now }
        requires some { 1 ≤ self.now.plan.now.limit }
        ensures key { result ≡ true → (slot_there self.now.plan.now here.now).key ≡ true }
        ensures plain { result ≡ true → All (λ s. s.bit ≡ None) (slots_from self.now.plan.now here.now.node 0) }
        ensures none { result ≡ true → (u : Data) → IsPart self.now.plan.now.pools (slot_there self.now.plan.now here.now).site u → IsPast (Some (data_of tree.now)) u → ⊥ }
        ensures steps { meter.new ≤ meter.old + 1 }
    {
        self.laws_of(here.node);
        if !here.slot.key {
            return false;
        }
        if self.plan.names_fields(here.node) {
            return false;
        }
        !self.has_later(here.slot.node, tree, meter)
    }
}

/// The members of an object; none of another tree.
#[inline(always)]
fn into_members(tree: Tree) -> Option<Vec<Member>>
    ensures some { IfSome result (λ members. data_of tree ≡ Trees.object (members_of members.items)) }
    ensures none { IfNone result ((ms : Trees.Members) → data_of tree ≢ Trees.object ms) }
{
    match tree {
        Tree::Object(object) => Some(object.members),
        _other => None,
    }
}

/// Whether the last member has the name.
#[inline(always)]
fn ends_in(members: &[Member], name: &str) -> bool
    ensures { IsTrue result ↔ EndsIn name.now members.now }
{
    match members.last() {
        Some(last) => last.name.as_str() == name,
        None => false,
    }
}
