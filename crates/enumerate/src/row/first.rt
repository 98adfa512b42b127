//! The first members of a row.
ghost use Rattle.std.specs.Prelude.{◌++◌, ◌∷◌, [], ◌+◌, ◌-◌, ◌≤◌, ◌<◌, length, drop, MatchOption};
ghost use Rattle.jtree.specs.View.{data_of};
ghost use Rattle.plan.specs.Sets.{IsLeastFrom, IsEmptyFrom};
ghost use Rattle.enumerate.specs.Internal.Answers.{AddsMembers, FindsFirst, GrowsAt};
ghost use Rattle.enumerate.specs.Internal.Candidates.{used_rows, stack_of};
ghost use Rattle.enumerate.specs.Internal.Following.{CanPut};
ghost use Rattle.enumerate.specs.Internal.Nodes.{IsNodeOfSort, Costs};
ghost use Rattle.enumerate.specs.Internal.Rows.{CanHave, HasRoom, slots_from, row_demand, IsOpen, IsRow, CostsSlots, slots_at};
ghost use Rattle.enumerate.specs.Internal.Rows.{IsRowSlot, IsOpenAt, AddsFirstAt, IsValueAt, AddsFirstAfter, CostsAfter, FitsAt};
ghost use Rattle.plan.specs.declared.sort.Sort.TheVariants as sort;

use crate::names::take_name;
use crate::prefix::Before;
use crate::row::{Ahead, RowSlot};
use crate::siblings::{Chosen, Rows, still_used};
use crate::sizes::least_split;
use crate::walk::{NextParts, Scratch, Walk};
use jtree::{Member, Members, Tree};
use plan::{Meter, PlanNode, SizeSet};
use std::alloc::AllocError;

impl<'p, Z: SizeSet> Walk<'p, Z> {
    /// The first object of a size that differs from each used row in the value of some key.
    #[cycle(first)]
    pub(crate) fn first_row(
        &self,
        node: PlanNode,
        size: u32,
        used: &Rows<'_>,
        scratch: &mut Scratch<'p>,
        meter: &mut Meter,
    ) -> Result<Tree, AllocError>
        requires node { IsNodeOfSort self.now.plan.now node sort.Row }
        requires some { 1 ≤ size }
        requires limit { size ≤ self.now.plan.now.limit }
        requires open { IsOpen self.now.plan.now.pools (slots_from self.now.plan.now node 0) (row_demand self.now.plan.now node (size - 1) (used_rows used.now)) }
        ensures { FindsFirst result (IsRow self.now.plan.now node (size - 1) (used_rows used.now)) scratch.new.following.items (Costs self.now.plan.now meter.old meter.new size) }
    {
        self.laws_of(node);
        scratch.following.clear();
        let mut members = Vec::new(self.alloc);
        if size == 1 {
            return Ok(Tree::Object(Members { members }));
        }
        self.first_members(
            node,
            0,
            &Ahead {
                before: Before::nothing(),
                room: size - 1,
                used: *used,
            },
            &mut members,
            scratch,
            meter,
        )?;
        Ok(Tree::Object(Members { members }))
    }

    /// Appends the first members of `room` nodes for the slots from `place` on, where `before` is what is before it.
    #[cycle(first)]
    #[inline(always)]
    fn first_members(
        &self,
        node: PlanNode,
        place: u64,
        ahead: &Ahead<'_>,
        members: &mut Vec<Member>,
        scratch: &mut Scratch<'p>,
        meter: &mut Meter,
    ) -> Result<(), AllocError>
        requires node { IsNodeOfSort self.now.plan.now node sort.Row }
        requires some { 1 ≤ ahead.now.room }
        requires open { IsOpenAt self.now.plan.now node place ahead.now }
        ensures { AddsMembers result self.now.plan.now (AddsFirstAt self.now.plan.now node place ahead.now members.old.items members.new.items)
            (slots_from self.now.plan.now node place) (used_rows ahead.now.used) (drop (length members.old.items) members.new.items) scratch.new.following.items (CostsSlots self.now.plan.now node place meter.old meter.new ahead.now.room) }
    {
        self.laws_of(node);
        let Some(slot) = self.plan.slot(node, place, meter) else {
            return Ok(());
        };
        let here = RowSlot { node, place, slot };
        if !here.slot.must
            && ahead
                .before
                .rest(self.plan, node, place + 1)
                .has(ahead.room)
        {
            return self.first_members(node, place + 1, ahead, members, scratch, meter);
        }
        self.grow_members(&here, ahead, 0, members, scratch, meter)?;
        Ok(())
    }

    /// Appends the first part of the slot at `place` of a size from `from` on, and the first members after it; or nothing, where there
    /// is no such size.
    #[cycle(first)]
    #[inline(always)]
    pub(crate) fn grow_members(
        &self,
        here: &RowSlot<'_>,
        ahead: &Ahead<'_>,
        from: u32,
        members: &mut Vec<Member>,
        scratch: &mut Scratch<'p>,
        meter: &mut Meter,
    ) -> Result<NextParts, AllocError>
        requires here { IsRowSlot self.now.plan.now here.now }
        requires open { IsOpenAt self.now.plan.now here.now.node here.now.place ahead.now }
        ensures { GrowsAt result self.now.plan.now here.now ahead.now from members.old.items members.new.items scratch.new.following.items meter.old meter.new }
    {
        self.laws_of(here.node);
        if from > ahead.room {
            return Ok(NextParts::Last(ahead.room));
        }
        let Some(size) = self.least_value(here, ahead.before, ahead.room, from) else {
            return Ok(NextParts::Last(ahead.room));
        };
        // Before the value is made: the names inside it were kept before this one, so they lie below it.
        let name = take_name(self.alloc, here.slot.name, &mut scratch.spare)?;
        let tree = self.first_value(here, size, &ahead.used, scratch, meter)?;
        self.put_member(
            here,
            &Ahead {
                before: ahead.before,
                room: ahead.room - size,
                used: ahead.used,
            },
            Member { name, tree },
            members,
            scratch,
            meter,
        )?;
        Ok(NextParts::Made(0))
    }

    /// The first part of a size for a slot; for a key, the first one that leaves some tuple of keys unused.
    #[cycle(first)]
    fn first_value(
        &self,
        here: &RowSlot<'_>,
        size: u32,
        used: &Rows<'_>,
        scratch: &mut Scratch<'p>,
        meter: &mut Meter,
    ) -> Result<Tree, AllocError>
        requires { CanHave self.now.plan.now here.now (used_rows used.now) size }
        ensures { FindsFirst result (IsValueAt self.now.plan.now here.now (used_rows used.now) size) scratch.new.following.items (Costs self.now.plan.now meter.old meter.new size) }
    {
        self.laws_of(here.node);
        if here.slot.key {
            return self.first_key(&here.slot, size, used, scratch, meter);
        }
        self.first_part(here.slot.node, size, scratch, meter)
    }

    /// Appends a member, and the first members of `room` nodes after it.
    #[cycle(first)]
    pub(crate) fn put_member(
        &self,
        here: &RowSlot<'_>,
        ahead: &Ahead<'_>,
        member: Member,
        members: &mut Vec<Member>,
        scratch: &mut Scratch<'p>,
        meter: &mut Meter,
    ) -> Result<(), AllocError>
        requires { CanPut self.now.plan.now here.now ahead.now member (stack_of scratch.old.following.items) }
        ensures { AddsMembers result self.now.plan.now (AddsFirstAfter self.now.plan.now here.now (data_of member.tree) ahead.now (members.old.items ++ member ∷ []) members.new.items)
            (slots_at self.now.plan.now here.now) (used_rows ahead.now.used) (drop (length members.old.items) members.new.items) scratch.new.following.items (CostsAfter self.now.plan.now here.now meter.old meter.new ahead.now.room) }
    {
        self.laws_of(here.node);
        if ahead.room == 0 {
            members.push(member)?;
            return Ok(());
        }
        let same = still_used(self.alloc, &here.slot, &member.tree, &ahead.used)?;
        members.push(member)?;
        self.first_members(
            here.node,
            here.place + 1,
            &Ahead {
                before: ahead.before.fill(&here.slot),
                room: ahead.room,
                used: Rows::Chosen(Chosen {
                    rows: same.as_slice(),
                }),
            },
            members,
            scratch,
            meter,
        )
    }

    /// The least size from `from` on of a part for the slot at `place` that leaves the slots after it the rest of `room` nodes.
    #[inline(always)]
    pub(crate) fn least_value(
        &self,
        here: &RowSlot<'_>,
        before: Before,
        room: u32,
        from: u32,
    ) -> Option<u32>
        requires { HasRoom self.now.plan.now here.now before room }
        ensures { MatchOption result (IsEmptyFrom (FitsAt self.now.plan.now here.now before room) from) (IsLeastFrom (FitsAt self.now.plan.now here.now before room) from) }
    {
        self.laws_of(here.node);
        let rest = before
            .fill(&here.slot)
            .rest(self.plan, here.node, here.place + 1);
        least_split(self.plan.sizes(here.slot.node), rest, room, from)
    }
}
