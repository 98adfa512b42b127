//! Lists: the first one, the next one, and whether a tree is one.
ghost use Rattle.std.specs.Prelude.{◌++◌, ◌∷◌, [], ◌≡◌, ◌+◌, ◌≤◌, ◌<◌, ◌≢◌};
ghost use Rattle.std.specs.Prelude.{ℕ, length, false, Some, IfSome, IfNone, MatchOption};
ghost use Rattle.jtree.specs.Data as Trees;
ghost use Rattle.jtree.specs.Nodes.{node_count, items_count};
ghost use Rattle.jtree.specs.View.{data_of, items_of};
ghost use Rattle.plan.specs.Samples.Part.{IsPart};
ghost use Rattle.plan.specs.Samples.RuleOfParts.{admits_null};
ghost use Rattle.plan.specs.Samples.Sites.{item_site};
ghost use Rattle.plan.specs.Samples.Sizes.{HasMore};
ghost use Rattle.plan.specs.Sets.{IsLeastFrom, IsEmptyFrom};
ghost use Rattle.enumerate.specs.Internal.Answers.{MovesItems, AddsFirstItems, Decides, ItemsGrow, FindsFirst, FindsNext};
ghost use Rattle.enumerate.specs.Internal.Candidates.{stack_of};
ghost use Rattle.enumerate.specs.Internal.Following.{IsBegun};
ghost use Rattle.enumerate.specs.Internal.Lists.{CanGrow, AreFirst, IsUnusedItem, FitsItem, IsListNode};
ghost use Rattle.enumerate.specs.Internal.Membership.{IsListOf};
ghost use Rattle.enumerate.specs.Internal.Nodes.{IsNodeOfSort, IsNodeWithin, site, IsPartOf, Costs, HasSizeAt};
ghost use Rattle.enumerate.specs.Internal.Steps.{CostsTree};
ghost use Rattle.plan.specs.declared.sort.Sort.TheVariants as sort;

use crate::siblings::Rows;
use crate::sizes::{least_split, levels_down};
use crate::walk::{NextParts, NextTree, Scratch, Walk};
use jtree::{Items, Tree};
use plan::{Distinct, Meter, PlanNode, SizeSet};
use std::alloc::AllocError;

/// The node of a list, and that of its items.
#[derive(Clone, Copy)]
pub(crate) struct ListNode {
    pub node: PlanNode,
    pub child: PlanNode,
}

impl<'p, Z: SizeSet> Walk<'p, Z> {
    /// The first list of a size.
    #[cycle(first)]
    pub(crate) fn first_list(
        &self,
        node: PlanNode,
        size: u32,
        scratch: &mut Scratch<'p>,
        meter: &mut Meter,
    ) -> Result<Tree, AllocError>
        requires node { IsNodeOfSort self.now.plan.now node sort.List }
        requires no_null { size ≡ 1 → admits_null self.now.plan.now.pools (site self.now.plan.now node) ≡ false }
        requires size { HasSizeAt self.now.plan.now node size }
        requires limit { size ≤ self.now.plan.now.limit }
        ensures { FindsFirst result (IsPartOf self.now.plan.now node size) scratch.new.following.items (Costs self.now.plan.now meter.old meter.new size) }
    {
        self.laws_of(node);
        scratch.following.clear();
        let mut items = Vec::new(self.alloc);
        if size > 1 {
            let Some(child) = self.plan.item(node, 0, meter) else {
                unreachable!()
            };
            self.first_items(
                &ListNode { node, child },
                size - 1,
                &mut items,
                scratch,
                meter,
            )?;
        }
        Ok(Tree::List(Items { items }))
    }

    /// Appends the first items of `room` nodes after those that are there.
    #[cycle(first)]
    fn first_items(
        &self,
        list: &ListNode,
        room: u32,
        items: &mut Vec<Tree>,
        scratch: &mut Scratch<'p>,
        meter: &mut Meter,
    ) -> Result<(), AllocError>
        requires { IsBegun self.now.plan.now list.now room (items_of items.old.items) (stack_of scratch.old.following.items) }
        ensures { AddsFirstItems result self.now.plan.now list.now room items.old.items items.new.items scratch.new.following.items meter.old meter.new }
    {
        self.laws_of(list.node);
        if room > 0 {
            self.grow_items(list, room, 0, items, scratch, meter)?;
        }
        Ok(())
    }

    /// Appends the first item of a size from `from` on, and the first items after it; or nothing, where there is no such size.
    #[cycle(first)]
    fn grow_items(
        &self,
        list: &ListNode,
        room: u32,
        from: u32,
        items: &mut Vec<Tree>,
        scratch: &mut Scratch<'p>,
        meter: &mut Meter,
    ) -> Result<NextParts, AllocError>
        requires { CanGrow self.now.plan.now list.now (items_of items.old.items) room }
        ensures { ItemsGrow result self.now.plan.now list.now room from items.old.items items.new.items scratch.new.following.items meter.old meter.new }
    {
        if from > room {
            return Ok(NextParts::Last(room));
        }
        let others = items.as_slice();
        let Some(size) = self.least_item(list, others, room, from) else {
            return Ok(NextParts::Last(room));
        };
        let item = self.first_item(list, size, others, scratch, meter)?;
        items.push(item)?;
        self.first_items(list, room - size, items, scratch, meter)?;
        Ok(NextParts::Made(0))
    }

    /// The first part of a size that can be an item after the others.
    #[cycle(first)]
    fn first_item(
        &self,
        list: &ListNode,
        size: u32,
        items: &[Tree],
        scratch: &mut Scratch<'p>,
        meter: &mut Meter,
    ) -> Result<Tree, AllocError>
        requires list { IsListNode self.now.plan.now list.now }
        requires first { AreFirst self.now.plan.now list.now.node list.now.child (items_of items.now) }
        requires size { HasSizeAt self.now.plan.now list.now.child size }
        requires limit { size ≤ self.now.plan.now.limit }
        requires more { (m : ℕ) × HasMore self.now.plan.now.pools self.now.plan.now.limit (site self.now.plan.now list.now.node) (length items.now + 1) m }
        ensures { FindsFirst result (IsUnusedItem self.now.plan.now list.now.node list.now.child size (items_of items.now)) scratch.new.following.items (Costs self.now.plan.now meter.old meter.new size) }
    {
        self.laws_of(list.node);
        self.laws_of(list.child);
        match self.plan.distinct(list.node) {
            Distinct::Free => self.first_part(list.child, size, scratch, meter),
            Distinct::Whole => self.first_unused(list.child, size, items, scratch, meter),
            Distinct::Keys => self.first_row(
                list.child,
                size,
                &Rows::Listed(items),
                scratch,
                meter,
            ),
        }
    }

    /// The least size from `from` on of an item after the others that leaves those after it the rest of `room` nodes.
    #[inline(always)]
    fn least_item(&self, list: &ListNode, items: &[Tree], room: u32, from: u32) -> Option<u32>
        requires { CanGrow self.now.plan.now list.now (items_of items.now) room }
        ensures { MatchOption result (IsEmptyFrom (FitsItem self.now.plan.now list.now.node list.now.child (length items.now) room) from) (IsLeastFrom (FitsItem self.now.plan.now list.now.node list.now.child (length items.now) room) from) }
    {
        self.laws_of(list.node);
        let more = self.plan.more(list.node, items.len() as u32 + 1);
        least_split(self.plan.sizes(list.child), more, room, from)
    }

    /// The next list of as many nodes.
    #[cycle(next)]
    #[inline(always)]
    pub(crate) fn next_list(
        &self,
        node: PlanNode,
        tree: Tree,
        scratch: &mut Scratch<'p>,
        meter: &mut Meter,
    ) -> Result<NextTree, AllocError>
        requires node { IsNodeOfSort self.now.plan.now node sort.List }
        requires part { IsPart self.now.plan.now.pools (site self.now.plan.now node) (data_of tree) }
        requires no_null { data_of tree ≢ Trees.null }
        requires limit { node_count (data_of tree) ≤ self.now.plan.now.limit }
        ensures { FindsNext result (IsPartOf self.now.plan.now node (node_count (data_of tree))) (data_of tree) scratch.new.following.items (CostsTree result self.now.plan.now meter.old meter.new (node_count (data_of tree))) }
    {
        self.laws_of(node);
        let Some(mut items) = into_items(tree) else {
            unreachable!()
        };
        if items.is_empty() {
            return Ok(NextTree::Last(1));
        }
        let Some(child) = self.plan.item(node, 0, meter) else {
            unreachable!()
        };
        match self.next_items(&ListNode { node, child }, &mut items, scratch, meter)? {
            NextParts::Made(depth) => Ok(NextTree::To(Tree::List(Items { items }), depth)),
            NextParts::Last(room) => Ok(NextTree::Last(room + 1)),
        }
    }

    /// Turns items into the next ones of as many nodes.
    #[cycle(next)]
    fn next_items(
        &self,
        list: &ListNode,
        items: &mut Vec<Tree>,
        scratch: &mut Scratch<'p>,
        meter: &mut Meter,
    ) -> Result<NextParts, AllocError>
        requires list { IsListNode self.now.plan.now list.now }
        requires item { item_site self.now.plan.now.pools (site self.now.plan.now list.now.node) ≡ Some (site self.now.plan.now list.now.child) }
        requires part { IsPart self.now.plan.now.pools (site self.now.plan.now list.now.node) (Trees.list (items_of items.old.items)) }
        requires limit { items_count (items_of items.old.items) < self.now.plan.now.limit }
        ensures { MovesItems result self.now.plan.now list.now items.old.items items.new.items scratch.new.following.items meter.old meter.new }
    {
        self.laws_of(list.node);
        let mut room = 0;
        while let Some(item) = items.pop() {
            match self.next_item(list, item, items.as_slice(), scratch, meter)? {
                NextTree::To(next, depth) => {
                    let depth = levels_down(room, depth);
                    self.put_item(list, room, next, items, scratch, meter)?;
                    return Ok(NextParts::Made(depth));
                }
                NextTree::Last(size) => {
                    match self.grow_larger_items(list, room, size, items, scratch, meter)? {
                        NextParts::Made(depth) => return Ok(NextParts::Made(depth)),
                        NextParts::Last(nodes) => room = nodes,
                    }
                }
            }
        }
        Ok(NextParts::Last(room))
    }

    /// The next part of as many nodes that can be an item after the others.
    #[cycle(next)]
    fn next_item(
        &self,
        list: &ListNode,
        item: Tree,
        items: &[Tree],
        scratch: &mut Scratch<'p>,
        meter: &mut Meter,
    ) -> Result<NextTree, AllocError>
        requires list { IsListNode self.now.plan.now list.now }
        requires first { AreFirst self.now.plan.now list.now.node list.now.child (items_of items.now) }
        requires item { IsUnusedItem self.now.plan.now list.now.node list.now.child (node_count (data_of item)) (items_of items.now) (data_of item) }
        requires within { items_count (items_of items.now) + node_count (data_of item) < self.now.plan.now.limit }
        ensures { FindsNext result (IsUnusedItem self.now.plan.now list.now.node list.now.child (node_count (data_of item)) (items_of items.now)) (data_of item) scratch.new.following.items (CostsTree result self.now.plan.now meter.old meter.new (node_count (data_of item))) }
    {
        self.laws_of(list.node);
        self.laws_of(list.child);
        match self.plan.distinct(list.node) {
            Distinct::Free => self.next_part(list.child, item, scratch, meter),
            Distinct::Whole => self.next_unused(list.child, item, items, scratch, meter),
            Distinct::Keys => {
                let used = Rows::Listed(items);
                self.next_row(list.child, item, &used, scratch, meter)
            }
        }
    }

    /// Appends an item, and the first items of `room` nodes after it.
    #[inline(always)]
    fn put_item(
        &self,
        list: &ListNode,
        room: u32,
        item: Tree,
        items: &mut Vec<Tree>,
        scratch: &mut Scratch<'p>,
        meter: &mut Meter,
    ) -> Result<(), AllocError>
        requires { IsBegun self.now.plan.now list.now room (items_of (items.old.items ++ item ∷ [])) (stack_of scratch.old.following.items) }
        ensures { AddsFirstItems result self.now.plan.now list.now room (items.old.items ++ item ∷ []) items.new.items scratch.new.following.items meter.old meter.new }
    {
        items.push(item)?;
        self.first_items(list, room, items, scratch, meter)
    }

    /// Appends the first item of more than `size` nodes, and the first items after it, of `room` and `size` nodes together; or nothing,
    /// where there is no such item.
    #[inline(always)]
    fn grow_larger_items(
        &self,
        list: &ListNode,
        room: u32,
        size: u32,
        items: &mut Vec<Tree>,
        scratch: &mut Scratch<'p>,
        meter: &mut Meter,
    ) -> Result<NextParts, AllocError>
        requires { CanGrow self.now.plan.now list.now (items_of items.old.items) (room + size) }
        ensures { ItemsGrow result self.now.plan.now list.now (room + size) (size + 1) items.old.items items.new.items scratch.new.following.items meter.old meter.new }
    {
        self.laws_of(list.node);
        self.grow_items(list, room + size, size + 1, items, scratch, meter)
    }

    /// Whether the tree is a list that is a part of the node.
    #[cycle(part)]
    pub(crate) fn is_list(
        &self,
        node: PlanNode,
        tree: &Tree,
        meter: &mut Meter,
    ) -> Result<bool, AllocError>
        requires { IsNodeWithin self.now.plan.now node sort.List (node_count (data_of tree.now)) }
        ensures { Decides result (IsListOf self.now.plan.now node (data_of tree.now)) (Costs self.now.plan.now meter.old meter.new (node_count (data_of tree.now))) }
    {
        match tree {
            Tree::List(list) => self.make_list(node, list.items.as_slice(), meter),
            _ => Ok(false),
        }
    }

    /// Whether the items make a list that is a part of the node.
    #[cycle(part)]
    fn make_list(
        &self,
        node: PlanNode,
        items: &[Tree],
        meter: &mut Meter,
    ) -> Result<bool, AllocError>
        requires node { IsNodeOfSort self.now.plan.now node sort.List }
        requires limit { 1 + items_count (items_of items.now) ≤ self.now.plan.now.limit }
        ensures { Decides result (IsPart self.now.plan.now.pools (site self.now.plan.now node) (Trees.list (items_of items.now))) (Costs self.now.plan.now meter.old meter.new (1 + items_count (items_of items.now))) }
    {
        if items.is_empty() {
            return Ok(self.plan.more(node, 0).has(0));
        }
        self.laws_of(node);
        let Some(child) = self.plan.item(node, 0, meter) else {
            return Ok(false);
        };
        let list = ListNode { node, child };
        for place in 0..items.len() {
            if !self.is_unused_item(&list, &items[place], &items[..place], meter)? {
                return Ok(false);
            }
        }
        Ok(self.plan.more(node, items.len() as u32).has(0))
    }

    /// Whether the tree is a part that can be an item after the others.
    #[cycle(part)]
    fn is_unused_item(
        &self,
        list: &ListNode,
        item: &Tree,
        items: &[Tree],
        meter: &mut Meter,
    ) -> Result<bool, AllocError>
        requires list { IsListNode self.now.plan.now list.now }
        requires first { AreFirst self.now.plan.now list.now.node list.now.child (items_of items.now) }
        requires limit { node_count (data_of item.now) ≤ self.now.plan.now.limit }
        ensures { Decides result (IsUnusedItem self.now.plan.now list.now.node list.now.child (node_count (data_of item.now)) (items_of items.now) (data_of item.now)) (Costs self.now.plan.now meter.old meter.new (node_count (data_of item.now))) }
    {
        self.laws_of(list.node);
        self.laws_of(list.child);
        match self.plan.distinct(list.node) {
            Distinct::Free => self.is_part(list.child, item, meter),
            Distinct::Whole => {
                if items.contains(item) {
                    return Ok(false);
                }
                self.is_part(list.child, item, meter)
            }
            Distinct::Keys => self.is_unused_row(list.child, item, &Rows::Listed(items), meter),
        }
    }
}

/// The items of a list; none of another tree.
#[inline(always)]
fn into_items(tree: Tree) -> Option<Vec<Tree>>
    ensures some { IfSome result (λ items. data_of tree ≡ Trees.list (items_of items.items)) }
    ensures none { IfNone result ((ds : Trees.Items) → data_of tree ≢ Trees.list ds) }
{
    match tree {
        Tree::List(list) => Some(list.items),
        _other => None,
    }
}
