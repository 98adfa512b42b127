//! Leaves: their first candidate, the next one, and whether a tree is one.
ghost use Rattle.std.specs.Prelude.{◌∷◌, [], ◌≡◌, ◌+◌, ◌≤◌, ◌<◌, ◌↔◌, ◌⊎◌};
ghost use Rattle.std.specs.Prelude.{List, IfOk, false, OnOk, Some, IsTrue, true, None};
ghost use Rattle.jtree.specs.Data.{Data};
ghost use Rattle.jtree.specs.Nodes.{node_count};
ghost use Rattle.jtree.specs.Order.{tree_cmp};
ghost use Rattle.jtree.specs.View.{data_of};
ghost use Rattle.plan.specs.Samples.Part.{IsPart};
ghost use Rattle.enumerate.specs.Least.{IsLeast};
ghost use Rattle.enumerate.specs.Page.{IsPast};
ghost use Rattle.enumerate.specs.View.{resume_point, trees_of};
ghost use Rattle.enumerate.specs.Internal.Answers.{FindsFirst, FindsNext};
ghost use Rattle.enumerate.specs.Internal.Candidates.{used_rows, stack_of, IsFree, IsUnusedPart, IsFreeKey, IsChoice};
ghost use Rattle.enumerate.specs.Internal.Following.{Continue, AreChoices};
ghost use Rattle.enumerate.specs.Internal.Nodes.{IsNodeOfSort, IsNodeWithin, site, IsPartOf, IsCandidateOf, Costs};
ghost use Rattle.plan.specs.declared.sort.Sort.TheVariants as sort;

use crate::siblings::{KeyRows, Rows, Used, is_free};
use crate::walk::{NextTree, Scratch, Walk};
use jtree::Tree;
use plan::{Meter, PlanNode, SizeSet, Slot};
use std::alloc::{AllocError, Global};

/// Whether the tree comes after the place.
#[inline(always)]
fn is_past(after: Option<&Tree>, tree: &Tree) -> bool
    ensures { IsTrue result ↔ IsPast (resume_point after.entry) (data_of tree.now) }
{
    match after {
        Some(place) => place.cmp(tree).is_lt(),
        None => true,
    }
}

/// Whether the tree has `size` nodes. A scalar has one, which takes no count.
#[inline(always)]
fn has_size(tree: &Tree, size: u32) -> bool
    ensures { IsTrue result ↔ (node_count (data_of tree.now) ≡ size) }
{
    match tree {
        Tree::List(_) | Tree::Object(_) => tree.nodes() == size as u64,
        _ => size == 1,
    }
}

/// Whether the tree has the size and is free.
#[inline(always)]
fn is_choice(size: u32, used: &Used<'_>, tree: &Tree) -> bool
    ensures { IsTrue result ↔ ((node_count (data_of tree.now) ≡ size) × IsFree used.now (data_of tree.now)) }
{
    has_size(tree, size) && is_free(used, tree)
}

/// Whether the tree comes after the place, has the size and is free.
#[inline(always)]
fn is_choice_past(after: Option<&Tree>, size: u32, used: &Used<'_>, tree: &Tree) -> bool
    ensures { IsTrue result ↔ (IsPast (resume_point after.entry) (data_of tree.now) × ((node_count (data_of tree.now) ≡ size) × IsFree used.now (data_of tree.now))) }
{
    is_past(after, tree) && is_choice(size, used, tree)
}

/// Replaces the tree by the last of the choices, in the memory of the tree, where there is one, and answers whether there is. Choices
/// that have parts are dropped then.
#[inline(always)]
fn put_first<'p>(
    alloc: Global,
    size: u32,
    tree: &mut Tree,
    choices: &mut Vec<&'p Tree>,
) -> Result<bool, AllocError>
    ensures some { IfOk result (λ found. found ≡ true → (cs : List Data) × (stack_of choices.old.items ≡ data_of tree.new ∷ cs)) }
    ensures none { IfOk result (λ found. found ≡ false → stack_of choices.old.items ≡ []) }
    ensures kept { OnOk result ((stack_of choices.new.items ≡ []) ⊎ ((size ≡ 1) × (stack_of choices.new.items ≡ stack_of choices.old.items))) }
{
    let Some(first) = choices.last() else {
        return Ok(false);
    };
    tree.set(alloc, *first)?;
    if size != 1 {
        choices.clear();
    }
    Ok(true)
}

impl<'p, Z: SizeSet> Walk<'p, Z> {
    /// The first candidate of a size that is none of the items.
    pub(crate) fn first_unused(
        &self,
        node: PlanNode,
        size: u32,
        items: &[Tree],
        scratch: &mut Scratch<'p>,
        meter: &mut Meter,
    ) -> Result<Tree, AllocError>
        requires node { IsNodeOfSort self.now.plan.now node sort.Leaf }
        requires limit { size ≤ self.now.plan.now.limit }
        requires free { (v : Data) × IsUnusedPart self.now.plan.now node size (trees_of items.now) v }
        ensures { FindsFirst result (IsUnusedPart self.now.plan.now node size (trees_of items.now)) scratch.new.following.items (Costs self.now.plan.now meter.old meter.new 1) }
    {
        self.first_free(node, size, &Used::Items(items), scratch, meter)
    }

    /// The first candidate of a size for a key that leaves some tuple of keys unused.
    #[inline(always)]
    pub(crate) fn first_key(
        &self,
        slot: &Slot<'_>,
        size: u32,
        used: &Rows<'_>,
        scratch: &mut Scratch<'p>,
        meter: &mut Meter,
    ) -> Result<Tree, AllocError>
        requires node { IsNodeOfSort self.now.plan.now slot.now.node sort.Leaf }
        requires limit { size ≤ self.now.plan.now.limit }
        requires free { (v : Data) × IsFreeKey self.now.plan.now slot.now.node size slot.now.name.now (used_rows used.now) slot.now.later v }
        ensures { FindsFirst result (IsFreeKey self.now.plan.now slot.now.node size slot.now.name.now (used_rows used.now) slot.now.later) scratch.new.following.items (Costs self.now.plan.now meter.old meter.new 1) }
    {
        let used_key = Used::Key(KeyRows {
            name: slot.name,
            rows: *used,
            later: slot.later,
        });
        self.first_free(slot.node, size, &used_key, scratch, meter)
    }

    /// The first free candidate of a size. `following` becomes those that continue it in its place, the last one first, and this
    /// candidate on top; it becomes empty where they have parts.
    #[inline(always)]
    fn first_free(
        &self,
        node: PlanNode,
        size: u32,
        used: &Used<'_>,
        scratch: &mut Scratch<'p>,
        meter: &mut Meter,
    ) -> Result<Tree, AllocError>
        requires node { IsNodeOfSort self.now.plan.now node sort.Leaf }
        requires limit { size ≤ self.now.plan.now.limit }
        requires free { (v : Data) × IsChoice self.now.plan.now node size None used.now v }
        ensures ok { IfOk result (λ v. IsLeast tree_cmp (IsChoice self.now.plan.now node size None used.now) (data_of v)) }
        ensures following { IfOk result (λ v. Continue (λ u. IsPartOf self.now.plan.now node size u × IsFree used.now u) (data_of v) (stack_of scratch.new.following.items)) }
        ensures steps { Costs self.now.plan.now meter.old meter.new 1 }
    {
        self.find_choices(node, size, None, used, scratch, meter)?;
        let mut tree = Tree::Null;
        if put_first(self.alloc, size, &mut tree, &mut scratch.following)? {
            Ok(tree)
        } else {
            unreachable!()
        }
    }

    /// The next candidate of the same size that is none of the items.
    pub(crate) fn next_unused(
        &self,
        node: PlanNode,
        tree: Tree,
        items: &[Tree],
        scratch: &mut Scratch<'p>,
        meter: &mut Meter,
    ) -> Result<NextTree, AllocError>
        requires { IsNodeWithin self.now.plan.now node sort.Leaf (node_count (data_of tree)) }
        ensures { FindsNext result (IsUnusedPart self.now.plan.now node (node_count (data_of tree)) (trees_of items.now)) (data_of tree) scratch.new.following.items (Costs self.now.plan.now meter.old meter.new 1) }
    {
        self.next_free(node, tree, &Used::Items(items), scratch, meter)
    }

    /// The next candidate of the same size for a key that leaves some tuple of keys unused.
    pub(crate) fn next_key(
        &self,
        slot: &Slot<'_>,
        tree: Tree,
        used: &Rows<'_>,
        scratch: &mut Scratch<'p>,
        meter: &mut Meter,
    ) -> Result<NextTree, AllocError>
        requires { IsNodeWithin self.now.plan.now slot.now.node sort.Leaf (node_count (data_of tree)) }
        ensures { FindsNext result (IsFreeKey self.now.plan.now slot.now.node (node_count (data_of tree)) slot.now.name.now (used_rows used.now) slot.now.later) (data_of tree) scratch.new.following.items (Costs self.now.plan.now meter.old meter.new 1) }
    {
        let used_key = Used::Key(KeyRows {
            name: slot.name,
            rows: *used,
            later: slot.later,
        });
        self.next_free(slot.node, tree, &used_key, scratch, meter)
    }

    /// The next free candidate of the same size, in the memory of the tree. `following` becomes what it becomes at the first one.
    #[inline(always)]
    fn next_free(
        &self,
        node: PlanNode,
        tree: Tree,
        used: &Used<'_>,
        scratch: &mut Scratch<'p>,
        meter: &mut Meter,
    ) -> Result<NextTree, AllocError>
        requires { IsNodeWithin self.now.plan.now node sort.Leaf (node_count (data_of tree)) }
        ensures { FindsNext result (λ v. IsPartOf self.now.plan.now node (node_count (data_of tree)) v × IsFree used.now v) (data_of tree) scratch.new.following.items (Costs self.now.plan.now meter.old meter.new 1) }
    {
        self.reveal_limit();
        let size = tree.nodes() as u32;
        self.find_choices(node, size, Some(&tree), used, scratch, meter)?;
        let mut tree = tree;
        if put_first(self.alloc, size, &mut tree, &mut scratch.following)? {
            Ok(NextTree::To(tree, 0))
        } else {
            Ok(NextTree::Last(size))
        }
    }

    /// Replaces what is in `following` by the free candidates of a size past a place, the last one first. It looks at those past the place
    /// alone, and at the one before them.
    #[inline(always)]
    fn find_choices(
        &self,
        node: PlanNode,
        size: u32,
        after: Option<&Tree>,
        used: &Used<'_>,
        scratch: &mut Scratch<'p>,
        meter: &mut Meter,
    ) -> Result<(), AllocError>
        requires { IsNodeWithin self.now.plan.now node sort.Leaf size }
        ensures ok { OnOk result (AreChoices (IsChoice self.now.plan.now node size (resume_point after.entry) used.now) (stack_of scratch.new.following.items)) }
        ensures steps { Costs self.now.plan.now meter.old meter.new 1 }
    {
        if after.is_none() && used.comes_first() {
            return self.find_choice(node, size, after, used, scratch, meter);
        }
        scratch.following.clear();
        let mut place = self.plan.count(node);
        scratch.following.reserve(place as usize)?;
        while place > 0 {
            place -= 1;
            let Some(tree) = self.plan.candidate(node, place, meter) else {
                return Ok(());
            };
            if !is_past(after, tree) {
                return Ok(());
            }
            if is_choice(size, used, tree) {
                scratch.following.push_reserved(tree);
            }
        }
        Ok(())
    }

    /// The same with the first of them alone, for a key that others come after: no candidate follows in its place.
    fn find_choice(
        &self,
        node: PlanNode,
        size: u32,
        after: Option<&Tree>,
        used: &Used<'_>,
        scratch: &mut Scratch<'p>,
        meter: &mut Meter,
    ) -> Result<(), AllocError>
        requires { IsNodeWithin self.now.plan.now node sort.Leaf size }
        ensures ok { OnOk result (AreChoices (IsChoice self.now.plan.now node size (resume_point after.entry) used.now) (stack_of scratch.new.following.items)) }
        ensures steps { Costs self.now.plan.now meter.old meter.new 1 }
    {
        scratch.following.clear();
        for place in 0..self.plan.count(node) {
            if let Some(tree) = self.plan.candidate(node, place, meter) {
                if is_choice_past(after, size, used, tree) {
                    scratch.following.push(tree)?;
                    return Ok(());
                }
            }
        }
        Ok(())
    }

    /// Whether some candidate of a leaf comes after the tree.
    pub(crate) fn has_later(&self, node: PlanNode, tree: &Tree, meter: &mut Meter) -> bool
        requires { IsNodeOfSort self.now.plan.now node sort.Leaf }
        ensures none { result ≡ false → (u : Data) → IsCandidateOf self.now.plan.now node u → IsPast (Some (data_of tree.now)) u → ⊥ }
        ensures steps { meter.new ≤ meter.old + 1 }
    {
        let count = self.plan.count(node);
        if count == 0 {
            return false;
        }
        match self.plan.candidate(node, count - 1, meter) {
            Some(last) => is_past(Some(tree), last),
            None => false,
        }
    }

    /// Whether the tree is a candidate of the leaf. It looks at each candidate at most once.
    pub(crate) fn is_candidate(&self, node: PlanNode, tree: &Tree, meter: &mut Meter) -> bool
        requires { IsNodeWithin self.now.plan.now node sort.Leaf (node_count (data_of tree.now)) }
        ensures is { IsTrue result ↔ IsPart self.now.plan.now.pools (site self.now.plan.now node) (data_of tree.now) }
        ensures steps { Costs self.now.plan.now meter.old meter.new 1 }
    {
        for place in 0..self.plan.count(node) {
            if let Some(candidate) = self.plan.candidate(node, place, meter) {
                if *candidate == *tree {
                    return true;
                }
            }
        }
        false
    }
}
