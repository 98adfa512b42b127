//! The nodes of a plan, each after the nodes below it, with the sizes of its parts.
ghost use Rattle.std.specs.Prelude.{◌≡◌, ◌<◌, ◌≤◌, ◌+◌, ◌++◌, ◌∷◌, ℕ, List, [], length, IfOk, IfSome, IfNone};
ghost use Rattle.plan.specs.Pools.Pools.{Pools};
ghost use Rattle.plan.specs.Samples.Sites.{Site};
ghost use Rattle.plan.specs.Samples.Candidates.{sort_of, HasCount, IsCandidate};
ghost use Rattle.plan.specs.Internal.Arena.{AreRightIn};
ghost use Rattle.plan.specs.Samples.Sites.{site_at};
ghost use Rattle.plan.specs.declared.values.Values.{Values};
ghost use Rattle.plan.specs.declared.sort.Sort.TheVariants as sort;

use crate::leaf::Leaf;
use crate::values::Values;
use crate::{Distinct, SizeSet};
use jtree::Text;
use std::alloc::AllocError;
use std::marker::Model;

/// A node of a plan. Only a plan answers one, and it is passed back to the same plan.
#[derive(Clone, Copy)]
pub struct PlanNode {
    number: usize,
}

impl Model for PlanNode {
    ghost use Rattle.std.specs.Prelude.{ℕ};

    ghost Value = { ℕ };

    ghost view = { λ n. n.number };

    ghost inverse = { λ n. record { number = n } };
}

impl PlanNode {
    ghost use Rattle.std.specs.Prelude.{◌≡◌, ◌<◌, ◌+◌, ◌↔◌, true, IfSome, IfNone};

    /// The node before this one.
    pub(crate) fn before(self) -> Option<PlanNode>
        ensures some { IfSome result (λ n. n + 1 ≡ self) }
        ensures none { IfNone result (self ≡ 0) }
    {
        if self.number == 0 {
            return None;
        }
        Some(PlanNode {
            number: self.number - 1,
        })
    }

    /// Whether it is among so many nodes.
    pub(crate) fn is_below(self, count: usize) -> bool
        ensures { (result ≡ true) ↔ (self < count) }
    {
        self.number < count
    }
}

/// The name of a slot: that of a field, or the place of a name of the pools.
#[derive(Drop)]
pub(crate) enum SlotName {
    Field(Text),
    Pool(usize),
}

/// A slot of a row: the node of its value, whether it has to be filled, whether its name is a key, and its place among the fields
/// that the junctors name.
#[derive(Drop)]
pub(crate) struct SlotEntry {
    pub name: SlotName,
    pub node: PlanNode,
    pub must: bool,
    pub key: bool,
    pub bit: Option<u8>,
}

/// The slots of a row, how many tuples the keys after each have, and the sizes that the slots from each place on can take: the last
/// place first, then by the named fields before it, and by the number of members before it, up to the cap of the bounds. By the tuples
/// a key is chosen without a look ahead over the slots.
#[derive(Drop)]
pub(crate) struct RowEntry<Z> {
    pub slots: Vec<SlotEntry>,
    pub later: Vec<u64>,
    pub tables: Vec<Vec<Vec<Z>>>,
}

/// The node of the items of a list, which of them may not be in one list, and the sizes that items can still take after each
/// number of items.
#[derive(Drop)]
pub(crate) struct ListEntry<Z> {
    pub item: PlanNode,
    pub distinct: Distinct,
    pub more: Vec<Z>,
}

impl<Z: SizeSet> ListEntry<Z> {
    ghost use Rattle.plan.specs.Samples.Sizes.{HasMore};
    ghost use Rattle.plan.specs.Internal.Arena.{IsList};

    /// The item at a place, where some list is that long.
    pub(crate) fn item_at(&self, place: usize) -> Option<PlanNode>
        requires { place < 18446744073709551615 }
        ensures some { IfSome result (λ n. n ≡ self.now.item) }
        ensures goes_on { IfSome result (λ _. (P : Pools) (limit : ℕ) (sites : List Site) (i : ℕ) → IsList Z.holds limit P sites i self.now → (m : ℕ) × HasMore P limit (site_at sites i) (place + 1) m) }
        ensures none { IfNone result ((P : Pools) (limit : ℕ) (sites : List Site) (i m : ℕ) → IsList Z.holds limit P sites i self.now → HasMore P limit (site_at sites i) (place + 1) m → ⊥) }
    {
        match self.more.get(place + 1) {
            Some(more) => match more.next(0) {
                Some(_) => Some(self.item),
                None => None,
            },
            None => None,
        }
    }
}

#[derive(Drop)]
pub(crate) enum Content<Z> {
    Leaf(Leaf),
    Row(RowEntry<Z>),
    List(ListEntry<Z>),
}

/// A node: the sizes of its parts, whether null is accepted, and its leaf, row or list.
#[derive(Drop)]
pub(crate) struct Entry<Z> {
    pub sizes: Z,
    pub nullable: bool,
    pub content: Content<Z>,
}

impl<Z: SizeSet> Entry<Z> {
    ghost use Rattle.plan.specs.Internal.Arena.{IsRight};

    /// How many candidates the leaf has; 0 where the node is not a leaf.
    fn count(&self) -> u64
        ensures { (P : Pools) (limit : ℕ) (v : Values) (sites : List Site) (i : ℕ) → IsRight Z.holds limit P v sites i self.now → sort_of (site_at sites i) ≡ sort.Leaf → HasCount (IsCandidate P limit (site_at sites i)) result }
    {
        match &self.content {
            Content::Leaf(leaf) => leaf.places.len() as u64,
            Content::Row(_) | Content::List(_) => 0,
        }
    }
}

impl<Z: SizeSet> Entry<Z> {
    ghost use Rattle.plan.specs.Samples.Candidates.{HasWidth};
    ghost use Rattle.plan.specs.Internal.Arena.{IsRight};

    /// How wide the node is: by its candidates or its slots.
    pub(crate) fn width(&self) -> u64
        ensures { (P : Pools) (limit : ℕ) (v : Values) (sites : List Site) (i : ℕ) → IsRight Z.holds limit P v sites i self.now → HasWidth P limit (site_at sites i) result }
    {
        match &self.content {
            Content::Leaf(leaf) => leaf.places.len() as u64,
            Content::Row(row) => row.slots.len() as u64,
            Content::List(_) => 0,
        }
    }
}

#[derive(Drop)]
pub(crate) struct Arena<Z> {
    pub values: Values,
    pub limit: u32,
    pub entries: Vec<Entry<Z>>,
}

impl<Z: SizeSet> Arena<Z> {
    ghost use Rattle.std.specs.Prelude.{slice_set, slice_index_or, option_map, true, ◌↔◌};
    ghost use Rattle.std.specs.List.{slice_get};
    ghost use Rattle.plan.specs.Internal.Arena.{IsEntry, IsKept, slots_in, item_in};
    ghost use Rattle.plan.specs.declared.arena.Entry.{Entry as EntryDeclared};

    /// The node of the slot at a place of a row.
    pub(crate) fn slot_node(&self, node: PlanNode, place: usize) -> Option<PlanNode>
        ensures { node < length self.now.entries.items → (e : EntryDeclared Z) → result ≡ option_map (λ s. s.node) (slice_get (slots_in (slice_index_or self.now.entries.items node e).content) place) }
    {
        match &self.find(node)?.content {
            Content::Row(row) => Some(row.slots.get(place)?.node),
            Content::Leaf(_) | Content::List(_) => None,
        }
    }

    /// The node of the items of a list.
    pub(crate) fn item_node(&self, node: PlanNode) -> Option<PlanNode>
        ensures { node < length self.now.entries.items → (e : EntryDeclared Z) → result ≡ item_in (slice_index_or self.now.entries.items node e).content }
    {
        match &self.find(node)?.content {
            Content::List(list) => Some(list.item),
            Content::Leaf(_) | Content::Row(_) => None,
        }
    }

    /// Whether the node has an entry.
    pub(crate) fn has(&self, node: PlanNode) -> bool
        ensures { (result ≡ true) ↔ (node < length self.now.entries.items) }
    {
        node.is_below(self.entries.len())
    }

    /// Puts an entry in the place of that of the node, and answers this one, or the same entry where the node has none.
    pub(crate) fn put(&mut self, node: PlanNode, entry: Entry<Z>) -> Entry<Z>
        ensures kept { IsKept self.old self.new }
        ensures entries { self.new.entries.items ≡ slice_set self.old.entries.items node entry }
        ensures old { node < length self.old.entries.items → IsEntry self.old.entries.items node result }
    {
        if node.number >= self.entries.len() {
            return entry;
        }
        std::mem::replace(&mut self.entries[node.number], entry)
    }

    /// The entry of a node.
    pub(crate) fn entry(&self, node: PlanNode) -> &Entry<Z>
        requires { node < length self.now.entries.items }
        ensures { IsEntry self.now.entries.items node result.now }
    {
        &self.entries[node.number]
    }

    /// The entry of a node, where there is one.
    fn find(&self, node: PlanNode) -> Option<&Entry<Z>>
        ensures some { IfSome result (λ e. IsEntry self.now.entries.items node e.now) }
        ensures none { IfNone result (length self.now.entries.items ≤ node) }
    {
        self.entries.get(node.number)
    }

    /// How many candidates the leaf has; 0 where the node is not a leaf of the arena.
    pub(crate) fn count(&self, node: PlanNode) -> u64
        ensures { (P : Pools) (sites : List Site) (i : ℕ) → AreRightIn Z.holds self.now P sites i → node < i → i ≤ length self.now.entries.items
            → sort_of (site_at sites node) ≡ sort.Leaf → HasCount (IsCandidate P self.now.limit (site_at sites node)) result }
    {
        match self.find(node) {
            Some(entry) => entry.count(),
            None => 0,
        }
    }

    /// Adds a node after the others.
    pub(crate) fn add(&mut self, entry: Entry<Z>) -> Result<PlanNode, AllocError>
        ensures kept { IsKept self.old self.new }
        ensures number { IfOk result (λ n. n ≡ length self.old.entries.items) }
        ensures count { IfOk result (λ n. length self.new.entries.items ≡ n + 1) }
        ensures added { IfOk result (λ _. self.new.entries.items ≡ self.old.entries.items ++ entry ∷ []) }
    {
        let number = self.entries.len();
        self.entries.push(entry)?;
        Ok(PlanNode { number })
    }
}
