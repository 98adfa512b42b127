//! The entries of lists, over the nodes that were added before.
ghost use Rattle.std.specs.Prelude.{◌≡◌, ◌<◌, ◌≤◌, ℕ, ◌∷◌, List, Bool, Option, Some, length, IfOk};
ghost use Rattle.schema.specs.Nodes.Node.{IsNode};
ghost use Rattle.schema.specs.Nodes.Node as nodes;
ghost use Rattle.schema.specs.Nodes.Items.{HasSoundItems};
ghost use Rattle.schema.specs.Nodes.View.{list_of};
ghost use Rattle.plan.specs.Pools.Pools.{Pools};
ghost use Rattle.plan.specs.Samples.Sites.{Site, item_site, slots, Slot};
ghost use Rattle.plan.specs.Samples.Candidates.{sort_of, distinct_by};
ghost use Rattle.plan.specs.Samples.Sizes.{bounds_of};
ghost use Rattle.plan.specs.Samples.RuleOfParts.{admits_null};
ghost use Rattle.plan.specs.Internal.Arena.{IsSlot, AreRightIn, IsRightIn, IsLimit};
ghost use Rattle.plan.specs.Samples.Sites.{site_at};
ghost use Rattle.plan.specs.Samples.Keys.{AreKeySlots, HasTuples};
ghost use Rattle.plan.specs.Internal.Lists.{IsCutTo, cut};
ghost use Rattle.plan.specs.declared.sort.Sort.TheVariants.{Leaf, Row};

use crate::arena::{Arena, Content, Entry, ListEntry, PlanNode, SlotEntry};
use crate::lists::more_sets;
use crate::sizing::whole_sizes;
use crate::{Distinct, SizeSet, laws};
use schema::{Bounds, ListNode, ListType};
use std::alloc::{AllocError, Global};

/// The entry of a list with this item and these bounds on the number of its items.
pub(crate) fn list_entry<Z: SizeSet>(
    arena: &Arena<Z>,
    alloc: Global,
    item: PlanNode,
    list: &ListNode,
    bounds: Bounds,
    nullable: bool,
) -> Result<Entry<Z>, AllocError>
    requires limit { IsLimit Z.BITS arena.now.limit }
    requires item { item < length arena.now.entries.items }
    ensures { IfOk result (λ e. (P : Pools) (sites : List Site) (i : ℕ) (m : Bool) (d : Option (List ℕ)) → AreRightIn Z.holds arena.now P sites i → item < i → i ≤ length arena.now.entries.items
        → (site_at sites i).node ≡ nodes.node m d (list_of list.now) → admits_null P (site_at sites i) ≡ nullable → bounds_of P (site_at sites i) ≡ bounds → item_site P (site_at sites i) ≡ Some (site_at sites item) → IsNode (site_at sites i).node → HasSoundItems (site_at sites i).node
        → IsRightIn Z.holds arena.now P sites i e) }
{
    laws::parts_one_level();
    let limit = arena.limit;
    let bounds = item_bounds(arena, item, list, bounds);
    let more = more_sets(alloc, arena.entry(item).sizes, bounds, limit)?;
    let sizes = whole_sizes(more[0], nullable, limit);
    Ok(Entry {
        sizes,
        nullable,
        content: Content::List(ListEntry {
            item,
            distinct: distinct(list.list_type),
            more,
        }),
    })
}

/// Which items may not be in one list of this type.
fn distinct(list_type: ListType) -> Distinct
    ensures { result ≡ distinct_by list_type }
{
    match list_type {
        ListType::Atomic => Distinct::Free,
        ListType::Set(_) => Distinct::Whole,
        ListType::Map(_) => Distinct::Keys,
    }
}

/// How many tuples the keys of a slot and of those after it have, where those after it have `later`; at most 2^64 - 1.
pub(crate) fn tuples_from<Z: SizeSet>(arena: &Arena<Z>, slot: &SlotEntry, later: u64) -> u64
    requires { 1 ≤ arena.now.limit }
    ensures { (P : Pools) (sites : List Site) (i : ℕ) (s : Slot) (ss : List Slot) → AreRightIn Z.holds arena.now P sites i → i ≤ length arena.now.entries.items
        → IsSlot arena.now.values.names.items sites i slot.now s → AreKeySlots P (s ∷ ss) → HasTuples P ss later → HasTuples P (s ∷ ss) result }
{
    if slot.key {
        later.saturating_mul(arena.count(slot.node))
    } else {
        later
    }
}

/// The bounds, with at most this many items.
fn cut_bounds(bounds: Bounds, most: u64) -> Bounds
    ensures { result ≡ cut most bounds }
{
    let most = match bounds.most {
        Some(bound) => bound.min(most),
        None => most,
    };
    Bounds {
        least: bounds.least,
        most: Some(most),
    }
}

/// The bounds where no two items may be alike: a set has at most as many items as these have candidates, a map list at most as many as
/// there are tuples of keys. So the table of a plain list does, cut to so many items: any item can have any other key and keeps its size.
fn item_bounds<Z: SizeSet>(
    arena: &Arena<Z>,
    item: PlanNode,
    list: &ListNode,
    bounds: Bounds,
) -> Bounds
    requires item { item < length arena.now.entries.items }
    requires some { 1 ≤ arena.now.limit }
    requires limit { arena.now.limit < 18446744073709551615 }
    ensures { (P : Pools) (sites : List Site) (i : ℕ) (s : Site) → AreRightIn Z.holds arena.now P sites i → item < i → i ≤ length arena.now.entries.items
        → (n : Bool) (d : Option (List ℕ)) → s.node ≡ nodes.node n d (list_of list.now) → bounds_of P s ≡ bounds → item_site P s ≡ Some (site_at sites item) → IsNode s.node → HasSoundItems s.node
        → IsCutTo P arena.now.limit s (site_at sites item) result }
{
    laws::parts_one_level();
    stored::laws::stored_by_parts();
    match list.list_type {
        ListType::Atomic => bounds,
        ListType::Set(_) => cut_bounds(bounds, arena.count(item)),
        ListType::Map(_) => cut_bounds(bounds, item_tuples(arena, item)),
    }
}

/// How many tuples of keys the row has; 0 where the node is not a row.
fn item_tuples<Z: SizeSet>(arena: &Arena<Z>, node: PlanNode) -> u64
    requires node { node < length arena.now.entries.items }
    requires some { 1 ≤ arena.now.limit }
    ensures { (P : Pools) (sites : List Site) (i : ℕ) → AreRightIn Z.holds arena.now P sites i → node < i → i ≤ length arena.now.entries.items
        → sort_of (site_at sites node) ≡ Row → AreKeySlots P (slots P (site_at sites node)) → HasTuples P (slots P (site_at sites node)) result }
{
    match &arena.entry(node).content {
        Content::Row(row) => match (row.slots.first(), row.later.first()) {
            (Some(slot), Some(later)) => tuples_from(arena, slot, *later),
            _ => 1,
        },
        Content::Leaf(_) | Content::List(_) => 0,
    }
}
