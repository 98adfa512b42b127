//! The entries of rows, over the nodes that were added before.
ghost use Rattle.std.specs.Prelude.{◌≡◌, ℕ, ◌≤◌, ◌<◌, List, All, length, IfOk};
ghost use Rattle.schema.specs.Nodes.Node.{IsNode, Validations};
ghost use Rattle.plan.specs.Pools.Pools.{Pools};
ghost use Rattle.plan.specs.Samples.Sites.{Site, Slot};
ghost use Rattle.plan.specs.Samples.Sites;
ghost use Rattle.plan.specs.Samples.Candidates.{sort_of};
ghost use Rattle.plan.specs.Samples.Sizes.{ending_of};
ghost use Rattle.plan.specs.Samples.RuleOfParts.{admits_null};
ghost use Rattle.plan.specs.Internal.Arena.{AreChosen, AreSlots, AreLater, AreRightIn, IsRightIn, IsLimit};
ghost use Rattle.plan.specs.Samples.Sites.{site_at};
ghost use Rattle.plan.specs.Internal.Tables.{IsClosed, AreMet};
ghost use Rattle.plan.specs.declared.arena.SlotEntry.{SlotEntry};
ghost use Rattle.plan.specs.declared.sort.Sort.TheVariants.{Row};

use crate::arena::{Arena, Content, Entry, RowEntry, SlotEntry};
use crate::list_entries::tuples_from;
use crate::rows::{Choice, row_tables};
use crate::sizing::whole_sizes;
use crate::{SizeSet, laws};
use schema::Bounds;
use std::alloc::{AllocError, Global};

/// The choices for each slot.
fn choices_for<Z: SizeSet>(
    arena: &Arena<Z>,
    alloc: Global,
    slots: &[SlotEntry],
) -> Result<Vec<Choice<Z>>, AllocError>
    requires { All (λ (s : SlotEntry). s.node < length arena.now.entries.items) slots.now }
    ensures { IfOk result (λ choices. AreChosen arena.now.entries.items choices.items slots.now) }
{
    let mut choices = Vec::with_capacity(alloc, slots.len())?;
    for slot in slots {
        choices.push(Choice {
            sizes: arena.entry(slot.node).sizes,
            must: slot.must,
            bit: slot.bit,
        })?;
    }
    Ok(choices)
}

/// The number of tuples that the keys after each slot have.
fn later_tuples<Z: SizeSet>(
    arena: &Arena<Z>,
    alloc: Global,
    slots: &[SlotEntry],
) -> Result<Vec<u64>, AllocError>
    requires { 1 ≤ arena.now.limit }
    ensures whole { IfOk result (λ later. length later.items ≡ length slots.now) }
    ensures later { IfOk result (λ later. (P : Pools) (sites : List Site) (i : ℕ) (ss : List Slot) → AreRightIn Z.holds arena.now P sites i → i ≤ length arena.now.entries.items
        → AreSlots arena.now.values.names.items sites i slots.now ss → AreLater P ss later.items) }
{
    let count = slots.len();
    let mut later = Vec::with_capacity(alloc, count)?;
    let mut tuples: u64 = 1;
    for done in 0..count {
        later.push(tuples)?;
        tuples = tuples_from(arena, &slots[count - 1 - done], tuples);
    }
    later.reverse();
    Ok(later)
}

/// The entry of a row with these slots; `ends` has whether its junctors hold for each set of the named fields. Its tables are made in the
/// memory of `old`.
pub(crate) fn row_entry<Z: SizeSet>(
    arena: &Arena<Z>,
    alloc: Global,
    old: Vec<Vec<Vec<Z>>>,
    slots: Vec<SlotEntry>,
    bounds: Bounds,
    ends: &[bool],
    nullable: bool,
) -> Result<Entry<Z>, AllocError>
    requires limit { IsLimit Z.BITS arena.now.limit }
    requires below { All (λ (s : SlotEntry). s.node < length arena.now.entries.items) slots.items }
    requires some { 0 < length ends.now }
    requires closed { All (λ (s : SlotEntry). IsClosed (length ends.now) s.bit) slots.items }
    requires few { length slots.items < 18446744073709551615 }
    ensures { IfOk result (λ e. (P : Pools) (sites : List Site) (i : ℕ) (cs : Validations) → AreRightIn Z.holds arena.now P sites i → i ≤ length arena.now.entries.items
        → IsNode (site_at sites i).node → sort_of (site_at sites i) ≡ Row → ending_of P (site_at sites i) ≡ record { bounds = bounds; asked = cs } → AreMet cs ends.now → admits_null P (site_at sites i) ≡ nullable
        → AreSlots arena.now.values.names.items sites i slots.items (Sites.slots P (site_at sites i)) → IsRightIn Z.holds arena.now P sites i e) }
{
    laws::parts_one_level();
    let choices = choices_for(arena, alloc, &slots)?;
    let later = later_tuples(arena, alloc, &slots)?;
    let tables = row_tables(alloc, old, &choices, bounds, ends, arena.limit)?;
    let sizes = whole_sizes(tables[slots.len()][0][0], nullable, arena.limit);
    Ok(Entry {
        sizes,
        nullable,
        content: Content::Row(RowEntry {
            slots,
            later,
            tables,
        }),
    })
}
