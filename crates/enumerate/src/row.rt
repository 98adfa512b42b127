//! Objects and maps, which are rows of slots.
ghost use Rattle.std.specs.Prelude.{◌≡◌, ◌<◌, length};
ghost use Rattle.plan.specs.Samples.Steps.{counted};
ghost use Rattle.enumerate.specs.Internal.Nodes.{IsNodeOfSort};
ghost use Rattle.enumerate.specs.Internal.Rows.{slots_from, IsSlotOf};
ghost use Rattle.plan.specs.declared.sort.Sort.TheVariants as sort;

mod first;
mod next;
mod part;

use crate::prefix::Before;
use crate::siblings::Rows;
use crate::walk::Walk;
use plan::{Meter, PlanNode, SizeSet, Slot};

/// The slot at a place of a row.
#[derive(Clone, Copy)]
pub(crate) struct RowSlot<'s> {
    pub node: PlanNode,
    pub place: u64,
    pub slot: Slot<'s>,
}

/// What is to be put from a place of a row on.
#[derive(Clone, Copy)]
pub(crate) struct Ahead<'u> {
    /// What is before the place.
    pub before: Before,
    /// How many nodes the slots from there on have together.
    pub room: u32,
    /// The used rows that agree with what is before the place.
    pub used: Rows<'u>,
}

/// What was removed from a row, from its end on, since it had no next one.
#[derive(Clone, Copy)]
pub(crate) struct Removed {
    /// How many nodes the removed members have together.
    pub room: u32,
    /// What is before the slot that was reached, where something was removed.
    pub before: Before,
}

impl<'p, Z: SizeSet> Walk<'p, Z> {
    /// The slot at a place of a row.
    #[inline(always)]
    pub(crate) fn slot_at(&self, node: PlanNode, place: u64, meter: &mut Meter) -> Slot<'p>
        requires node { IsNodeOfSort self.now.plan.now node sort.Row }
        requires place { place < length (slots_from self.now.plan.now node 0) }
        ensures slot { IsSlotOf self.now.plan.now node place result }
        ensures step { meter.new ≡ counted meter.old 1 }
    {
        let Some(slot) = self.plan.slot(node, place, meter) else {
            unreachable!()
        };
        slot
    }
}
