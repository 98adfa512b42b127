//! What is before a slot of a row.
ghost use Rattle.std.specs.Prelude.{◌≡◌, ◌+◌, ◌≤◌, ◌<◌, List, length, drop, IfOk, Option, ◌↔◌, IsTrue, IfSome};
ghost use Rattle.jtree.specs.Data.{Data};
ghost use Rattle.jtree.specs.View.{data_of, members_of};
ghost use Rattle.plan.specs.Samples.Candidates.{sort_of};
ghost use Rattle.plan.specs.Samples.Sizes.{nothing, filled, AreFillings, CanFill};
ghost use Rattle.enumerate.specs.Internal.Candidates.{used_rows, agreeing_if};
ghost use Rattle.enumerate.specs.Internal.Moves.{Begins};
ghost use Rattle.enumerate.specs.Internal.Nodes.{site, IsNodeOf};
ghost use Rattle.enumerate.specs.Internal.Prefixes.{members_to, agreeing_rows, IsPrefix};
ghost use Rattle.enumerate.specs.Internal.Rows.{IsPlaceAfter, slots_from, ending_at};
ghost use Rattle.plan.specs.declared.sort.Sort.TheVariants as sort;

use crate::siblings::{Chosen, Rows, keep_agreeing, still_used};
use crate::walk::Walk;
use jtree::{Member, Tree};
use plan::{Meter, Plan, PlanNode, SizeSet, Slot};
use std::alloc::{AllocError, Global};
use std::marker::Model;

/// What is before a place of a row: how many slots are filled, and which of the fields that the junctors name are among them.
#[derive(Clone, Copy)]
pub(crate) struct Before {
    count: u32,
    seen: u8,
}

impl Model for Before {
    ghost use Rattle.plan.specs.Samples.Sizes.{Before as BeforeData};

    ghost Value = { BeforeData };

    ghost view = { λ b. record { count = b.count; seen = b.seen } };

    ghost inverse = { λ x. record { count = x.count; seen = x.seen } };
}

impl Before {
    ghost use Rattle.std.specs.Prelude.{◌≡◌, ◌≤◌, ◌<◌, length, IfSome};
    ghost use Rattle.plan.specs.Samples.Candidates.{sort_of};
    ghost use Rattle.plan.specs.Samples.Sizes.{nothing, filled, CanFill, IsUpTo};
    ghost use Rattle.plan.specs.declared.sort.Sort.TheVariants as sort;
    ghost use Rattle.enumerate.specs.Internal.Nodes.{site, IsNodeOf};
    ghost use Rattle.enumerate.specs.Internal.Rows.{slots_from, ending_at};

    /// Nothing.
    pub(crate) fn nothing() -> Before
        ensures { result ≡ nothing }
    {
        Before { count: 0, seen: 0 }
    }

    /// So many slots are filled, and no named field is among them.
    pub(crate) fn unnamed(count: u32) -> Before
        ensures { result ≡ record { count = count; seen = 0 } }
    {
        Before { count, seen: 0 }
    }

    /// How many slots are filled.
    pub(crate) fn count(self) -> usize
        ensures { result ≡ self.count }
    {
        self.count as usize
    }

    /// One slot more is filled.
    pub(crate) fn fill(self, slot: &Slot<'_>) -> Before
        requires room { self.count < 4294967295 }
        requires few { IfSome slot.now.bit (λ j. j < 4) }
        ensures { result ≡ filled slot.now.bit self }
    {
        let seen = match slot.bit {
            Some(bit) => self.seen | 1 << bit,
            None => self.seen,
        };
        Before {
            count: self.count + 1,
            seen,
        }
    }

    /// The sizes that the slots of a row from `place` on can still take.
    pub(crate) fn rest<Z: SizeSet>(self, plan: &Plan<Z>, node: PlanNode, place: u64) -> Z
        requires node { IsNodeOf plan.now node }
        requires row { sort_of (site plan.now node) ≡ sort.Row }
        requires place { place ≤ length (slots_from plan.now node 0) }
        requires count { self.count ≤ place }
        ensures { IsUpTo plan.now.limit (Z.holds result) (CanFill plan.now.pools (slots_from plan.now node place) (ending_at plan.now node) self) }
    {
        plan.rest(node, place, self.count, self.seen)
    }
}

/// What is before a place of a row.
#[derive(Drop)]
pub(crate) struct Prefix<'a> {
    pub before: Before,
    /// The used rows that agree with it under the keys; none where no key is there, so that all do.
    agreeing: Option<Vec<&'a Tree>>,
}

impl<'a> Prefix<'a> {
    /// The used rows that agree with it under the keys.
    pub(crate) fn rows<'s>(&'s self, used: &Rows<'a>) -> Rows<'s>
        ensures { used_rows result ≡ agreeing_rows self.now.agreeing (used_rows used.now) }
    {
        match &self.agreeing {
            Some(rows) => Rows::Chosen(Chosen {
                rows: rows.as_slice(),
            }),
            None => *used,
        }
    }

    /// With one member more.
    fn add(
        self,
        alloc: Global,
        slot: &Slot<'_>,
        value: &Tree,
        used: &Rows<'a>,
    ) -> Result<Prefix<'a>, AllocError>
        requires room { self.before.count < 4294967295 }
        requires few { IfSome slot.now.bit (λ j. j < 4) }
        ensures before { IfOk result (λ prefix. prefix.before ≡ filled slot.now.bit self.entry.before) }
        ensures rows { IfOk result (λ prefix. agreeing_rows prefix.agreeing (used_rows used.now) ≡ agreeing_if slot.now.key slot.now.name.now (data_of value.now) (agreeing_rows self.entry.agreeing (used_rows used.now))) }
    {
        let before = self.before.fill(slot);
        if !slot.key {
            return Ok(Prefix {
                before,
                agreeing: self.agreeing,
            });
        }
        let rows = match self.agreeing {
            Some(mut rows) => {
                keep_agreeing(slot.name, value, &mut rows);
                rows
            }
            None => still_used(alloc, slot, value, used)?,
        };
        Ok(Prefix {
            before,
            agreeing: Some(rows),
        })
    }
}

impl<'p, Z: SizeSet> Walk<'p, Z> {
    /// What is before a place of a row, of which these are the members there.
    #[inline(always)]
    pub(crate) fn prefix_at<'a>(
        &self,
        node: PlanNode,
        place: u64,
        members: &[Member],
        used: &Rows<'a>,
        meter: &mut Meter,
    ) -> Result<Prefix<'a>, AllocError>
        requires { IsPlaceAfter self.now.plan.now node place members.now }
        ensures prefix { IfOk result (λ prefix. (gs : List (Option Data)) → AreFillings self.now.plan.now.pools (slots_from self.now.plan.now node 0) gs → members_of members.now ≡ members_to place (slots_from self.now.plan.now node 0) gs
            → IsPrefix (slots_from self.now.plan.now node 0) place gs (used_rows used.now) prefix) }
        ensures steps { meter.new ≤ meter.old + place }
    {
        self.laws_of(node);
        if !self.plan.names_fields(node) && (used.is_empty() || members.is_empty()) {
            return Ok(Prefix {
                before: Before::unnamed(members.len() as u32),
                agreeing: None,
            });
        }
        self.find_prefix(node, place, members, used, meter)
    }

    /// The same, found from the first slot on.
    fn find_prefix<'a>(
        &self,
        node: PlanNode,
        place: u64,
        members: &[Member],
        used: &Rows<'a>,
        meter: &mut Meter,
    ) -> Result<Prefix<'a>, AllocError>
        requires { IsPlaceAfter self.now.plan.now node place members.now }
        ensures prefix { IfOk result (λ prefix. (gs : List (Option Data)) → AreFillings self.now.plan.now.pools (slots_from self.now.plan.now node 0) gs → members_of members.now ≡ members_to place (slots_from self.now.plan.now node 0) gs
            → IsPrefix (slots_from self.now.plan.now node 0) place gs (used_rows used.now) prefix) }
        ensures steps { meter.new ≤ meter.old + place }
    {
        self.laws_of(node);
        let mut prefix = Prefix {
            before: Before::nothing(),
            agreeing: None,
        };
        for earlier in 0..place {
            let Some(slot) = self.plan.slot(node, earlier, meter) else {
                unreachable!()
            };
            let next = prefix.before.count();
            if begins(members, next, slot.name) {
                prefix = prefix.add(self.alloc, &slot, &members[next].tree, used)?;
            }
        }
        Ok(prefix)
    }
}

/// Whether the member at a place has the name.
fn begins(members: &[Member], place: usize, name: &str) -> bool
    ensures { IsTrue result ↔ Begins name.now (members_of (drop place members.now)) }
{
    match members.get(place) {
        Some(member) => member.name.as_str() == name,
        None => false,
    }
}
