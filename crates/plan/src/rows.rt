//! The tables of a row: the sizes that its slots can still take, from each of them on.
ghost use Rattle.std.specs.Prelude.{◌≡◌, ◌+◌, ◌-◌, ◌^◌, ◌≤◌, ◌<◌, ◌↔◌, ◌⊎◌, [], ◌∷◌};
ghost use Rattle.std.specs.Prelude.{ℕ, true, false, List, length, min, All, IfOk, IfSome};
ghost use Rattle.schema.specs.Nodes.Junctors.{most_named};
ghost use Rattle.stored.specs.Objects.StoredByParts.{IsWithin};
ghost use Rattle.plan.specs.Pools.Pools.{Pools};
ghost use Rattle.plan.specs.Sets.{IsSum};
ghost use Rattle.plan.specs.Samples.Sites.{Slot};
ghost use Rattle.plan.specs.Samples.Sizes.{HasSize, Ending, IsUpTo};
ghost use Rattle.plan.specs.Samples.Presence.{with_bit, meets_seen};
ghost use Rattle.plan.specs.Internal.Tables.{IsClosed, AreMet, IsLevel, IsTable, HasShape, AreChoices, AreShaped, AreTables, MakesLevel, MakesTable};
ghost use Rattle.plan.specs.Internal.Tables;
ghost use Rattle.plan.specs.declared.rows.Choice.{Choice as ChoiceDeclared};

use crate::SizeSet;
use schema::Bounds;
use std::alloc::{AllocError, Global};
use stored::is_within;

/// The choices for a slot: the sizes of its parts, whether it has to be filled, and its place among the named fields.
#[derive(Clone, Copy)]
pub(crate) struct Choice<Z> {
    pub sizes: Z,
    pub must: bool,
    pub bit: Option<u8>,
}

/// The memory of tables that are no longer asked for, in which others are made.
#[derive(Drop)]
struct Room<Z> {
    alloc: Global,
    tables: Vec<Vec<Vec<Z>>>,
    levels: Vec<Vec<Z>>,
}

impl<Z: SizeSet> Room<Z> {
    ghost use Rattle.std.specs.Prelude.{◌≡◌, [], IfOk};

    /// An empty table, for so many levels.
    fn table(&mut self, count: usize) -> Result<Vec<Vec<Z>>, AllocError>
        ensures { IfOk result (λ table. table.items ≡ []) }
    {
        let mut table = self.tables.pop().unwrap_or(Vec::new(self.alloc));
        self.levels.append(&mut table)?;
        table.reserve_exact(count)?;
        Ok(table)
    }

    /// An empty level, for so many sets.
    fn level(&mut self, count: usize) -> Result<Vec<Z>, AllocError>
        ensures { IfOk result (λ level. level.items ≡ []) }
    {
        let mut level = self.levels.pop().unwrap_or(Vec::new(self.alloc));
        level.clear();
        level.reserve_exact(count)?;
        Ok(level)
    }
}

/// The set of 0 where the bounds admit this number of members, else the empty set.
pub(crate) fn end_sizes<Z: SizeSet>(count: u64, bounds: Bounds) -> Z
    requires { 0 < Z.BITS }
    ensures { (n : ℕ) → Z.holds result n ↔ ((n ≡ 0) × IsWithin bounds count) }
{
    if is_within(bounds, count) {
        Z::one(0)
    } else {
        Z::empty()
    }
}

/// The number of members from which on the bounds treat all numbers alike; it saturates. The node limit is no cap: `rest` is answered
/// for each number of members up to the place.
fn cap(bounds: Bounds) -> u64
    ensures { result ≡ min (Tables.cap bounds) (2 ^ 64 - 1) }
{
    let past = match bounds.most {
        Some(most) => most.saturating_add(1),
        None => 0,
    };
    bounds.least.unwrap_or(0).max(past)
}

/// How many columns a level has where there may be as many as `before` members before it: one for each number of members up to the
/// cap, whose column stands for all greater numbers.
fn columns(bounds: Bounds, before: usize) -> usize
    requires { before < 18446744073709551615 }
    ensures { result ≡ Tables.columns bounds before }
{
    before.min(cap(bounds) as usize) + 1
}

/// The sizes from a slot on: those with the slot left out, where it may be, and those with a part in it.
fn slot_sizes<Z: SizeSet>(choice: &Choice<Z>, without: Z, with: Z, limit: u32) -> Z
    requires { limit < Z.BITS }
    ensures { (n : ℕ) → Z.holds result n ↔ (((choice.now.must ≡ false) × Z.holds without n) ⊎ ((n ≤ limit) × IsSum (Z.holds choice.now.sizes) (Z.holds with) n)) }
{
    let filled = choice.sizes.sums(with, limit);
    if choice.must {
        filled
    } else {
        without.union(filled)
    }
}

/// The set of 0 where a row may end with this number of members, else the empty set; `holds` is whether its junctors hold.
fn row_end<Z: SizeSet>(count: u64, bounds: Bounds, holds: bool) -> Z
    requires { 0 < Z.BITS }
    ensures { (n : ℕ) → Z.holds result n ↔ ((n ≡ 0) × (IsWithin bounds count × (holds ≡ true))) }
{
    if holds {
        end_sizes(count, bounds)
    } else {
        Z::empty()
    }
}

/// The sizes after the last of `count` slots, in each column; `holds` is whether the junctors hold.
fn last_level<Z: SizeSet>(
    room: &mut Room<Z>,
    count: usize,
    bounds: Bounds,
    holds: bool,
    limit: u32,
) -> Result<Vec<Z>, AllocError>
    requires limit { limit < Z.BITS }
    requires count { count < 18446744073709551615 }
    ensures whole { IfOk result (λ level. length level.items ≡ Tables.columns bounds count) }
    ensures level { IfOk result (λ level. (P : Pools) (e : Ending) (seen : ℕ) → e.bounds ≡ bounds → holds ≡ meets_seen e.asked seen → IsLevel Z.holds limit e P [] seen level.items) }
{
    let mut level = room.level(columns(bounds, count))?;
    for taken in 0..columns(bounds, count) {
        level.push(row_end(taken as u64, bounds, holds))?;
    }
    Ok(level)
}

/// The sizes after the last slot, for each set of the named fields; `ends` has whether the junctors hold.
fn last_table<Z: SizeSet>(
    room: &mut Room<Z>,
    count: usize,
    bounds: Bounds,
    ends: &[bool],
    limit: u32,
) -> Result<Vec<Vec<Z>>, AllocError>
    requires limit { limit < Z.BITS }
    requires count { count < 18446744073709551615 }
    ensures shape { IfOk result (λ table. HasShape (length ends.now) (Tables.columns bounds count) table.items) }
    ensures table { IfOk result (λ table. (P : Pools) (e : Ending) → e.bounds ≡ bounds → AreMet e.asked ends.now → IsTable Z.holds limit e P [] table.items) }
{
    let mut table = room.table(ends.len())?;
    for seen in 0..ends.len() {
        let holds = ends[seen];
        let level = last_level(room, count, bounds, holds, limit)?;
        table.push(level)?;
    }
    Ok(table)
}

/// The sizes from a slot on, in each column, from those after it without and with a part in the slot; `before` are the slots before
/// it.
fn slot_level<Z: SizeSet>(
    room: &mut Room<Z>,
    choice: &Choice<Z>,
    bounds: Bounds,
    before: usize,
    without: &[Z],
    with: &[Z],
    limit: u32,
) -> Result<Vec<Z>, AllocError>
    requires limit { limit < Z.BITS }
    requires few { before < 18446744073709551615 }
    requires wide { length without.now ≡ Tables.columns bounds (before + 1) }
    requires alike { length with.now ≡ Tables.columns bounds (before + 1) }
    ensures whole { IfOk result (λ level. length level.items ≡ Tables.columns bounds before) }
    ensures level { IfOk result (λ level. MakesLevel Z.holds limit bounds choice.now without.now with.now level.items) }
{
    let mut level = room.level(columns(bounds, before))?;
    let last = with.len() - 1;
    for taken in 0..columns(bounds, before) {
        let more = (taken + 1).min(last);
        level.push(slot_sizes(choice, without[taken], with[more], limit))?;
    }
    Ok(level)
}

/// The named fields that are there, with one more.
fn seen_with(bit: Option<u8>, seen: usize) -> usize
    requires { IfSome bit (λ j. j < most_named) }
    ensures { result ≡ with_bit bit seen }
{
    match bit {
        Some(bit) => seen | 1 << bit,
        None => seen,
    }
}

/// The sizes from a slot on, for each set of the named fields, from those after it.
fn slot_table<Z: SizeSet>(
    room: &mut Room<Z>,
    choice: &Choice<Z>,
    bounds: Bounds,
    before: usize,
    after: &[Vec<Z>],
    limit: u32,
) -> Result<Vec<Vec<Z>>, AllocError>
    requires limit { limit < Z.BITS }
    requires few { before < 18446744073709551615 }
    requires closed { IsClosed (length after.now) choice.now.bit }
    requires shape { HasShape (length after.now) (Tables.columns bounds (before + 1)) after.now }
    ensures shape { IfOk result (λ table. HasShape (length after.now) (Tables.columns bounds before) table.items) }
    ensures table { IfOk result (λ table. MakesTable Z.holds limit bounds choice.now after.now table.items) }
{
    let mut table = room.table(after.len())?;
    for seen in 0..after.len() {
        let with = seen_with(choice.bit, seen);
        let level = slot_level(
            room,
            choice,
            bounds,
            before,
            &after[seen],
            &after[with],
            limit,
        )?;
        table.push(level)?;
    }
    Ok(table)
}

/// The sizes from each place on, the last place first: for each set of the named fields, in a column for each number of members
/// before it up to the cap of the bounds. `ends` has whether the junctors hold for each such set. They are made in the memory of `old`.
pub(crate) fn row_tables<Z: SizeSet>(
    alloc: Global,
    old: Vec<Vec<Vec<Z>>>,
    choices: &[Choice<Z>],
    bounds: Bounds,
    ends: &[bool],
    limit: u32,
) -> Result<Vec<Vec<Vec<Z>>>, AllocError>
    requires limit { limit < Z.BITS }
    requires count { length choices.now < 18446744073709551615 }
    requires closed { All (λ (c : ChoiceDeclared Z). IsClosed (length ends.now) c.bit) choices.now }
    ensures whole { IfOk result (λ tables. length tables.items ≡ length choices.now + 1) }
    ensures shaped { IfOk result (λ tables. AreShaped bounds (length choices.now) (length ends.now) tables.items) }
    ensures tables { IfOk result (λ tables. (P : Pools) (ss : List Slot) (e : Ending) → e.bounds ≡ bounds → AreMet e.asked ends.now → AreChoices Z.holds limit P choices.now ss → AreTables Z.holds limit e P ss tables.items) }
{
    let count = choices.len();
    let mut room = Room {
        alloc,
        tables: old,
        levels: Vec::new(alloc),
    };
    let mut tables = Vec::with_capacity(alloc, count + 1)?;
    tables.push(last_table(&mut room, count, bounds, ends, limit)?)?;
    for done in 0..count {
        let before = count - 1 - done;
        let table = slot_table(
            &mut room,
            &choices[before],
            bounds,
            before,
            &tables[done],
            limit,
        )?;
        tables.push(table)?;
    }
    Ok(tables)
}
