//! The tables of a list: the sizes that its items can still take, after each number of items.
ghost use Rattle.std.specs.Prelude.{◌≡◌, ℕ, ◌+◌, ◌*◌, ◌≤◌, ◌<◌, ◌↔◌, ◌⊎◌, length, IfOk};
ghost use Rattle.stored.specs.Objects.StoredByParts.{IsWithin};
ghost use Rattle.plan.specs.Pools.Pools.{Pools};
ghost use Rattle.plan.specs.Sets.{IsSum};
ghost use Rattle.plan.specs.Samples.Sites.{Site};
ghost use Rattle.plan.specs.Samples.Sizes.{HasSize, IsUpTo};
ghost use Rattle.plan.specs.Internal.Lists.{IsLeastSize, AreFollowing, AreMore};

use crate::SizeSet;
use crate::rows::end_sizes;
use schema::Bounds;
use std::alloc::{AllocError, Global};

/// The least of the sizes, or one above the limit.
fn least_size<Z: SizeSet>(sizes: Z, limit: u32) -> u64
    ensures least { (P : Pools) (M : Site) → IsUpTo limit (Z.holds sizes) (HasSize P M) → IsLeastSize P limit M result }
    ensures small { result ≤ 4294967296 }
{
    match sizes.next(0) {
        Some(least) => least as u64,
        None => limit as u64 + 1,
    }
}

/// What can follow `taken` items, up to `room` nodes, from what can follow one item more.
fn following_set<Z: SizeSet>(sizes: Z, after: Z, taken: u32, bounds: Bounds, room: u32) -> Z
    requires { room < Z.BITS }
    ensures { (n : ℕ) → Z.holds result n ↔ (((n ≡ 0) × IsWithin bounds taken) ⊎ ((n ≤ room) × IsSum (Z.holds sizes) (Z.holds after) n)) }
{
    end_sizes::<Z>(taken as u64, bounds).union(sizes.sums(after, room))
}

/// What can follow each number of items, the greatest number first.
fn following_sets<Z: SizeSet>(
    alloc: Global,
    sizes: Z,
    bounds: Bounds,
    limit: u32,
) -> Result<Vec<Z>, AllocError>
    requires { limit < Z.BITS }
    ensures whole { IfOk result (λ sets. length sets.items ≡ limit + 1) }
    ensures sets { IfOk result (λ sets. (P : Pools) (M : Site) → IsUpTo limit (Z.holds sizes) (HasSize P M) → AreFollowing Z.holds limit P M bounds sets.items) }
{
    let mut sets = Vec::new(alloc);
    sets.push(end_sizes(limit as u64, bounds))?;
    for done in 0..limit {
        let set = following_set(
            sizes,
            sets[done as usize],
            limit - 1 - done,
            bounds,
            done + 1,
        );
        sets.push(set)?;
    }
    Ok(sets)
}

/// The members that leave room for the whole list, where each of `taken` items before takes `least` nodes.
fn with_room<Z: SizeSet>(set: Z, taken: u32, least: u64, limit: u32) -> Z
    requires limit { limit < Z.BITS }
    requires least { least ≤ 4294967296 }
    ensures { (n : ℕ) → Z.holds result n ↔ (Z.holds set n × (taken * least + 1 + n ≤ limit)) }
{
    let first = taken as u64 * least;
    if first < limit as u64 {
        Z::one(0).sums(set, limit - 1 - first as u32)
    } else {
        Z::empty()
    }
}

/// What the items of a list can still take after each number of items below the limit.
pub(crate) fn more_sets<Z: SizeSet>(
    alloc: Global,
    sizes: Z,
    bounds: Bounds,
    limit: u32,
) -> Result<Vec<Z>, AllocError>
    requires { limit < Z.BITS }
    ensures whole { IfOk result (λ sets. length sets.items ≡ limit) }
    ensures sets { IfOk result (λ sets. (P : Pools) (M : Site) → IsUpTo limit (Z.holds sizes) (HasSize P M) → AreMore Z.holds limit P M bounds sets.items) }
{
    let following = following_sets(alloc, sizes, bounds, limit)?;
    let least = least_size(sizes, limit);
    let mut sets = Vec::new(alloc);
    for taken in 0..limit {
        sets.push(with_room(following[(limit - taken) as usize], taken, least, limit))?;
    }
    Ok(sets)
}
