//! The sizes of a row or a list, from those of its content.
ghost use Rattle.std.specs.Prelude.{◌≡◌, ℕ, ◌≤◌, ◌<◌, ◌↔◌, ◌⊎◌, true};
ghost use Rattle.plan.specs.Sets.{IsSum};

use crate::SizeSet;

/// One node, that of the row or the list, plus the sizes of its content; and 1 for null where it is accepted.
pub(crate) fn whole_sizes<Z: SizeSet>(inside: Z, nullable: bool, limit: u32) -> Z
    requires limit { limit < Z.BITS }
    requires room { 1 ≤ limit }
    ensures { (n : ℕ) → Z.holds result n ↔ (((nullable ≡ true) × (n ≡ 1)) ⊎ ((n ≤ limit) × IsSum (λ i. i ≡ 1) (Z.holds inside) n)) }
{
    let itself = Z::one(1);
    let sizes = itself.sums(inside, limit);
    if nullable { sizes.union(itself) } else { sizes }
}
