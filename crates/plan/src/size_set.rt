//! Sets of sizes, in numbers of nodes.

/// A set of sizes: whole numbers of nodes, 0 among them, each below `BITS`. A `u64` holds sizes up to 63, a `u128` up to
/// 127. No call allocates.
pub trait SizeSet: Copy {
    ghost use Rattle.std.specs.Prelude.{◌≡◌, ℕ, ◌≤◌, ◌<◌, ◌⊎◌, ◌↔◌, IsTrue, MatchOption};
    ghost use Rattle.plan.specs.Sets.{IsSum, IsLeastFrom, IsEmptyFrom};

    /// Which numbers are members of the set.
    ghost holds: { Self → ℕ → Type 0 };

    ghost BITS: { ℕ };

    /// How many numbers a set can hold: those from 0 to `BITS - 1`.
    const BITS: u32;

    /// The set without members.
    fn empty() -> Self
        ensures { (n : ℕ) → ¬ holds result n };

    /// The set with the one member `n`, which is below `BITS`.
    fn one(n: u32) -> Self
        requires { n < BITS }
        ensures { (m : ℕ) → holds result m ↔ (m ≡ n) };

    /// The members of one set or the other.
    fn union(self, other: Self) -> Self
        ensures { (n : ℕ) → holds result n ↔ (holds self n ⊎ holds other n) };

    /// All sums of a member of `self` and one of `other` that are at most `limit`, which is below `BITS`.
    fn sums(self, other: Self, limit: u32) -> Self
        requires { limit < BITS }
        ensures { (n : ℕ) → holds result n ↔ ((n ≤ limit) × IsSum (holds self) (holds other) n) };

    /// Whether `n`, any number, is a member.
    fn has(self, n: u32) -> bool
        ensures { IsTrue result ↔ holds self n };

    /// The least member at or above `n`, any number, and `None` where there is none.
    fn next(self, n: u32) -> Option<u32>
        ensures { MatchOption result (IsEmptyFrom (holds self) n) (IsLeastFrom (holds self) n) };

    /// Members are below `BITS`.
    ghost below: { (set : Self) (n : ℕ) → holds set n → n < BITS };
}
