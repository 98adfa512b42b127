//! Sets of sizes up to 127, as the bits of a word of 128 bits.
ghost use Rattle.plan.specs.Sets.{HasBit};

use crate::SizeSet;
use crate::word::{word_next, word_sums};

impl SizeSet for u128 {
    ghost holds = { HasBit 128 };

    ghost BITS = { 128 };

    const BITS: u32 = 128;

    ghost below = { λ set n member. member.0 };

    #[tactic(auto, using(crate::proofs::WordLemmas::no_bits))]
    fn empty() -> u128 {
        0
    }

    fn one(n: u32) -> u128 {
        1 << n
    }

    fn union(self, other: u128) -> u128 {
        self | other
    }

    fn sums(self, other: u128, limit: u32) -> u128 {
        word_sums!(self, other, limit)
    }

    fn has(self, n: u32) -> bool {
        n < Self::BITS && self >> n & 1 == 1
    }

    fn next(self, n: u32) -> Option<u32> {
        word_next!(self, n)
    }
}
