//! Sets of sizes up to 63 as the bits of a word: the bit of place `n` says whether `n` is a member.
ghost use Rattle.plan.specs.Sets.{HasBit};

use crate::SizeSet;

// The body of `sums`, for a word of any width: `$other` shifted by each member of `$set`, and cut after the limit. Where `$other` has all
// numbers from its least one up to the limit, what is shifted by the least member of `$set` has all sums.
macro_rules! word_sums {
    ($set:expr, $other:expr, $limit:expr) => {{
        let all = Self::MAX >> (Self::BITS - 1 - $limit);
        if let Some(least) = $other.next(0) {
            if $other >> least == all >> least {
                if let Some(n) = $set.next(0) {
                    return $other << n & all;
                }
            }
        }
        let mut sums = 0;
        let mut from = 0;
        'members: while let Some(n) = $set.next(from) {
            sums |= $other << n;
            from = n + 1;
        }
        sums & all
    }};
}

// The body of `next`: after the shift, the least member is the number of zeros that the word ends in.
macro_rules! word_next {
    ($set:expr, $n:expr) => {
        if $n >= Self::BITS {
            None
        } else {
            let rest = $set >> $n;
            if rest == 0 {
                None
            } else {
                Some($n + rest.trailing_zeros())
            }
        }
    };
}

pub(crate) use word_next;
pub(crate) use word_sums;

impl SizeSet for u64 {
    ghost holds = { HasBit 64 };

    ghost BITS = { 64 };

    const BITS: u32 = 64;

    ghost below = { λ set n member. member.0 };

    #[tactic(auto, using(crate::proofs::WordLemmas::no_bits))]
    fn empty() -> u64 {
        0
    }

    fn one(n: u32) -> u64 {
        1 << n
    }

    fn union(self, other: u64) -> u64 {
        self | other
    }

    fn sums(self, other: u64, limit: u32) -> u64 {
        word_sums!(self, other, limit)
    }

    fn has(self, n: u32) -> bool {
        n < Self::BITS && self >> n & 1 == 1
    }

    fn next(self, n: u32) -> Option<u32> {
        word_next!(self, n)
    }
}
