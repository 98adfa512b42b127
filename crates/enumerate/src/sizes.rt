//! What a part and those after it have of a number of nodes.
ghost use Rattle.std.specs.Prelude.{◌≡◌, ◌+◌, ◌<◌, MatchOption};
ghost use Rattle.enumerate.specs.Internal.Nodes.{IsSplit};
ghost use Rattle.plan.specs.Sets.{IsLeastFrom, IsEmptyFrom};

use plan::SizeSet;

/// The least of `sizes` from `from` on that makes `room` nodes together with one of `rest`.
pub(crate) fn least_split<Z: SizeSet>(sizes: Z, rest: Z, room: u32, from: u32) -> Option<u32>
    requires { room < 4294967295 }
    ensures { MatchOption result (IsEmptyFrom (IsSplit (Z.holds sizes) (Z.holds rest) room) from) (IsLeastFrom (IsSplit (Z.holds sizes) (Z.holds rest) room) from) }
{
    for size in from..room + 1 {
        if sizes.has(size) && rest.has(room - size) {
            return Some(size);
        }
    }
    None
}

/// How many levels down a list or an object differs from the one before it, where one of its parts moved, which itself differs `depth`
/// levels down, and the parts after it, of `room` nodes, are replaced.
pub(crate) fn levels_down(room: u32, depth: usize) -> usize
    requires { depth < 4294967295 }
    ensures last { room ≡ 0 → result ≡ depth + 1 }
    ensures other { (room ≡ 0 → ⊥) → result ≡ 0 }
{
    if room == 0 { depth + 1 } else { 0 }
}
