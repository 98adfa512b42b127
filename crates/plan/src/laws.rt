//! Laws: calls that run nothing, for what their contracts say.
ghost use Rattle.std.specs.Prelude.{◌≡◌};
ghost use Rattle.plan.specs.Internal.Laws.{StoredLaw, SchemaLaws};
ghost use Rattle.plan.specs.Internal.PartLaws.{PartLaws};
ghost use Rattle.plan.specs.Pools.Pools.{standard, large};
ghost use Rattle.plan.specs.Samples.Leasts.{KeepsIntegers};

use crate::pool_limits::PoolLimits;

/// Which limits the two constants are.
pub fn named_pool_limits()
    ensures standard { PoolLimits.STANDARD ≡ standard }
    ensures large { PoolLimits.LARGE ≡ large }
{}

/// Of numbers of one value that are listed for a place the least alone counts. Nothing is left out of what has integers alone, which is all
/// that `Profile::Core` reads.
pub fn integers_stay()
    ensures { KeepsIntegers }
{}

/// What the parts of a site are, one level at a time.
pub(crate) fn parts_one_level()
    ensures { PartLaws }
{
    stored::laws::stored_by_parts();
}

/// In the nodes of a schema the items of sets and map lists can be distinguished, and junctors name fields of their own object, at
/// most four.
pub(crate) fn schemas_are_sound()
    ensures { SchemaLaws }
{
    schema::laws::items_are_distinct();
    schema::laws::junctors_name_fields();
}

/// The laws from which those of a plan follow.
pub(crate) fn plans_are_sound()
    ensures stored { StoredLaw }
    ensures parts { PartLaws }
    ensures schemas { SchemaLaws }
{
    stored::laws::stored_by_parts();
    parts_one_level();
    schemas_are_sound();
}
