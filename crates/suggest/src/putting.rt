//! Lists in ascending order.
ghost use Rattle.std.specs.Prelude.{◌≡◌};
ghost use Rattle.std.specs.declared.cmp.Ordering.TheVariants.{Equal};
ghost use Rattle.suggest.specs.Suggested.Ascending.{ascending};

/// Puts the elements in ascending order, each once.
pub(crate) fn put_in_order<T: Ord + Drop>(list: &mut Vec<T>)
    ensures { ((x y : T) → T.cmp x y ≡ Equal → x ≡ y) → list.new.items ≡ ascending T.cmp list.old.items }
{
    list.sort_unstable();
    list.dedup();
}
