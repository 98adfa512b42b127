//! Laws: calls that run nothing, for what their contracts say.
ghost use Rattle.std.specs.Prelude.{◌≡◌, ℕ, List, Bool, true, false, Option, Some};
ghost use Rattle.jtree.specs.Data.{Data, Members, object};
ghost use Rattle.jtree.specs.Path.{member_at};
ghost use Rattle.cluster.specs.Keywords.{is_schema};
ghost use Rattle.cluster.specs.Pruned.{is_kept, pruned, pruned_object};
ghost use Rattle.cluster.specs.Filled.{filled, filled_by};

/// Pruning what is pruned changes nothing.
pub fn pruning_again_changes_nothing()
    ensures { (s v : Data) → pruned_object s (pruned_object s v) ≡ pruned_object s v }
{}

/// Where undeclared members are not kept, each member of an object that is pruned is declared, or is one of the envelope of a resource.
pub fn only_declared_members_are_left()
    ensures { (is_resource : Bool) (s : Option Data) (ms ns : Members) → pruned is_resource false s (object ms) ≡ object ns → (k : List ℕ) (d : Data) → member_at k ns ≡ Some d → is_kept is_resource s k ≡ true }
{}

/// Filling goes down to the end of a schema: a schema fills a value by what the schemas below fill, and what is no schema leaves it.
pub fn filled_goes_to_the_end()
    ensures schema { (s v : Data) → is_schema (Some s) ≡ true → filled s v ≡ filled_by filled s v }
    ensures other { (s v : Data) → is_schema (Some s) ≡ false → filled s v ≡ v }
{}
