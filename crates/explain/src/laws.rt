//! Laws: calls that run nothing, for what their contracts say.
ghost use Rattle.std.specs.Prelude.{◌≡◌};
ghost use Rattle.explain.specs.Paths.FieldPath.{FieldPath};
ghost use Rattle.explain.specs.Paths.PathText.{path_text};

/// A path is read back from its text, so no two paths have the same text.
pub fn paths_have_one_text()
    ensures { (p q : FieldPath) → path_text p ≡ path_text q → p ≡ q }
{}
