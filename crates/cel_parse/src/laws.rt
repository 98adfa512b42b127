//! Laws of the grammar.
ghost use Rattle.std.specs.Prelude.{◌≡◌, ℕ};
ghost use Rattle.cel_ast.specs.Syntax.{Syntax};
ghost use Rattle.cel_parse.specs.Forms.{Tokens};
ghost use Rattle.cel_parse.specs.Grammar.{IsExpr};

/// Tokens spell one expression at most.
pub fn expressions_are_unique()
    ensures { (d : ℕ) (ws : Tokens) (some other : Syntax) → IsExpr d ws some → IsExpr d ws other → some ≡ other }
{}
