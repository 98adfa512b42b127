//! What holds of evaluation, in the words of the language definition (Common Expression Language specification, langdef.md).
ghost use Rattle.std.specs.Prelude.{◌≡◌, true, false, nat_eq};
ghost use Rattle.cel_ast.specs.Syntax.{Syntax, Text, name, unary, binary, macro};
ghost use Rattle.cel_ast.specs.declared.operators.Unary.TheVariants.{Not};
ghost use Rattle.cel_ast.specs.declared.operators.Binary.TheVariants.{Or, And, Equal, In};
ghost use Rattle.cel_ast.specs.declared.operators.Macro.TheVariants.{All, Exists};
ghost use Rattle.cel_value.specs.Data.{Value, Values, list as list_value};
ghost use Rattle.cel_eval.specs.Outcome.{value, answer, Bindings};
ghost use Rattle.cel_eval.specs.Eval.{eval};
ghost use Rattle.cel_eval.specs.Laws.{all_by_hand, exists_by_hand};
ghost use lib.Pointwise.{pointwise};

/// An error on one side of `&&` or `||` is absorbed where the other side decides: `false && e` and `e && false` are false, `true || e` and
/// `e || true` are true, whatever `e` is.
pub fn errors_are_absorbed()
    ensures and_left { (a b : Syntax) (bs : Bindings) → eval a bs ≡ answer false → eval (binary And a b) bs ≡ answer false }
    ensures and_right { (a b : Syntax) (bs : Bindings) → eval b bs ≡ answer false → eval (binary And a b) bs ≡ answer false }
    ensures or_left { (a b : Syntax) (bs : Bindings) → eval a bs ≡ answer true → eval (binary Or a b) bs ≡ answer true }
    ensures or_right { (a b : Syntax) (bs : Bindings) → eval b bs ≡ answer true → eval (binary Or a b) bs ≡ answer true }
{}

/// `!(a && b)` is `!a || !b`, errors included.
pub fn de_morgan()
    ensures { (a b : Syntax) (bs : Bindings) → eval (unary Not (binary And a b)) bs ≡ eval (binary Or (unary Not a) (unary Not b)) bs }
{}

/// `e.exists(x, p)` is `!e.all(x, !p)`, errors included.
pub fn exists_is_dual()
    ensures { (e p : Syntax) (x : Text) (bs : Bindings) → eval (macro Exists e x p) bs ≡ eval (unary Not (macro All e x (unary Not p))) bs }
{}

/// Over a list, `e.all(x, p)` is `p && (p && .. true)` with `x` bound to each item in turn, and `exists` likewise with `||` and false.
pub fn macros_expand()
    ensures all { (e p : Syntax) (x : Text) (vs : Values) (bs : Bindings) → eval e bs ≡ value (list_value vs) → eval (macro All e x p) bs ≡ all_by_hand vs x p bs }
    ensures exists { (e p : Syntax) (x : Text) (vs : Values) (bs : Bindings) → eval e bs ≡ value (list_value vs) → eval (macro Exists e x p) bs ≡ exists_by_hand vs x p bs }
{}

/// `x in e` is `e.exists(y, x == y)`, where `e` is a list and `x` another name than `y` that has a value.
pub fn membership_is_exists()
    ensures { (x y : Text) (e : Syntax) (v : Value) (vs : Values) (bs : Bindings) → pointwise nat_eq x y ≡ false → eval (name x) bs ≡ value v → eval e bs ≡ value (list_value vs)
        → eval (binary In (name x) e) bs ≡ eval (macro Exists e y (binary Equal (name x) (name y))) bs }
{}
