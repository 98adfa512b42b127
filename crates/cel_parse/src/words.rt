//! Words with a meaning of their own.
ghost use Rattle.std.specs.Prelude.{◌≡◌, nat_eq, chars};
ghost use lib.Pointwise.{pointwise};
ghost use Rattle.std.specs.Str.{IsAscii};
ghost use Rattle.cel_read.specs.View.{text_of};
ghost use Rattle.cel_parse.specs.Words.{is_reserved as spec_is_reserved};
ghost use Rattle.cel_parse.specs.Calls.{macro_of as spec_macro_of};

use cel_ast::Macro;

/// Whether a name is this word.
pub(crate) fn is_word(name: &str, word: &str) -> bool
    requires { IsAscii word.now }
    ensures { result ≡ pointwise nat_eq (chars name.now) word.now }
{
    name == word
}

/// A word that is no identifier.
pub(crate) fn is_reserved(name: &str) -> bool
    ensures { result ≡ spec_is_reserved (chars name.now) }
{
    is_word(name, "as")
        || is_word(name, "break")
        || is_word(name, "const")
        || is_word(name, "continue")
        || is_word(name, "else")
        || is_word(name, "for")
        || is_word(name, "function")
        || is_word(name, "if")
        || is_word(name, "import")
        || is_word(name, "let")
        || is_word(name, "loop")
        || is_word(name, "package")
        || is_word(name, "namespace")
        || is_word(name, "return")
        || is_word(name, "var")
        || is_word(name, "void")
        || is_word(name, "while")
}

/// The macro of this name that binds a name for one expression.
pub(crate) fn macro_of(name: &str) -> Option<Macro>
    ensures { result ≡ spec_macro_of (chars name.now) }
{
    if is_word(name, "all") {
        Some(Macro::All)
    } else if is_word(name, "exists") {
        Some(Macro::Exists)
    } else if is_word(name, "exists_one") {
        Some(Macro::ExistsOne)
    } else if is_word(name, "filter") {
        Some(Macro::Filter)
    } else if is_word(name, "map") {
        Some(Macro::Map)
    } else {
        None
    }
}
