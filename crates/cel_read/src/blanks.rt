//! White space and comments.
ghost use Rattle.std.specs.Prelude.{◌≡◌, option_map};
ghost use Rattle.cel_read.specs.Lexemes.{is_white as spec_is_white};
ghost use Rattle.cel_read.specs.Internal.Reading as spec;
ghost use Rattle.cel_read.specs.Internal.Found.{found_of};

use crate::lexeme::{Found, Lexeme};
use crate::runs::{Class, run};

/// One white character, or a comment to the end of its line.
pub(crate) fn read_blank<'t>(text: &'t [char]) -> Option<Found<'t>>
    ensures { option_map found_of result ≡ spec.read_blank text.now }
{
    let lexeme = Lexeme::Blank;
    match text {
        [c, rest @ ..] if is_white(*c) => Some(Found { lexeme, rest }),
        ['/', '/', rest @ ..] => {
            let (_, rest) = run(Class::OfComment, rest);
            Some(Found { lexeme, rest })
        }
        _ => None,
    }
}

fn is_white(c: char) -> bool
    ensures { result ≡ spec_is_white c }
{
    matches!(c, ' ' | '\t' | '\n' | '\r' | '\u{c}')
}
