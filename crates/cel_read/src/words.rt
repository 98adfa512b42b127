//! Identifiers and keywords.
ghost use Rattle.std.specs.Prelude.{◌≡◌, option_map};
ghost use Rattle.cel_read.specs.Lexemes.{is_letter as spec_is_letter};
ghost use Rattle.cel_read.specs.Internal.Reading as spec;
ghost use Rattle.cel_read.specs.Internal.Found.{found_of};

use crate::lexeme::{Found, Lexeme};
use crate::runs::{Class, run};

/// A letter, and the letters and digits after it.
pub(crate) fn read_word<'t>(text: &'t [char]) -> Option<Found<'t>>
    ensures { option_map found_of result ≡ spec.read_word text.now }
{
    let (first, _) = text.split_first()?;
    if !is_letter(*first) {
        return None;
    }
    let (word, rest) = run(Class::OfWord, text);
    Some(Found {
        lexeme: Lexeme::Word(word),
        rest,
    })
}

fn is_letter(c: char) -> bool
    ensures { result ≡ spec_is_letter c }
{
    c.is_ascii_alphabetic() || c == '_'
}
