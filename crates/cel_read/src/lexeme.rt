//! A lexeme at the front of a text.
ghost use Rattle.std.specs.Prelude.{◌≡◌, ◌<◌, ◌≤◌, length, option_map, Some};
ghost use Rattle.cel_read.specs.Internal.Reading as spec;
ghost use Rattle.cel_read.specs.Internal.Found.{found_of};

use crate::spelling::Numeral;
use crate::token;

/// What a lexeme is.
#[derive(Drop)]
pub(crate) enum Lexeme<'t> {
    Blank,
    /// An identifier or a keyword.
    Word(&'t [char]),
    Integer(Numeral<'t>),
    Unsigned(&'t [char]),
    Double(&'t [char]),
    /// The code points that a string stands for, of whatever size.
    Text(Vec<u32>),
    Bytes,
    Symbol(token::Symbol),
}

/// A lexeme at the front of a text, and what follows it.
#[derive(Drop)]
pub(crate) struct Found<'t> {
    pub(crate) lexeme: Lexeme<'t>,
    pub(crate) rest: &'t [char],
}

/// The longer one of two lexemes at the front of a text.
pub(crate) fn longer<'t>(first: Option<Found<'t>>, second: Option<Found<'t>>) -> Option<Found<'t>>
    ensures { option_map found_of result ≡ spec.longer (option_map found_of first.entry) (option_map found_of second.entry) }
{
    let Some(found) = first else {
        return second;
    };
    let Some(other) = second else {
        return Some(found);
    };
    if other.rest.len() < found.rest.len() {
        Some(other)
    } else {
        Some(found)
    }
}
