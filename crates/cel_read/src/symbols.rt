//! Operators, brackets and the like.
ghost use Rattle.std.specs.Prelude.{◌≡◌, option_map, Some};
ghost use Rattle.cel_read.specs.Lexemes as signs;
ghost use Rattle.cel_read.specs.Internal.Reading as spec;
ghost use Rattle.cel_read.specs.Internal.Found.{found_of};

use crate::lexeme::{Found, Lexeme};
use crate::token::Symbol;

/// A symbol of two characters, or else of one.
pub(crate) fn read_symbol<'t>(text: &'t [char]) -> Option<Found<'t>>
    ensures { option_map found_of result ≡ spec.read_symbol text.now }
{
    match text {
        [] => None,
        [c] => found(one_sign(*c)?, &[]),
        [c, d, rest @ ..] => match two_signs(*c, *d) {
            Some(symbol) => found(symbol, rest),
            None => found(one_sign(*c)?, &text[1..]),
        },
    }
}

fn found<'t>(symbol: Symbol, rest: &'t [char]) -> Option<Found<'t>>
    ensures { option_map found_of result ≡ spec.one_symbol (Some symbol) rest.now }
{
    Some(Found {
        lexeme: Lexeme::Symbol(symbol),
        rest,
    })
}

fn one_sign(c: char) -> Option<Symbol>
    ensures { result ≡ signs.one_sign c }
{
    match c {
        '(' => Some(Symbol::LeftParenthesis),
        ')' => Some(Symbol::RightParenthesis),
        '[' => Some(Symbol::LeftBracket),
        ']' => Some(Symbol::RightBracket),
        '{' => Some(Symbol::LeftBrace),
        '}' => Some(Symbol::RightBrace),
        '.' => Some(Symbol::Dot),
        ',' => Some(Symbol::Comma),
        '?' => Some(Symbol::Question),
        ':' => Some(Symbol::Colon),
        '+' => Some(Symbol::Plus),
        '-' => Some(Symbol::Minus),
        '*' => Some(Symbol::Star),
        '/' => Some(Symbol::Slash),
        '%' => Some(Symbol::Percent),
        '!' => Some(Symbol::Not),
        '<' => Some(Symbol::Less),
        '>' => Some(Symbol::Greater),
        _ => None,
    }
}

fn two_signs(c: char, d: char) -> Option<Symbol>
    ensures { result ≡ signs.two_signs c d }
{
    match (c, d) {
        ('=', '=') => Some(Symbol::Equal),
        ('!', '=') => Some(Symbol::NotEqual),
        ('<', '=') => Some(Symbol::LessOrEqual),
        ('>', '=') => Some(Symbol::GreaterOrEqual),
        ('&', '&') => Some(Symbol::And),
        ('|', '|') => Some(Symbol::Or),
        _ => None,
    }
}
