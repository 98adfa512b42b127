//! Signs before an expression.
ghost use Rattle.std.specs.Prelude.{◌≡◌, ◌≤◌, ◌<◌, length};
ghost use Rattle.cel_read.specs.View.{token_lexemes};
ghost use Rattle.cel_parse.specs.Internal.Reading as spec;
ghost use Rattle.cel_parse.specs.Internal.Views.{sign_of, IsSignShorter, counted};

use cel_ast::Unary;
use cel_read::{Symbol, Token};

/// The signs before an expression.
#[derive(Clone, Copy)]
pub(crate) enum Signs<'a> {
    /// So many of one kind, and what follows them.
    Some(Unary, usize, &'a [Token]),
    /// None.
    Neither,
}

/// The signs at the front. The minus of a number is none of them.
pub(crate) fn signs_at(tokens: &[Token]) -> Signs<'_>
    ensures words { sign_of result ≡ spec.sign_of (token_lexemes tokens.now) }
    ensures shorter { IsSignShorter result (length tokens.now) }
{
    match tokens {
        [Token::Symbol(Symbol::Not), ..] => {
            let (count, rest) = nots(tokens);
            Signs::Some(Unary::Not, count, rest)
        }
        [
            Token::Symbol(Symbol::Minus),
            Token::Integer(_) | Token::Double(_),
            ..
        ] => Signs::Neither,
        [Token::Symbol(Symbol::Minus), ..] => {
            let (count, rest) = minuses(tokens);
            Signs::Some(Unary::Negate, count, rest)
        }
        _ => Signs::Neither,
    }
}

/// How many `!` there are at the front, and what follows them.
fn nots(tokens: &[Token]) -> (usize, &[Token])
    ensures words { counted result ≡ spec.nots (token_lexemes tokens.now) }
    ensures shorter { length result.1.now ≤ length tokens.now }
{
    let mut rest = tokens;
    let mut count = 0;
    'signs: while let [Token::Symbol(Symbol::Not), after @ ..] = rest {
        rest = after;
        count += 1;
    }
    (count, rest)
}

/// How many `-` there are at the front, and what follows them.
fn minuses(tokens: &[Token]) -> (usize, &[Token])
    ensures words { counted result ≡ spec.minuses (token_lexemes tokens.now) }
    ensures shorter { length result.1.now ≤ length tokens.now }
{
    let mut rest = tokens;
    let mut count = 0;
    'signs: while let [Token::Symbol(Symbol::Minus), after @ ..] = rest {
        rest = after;
        count += 1;
    }
    (count, rest)
}
