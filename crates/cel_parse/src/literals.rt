//! Literals.
ghost use Rattle.std.specs.Prelude.{◌≡◌, ◌<◌, ◌≤◌, ◌^◌, ◌-ℤ◌, ◌++◌, ◌∷◌, [], ℕ, pos, length, option_map, IfOk, IfSome};
ghost use Rattle.cel_read.specs.View.{text_of, token_lexeme, token_lexemes};
ghost use Rattle.cel_ast.specs.View.{constant_of};
ghost use Rattle.cel_parse.specs.Internal.Reading as spec;
ghost use Rattle.cel_parse.specs.Internal.Views.{literal_parts};

use crate::names::copied;
use crate::texts::{empty, push, push_all};
use cel_ast::{Literal, Text};
use cel_read::{Keyword, Symbol, Token};
use std::alloc::{AllocError, Global};

/// The literal at the front, and what follows it.
pub(crate) fn literal_at<'a>(
    alloc: Global,
    tokens: &'a [Token],
) -> Result<Option<(Literal, &'a [Token])>, AllocError>
    ensures words { IfOk result (λ found. option_map literal_parts found ≡ spec.literal_at (token_lexemes tokens.now)) }
    ensures shorter { IfOk result (λ found. IfSome found (λ r. length r.1.now < length tokens.now)) }
{
    match tokens {
        [Token::Integer(n), rest @ ..] => Ok(positive(*n, rest)),
        [Token::Symbol(Symbol::Minus), Token::Integer(n), rest @ ..] => Ok(negative(*n, rest)),
        [Token::Symbol(Symbol::Minus), Token::Double(text), rest @ ..] => {
            Ok(Some((Literal::Double(negated(alloc, text)?), rest)))
        }
        [Token::Keyword(keyword), rest @ ..] => Ok(word(*keyword, rest)),
        [token, rest @ ..] => match plain(alloc, token)? {
            Some(literal) => Ok(Some((literal, rest))),
            None => Ok(None),
        },
        [] => Ok(None),
    }
}

fn positive(n: u64, rest: &[Token]) -> Option<(Literal, &[Token])>
    ensures words { option_map literal_parts result ≡ spec.small n (token_lexemes rest.now) }
    ensures shorter { IfSome result (λ r. r.1.now ≡ rest.now) }
{
    if n < 1 << 63 {
        Some((Literal::Int(n as i64), rest))
    } else {
        None
    }
}

fn negative(n: u64, rest: &[Token]) -> Option<(Literal, &[Token])>
    ensures words { option_map literal_parts result ≡ spec.negative n (token_lexemes rest.now) }
    ensures shorter { IfSome result (λ r. r.1.now ≡ rest.now) }
{
    if n <= 1 << 63 {
        Some((Literal::Int(opposite(n)), rest))
    } else {
        None
    }
}

fn opposite(n: u64) -> i64
    requires { n ≤ 2 ^ 63 }
    ensures { result ≡ pos 0 -ℤ pos n }
{
    if n == 1 << 63 { i64::MIN } else { -(n as i64) }
}

/// The text of a number, with a minus before it.
fn negated(alloc: Global, text: &String) -> Result<Text, AllocError>
    ensures { IfOk result (λ t. t ≡ 0x2D ∷ text_of text.now) }
{
    let mut out = empty(alloc);
    push(&mut out, '-')?;
    push_all(&mut out, text)?;
    Ok(Text { text: out })
}

fn word(keyword: Keyword, rest: &[Token]) -> Option<(Literal, &[Token])>
    ensures words { option_map literal_parts result ≡ spec.word_at keyword (token_lexemes rest.now) }
    ensures shorter { IfSome result (λ r. r.1.now ≡ rest.now) }
{
    match keyword {
        Keyword::True => Some((Literal::Bool(true), rest)),
        Keyword::False => Some((Literal::Bool(false), rest)),
        Keyword::Null => Some((Literal::Null, rest)),
        Keyword::In => None,
    }
}

/// A literal of one token that is no integer and no word.
fn plain(alloc: Global, token: &Token) -> Result<Option<Literal>, AllocError>
    ensures { IfOk result (λ found. option_map constant_of found ≡ spec.plain_literal (token_lexeme token.now)) }
{
    match token {
        Token::Unsigned(text) => Ok(Some(Literal::Uint(copied(alloc, text)?))),
        Token::Double(text) => Ok(Some(Literal::Double(copied(alloc, text)?))),
        Token::Text(text) => Ok(Some(Literal::String(copied(alloc, text)?))),
        Token::Bytes => Ok(Some(Literal::Bytes)),
        _ => Ok(None),
    }
}
