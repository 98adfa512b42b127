//! What an expression begins with.
ghost use Rattle.std.specs.Prelude.{◌≡◌, ◌<◌, length, IfOk};
ghost use Rattle.cel_read.specs.View.{token_lexemes};
ghost use Rattle.cel_parse.specs.Internal.Reading as spec;
ghost use Rattle.cel_parse.specs.Internal.Views.{start_of, IsStartShorter};

use crate::literals::literal_at;
use crate::names::{identifier, type_at};
use crate::words::is_reserved;
use cel_ast::{Literal, Text};
use cel_read::{Symbol, Token};
use std::alloc::{AllocError, Global};

/// What an expression begins with, and what follows it.
#[derive(Drop)]
pub(crate) enum Start<'a> {
    Literal(Literal, &'a [Token]),
    /// The name of a type, and `{`
    Message(Text, &'a [Token]),
    /// A name, and `(`
    Call(Text, &'a [Token]),
    Name(Text, &'a [Token]),
    /// `(`
    Parenthesis(&'a [Token]),
    /// `[`
    Bracket(&'a [Token]),
    /// `{`
    Brace(&'a [Token]),
    Wrong,
}

/// What the expression at the front begins with.
pub(crate) fn start_at(alloc: Global, tokens: &[Token]) -> Result<Start<'_>, AllocError>
    ensures words { IfOk result (λ s. start_of s ≡ spec.start_of (token_lexemes tokens.now)) }
    ensures shorter { IfOk result (λ s. IsStartShorter s (length tokens.now)) }
{
    match tokens {
        [Token::Symbol(Symbol::Dot), rest @ ..] => named(alloc, true, rest),
        [Token::Name(_), ..] => named(alloc, false, tokens),
        [Token::Symbol(Symbol::LeftParenthesis), rest @ ..] => Ok(Start::Parenthesis(rest)),
        [Token::Symbol(Symbol::LeftBracket), rest @ ..] => Ok(Start::Bracket(rest)),
        [Token::Symbol(Symbol::LeftBrace), rest @ ..] => Ok(Start::Brace(rest)),
        _ => match literal_at(alloc, tokens)? {
            Some((literal, rest)) => Ok(Start::Literal(literal, rest)),
            None => Ok(Start::Wrong),
        },
    }
}

/// What begins with a name, after the dot where there is one.
fn named(alloc: Global, dotted: bool, tokens: &[Token]) -> Result<Start<'_>, AllocError>
    ensures words { IfOk result (λ s. start_of s ≡ spec.named (spec.leading dotted) (token_lexemes tokens.now)) }
    ensures shorter { IfOk result (λ s. IsStartShorter s (length tokens.now)) }
{
    match type_at(alloc, dotted, tokens)? {
        Some((name, rest)) => Ok(Start::Message(name, rest)),
        None => ident_at(alloc, dotted, tokens),
    }
}

fn ident_at(alloc: Global, dotted: bool, tokens: &[Token]) -> Result<Start<'_>, AllocError>
    ensures words { IfOk result (λ s. start_of s ≡ spec.ident_at (spec.leading dotted) (token_lexemes tokens.now)) }
    ensures shorter { IfOk result (λ s. IsStartShorter s (length tokens.now)) }
{
    let [Token::Name(name), rest @ ..] = tokens else {
        return Ok(Start::Wrong);
    };
    if is_reserved(name.as_str()) {
        return Ok(Start::Wrong);
    }
    let name = identifier(alloc, dotted, name)?;
    match rest {
        [Token::Symbol(Symbol::LeftParenthesis), rest @ ..] => Ok(Start::Call(name, rest)),
        _ => Ok(Start::Name(name, rest)),
    }
}
