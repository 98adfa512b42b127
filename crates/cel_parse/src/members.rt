//! How a member goes on.
ghost use Rattle.std.specs.Prelude.{◌≡◌, ◌<◌, length, IfOk};
ghost use Rattle.cel_read.specs.View.{text_of, token_lexemes};
ghost use Rattle.cel_ast.specs.View.{syntax_of};
ghost use Rattle.cel_parse.specs.Grammar as grammar;
ghost use Rattle.cel_parse.specs.Internal.Reading as spec;
ghost use Rattle.cel_parse.specs.Internal.Views.{next_of, IsNextShorter};

use crate::names::copied;
use cel_ast::{Binary, Expr, Part};
use cel_read::{Symbol, Token};
use std::alloc::{AllocError, Global};

/// How a member goes on, and what follows.
#[derive(Clone, Copy)]
pub(crate) enum Next<'a> {
    /// `.f`, or `.?f`
    Field(bool, &'a String, &'a [Token]),
    /// `.f(`
    Method(&'a String, &'a [Token]),
    /// `[`, or `[?`
    Index(bool, &'a [Token]),
    /// A dot without a name.
    Cut,
    /// Not at all.
    Ended,
}

/// Whether a member goes on.
pub(crate) fn goes_on(tokens: &[Token]) -> bool
    ensures { result ≡ spec.goes_on (token_lexemes tokens.now) }
{
    match tokens {
        [Token::Symbol(symbol), ..] => matches!(symbol, Symbol::Dot | Symbol::LeftBracket),
        _ => false,
    }
}

/// How a member goes on.
pub(crate) fn next_at(tokens: &[Token]) -> Next<'_>
    ensures words { next_of result ≡ spec.next_of (token_lexemes tokens.now) }
    ensures shorter { IsNextShorter result (length tokens.now) }
{
    match tokens {
        [Token::Symbol(Symbol::Dot), rest @ ..] => after_dot(rest),
        [
            Token::Symbol(Symbol::LeftBracket),
            Token::Symbol(Symbol::Question),
            rest @ ..,
        ] => Next::Index(true, rest),
        [Token::Symbol(Symbol::LeftBracket), rest @ ..] => Next::Index(false, rest),
        _ => Next::Ended,
    }
}

fn after_dot(tokens: &[Token]) -> Next<'_>
    ensures words { next_of result ≡ spec.after_dot (token_lexemes tokens.now) }
    ensures shorter { IsNextShorter result (length tokens.now) }
{
    match tokens {
        [
            Token::Name(name),
            Token::Symbol(Symbol::LeftParenthesis),
            rest @ ..,
        ] => Next::Method(name, rest),
        [Token::Name(name), rest @ ..] => Next::Field(false, name, rest),
        [
            Token::Symbol(Symbol::Question),
            Token::Name(name),
            rest @ ..,
        ] => Next::Field(true, name, rest),
        _ => Next::Cut,
    }
}

/// An expression as a part of another one.
pub(crate) fn part(alloc: Global, expr: Expr) -> Result<Part, AllocError>
    ensures { IfOk result (λ p. p ≡ syntax_of expr) }
{
    Ok(Part {
        expr: Box::new(alloc, expr)?,
    })
}

/// `left.name`, or `left.?name`
pub(crate) fn select(
    alloc: Global,
    optional: bool,
    left: Part,
    name: &String,
) -> Result<Part, AllocError>
    ensures { IfOk result (λ e. e ≡ grammar.selected optional left (text_of name.now)) }
{
    let name = copied(alloc, name)?;
    if optional {
        part(alloc, Expr::OptionalSelect(left, name))
    } else {
        part(alloc, Expr::Select(left, name))
    }
}

/// `left[index]`, or `left[?index]`
pub(crate) fn index(
    alloc: Global,
    optional: bool,
    left: Part,
    index: Part,
) -> Result<Part, AllocError>
    ensures { IfOk result (λ e. e ≡ grammar.indexed optional left index) }
{
    let operator = if optional {
        Binary::OptionalIndex
    } else {
        Binary::Index
    };
    part(alloc, Expr::Binary(operator, left, index))
}
