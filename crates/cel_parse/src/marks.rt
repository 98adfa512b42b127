//! What follows one token, and where an item stands.
ghost use Rattle.std.specs.Prelude.{◌≡◌, ◌<◌, ◌≤◌, Option, option_map, length, IfSome};
ghost use Rattle.cel_read.specs.View.{token_lexemes};
ghost use Rattle.cel_parse.specs.Internal.Readers as spec;

use cel_read::{Symbol, Token};

/// The tokens after `)`.
pub(crate) fn after_parenthesis(tokens: &[Token]) -> Option<&[Token]>
    ensures words { option_map (λ ts. token_lexemes ts.now) result ≡ spec.after_parenthesis (token_lexemes tokens.now) }
    ensures shorter { IfSome result (λ ts. length ts.now < length tokens.now) }
{
    match tokens {
        [Token::Symbol(Symbol::RightParenthesis), rest @ ..] => Some(rest),
        _ => None,
    }
}

/// The tokens after `]`.
pub(crate) fn after_bracket(tokens: &[Token]) -> Option<&[Token]>
    ensures words { option_map (λ ts. token_lexemes ts.now) result ≡ spec.after_bracket (token_lexemes tokens.now) }
    ensures shorter { IfSome result (λ ts. length ts.now < length tokens.now) }
{
    match tokens {
        [Token::Symbol(Symbol::RightBracket), rest @ ..] => Some(rest),
        _ => None,
    }
}

/// The tokens after `}`.
pub(crate) fn after_brace(tokens: &[Token]) -> Option<&[Token]>
    ensures words { option_map (λ ts. token_lexemes ts.now) result ≡ spec.after_brace (token_lexemes tokens.now) }
    ensures shorter { IfSome result (λ ts. length ts.now < length tokens.now) }
{
    match tokens {
        [Token::Symbol(Symbol::RightBrace), rest @ ..] => Some(rest),
        _ => None,
    }
}

/// The tokens after `:`.
pub(crate) fn after_colon(tokens: &[Token]) -> Option<&[Token]>
    ensures words { option_map (λ ts. token_lexemes ts.now) result ≡ spec.after_colon (token_lexemes tokens.now) }
    ensures shorter { IfSome result (λ ts. length ts.now < length tokens.now) }
{
    match tokens {
        [Token::Symbol(Symbol::Colon), rest @ ..] => Some(rest),
        _ => None,
    }
}

/// The tokens after `?`.
pub(crate) fn after_question(tokens: &[Token]) -> Option<&[Token]>
    ensures words { option_map (λ ts. token_lexemes ts.now) result ≡ spec.after_question (token_lexemes tokens.now) }
    ensures shorter { IfSome result (λ ts. length ts.now < length tokens.now) }
{
    match tokens {
        [Token::Symbol(Symbol::Question), rest @ ..] => Some(rest),
        _ => None,
    }
}

/// The tokens after `,`, or all where there is none.
pub(crate) fn after_comma(tokens: &[Token]) -> &[Token]
    ensures words { token_lexemes result.now ≡ spec.after_comma (token_lexemes tokens.now) }
    ensures shorter { length result.now ≤ length tokens.now }
{
    match tokens {
        [Token::Symbol(Symbol::Comma), rest @ ..] => rest,
        _ => tokens,
    }
}

/// Whether there is a `?`, and the tokens after it.
pub(crate) fn optional_at(tokens: &[Token]) -> (bool, &[Token])
    ensures optional { result.0 ≡ (spec.optional (token_lexemes tokens.now)).0 }
    ensures words { token_lexemes result.1.now ≡ (spec.optional (token_lexemes tokens.now)).1 }
    ensures shorter { length result.1.now ≤ length tokens.now }
{
    match tokens {
        [Token::Symbol(Symbol::Question), rest @ ..] => (true, rest),
        _ => (false, tokens),
    }
}

fn is_closing(tokens: &[Token]) -> bool
    ensures { result ≡ spec.is_closing (token_lexemes tokens.now) }
{
    match tokens {
        [Token::Symbol(symbol), ..] => matches!(
            symbol,
            Symbol::RightParenthesis | Symbol::RightBracket | Symbol::RightBrace
        ),
        _ => false,
    }
}

/// Where the next item stands, if there is one: the first one at once, and each other one after a comma.
pub(crate) fn item_at(first: bool, tokens: &[Token]) -> Option<&[Token]>
    ensures words { option_map (λ ts. token_lexemes ts.now) result ≡ spec.item_where first (token_lexemes tokens.now) }
    ensures shorter { IfSome result (λ ts. length ts.now ≤ length tokens.now) }
{
    if first {
        first_item(tokens)
    } else {
        other_item(tokens)
    }
}

fn first_item(tokens: &[Token]) -> Option<&[Token]>
    ensures words { option_map (λ ts. token_lexemes ts.now) result ≡ spec.first_item (token_lexemes tokens.now) }
    ensures shorter { IfSome result (λ ts. length ts.now ≤ length tokens.now) }
{
    match tokens {
        [Token::Symbol(Symbol::Comma), ..] => None,
        _ => {
            if is_closing(tokens) {
                None
            } else {
                Some(tokens)
            }
        }
    }
}

fn other_item(tokens: &[Token]) -> Option<&[Token]>
    ensures words { option_map (λ ts. token_lexemes ts.now) result ≡ spec.other_item (token_lexemes tokens.now) }
    ensures shorter { IfSome result (λ ts. length ts.now ≤ length tokens.now) }
{
    match tokens {
        [Token::Symbol(Symbol::Comma), rest @ ..] => {
            if is_closing(rest) { None } else { Some(rest) }
        }
        _ => None,
    }
}
