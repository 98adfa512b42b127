//! Operators on two operands.
ghost use Rattle.std.specs.Prelude.{◌≡◌, ◌<◌, Some, None, option_map, length, drop, MatchOption, IfSome};
ghost use Rattle.cel_read.specs.View.{token_lexeme, token_lexemes};
ghost use Rattle.cel_parse.specs.Words.{rank as rank_is, symbol_rank as symbol_rank_is};
ghost use Rattle.cel_parse.specs.Internal.Reading as spec;

use cel_ast::Binary;
use cel_read::{Keyword, Symbol, Token};

/// How loosely an operator binds, and which it is.
fn rank_of(token: &Token) -> Option<(u8, Binary)>
    ensures { option_map (λ p. (p.0, p.1)) result ≡ rank_is (token_lexeme token.now) }
{
    match token {
        Token::Symbol(symbol) => symbol_rank(*symbol),
        Token::Keyword(Keyword::In) => Some((2, Binary::In)),
        _ => None,
    }
}

fn symbol_rank(symbol: Symbol) -> Option<(u8, Binary)>
    ensures { option_map (λ p. (p.0, p.1)) result ≡ symbol_rank_is symbol }
{
    match symbol {
        Symbol::Star => Some((0, Binary::Multiply)),
        Symbol::Slash => Some((0, Binary::Divide)),
        Symbol::Percent => Some((0, Binary::Modulo)),
        Symbol::Plus => Some((1, Binary::Add)),
        Symbol::Minus => Some((1, Binary::Subtract)),
        Symbol::Equal => Some((2, Binary::Equal)),
        Symbol::NotEqual => Some((2, Binary::NotEqual)),
        Symbol::Less => Some((2, Binary::Less)),
        Symbol::LessOrEqual => Some((2, Binary::LessOrEqual)),
        Symbol::Greater => Some((2, Binary::Greater)),
        Symbol::GreaterOrEqual => Some((2, Binary::GreaterOrEqual)),
        Symbol::And => Some((3, Binary::And)),
        Symbol::Or => Some((4, Binary::Or)),
        _ => None,
    }
}

/// The operator of a rank at the front, and the tokens after it.
pub(crate) fn operator_at(rank: u8, tokens: &[Token]) -> Option<(Binary, &[Token])>
    ensures operator { option_map (λ r. r.0) result ≡ spec.operator_at rank (token_lexemes tokens.now) }
    ensures words { IfSome result (λ r. token_lexemes r.1.now ≡ drop 1 (token_lexemes tokens.now)) }
    ensures shorter { IfSome result (λ r. length r.1.now < length tokens.now) }
{
    match tokens {
        [token, rest @ ..] => match rank_of(token) {
            Some((found, operator)) => {
                if found == rank {
                    Some((operator, rest))
                } else {
                    None
                }
            }
            None => None,
        },
        [] => None,
    }
}
