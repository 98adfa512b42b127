//! The tokens of a text, one after another.
ghost use Rattle.std.specs.Prelude.{◌≡◌, Some, option_map, chars, IfOk, IfErr, OnOk};
ghost use Rattle.cel_read.specs.Lexemes as lexemes;
ghost use Rattle.cel_read.specs.Tokens.{AreTokens, IsFault, HasNoTokens};
ghost use Rattle.cel_read.specs.View.{token_lexeme, token_lexemes};
ghost use Rattle.cel_read.specs.Internal.Reading as spec;
ghost use Rattle.cel_read.specs.Internal.Found.{found_of, lexeme_of, integer_of};
ghost use Rattle.cel_read.specs.Internal.Kept.{IsKept, IsRefused, IsKeyword, IsTextOf, kept};

use crate::blanks::read_blank;
use crate::fault::LexFault;
use crate::lexeme::{Found, Lexeme, longer};
use crate::numbers::read_number;
use crate::spelling::{Numeral, number, push, spelled};
use crate::strings::read_literal;
use crate::symbols::read_symbol;
use crate::token::{Keyword, Token};
use crate::words::read_word;
use std::alloc::{AllocError, Global};

/// The tokens of the text of an expression, as the Common Expression Language's specification cuts it: white space and comments are left
/// out, and each token is as long as can be.
///
/// # Errors
///
/// [`LexFault::NoLexeme`] where no token begins; [`LexFault::IntegerTooLarge`] for an integer above 2^63; [`LexFault::NoCodePoint`] for a
/// string with an escape that is no code point, or a surrogate: each with its place. Such a text has no tokens. What is reported is the first
/// fault. [`LexFault::NoMemory`].
pub fn tokens(alloc: Global, text: &str) -> Result<Vec<Token>, LexFault>
    ensures ok { IfOk result (λ ts. AreTokens (chars text.now) (token_lexemes ts.items)) }
    ensures err { IfErr result (λ f. IsFault (chars text.now) f) }
    ensures none { IfErr result (λ f. HasNoTokens (chars text.now) f) }
{
    let characters: Vec<char> = text.chars().collect(alloc)?;
    let mut tokens = Vec::new(alloc);
    let mut rest = characters.as_slice();
    'lexemes: while !rest.is_empty() {
        let place = characters.len() - rest.len();
        let Some(found) = read_lexeme(alloc, rest)? else {
            return Err(LexFault::NoLexeme(place));
        };
        let token = match token(alloc, &found.lexeme, place) {
            Ok(token) => token,
            Err(fault) => return Err(fault),
        };
        keep(&mut tokens, token)?;
        rest = found.rest;
    }
    Ok(tokens)
}

/// The longest lexeme at the front of a text.
fn read_lexeme<'t>(alloc: Global, text: &'t [char]) -> Result<Option<Found<'t>>, AllocError>
    ensures { IfOk result (λ found. option_map found_of found ≡ spec.read_lexeme text.now) }
{
    let found = longer(read_blank(text), read_symbol(text));
    let found = longer(read_number(text), found);
    let found = longer(read_word(text), found);
    let literal = read_literal(alloc, text)?;
    Ok(longer(literal, found))
}

/// The token that a lexeme is; `None` for a blank one.
fn token(alloc: Global, lexeme: &Lexeme<'_>, place: usize) -> Result<Option<Token>, LexFault>
    ensures ok { IfOk result (λ t. IsKept (lexeme_of lexeme.now) t) }
    ensures err { IfErr result (λ f. IsRefused (lexeme_of lexeme.now) place f) }
{
    match lexeme {
        Lexeme::Blank => Ok(None),
        Lexeme::Word(text) => Ok(Some(word(alloc, text)?)),
        Lexeme::Integer(numeral) => Ok(Some(integer(alloc, *numeral, place)?)),
        Lexeme::Unsigned(text) => Ok(Some(Token::Unsigned(spelled(alloc, text)?))),
        Lexeme::Double(text) => Ok(Some(Token::Double(spelled(alloc, text)?))),
        Lexeme::Text(values) => match decoded(alloc, values)? {
            Some(text) => Ok(Some(Token::Text(text))),
            None => Err(LexFault::NoCodePoint(place)),
        },
        Lexeme::Bytes => Ok(Some(Token::Bytes)),
        Lexeme::Symbol(symbol) => Ok(Some(Token::Symbol(*symbol))),
    }
}

/// Puts a token at the end, where there is one.
fn keep(tokens: &mut Vec<Token>, token: Option<Token>) -> Result<(), AllocError>
    ensures { OnOk result (token_lexemes tokens.new.items ≡ kept (token_lexemes tokens.old.items) token) }
{
    if let Some(token) = token {
        tokens.push(token)?;
    }
    Ok(())
}

/// A keyword, or else an identifier.
fn word(alloc: Global, text: &[char]) -> Result<Token, AllocError>
    ensures { IfOk result (λ t. token_lexeme t ≡ lexemes.word text.now) }
{
    match keyword(text) {
        Some(keyword) => Ok(Token::Keyword(keyword)),
        None => Ok(Token::Name(spelled(alloc, text)?)),
    }
}

fn keyword(text: &[char]) -> Option<Keyword>
    ensures { IsKeyword result text.now }
{
    match text {
        ['i', 'n'] => Some(Keyword::In),
        ['t', 'r', 'u', 'e'] => Some(Keyword::True),
        ['f', 'a', 'l', 's', 'e'] => Some(Keyword::False),
        ['n', 'u', 'l', 'l'] => Some(Keyword::Null),
        _ => None,
    }
}

fn integer(alloc: Global, numeral: Numeral<'_>, place: usize) -> Result<Token, LexFault>
    ensures ok { IfOk result (λ t. IsKept (integer_of numeral.entry) (Some t)) }
    ensures err { IfErr result (λ f. IsRefused (integer_of numeral.entry) place f) }
{
    match number(alloc, numeral)? {
        Some(number) if number <= 1 << 63 => Ok(Token::Integer(number)),
        _ => Err(LexFault::IntegerTooLarge(place)),
    }
}

/// The text of these code points; `None` where one of them is none.
fn decoded(alloc: Global, values: &[u32]) -> Result<Option<String>, AllocError>
    ensures { IfOk result (λ text. IsTextOf values.now text) }
{
    let mut text = String::new(alloc);
    for value in values {
        let Some(c) = char::from_u32(*value) else {
            return Ok(None);
        };
        push(&mut text, c)?;
    }
    Ok(Some(text))
}
