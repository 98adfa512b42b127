//! Literals of strings and of bytes.
ghost use Rattle.std.specs.Prelude.{◌≡◌, ◌≤◌, ◌<◌, length, option_map, IfSome, IfOk};
ghost use Rattle.cel_read.specs.Lexemes as quotes;
ghost use Rattle.cel_read.specs.Internal.Reading as spec;
ghost use Rattle.cel_read.specs.Internal.Found.{found_of, body_of, quoting_of, part_of};

use crate::escapes::read_escape;
use crate::lexeme::{Found, Lexeme};
use std::alloc::{AllocError, Global};

/// How a string is quoted.
#[derive(Clone, Copy)]
pub(crate) struct Quoting {
    raw: bool,
    /// In three quotes, so that it may go on after the end of a line.
    threefold: bool,
    quote: char,
}

/// The code points that a string stands for, of whatever size, and what follows it.
#[derive(Drop)]
pub(crate) struct Body<'t> {
    values: Vec<u32>,
    rest: &'t [char],
}

/// A string, or with a `b` before it a literal of bytes.
pub(crate) fn read_literal<'t>(
    alloc: Global,
    text: &'t [char],
) -> Result<Option<Found<'t>>, AllocError>
    ensures { IfOk result (λ found. option_map found_of found ≡ spec.read_literal text.now) }
{
    match text {
        ['b' | 'B', rest @ ..] => Ok(bytes_found(read_string(alloc, rest)?)),
        _ => Ok(text_found(read_string(alloc, text)?)),
    }
}

fn bytes_found<'t>(body: Option<Body<'t>>) -> Option<Found<'t>>
    ensures { option_map found_of result ≡ option_map spec.bytes_found (option_map body_of body.entry) }
{
    let body = body?;
    Some(Found {
        lexeme: Lexeme::Bytes,
        rest: body.rest,
    })
}

fn text_found<'t>(body: Option<Body<'t>>) -> Option<Found<'t>>
    ensures { option_map found_of result ≡ option_map spec.text_found (option_map body_of body.entry) }
{
    let body = body?;
    Some(Found {
        lexeme: Lexeme::Text(body.values),
        rest: body.rest,
    })
}

/// A string, or with an `r` before it a raw one.
fn read_string<'t>(alloc: Global, text: &'t [char]) -> Result<Option<Body<'t>>, AllocError>
    ensures { IfOk result (λ body. option_map body_of body ≡ spec.read_string text.now) }
{
    match text {
        ['r' | 'R', rest @ ..] => read_quoted(alloc, true, rest),
        [] => Ok(None),
        _ => read_quoted(alloc, false, text),
    }
}

/// A string in three quotes, or else in one.
fn read_quoted<'t>(
    alloc: Global,
    raw: bool,
    text: &'t [char],
) -> Result<Option<Body<'t>>, AllocError>
    ensures { IfOk result (λ body. option_map body_of body ≡ spec.read_quoted raw text.now) }
{
    match read_threefold(alloc, raw, text)? {
        Some(body) => Ok(Some(body)),
        None => read_single(alloc, raw, text),
    }
}

fn read_threefold<'t>(
    alloc: Global,
    raw: bool,
    text: &'t [char],
) -> Result<Option<Body<'t>>, AllocError>
    ensures { IfOk result (λ body. option_map body_of body ≡ spec.read_threefold raw text.now) }
{
    match text {
        [a, b, c, rest @ ..] if is_quote(*a) && *b == *a && *c == *a => {
            let (threefold, quote) = (true, *a);
            let quoting = Quoting {
                raw,
                threefold,
                quote,
            };
            read_body(alloc, quoting, rest)
        }
        _ => Ok(None),
    }
}

fn read_single<'t>(
    alloc: Global,
    raw: bool,
    text: &'t [char],
) -> Result<Option<Body<'t>>, AllocError>
    ensures { IfOk result (λ body. option_map body_of body ≡ spec.read_single raw text.now) }
{
    match text {
        [a, rest @ ..] if is_quote(*a) => {
            let (threefold, quote) = (false, *a);
            let quoting = Quoting {
                raw,
                threefold,
                quote,
            };
            read_body(alloc, quoting, rest)
        }
        _ => Ok(None),
    }
}

fn is_quote(c: char) -> bool
    ensures { result ≡ quotes.is_quote c }
{
    c == '"' || c == '\''
}

/// What follows the opening mark, to the end of the closing one.
fn read_body<'t>(
    alloc: Global,
    quoting: Quoting,
    text: &'t [char],
) -> Result<Option<Body<'t>>, AllocError>
    ensures { IfOk result (λ body. option_map body_of body ≡ spec.whole_body (quoting_of quoting) text.now) }
{
    let mut values = Vec::new(alloc);
    let mut rest = text;
    'parts: loop {
        if let Some(rest) = after_mark(quoting, rest) {
            return Ok(Some(Body { values, rest }));
        }
        let Some((value, after)) = read_part(alloc, quoting, rest)? else {
            return Ok(None);
        };
        values.push(value)?;
        rest = after;
    }
}

/// What follows the closing mark, where it stands at the front.
fn after_mark<'t>(quoting: Quoting, text: &'t [char]) -> Option<&'t [char]>
    ensures { option_map (λ r. r.now) result ≡ quotes.after_mark (quoting_of quoting) text.now }
{
    let quote = quoting.quote;
    if quoting.threefold {
        match text {
            [a, b, c, rest @ ..] if *a == quote && *b == quote && *c == quote => Some(rest),
            _ => None,
        }
    } else {
        match text {
            [a, rest @ ..] if *a == quote => Some(rest),
            _ => None,
        }
    }
}

/// A character between the quotes, or an escape: its code point, and what follows.
fn read_part<'t>(
    alloc: Global,
    quoting: Quoting,
    text: &'t [char],
) -> Result<Option<(u32, &'t [char])>, AllocError>
    ensures value { IfOk result (λ part. option_map part_of part ≡ spec.read_part (quoting_of quoting) text.now) }
    ensures shorter { IfOk result (λ part. IfSome part (λ x. length x.1.now < length text.now)) }
{
    let Some((first, rest)) = text.split_first() else {
        return Ok(None);
    };
    if is_plain(quoting, *first) {
        return Ok(Some((*first as u32, rest)));
    }
    if *first == '\\' && !quoting.raw {
        return read_escape(alloc, rest);
    }
    Ok(None)
}

/// A character that stands for itself between the quotes.
fn is_plain(quoting: Quoting, c: char) -> bool
    ensures { result ≡ quotes.is_plain (quoting_of quoting) c }
{
    (quoting.raw || c != '\\') && (quoting.threefold || !matches!(c, '\n' | '\r'))
}
