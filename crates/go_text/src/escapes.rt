//! What follows a backslash.
ghost use Rattle.std.specs.Prelude.{◌≡◌, ◌<◌, ◌≤◌, ◌+◌, ◌*◌, ◌∷◌, [], length, option_map, IfSome, IsTrue};
ghost use Rattle.go_text.specs.Escapes as spec;
ghost use Rattle.go_text.specs.Texts.{cut as cut_of};
ghost use Rattle.go_text.specs.Internal.View.{piece_text, found_of, parts_of};

use crate::piece::{Found, Piece, copied, fixed, literal};
use crate::texts::{are_hex_digits, cut};

/// `\d`, `\s` and `\w` and their negations, by the letter.
pub(crate) fn perl_class<'t>(c: char) -> Option<Piece<'t>>
    ensures { option_map piece_text result ≡ spec.perl_class c }
{
    let class = match c {
        'd' => fixed("[0-9]"),
        'D' => fixed("[^0-9]"),
        's' => fixed("[\\t\\n\\f\\r ]"),
        'S' => fixed("[^\\t\\n\\f\\r ]"),
        'w' => fixed("[0-9A-Za-z_]"),
        'W' => fixed("[^0-9A-Za-z_]"),
        _ => return None,
    };
    Some(class)
}

/// An escape of one character, from its letter on.
pub(crate) fn character_escape<'t>(c: char, rest: &'t [char]) -> Option<Found<'t>>
    ensures value { option_map found_of result ≡ spec.character_escape c rest.now }
    ensures shorter { IfSome result (λ f. length f.rest.now ≤ length rest.now) }
{
    match c {
        'x' => hex(rest),
        '0'..='7' => octal(c, rest),
        'a' | 'f' | 'n' | 'r' | 't' | 'v' => Some(Found {
            piece: Piece::Escaped(c),
            rest,
        }),
        _ if c.is_ascii() && !c.is_ascii_alphanumeric() => Some(Found {
            piece: literal(c),
            rest,
        }),
        _ => None,
    }
}

/// After `\x`.
fn hex<'t>(text: &'t [char]) -> Option<Found<'t>>
    ensures value { option_map found_of result ≡ spec.hex text.now }
    ensures shorter { IfSome result (λ f. length f.rest.now ≤ length text.now) }
{
    let (first, rest) = text.split_first()?;
    if *first == '{' {
        hex_digits(rest)
    } else {
        hex_pair(*first, rest)
    }
}

fn hex_digits<'t>(text: &'t [char]) -> Option<Found<'t>>
    ensures value { option_map found_of result ≡ spec.hex_digits (cut_of (125 ∷ []) text.now) }
    ensures shorter { IfSome result (λ f. length f.rest.now ≤ length text.now) }
{
    let (digits, rest) = cut(text, &['}'])?;
    if digits.is_empty() || !are_hex_digits(digits) {
        return None;
    }
    Some(Found {
        piece: copied("\\x{", digits, "}"),
        rest,
    })
}

fn hex_pair<'t>(high: char, text: &'t [char]) -> Option<Found<'t>>
    ensures value { option_map found_of result ≡ spec.hex_pair high text.now }
    ensures shorter { IfSome result (λ f. length f.rest.now ≤ length text.now) }
{
    let (low, rest) = text.split_first()?;
    let code = 16 * high.to_digit(16)? + low.to_digit(16)?;
    let c = char::from_u32(code)?;
    Some(Found {
        piece: literal(c),
        rest,
    })
}

/// After a backslash and an octal digit.
fn octal<'t>(first: char, text: &'t [char]) -> Option<Found<'t>>
    requires { IsTrue (spec.is_octal first) }
    ensures value { option_map found_of result ≡ spec.octal first text.now }
    ensures shorter { IfSome result (λ f. length f.rest.now ≤ length text.now) }
{
    if first != '0' && !is_octal_first(text) {
        return None;
    }
    let (code, rest) = with_octal_digit(first as u32 - 48, text);
    let (code, rest) = with_octal_digit(code, rest);
    let c = char::from_u32(code)?;
    Some(Found {
        piece: literal(c),
        rest,
    })
}

fn is_octal(c: char) -> bool
    ensures { result ≡ spec.is_octal c }
{
    matches!(c, '0'..='7')
}

fn is_octal_first(text: &[char]) -> bool
    ensures { result ≡ spec.is_octal_first text.now }
{
    match text {
        [c, ..] => is_octal(*c),
        [] => false,
    }
}

/// The number with one octal digit more, where there is one.
fn with_octal_digit<'t>(value: u32, text: &'t [char]) -> (u32, &'t [char])
    requires { value < 4096 }
    ensures value { (result.0, result.1.now) ≡ spec.with_octal_digit (value, text.now) }
    ensures bound { result.0 < 8 * (value + 1) }
    ensures shorter { length result.1.now ≤ length text.now }
{
    match text {
        [c, rest @ ..] if is_octal(*c) => (8 * value + (*c as u32 - 48), rest),
        _ => (value, text),
    }
}
