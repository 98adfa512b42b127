//! Escapes in strings.
ghost use Rattle.std.specs.Prelude.{◌≡◌, ◌≤◌, ◌<◌, length, option_map, IfSome, IfOk};
ghost use Rattle.cel_read.specs.Lexemes.{escape_of as spec_escape_of, are_digits as spec_are_digits};
ghost use Rattle.cel_read.specs.Internal.Reading as spec;
ghost use Rattle.cel_read.specs.Internal.Found.{part_of, escape_kind, IsShort};

use crate::spelling::{Numeral, short_number};
use std::alloc::{AllocError, Global};

/// What a character says after a backslash.
#[derive(Clone, Copy)]
pub(crate) enum Escape {
    /// It stands for a code point.
    StandsFor(u32),
    /// So many hexadecimal digits follow.
    InHexadecimal(usize),
    /// It is the first of three octal digits.
    InOctal,
}

/// After a backslash: the code point that is meant, of whatever size, and what follows.
pub(crate) fn read_escape<'t>(
    alloc: Global,
    text: &'t [char],
) -> Result<Option<(u32, &'t [char])>, AllocError>
    ensures value { IfOk result (λ part. option_map part_of part ≡ spec.read_escape text.now) }
    ensures shorter { IfOk result (λ part. IfSome part (λ x. length x.1.now < length text.now)) }
{
    let Some((first, rest)) = text.split_first() else {
        return Ok(None);
    };
    match escape_of(*first) {
        Some(Escape::StandsFor(value)) => Ok(Some((value, rest))),
        Some(Escape::InHexadecimal(count)) => read_digits(alloc, 16, count, rest),
        Some(Escape::InOctal) => read_digits(alloc, 8, 3, text),
        None => Ok(None),
    }
}

/// The number of so many digits, and what follows them.
fn read_digits<'t>(
    alloc: Global,
    radix: u32,
    count: usize,
    text: &'t [char],
) -> Result<Option<(u32, &'t [char])>, AllocError>
    requires radix { (2 ≤ radix) × (radix ≤ 16) }
    requires count { (1 ≤ count) × (count ≤ 8) }
    ensures value { IfOk result (λ part. option_map part_of part ≡ spec.read_digits radix count text.now) }
    ensures shorter { IfOk result (λ part. IfSome part (λ x. length x.1.now < length text.now)) }
{
    if text.len() < count {
        return Ok(None);
    }
    let (digits, rest) = text.split_at(count);
    if !are_digits(radix, digits) {
        return Ok(None);
    }
    let value = short_number(alloc, Numeral { radix, digits })?;
    Ok(Some((value, rest)))
}

fn are_digits(radix: u32, text: &[char]) -> bool
    requires { (2 ≤ radix) × (radix ≤ 36) }
    ensures { result ≡ spec_are_digits radix text.now }
{
    for c in text {
        if !c.is_digit(radix) {
            return false;
        }
    }
    true
}

fn escape_of(c: char) -> Option<Escape>
    ensures value { option_map escape_kind result ≡ spec_escape_of c }
    ensures count { IfSome result (λ e. IsShort e) }
{
    match c {
        'a' => Some(Escape::StandsFor(7)),
        'b' => Some(Escape::StandsFor(8)),
        'f' => Some(Escape::StandsFor(12)),
        'n' => Some(Escape::StandsFor(10)),
        'r' => Some(Escape::StandsFor(13)),
        't' => Some(Escape::StandsFor(9)),
        'v' => Some(Escape::StandsFor(11)),
        '\\' | '?' | '"' | '\'' | '`' => Some(Escape::StandsFor(c as u32)),
        'x' | 'X' => Some(Escape::InHexadecimal(2)),
        'u' => Some(Escape::InHexadecimal(4)),
        'U' => Some(Escape::InHexadecimal(8)),
        '0'..='3' => Some(Escape::InOctal),
        _ => None,
    }
}
