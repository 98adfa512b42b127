//! Numbers.
ghost use Rattle.std.specs.Prelude.{◌≡◌, ◌≤◌, length, option_map, IfSome};
ghost use Rattle.std.specs.Str.Parse.{digits_value};
ghost use Rattle.cel_read.specs.Internal.Reading as spec;
ghost use Rattle.cel_read.specs.Internal.Found.{found_of, parts_of};

use crate::lexeme::{Found, Lexeme};
use crate::runs::{Class, is_of_class, run};
use crate::spelling::Numeral;

/// An integer, an integer with a suffix, or a floating-point number.
pub(crate) fn read_number<'t>(text: &'t [char]) -> Option<Found<'t>>
    ensures { option_map found_of result ≡ spec.read_number text.now }
{
    if begins_hexadecimal(text) {
        let (digits, rest) = run(Class::Hexadecimal, &text[2..]);
        let radix = 16;
        return Some(suffixed(text, Numeral { radix, digits }, rest));
    }
    let (digits, rest) = run(Class::Decimal, text);
    if begins_fraction(rest) {
        let (_, rest) = run(Class::Decimal, &rest[1..]);
        return Some(double(text, after_exponent(rest).unwrap_or(rest)));
    }
    if digits.is_empty() {
        return None;
    }
    if let Some(rest) = after_exponent(rest) {
        return Some(double(text, rest));
    }
    let radix = 10;
    Some(suffixed(text, Numeral { radix, digits }, rest))
}

/// What stands before the rest of a text.
fn before<'t>(text: &'t [char], rest: &[char]) -> &'t [char]
    requires { length rest.now ≤ length text.now }
    ensures { result.now ≡ spec.before text.now rest.now }
{
    &text[..text.len() - rest.len()]
}

fn double<'t>(text: &'t [char], rest: &'t [char]) -> Found<'t>
    requires { length rest.now ≤ length text.now }
    ensures { found_of result ≡ spec.double_to text.now rest.now }
{
    Found {
        lexeme: Lexeme::Double(before(text, rest)),
        rest,
    }
}

/// An integer, with a suffix where the rest begins with one.
fn suffixed<'t>(text: &'t [char], numeral: Numeral<'t>, rest: &'t [char]) -> Found<'t>
    requires { length rest.now ≤ length text.now }
    ensures { found_of result ≡ spec.suffixed text.now (digits_value numeral.entry.radix numeral.entry.digits.now) rest.now }
{
    match rest {
        ['u' | 'U', rest @ ..] => Found {
            lexeme: Lexeme::Unsigned(before(text, rest)),
            rest,
        },
        _ => Found {
            lexeme: Lexeme::Integer(numeral),
            rest,
        },
    }
}

fn begins_hexadecimal(text: &[char]) -> bool
    ensures { result ≡ spec.begins_hexadecimal text.now }
{
    match text {
        ['0', 'x', c, ..] => is_of_class(Class::Hexadecimal, *c),
        _ => false,
    }
}

fn begins_fraction(text: &[char]) -> bool
    ensures { result ≡ spec.begins_fraction text.now }
{
    match text {
        ['.', c, ..] => is_of_class(Class::Decimal, *c),
        _ => false,
    }
}

fn begins_with_digit(text: &[char]) -> bool
    ensures { result ≡ spec.begins_with_digit text.now }
{
    match text {
        [c, ..] => is_of_class(Class::Decimal, *c),
        [] => false,
    }
}

/// What follows the exponent at the front of a text.
fn after_exponent<'t>(text: &'t [char]) -> Option<&'t [char]>
    ensures value { option_map (λ r. r.now) result ≡ spec.after_exponent text.now }
    ensures shorter { IfSome result (λ r. length r.now ≤ length text.now) }
{
    match text {
        ['e' | 'E', '+' | '-', rest @ ..] if begins_with_digit(rest) => {
            let (_, rest) = run(Class::Decimal, rest);
            Some(rest)
        }
        ['e' | 'E', rest @ ..] if begins_with_digit(rest) => {
            let (_, rest) = run(Class::Decimal, rest);
            Some(rest)
        }
        _ => None,
    }
}
