//! What an opening parenthesis begins.
ghost use Rattle.std.specs.Prelude.{◌≡◌, ◌≤◌, length, option_map, codes, IfSome};
ghost use Rattle.go_text.specs.Groups as spec;
ghost use Rattle.go_text.specs.Texts.{cut as cut_of};
ghost use Rattle.go_text.specs.Internal.View.{found_of, parts_of};

use crate::piece::{Found, copied, fixed};
use crate::texts::cut;

/// After the parenthesis.
pub(crate) fn group<'t>(text: &'t [char]) -> Option<Found<'t>>
    ensures value { option_map found_of result ≡ spec.group text.now }
    ensures shorter { IfSome result (λ f. length f.rest.now ≤ length text.now) }
{
    match text {
        ['?', rest @ ..] => special_group(rest),
        _ => Some(Found {
            piece: fixed("("),
            rest: text,
        }),
    }
}

/// After `(?`.
fn special_group<'t>(text: &'t [char]) -> Option<Found<'t>>
    ensures value { option_map found_of result ≡ spec.special_group text.now }
    ensures shorter { IfSome result (λ f. length f.rest.now ≤ length text.now) }
{
    match text {
        [] => None,
        ['P', rest @ ..] => after_angle(rest),
        ['<', ..] => after_angle(text),
        _ => {
            let (flags, rest) = split_flags(text);
            after_flags(flags, rest)
        }
    }
}

fn after_angle<'t>(text: &'t [char]) -> Option<Found<'t>>
    ensures value { option_map found_of result ≡ spec.after_angle text.now }
    ensures shorter { IfSome result (λ f. length f.rest.now ≤ length text.now) }
{
    match text {
        ['<', rest @ ..] => named_group(rest),
        _ => None,
    }
}

fn named_group<'t>(text: &'t [char]) -> Option<Found<'t>>
    ensures value { option_map found_of result ≡ spec.named_group (cut_of (codes ">") text.now) }
    ensures shorter { IfSome result (λ f. length f.rest.now ≤ length text.now) }
{
    let (name, rest) = cut(text, &['>'])?;
    if !is_name(name) {
        return None;
    }
    Some(Found {
        piece: fixed("("),
        rest,
    })
}

fn is_name(text: &[char]) -> bool
    ensures { result ≡ spec.is_name text.now }
{
    !text.is_empty() && are_of_names(text)
}

fn are_of_names(text: &[char]) -> bool
    ensures { result ≡ spec.are_of_names text.now }
{
    text.iter().all(|c| is_of_names(*c))
}

fn is_of_names(c: char) -> bool
    ensures { result ≡ spec.is_of_names c }
{
    c.is_ascii_alphanumeric() || c == '_'
}

/// The flags at the front, and the text after them.
fn split_flags<'t>(text: &'t [char]) -> (&'t [char], &'t [char])
    ensures value { parts_of result ≡ spec.split_flags text.now }
    ensures shorter { length result.1.now ≤ length text.now }
{
    for i in 0..text.len() {
        if !is_flag(text[i]) {
            return text.split_at(i);
        }
    }
    (text, &[])
}

fn is_flag(c: char) -> bool
    ensures { result ≡ spec.is_flag c }
{
    matches!(c, 'i' | 'm' | 's' | 'U' | '-')
}

/// After the flags.
fn after_flags<'t>(flags: &'t [char], text: &'t [char]) -> Option<Found<'t>>
    ensures value { option_map found_of result ≡ spec.after_flags flags.now text.now }
    ensures shorter { IfSome result (λ f. length f.rest.now ≤ length text.now) }
{
    match text {
        [':', rest @ ..] => Some(Found {
            piece: copied("(?", flags, ":"),
            rest,
        }),
        [')', rest @ ..] => Some(Found {
            piece: copied("(?", flags, ")"),
            rest,
        }),
        _ => None,
    }
}
