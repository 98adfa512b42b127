//! The constructs of a pattern, one after another.
ghost use Rattle.std.specs.Prelude.{◌≡◌, ◌≤◌, ◌∷◌, [], length, option_map, codes, chars, string_bytes, IfSome, IfOk};
ghost use Rattle.go_text.specs.KitSyntax as spec;
ghost use Rattle.go_text.specs.Texts.{cut as cut_of};
ghost use Rattle.go_text.specs.Escapes.{perl_class as spec_perl_class};
ghost use Rattle.go_text.specs.Internal.View.{piece_text, found_of, step_of};
ghost use Rattle.go_text.specs.Internal.Written.{WritesConstruct};

use crate::brackets::class;
use crate::escapes::{character_escape, perl_class};
use crate::groups::group;
use crate::piece::{Found, Piece, copied, fixed, literal};
use crate::properties::property;
use crate::repetitions::{is_count, is_small_count};
use crate::texts::{cut, next};
use std::alloc::{AllocError, Global};

/// What is written for a construct, and where the reading goes on.
#[derive(Clone, Copy, Drop)]
pub(crate) struct Step<'t> {
    piece: Piece<'t>,
    place: Place<'t>,
}

/// Where the reading goes on after a construct.
#[derive(Clone, Copy, Drop)]
pub(crate) struct Place<'t> {
    /// Whether the construct is a repetition.
    after_repetition: bool,
    rest: &'t [char],
}

/// The text of a pattern in Go's syntax, written in the syntax of the kit's crate `regex`; `None` where it is refused.
pub fn in_kit_syntax(alloc: Global, text: &str) -> Result<Option<String>, AllocError>
    ensures { IfOk result (λ found. option_map (λ s. chars (string_bytes s)) found ≡ spec.in_kit_syntax (chars text.now)) }
{
    let characters: Vec<char> = text.chars().collect(alloc)?;
    let mut out = String::new(alloc);
    let mut place = Place {
        after_repetition: false,
        rest: characters.as_slice(),
    };
    while let Some((c, rest)) = next(place.rest) {
        let Some(after) = construct(&mut out, place.after_repetition, c, rest)? else {
            return Ok(None);
        };
        place = after;
    }
    Ok(Some(out))
}

/// Writes the construct that begins with a character.
fn construct<'t>(
    out: &mut String,
    after_repetition: bool,
    c: char,
    text: &'t [char],
) -> Result<Option<Place<'t>>, AllocError>
    ensures value { IfOk result (λ place. WritesConstruct out.old out.new place (spec.construct after_repetition c text.now)) }
    ensures shorter { IfOk result (λ place. IfSome place (λ p. length p.rest.now ≤ length text.now)) }
{
    if c == '[' {
        return match class(out, text)? {
            Some(rest) => Ok(Some(Place {
                after_repetition: false,
                rest,
            })),
            None => Ok(None),
        };
    }
    let Some(step) = simple(after_repetition, c, text) else {
        return Ok(None);
    };
    step.piece.write(out)?;
    Ok(Some(step.place))
}

/// A construct that is no class in brackets.
fn simple<'t>(after_repetition: bool, c: char, text: &'t [char]) -> Option<Step<'t>>
    ensures value { option_map step_of result ≡ spec.simple after_repetition c text.now }
    ensures shorter { IfSome result (λ s. length s.place.rest.now ≤ length text.now) }
{
    match c {
        '\\' => escape(after_repetition, text),
        '(' => {
            let found = group(text)?;
            Some(once(found.piece, found.rest))
        }
        '{' => counted(after_repetition, text),
        '*' | '+' | '?' => operator(after_repetition, c, text),
        '^' | '$' | '.' | '|' | ')' => Some(once(Piece::Plain(c), text)),
        _ => Some(once(literal(c), text)),
    }
}

/// A construct that is no repetition.
fn once<'t>(piece: Piece<'t>, rest: &'t [char]) -> Step<'t>
    ensures value { step_of result ≡ spec.once (piece_text piece.entry) rest.now }
    ensures rest { result.place.rest.now ≡ rest.now }
{
    let after_repetition = false;
    Step {
        piece,
        place: Place {
            after_repetition,
            rest,
        },
    }
}

fn repeating<'t>(piece: Piece<'t>, rest: &'t [char]) -> Step<'t>
    ensures value { step_of result ≡ spec.repeating (piece_text piece.entry) rest.now }
    ensures rest { result.place.rest.now ≡ rest.now }
{
    let after_repetition = true;
    Step {
        piece,
        place: Place {
            after_repetition,
            rest,
        },
    }
}

/// `*`, `+` or `?`, with a question mark after it lazy.
fn operator<'t>(after_repetition: bool, c: char, text: &'t [char]) -> Option<Step<'t>>
    ensures value { option_map step_of result ≡ spec.repetition after_repetition (c ∷ []) text.now }
    ensures shorter { IfSome result (λ s. length s.place.rest.now ≤ length text.now) }
{
    if after_repetition {
        return None;
    }
    match text {
        ['?', rest @ ..] => Some(repeating(Piece::Lazy(c), rest)),
        _ => Some(repeating(Piece::Plain(c), text)),
    }
}

/// After a brace: a count, or else the brace stands for itself.
fn counted<'t>(after_repetition: bool, text: &'t [char]) -> Option<Step<'t>>
    ensures value { option_map step_of result ≡ spec.counted after_repetition (cut_of (codes "}") text.now) text.now }
    ensures shorter { IfSome result (λ s. length s.place.rest.now ≤ length text.now) }
{
    let Some((count, rest)) = cut(text, &['}']) else {
        return Some(once(Piece::Escaped('{'), text));
    };
    if !is_count(count) {
        return Some(once(Piece::Escaped('{'), text));
    }
    if after_repetition || !is_small_count(count) {
        return None;
    }
    match rest {
        ['?', rest @ ..] => Some(repeating(copied("{", count, "}?"), rest)),
        _ => Some(repeating(copied("{", count, "}"), rest)),
    }
}

/// An escape outside brackets.
fn escape<'t>(after_repetition: bool, text: &'t [char]) -> Option<Step<'t>>
    ensures value { option_map step_of result ≡ spec.escape after_repetition text.now }
    ensures shorter { IfSome result (λ s. length s.place.rest.now ≤ length text.now) }
{
    let (c, rest) = text.split_first()?;
    if *c == 'Q' {
        return Some(quotation(after_repetition, rest));
    }
    let found = other_escape(*c, rest)?;
    Some(once(found.piece, found.rest))
}

/// An escape that is no quotation.
fn other_escape<'t>(c: char, rest: &'t [char]) -> Option<Found<'t>>
    ensures value { option_map found_of result ≡ spec.other_escape c rest.now }
    ensures shorter { IfSome result (λ f. length f.rest.now ≤ length rest.now) }
{
    let piece = match c {
        'A' => fixed("\\A"),
        'z' => fixed("\\z"),
        'b' => fixed("(?-u:\\b)"),
        'B' => fixed("(?-u:\\B)"),
        'p' | 'P' => return property(c == 'P', rest),
        _ => return class_or_character(c, rest),
    };
    Some(Found { piece, rest })
}

fn class_or_character<'t>(c: char, rest: &'t [char]) -> Option<Found<'t>>
    ensures value { option_map found_of result ≡ spec.class_or_character (spec_perl_class c) c rest.now }
    ensures shorter { IfSome result (λ f. length f.rest.now ≤ length rest.now) }
{
    match perl_class(c) {
        Some(piece) => Some(Found { piece, rest }),
        None => character_escape(c, rest),
    }
}

/// What stands between `\Q` and `\E`, or after `\Q`.
fn quotation<'t>(after_repetition: bool, text: &'t [char]) -> Step<'t>
    ensures value { step_of result ≡ spec.quotation after_repetition (cut_of (codes "\\E") text.now) text.now }
    ensures shorter { length result.place.rest.now ≤ length text.now }
{
    let (quoted, rest) = match cut(text, &['\\', 'E']) {
        Some(parts) => parts,
        None => text.split_at(text.len()),
    };
    Step {
        piece: Piece::Literals(quoted),
        place: Place {
            after_repetition: after_repetition && quoted.is_empty(),
            rest,
        },
    }
}
