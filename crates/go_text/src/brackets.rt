//! Classes in brackets.
ghost use Rattle.std.specs.Prelude.{◌≡◌, ◌≤◌, length, option_map, ◌++◌, IfSome, IfOk, OnOk, Some, true};
ghost use Rattle.go_text.specs.Brackets as spec;
ghost use Rattle.go_text.specs.Internal.View.{piece_text, found_of, member_of, parts_of, text_of};
ghost use Rattle.go_text.specs.Internal.Written.{Writes};

use crate::escapes::{character_escape, perl_class};
use crate::piece::{Found, Piece, copied, fixed, literal};
use crate::properties::property;
use crate::texts::{cut, next, spells};
use std::alloc::AllocError;

/// What is written for a member of a class, and the text after it.
#[derive(Clone, Copy, Drop)]
pub(crate) struct Member<'t> {
    low: Piece<'t>,
    /// The high end, where the member is a range.
    high: Option<Piece<'t>>,
    rest: &'t [char],
}

/// Writes the class that begins after an opening bracket; the text after it. `None` where the class is refused.
pub(crate) fn class<'t>(
    out: &mut String,
    text: &'t [char],
) -> Result<Option<&'t [char]>, AllocError>
    ensures value { IfOk result (λ rest. Writes out.old out.new rest (spec.class text.now)) }
    ensures shorter { IfOk result (λ rest. IfSome rest (λ r. length r.now ≤ length text.now)) }
{
    let (opening, rest) = class_opening(text);
    opening.write(out)?;
    let found = members(out, rest)?;
    Ok(found)
}

/// The opening bracket with the caret that negates, and the text after it.
fn class_opening<'t>(text: &'t [char]) -> (Piece<'t>, &'t [char])
    ensures value { (piece_text result.0, result.1.now) ≡ spec.class_opening text.now }
    ensures shorter { length result.1.now ≤ length text.now }
{
    match text {
        ['^', rest @ ..] => (fixed("[^"), rest),
        _ => (fixed("["), text),
    }
}

/// Writes the members of a class and the bracket that closes it.
fn members<'t>(out: &mut String, text: &'t [char]) -> Result<Option<&'t [char]>, AllocError>
    ensures value { IfOk result (λ rest. Writes out.old out.new rest (spec.members (length text.now) true text.now)) }
    ensures shorter { IfOk result (λ rest. IfSome rest (λ r. length r.now ≤ length text.now)) }
{
    let mut first = true;
    let mut rest = text;
    while let Some((c, after)) = next(rest) {
        if closes(c, first) {
            fixed("]").write(out)?;
            return Ok(Some(after));
        }
        let Some(member) = member_at(c, after) else {
            return Ok(None);
        };
        write_member(out, &member)?;
        first = false;
        rest = member.rest;
    }
    Ok(None)
}

/// A bracket in the first place is a member.
fn closes(c: char, first: bool) -> bool
    ensures { result ≡ spec.closes c first }
{
    c == ']' && !first
}

fn write_member(out: &mut String, member: &Member<'_>) -> Result<(), AllocError>
    ensures { OnOk result (text_of out.new ≡ text_of out.old ++ (member_of member.now).0) }
{
    member.low.write(out)?;
    if let Some(high) = &member.high {
        fixed("-").write(out)?;
        high.write(out)?;
    }
    Ok(())
}

/// A member of a class: its first character, and the text after that.
fn member_at<'t>(c: char, text: &'t [char]) -> Option<Member<'t>>
    ensures value { option_map member_of result ≡ spec.member c text.now }
    ensures shorter { IfSome result (λ m. length m.rest.now ≤ length text.now) }
{
    match c {
        '[' => posix_or_bracket(text),
        '\\' => member_escape(text),
        _ => range(literal(c), text),
    }
}

/// After a bracket inside brackets.
fn posix_or_bracket<'t>(text: &'t [char]) -> Option<Member<'t>>
    ensures value { option_map member_of result ≡ spec.posix_or_bracket (spec.between_colons text.now) text.now }
    ensures shorter { IfSome result (λ m. length m.rest.now ≤ length text.now) }
{
    let Some((name, rest)) = between_colons(text) else {
        return range(Piece::Escaped('['), text);
    };
    if !is_posix(name) {
        return None;
    }
    Some(alone(copied("[:", name, ":]"), rest))
}

fn between_colons<'t>(text: &'t [char]) -> Option<(&'t [char], &'t [char])>
    ensures value { option_map parts_of result ≡ spec.between_colons text.now }
    ensures shorter { IfSome result (λ parts. length parts.1.now ≤ length text.now) }
{
    match text {
        [':', rest @ ..] => cut(rest, &[':', ']']),
        _ => None,
    }
}

/// The name of a class of ASCII, or after a caret of its negation.
fn is_posix(name: &[char]) -> bool
    ensures { result ≡ spec.is_posix name.now }
{
    match name {
        ['^', name @ ..] => is_posix_name(name),
        _ => is_posix_name(name),
    }
}

fn is_posix_name(name: &[char]) -> bool
    ensures { result ≡ spec.is_posix_name name.now }
{
    spells(name, "alnum")
        || spells(name, "alpha")
        || spells(name, "ascii")
        || spells(name, "blank")
        || spells(name, "cntrl")
        || spells(name, "digit")
        || spells(name, "graph")
        || spells(name, "lower")
        || spells(name, "print")
        || spells(name, "punct")
        || spells(name, "space")
        || spells(name, "upper")
        || spells(name, "word")
        || spells(name, "xdigit")
}

/// After a backslash inside brackets.
fn member_escape<'t>(text: &'t [char]) -> Option<Member<'t>>
    ensures value { option_map member_of result ≡ spec.member_escape text.now }
    ensures shorter { IfSome result (λ m. length m.rest.now ≤ length text.now) }
{
    let (c, rest) = text.split_first()?;
    if *c == 'p' || *c == 'P' {
        let class = property(*c == 'P', rest)?;
        return Some(alone(class.piece, class.rest));
    }
    if let Some(class) = perl_class(*c) {
        return Some(alone(class, rest));
    }
    let found = character_escape(*c, rest)?;
    range(found.piece, found.rest)
}

/// A member that begins no range.
fn alone<'t>(piece: Piece<'t>, rest: &'t [char]) -> Member<'t>
    ensures value { member_of result ≡ (piece_text piece.entry, rest.now) }
    ensures rest { result.rest.now ≡ rest.now }
{
    Member {
        low: piece,
        high: None,
        rest,
    }
}

/// A character, or the range that begins with it.
fn range<'t>(low: Piece<'t>, text: &'t [char]) -> Option<Member<'t>>
    ensures value { option_map member_of result ≡ spec.range (Some (piece_text low.entry, text.now)) }
    ensures shorter { IfSome result (λ m. length m.rest.now ≤ length text.now) }
{
    if !is_range(text) {
        return Some(alone(low, text));
    }
    let high = character(after_hyphen(text))?;
    Some(Member {
        low,
        high: Some(high.piece),
        rest: high.rest,
    })
}

/// A hyphen that stands before the closing bracket makes no range.
fn is_range(text: &[char]) -> bool
    ensures { result ≡ spec.is_range text.now }
{
    match text {
        ['-', c, ..] => *c != ']',
        _ => false,
    }
}

fn after_hyphen(text: &[char]) -> &[char]
    ensures value { result.now ≡ spec.after_hyphen text.now }
    ensures shorter { length result.now ≤ length text.now }
{
    match text {
        [_, rest @ ..] => rest,
        [] => text,
    }
}

/// A character, or an escape of one.
fn character<'t>(text: &'t [char]) -> Option<Found<'t>>
    ensures value { option_map found_of result ≡ spec.character text.now }
    ensures shorter { IfSome result (λ f. length f.rest.now ≤ length text.now) }
{
    let (c, rest) = text.split_first()?;
    if *c == '\\' {
        let (escaped, rest) = rest.split_first()?;
        return character_escape(*escaped, rest);
    }
    Some(Found {
        piece: literal(*c),
        rest,
    })
}
