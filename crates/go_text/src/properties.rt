//! Classes of Unicode, after `\p` and `\P`.
ghost use Rattle.std.specs.Prelude.{◌≡◌, ◌≤◌, ◌∷◌, [], length, option_map, codes, IfSome};
ghost use Rattle.go_text.specs.Properties as spec;
ghost use Rattle.go_text.specs.Texts.{cut as cut_of};
ghost use Rattle.go_text.specs.Internal.View.{piece_text, found_of};

use crate::piece::{Found, Piece, copied, fixed};
use crate::texts::{cut, spells};

/// After `\p`, or after `\P`, which negates.
pub(crate) fn property<'t>(negated: bool, text: &'t [char]) -> Option<Found<'t>>
    ensures value { option_map found_of result ≡ spec.property negated text.now }
    ensures shorter { IfSome result (λ f. length f.rest.now ≤ length text.now) }
{
    let (first, rest) = text.split_first()?;
    if *first == '{' {
        return braced_class(negated, rest);
    }
    let piece = named_class(negated, &text[..1])?;
    Some(Found { piece, rest })
}

fn braced_class<'t>(negated: bool, text: &'t [char]) -> Option<Found<'t>>
    ensures value { option_map found_of result ≡ spec.braced_class negated (cut_of (codes "}") text.now) }
    ensures shorter { IfSome result (λ f. length f.rest.now ≤ length text.now) }
{
    let (name, rest) = cut(text, &['}'])?;
    let piece = signed_class(negated, name)?;
    Some(Found { piece, rest })
}

fn signed_class<'t>(negated: bool, name: &'t [char]) -> Option<Piece<'t>>
    ensures { option_map piece_text result ≡ spec.signed_class negated name.now }
{
    match name {
        [] => None,
        ['^', name @ ..] => named_class(!negated, name),
        _ => named_class(negated, name),
    }
}

fn named_class<'t>(negated: bool, name: &'t [char]) -> Option<Piece<'t>>
    ensures { option_map piece_text result ≡ spec.named_class negated name.now }
{
    if spells(name, "Any") {
        Some(any_class(negated, name))
    } else if spells(name, "C") {
        Some(control(negated))
    } else if is_category(name) {
        Some(category_class(negated, name))
    } else if is_script(name) {
        Some(script_class(negated, name))
    } else {
        None
    }
}

fn any_class<'t>(negated: bool, name: &'t [char]) -> Piece<'t>
    ensures { piece_text result ≡ spec.property_class negated [] name.now }
{
    if negated {
        copied("\\P{", name, "}")
    } else {
        copied("\\p{", name, "}")
    }
}

fn category_class<'t>(negated: bool, name: &'t [char]) -> Piece<'t>
    ensures { piece_text result ≡ spec.property_class negated (codes "gc=") name.now }
{
    if negated {
        copied("\\P{gc=", name, "}")
    } else {
        copied("\\p{gc=", name, "}")
    }
}

fn script_class<'t>(negated: bool, name: &'t [char]) -> Piece<'t>
    ensures { piece_text result ≡ spec.property_class negated (codes "sc=") name.now }
{
    if negated {
        copied("\\P{sc=", name, "}")
    } else {
        copied("\\p{sc=", name, "}")
    }
}

/// Go's category C has no code points that are not assigned.
fn control<'t>(negated: bool) -> Piece<'t>
    ensures { piece_text result ≡ spec.control negated }
{
    if negated {
        fixed("[^\\p{Cc}\\p{Cf}\\p{Co}]")
    } else {
        fixed("[\\p{Cc}\\p{Cf}\\p{Co}]")
    }
}

fn is_category(name: &[char]) -> bool
    ensures { result ≡ spec.is_category name.now }
{
    match name {
        [c] => matches!(c, 'L' | 'M' | 'N' | 'P' | 'S' | 'Z'),
        [c, kind] => is_kind_of(*c, *kind),
        _ => false,
    }
}

fn is_kind_of(category: char, kind: char) -> bool
    ensures { result ≡ spec.is_kind_of category kind }
{
    match category {
        'C' => matches!(kind, 'c' | 'f' | 'o'),
        'L' => matches!(kind, 'l' | 'm' | 'o' | 't' | 'u'),
        'M' => matches!(kind, 'c' | 'e' | 'n'),
        'N' => matches!(kind, 'd' | 'l' | 'o'),
        'P' => matches!(kind, 'c' | 'd' | 'e' | 'f' | 'i' | 'o' | 's'),
        'S' => matches!(kind, 'c' | 'k' | 'm' | 'o'),
        'Z' => matches!(kind, 'l' | 'p' | 's'),
        _ => false,
    }
}

fn is_script(name: &[char]) -> bool
    ensures { result ≡ spec.is_script name.now }
{
    match name {
        [] => false,
        [first, rest @ ..] => {
            first.is_ascii_uppercase()
                && are_of_names(rest)
                && (rest.len() != 3 || is_short_script(name))
        }
    }
}

fn are_of_names(text: &[char]) -> bool
    ensures { result ≡ spec.are_of_names text.now }
{
    text.iter().all(|c| is_of_names(*c))
}

fn is_of_names(c: char) -> bool
    ensures { result ≡ spec.is_of_names c }
{
    c.is_ascii_alphabetic() || c == '_'
}

fn is_short_script(name: &[char]) -> bool
    ensures { result ≡ spec.is_short_script name.now }
{
    spells(name, "Ahom")
        || spells(name, "Cham")
        || spells(name, "Kawi")
        || spells(name, "Lisu")
        || spells(name, "Modi")
        || spells(name, "Newa")
        || spells(name, "Thai")
        || spells(name, "Toto")
}
