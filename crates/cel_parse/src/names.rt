//! Names, copied.
ghost use Rattle.std.specs.Prelude.{◌≡◌, ◌++◌, ◌<◌, length, option_map, IfOk, IfSome, OnOk, ◌∷◌, []};
ghost use Rattle.cel_read.specs.View.{text_of, token_lexemes};
ghost use Rattle.cel_parse.specs.Internal.Reading as spec;
ghost use Rattle.cel_parse.specs.Internal.Views.{part_of, name_parts, IsPartShorter};

use crate::texts::{empty, push, push_all};
use cel_ast::Text;
use cel_read::{Symbol, Token};
use std::alloc::{AllocError, Global};

/// The same text.
pub(crate) fn copied(alloc: Global, text: &String) -> Result<Text, AllocError>
    ensures { IfOk result (λ t. t ≡ text_of text.now) }
{
    let mut out = empty(alloc);
    push_all(&mut out, text)?;
    Ok(Text { text: out })
}

/// A name, with a dot before it or without.
pub(crate) fn identifier(alloc: Global, dotted: bool, name: &String) -> Result<Text, AllocError>
    ensures { IfOk result (λ t. t ≡ spec.leading dotted ++ text_of name.now) }
{
    let mut out = beginning(alloc, dotted)?;
    push_all(&mut out, name)?;
    Ok(Text { text: out })
}

fn beginning(alloc: Global, dotted: bool) -> Result<String, AllocError>
    ensures { IfOk result (λ t. text_of t ≡ spec.leading dotted) }
{
    let mut out = empty(alloc);
    if dotted {
        push(&mut out, '.')?;
    }
    Ok(out)
}

/// A part of the name of a message's type.
#[derive(Clone, Copy)]
pub(crate) enum NamePart<'a> {
    /// The last one, with what follows its brace.
    Last(&'a String, &'a [Token]),
    /// One with a dot after it.
    Before(&'a String, &'a [Token]),
    Neither,
}

fn name_part(tokens: &[Token]) -> NamePart<'_>
    ensures words { part_of result ≡ spec.name_part (token_lexemes tokens.now) }
    ensures shorter { IsPartShorter result (length tokens.now) }
{
    match tokens {
        [Token::Name(name), Token::Symbol(symbol), rest @ ..] => match symbol {
            Symbol::LeftBrace => NamePart::Last(name, rest),
            Symbol::Dot => NamePart::Before(name, rest),
            _ => NamePart::Neither,
        },
        _ => NamePart::Neither,
    }
}

/// The name of a message's type, and what follows its brace.
pub(crate) fn type_at<'a>(
    alloc: Global,
    dotted: bool,
    tokens: &'a [Token],
) -> Result<Option<(Text, &'a [Token])>, AllocError>
    ensures words { IfOk result (λ found. option_map name_parts found ≡ option_map (spec.with_beginning (spec.leading dotted)) (spec.type_at (token_lexemes tokens.now))) }
    ensures shorter { IfOk result (λ found. IfSome found (λ r. length r.1.now < length tokens.now)) }
{
    let mut out = beginning(alloc, dotted)?;
    let mut rest = tokens;
    'parts: loop {
        match name_part(rest) {
            NamePart::Last(name, after) => {
                push_all(&mut out, name)?;
                return Ok(Some((Text { text: out }, after)));
            }
            NamePart::Before(name, after) => {
                push_part(&mut out, name)?;
                rest = after;
            }
            NamePart::Neither => return Ok(None),
        }
    }
}

/// Writes a name and a dot at the end.
fn push_part(out: &mut String, name: &String) -> Result<(), AllocError>
    ensures { OnOk result (text_of out.new ≡ text_of out.old ++ text_of name.now ++ 0x2E ∷ []) }
{
    push_all(out, name)?;
    push(out, '.')
}
