//! What is written for a construct.
ghost use Rattle.std.specs.Prelude.{◌≡◌, ◌++◌, ◌∷◌, [], codes, OnOk, IsTrue};
ghost use Rattle.std.specs.List.{list_all};
ghost use Rattle.std.specs.Char.{is_ascii};
ghost use Rattle.go_text.specs.Literals as spec;
ghost use Rattle.go_text.specs.Internal.View.{piece_text, text_of};

use crate::ascii::Ascii;
use std::alloc::AllocError;

/// What is written for a construct.
#[derive(Clone, Copy, Drop)]
pub(crate) enum Piece<'t> {
    Fixed(Ascii),
    /// A character as it is.
    Plain(char),
    /// A character with a backslash before it.
    Escaped(char),
    /// A character with a question mark after it.
    Lazy(char),
    /// Characters that stand for themselves.
    Literals(&'t [char]),
    /// A part of the pattern between two fixed texts.
    Copied(Ascii, &'t [char], Ascii),
}

/// What is written for the construct at the front of a text, and the text after it.
#[derive(Clone, Copy, Drop)]
pub(crate) struct Found<'t> {
    pub(crate) piece: Piece<'t>,
    pub(crate) rest: &'t [char],
}

/// A fixed text of ASCII.
pub(crate) fn fixed<'t>(text: &'static str) -> Piece<'t>
    requires { IsTrue (list_all is_ascii text.now) }
    ensures { piece_text result ≡ text.now }
{
    Piece::Fixed(Ascii { text })
}

/// A part of the pattern between two fixed texts of ASCII.
pub(crate) fn copied<'t>(before: &'static str, part: &'t [char], after: &'static str) -> Piece<'t>
    requires before { IsTrue (list_all is_ascii before.now) }
    requires after { IsTrue (list_all is_ascii after.now) }
    ensures { piece_text result ≡ before.now ++ part.now ++ after.now }
{
    Piece::Copied(Ascii { text: before }, part, Ascii { text: after })
}

/// A character that stands for itself.
pub(crate) fn literal<'t>(c: char) -> Piece<'t>
    ensures { piece_text result ≡ spec.literal c }
{
    if is_sign(c) {
        Piece::Escaped(c)
    } else {
        Piece::Plain(c)
    }
}

fn is_sign(c: char) -> bool
    ensures { result ≡ spec.is_sign c }
{
    c.is_ascii() && !c.is_ascii_alphanumeric() && !matches!(c, '<' | '>')
}

impl<'t> Piece<'t> {
    /// Writes it at the end.
    pub(crate) fn write(&self, out: &mut String) -> Result<(), AllocError>
        ensures { OnOk result (text_of out.new ≡ text_of out.old ++ piece_text self.now) }
    {
        match self {
            Piece::Fixed(fixed) => write_ascii(out, fixed),
            Piece::Plain(c) => write_character(out, *c),
            Piece::Escaped(c) => write_escaped(out, *c),
            Piece::Lazy(c) => write_lazy(out, *c),
            Piece::Literals(characters) => write_literals(out, characters),
            Piece::Copied(before, part, after) => write_copied(out, before, part, after),
        }
    }
}

fn write_ascii(out: &mut String, fixed: &Ascii) -> Result<(), AllocError>
    ensures { OnOk result (text_of out.new ≡ text_of out.old ++ fixed.now.text.now) }
{
    out.push_str(fixed.text)?;
    Ok(())
}

fn write_character(out: &mut String, c: char) -> Result<(), AllocError>
    ensures { OnOk result (text_of out.new ≡ text_of out.old ++ c ∷ []) }
{
    out.push(c)?;
    Ok(())
}

fn write_escaped(out: &mut String, c: char) -> Result<(), AllocError>
    ensures { OnOk result (text_of out.new ≡ text_of out.old ++ spec.escaped c) }
{
    write_character(out, '\\')?;
    write_character(out, c)
}

fn write_lazy(out: &mut String, c: char) -> Result<(), AllocError>
    ensures { OnOk result (text_of out.new ≡ text_of out.old ++ c ∷ codes "?") }
{
    write_character(out, c)?;
    write_character(out, '?')
}

fn write_literal(out: &mut String, c: char) -> Result<(), AllocError>
    ensures { OnOk result (text_of out.new ≡ text_of out.old ++ spec.literal c) }
{
    if is_sign(c) {
        write_escaped(out, c)
    } else {
        write_character(out, c)
    }
}

fn write_literals(out: &mut String, characters: &[char]) -> Result<(), AllocError>
    ensures { OnOk result (text_of out.new ≡ text_of out.old ++ spec.literals characters.now) }
{
    for c in characters {
        write_literal(out, *c)?;
    }
    Ok(())
}

fn write_characters(out: &mut String, characters: &[char]) -> Result<(), AllocError>
    ensures { OnOk result (text_of out.new ≡ text_of out.old ++ characters.now) }
{
    for c in characters {
        write_character(out, *c)?;
    }
    Ok(())
}

fn write_copied(
    out: &mut String,
    before: &Ascii,
    part: &[char],
    after: &Ascii,
) -> Result<(), AllocError>
    ensures { OnOk result (text_of out.new ≡ text_of out.old ++ before.now.text.now ++ part.now ++ after.now.text.now) }
{
    write_ascii(out, before)?;
    write_characters(out, part)?;
    write_ascii(out, after)
}
