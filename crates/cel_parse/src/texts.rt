//! Texts, written.
ghost use Rattle.std.specs.Prelude.{◌≡◌, ◌++◌, ◌∷◌, [], OnOk};
ghost use Rattle.cel_read.specs.View.{text_of};

use std::alloc::{AllocError, Global};

/// The empty text.
pub(crate) fn empty(alloc: Global) -> String
    ensures { text_of result ≡ [] }
{
    String::new(alloc)
}

/// Writes a character at the end.
pub(crate) fn push(out: &mut String, c: char) -> Result<(), AllocError>
    ensures { OnOk result (text_of out.new ≡ text_of out.old ++ c ∷ []) }
{
    out.push(c)?;
    Ok(())
}

/// Writes a text at the end.
pub(crate) fn push_all(out: &mut String, text: &String) -> Result<(), AllocError>
    ensures { OnOk result (text_of out.new ≡ text_of out.old ++ text_of text.now) }
{
    out.push_str(text.as_str())?;
    Ok(())
}
