//! Names of members that were removed, whose memory is used for members that are added later.
ghost use Rattle.std.specs.Prelude.{◌≡◌, IfOk};

use jtree::Text;
use std::alloc::{AllocError, Global};

/// Keeps the name. Where an allocation fails it is dropped, as it would be without this.
pub(crate) fn keep_name(spare: &mut Vec<Text>, name: Text) {
    let _kept = spare.push(name);
}

/// The name as a text: the last of those that were kept, which is mostly this one, or else becomes it; a new one where none is left.
#[inline(always)]
pub(crate) fn take_name(
    alloc: Global,
    name: &str,
    spare: &mut Vec<Text>,
) -> Result<Text, AllocError>
    ensures { IfOk result (λ text. text ≡ name.now) }
{
    // names are removed from the last slot to the first and put in from the first to the last, so the last one kept is mostly wanted
    let Some(mut text) = spare.pop() else {
        return Text::from_str(alloc, name);
    };
    if text.as_str() != name {
        text.set(name)?;
    }
    Ok(text)
}
