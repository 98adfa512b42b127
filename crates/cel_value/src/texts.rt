//! Texts by their characters.
ghost use Rattle.std.specs.Prelude.{◌≡◌, nat_eq, IfOk};
ghost use lib.Pointwise.{pointwise};

use cel_ast::Text;
use std::alloc::{AllocError, Global};

/// An equal text. `AllocError` where an allocation fails.
pub fn copy(alloc: Global, text: &Text) -> Result<Text, AllocError>
    ensures { IfOk result (λ t. t ≡ text.now) }
{
    Ok(Text {
        text: String::from_str(alloc, text.text.as_str())?,
    })
}

/// Whether the two have the same characters.
pub fn is_same(a: &Text, b: &Text) -> bool
    ensures { result ≡ pointwise nat_eq a.now b.now }
{
    a.text == b.text
}
