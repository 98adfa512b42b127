//! What is printed of several items, one after another.
ghost use Rattle.std.specs.Prelude.{◌≡◌, ℕ, List, IfOk, string_bytes};
ghost use Rattle.std.specs.List.{flat_map};

use std::alloc::{AllocError, Global};

/// What is printed as a line, or as several.
pub(crate) trait Lines {
    // the bytes of its lines
    ghost text: { Self → List ℕ };

    /// Its lines, each with its end.
    fn lines(&self, alloc: Global) -> Result<String, AllocError>
        ensures { IfOk result (λ s. string_bytes s ≡ text self.now) };
}

/// The lines of all items, in order.
pub(crate) fn all_lines<T: Lines>(alloc: Global, items: &[T]) -> Result<String, AllocError>
    ensures { IfOk result (λ s. string_bytes s ≡ flat_map T.text items.now) }
{
    let mut lines = String::new(alloc);
    for item in items {
        lines.push_str(item.lines(alloc)?.as_str())?;
    }
    Ok(lines)
}
