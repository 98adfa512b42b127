//! Values, as an explanation shows them.

use crate::running::answer::json_tree;
use jtree::Tree;
use std::alloc::{AllocError, Global};

/// The most bytes of a string that are shown.
const SHOWN_BYTES: usize = 60;

/// What was found: a short scalar, or an empty list or object, as JSON, and else of which kind it is.
pub(crate) fn found_text(alloc: Global, found: Option<&Tree>) -> Result<String, AllocError> {
    match found {
        Some(Tree::List(items)) if !items.items.is_empty() => String::from_str(alloc, "a list"),
        Some(Tree::Object(members)) if !members.members.is_empty() => {
            String::from_str(alloc, "an object")
        }
        Some(Tree::Text(text)) if text.as_str().len() > SHOWN_BYTES => {
            String::from_str(alloc, "a string")
        }
        Some(tree) => json_tree(alloc, tree),
        None => String::from_str(alloc, "nothing"),
    }
}
