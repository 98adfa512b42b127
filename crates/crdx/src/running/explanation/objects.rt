//! Why an object is not as it is stored.

use crate::running::lines::Lines;
use jtree::Tree;
use schema::Node;
use std::alloc::{AllocError, Global};
use stored::{faults, prune};

/// What pruning, defaulting or validation has to say of an object that is not stored.
pub(crate) fn unstored_text(
    alloc: Global,
    node: &Node,
    body: &Tree,
) -> Result<Option<String>, AllocError> {
    let found = faults(alloc, node, body)?;
    if let Some(fault) = found.first() {
        let line = fault.lines(alloc)?;
        let line = line.as_str().trim_end();
        return Ok(Some(format!(in alloc;
            "the object is not stored: found {line}; `crdx validate` lists all faults"
        )?));
    }
    let mut pruned = body.copy(alloc).map_err(|_| AllocError)?;
    prune(node, &mut pruned);
    let text = if pruned == *body {
        "the object is not stored: found fields without their defaults; `crdx default` prints it with them"
    } else {
        "the object is not stored: found members that are not declared; `crdx prune` prints it without them"
    };
    Ok(Some(String::from_str(alloc, text)?))
}
