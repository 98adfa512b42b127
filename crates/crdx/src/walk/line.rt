//! The line of a sample.
ghost use Rattle.std.specs.Prelude.{◌≡◌, ◌++◌, IfOk};
ghost use Rattle.jtree.specs.View.{data_of};
ghost use Rattle.std.specs.Option.{option_copied};
ghost use Rattle.crdx.specs.Output.Envelope.{in_envelope};
ghost use Rattle.crdx.specs.Output.Line.{line};

use crate::envelope::{join, parts_of};
use jtree::{Text, Tree};
use std::alloc::{AllocError, Global};

/// The envelope that samples are printed with: the members `apiVersion`, `kind`, and `metadata` with this `name` alone.
#[derive(Drop)]
pub struct Envelope {
    pub api_version: Text,
    pub kind: Text,
    pub name: Text,
}

/// Puts the line of the tree after the bytes: its compact JSON, in the envelope where there is one, and a newline.
pub(crate) fn append_line(
    alloc: Global,
    bytes: Vec<u8>,
    tree: &Tree,
    envelope: Option<&Envelope>,
) -> Result<Vec<u8>, AllocError>
    ensures { IfOk result (λ v. v.items ≡ bytes.items ++ line (option_copied envelope.entry) (data_of tree.now)) }
{
    let mut text = match envelope {
        Some(envelope) => with_envelope(alloc, tree, envelope)?.append_text(bytes)?,
        None => tree.append_text(bytes)?,
    };
    text.push(b'\n')?;
    Ok(text)
}

/// A copy of the tree in the envelope.
pub(crate) fn with_envelope(
    alloc: Global,
    tree: &Tree,
    envelope: &Envelope,
) -> Result<Tree, AllocError>
    ensures { IfOk result (λ t. data_of t ≡ in_envelope envelope.now (data_of tree.now)) }
{
    tree.reveal_invariant();
    let mut whole = match tree.copy(alloc) {
        Ok(whole) => whole,
        Err(_) => return Err(AllocError),
    };
    join(&mut whole, parts_of(alloc, envelope)?)?;
    Ok(whole)
}
