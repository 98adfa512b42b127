//! Whether paths can be varied or left out, and whether a document can be read again.
ghost use Rattle.std.specs.Prelude.{◌≡◌, ◌≤◌, ◌↔◌, IfOk, IfErr, OnOk, IsTrue, Decides};
ghost use Rattle.jtree.specs.Data.{depth, items_depth, members_depth};
ghost use Rattle.jtree.specs.View.{data_of};
ghost use Rattle.suggest.specs.View.{trees_of, tree_at, wanted_of};
ghost use Rattle.suggest.specs.Suggested.Document;
ghost use Rattle.suggest.specs.Suggested.Document.{CanBeRead};
ghost use Rattle.suggest.specs.Suggested.Fault.{AreVaried, AreFixable};
ghost use Rattle.suggest.specs.Internal.Faults.{IsVariedFault, IsWithoutFault};

use crate::fault::SuggestFault;
use crate::varying::{Reach, reached};
use crate::wanted::Wanted;
use jtree::{Items, MOST_BYTES, MOST_DEPTH, Members, Tree};
use plan::{PoolLimits, is_fixable_path, oversized_pool};
use std::alloc::{AllocError, Global};
use stored::Schema;

/// Answers why the object cannot be varied at one of the paths, the first where it cannot.
pub(crate) fn check_varied(
    alloc: Global,
    schema: &Schema,
    wanted: &Wanted<'_>,
) -> Result<(), SuggestFault>
    ensures ok { OnOk result (AreVaried schema.now (wanted_of wanted.now)) }
    ensures err { IfErr result (IsVariedFault schema.now (wanted_of wanted.now)) }
{
    let object = single(wanted.objects);
    for path in wanted.varied {
        match reached(alloc, path, object, "", schema.root())? {
            Reach::There => {}
            Reach::Undeclared => {
                return Err(SuggestFault::BadPath(String::from_str(alloc, path)?));
            }
            Reach::Missing => {
                return Err(SuggestFault::NotInObject(String::from_str(alloc, path)?));
            }
        }
    }
    Ok(())
}

/// The one object, where there is one alone.
pub(crate) fn single(objects: &[Tree]) -> Option<&Tree>
    ensures { tree_at result ≡ Document.single (trees_of objects.now) }
{
    match objects {
        [object] => Some(object),
        _ => None,
    }
}

/// Answers the first path that cannot be left out.
pub(crate) fn check_without(
    alloc: Global,
    schema: &Schema,
    wanted: &Wanted<'_>,
) -> Result<(), SuggestFault>
    ensures ok { OnOk result (AreFixable schema.now (wanted_of wanted.now)) }
    ensures err { IfErr result (IsWithoutFault schema.now (wanted_of wanted.now)) }
{
    for path in wanted.without {
        if !is_fixable_path(schema, path) {
            return Err(SuggestFault::BadPath(String::from_str(alloc, path)?));
        }
    }
    Ok(())
}

/// Whether the document is as short, with the newline of its line, as shallow and as small as pools that are read.
pub(crate) fn can_be_read(
    alloc: Global,
    document: &Tree,
    limits: PoolLimits,
) -> Result<bool, AllocError>
    ensures { IfOk result (λ can. Decides can (CanBeRead limits (data_of document.now))) }
{
    let text = document.append_text(Vec::new(alloc))?;
    Ok(
        text.len() < MOST_BYTES
            && (is_shallow(document, MOST_DEPTH) && oversized_pool(document, limits).is_none()),
    )
}

/// Whether the tree nests no deeper.
#[cycle(shallow)]
fn is_shallow(tree: &Tree, most: usize) -> bool
    ensures { IsTrue result ↔ (depth (data_of tree.now) ≤ most) }
{
    match tree {
        Tree::List(items) => most > 0 && are_shallow(items, most - 1),
        Tree::Object(members) => most > 0 && are_values_shallow(members, most - 1),
        _ => true,
    }
}

#[cycle(shallow)]
fn are_shallow(items: &Items, most: usize) -> bool
    ensures { IsTrue result ↔ (items_depth items.now ≤ most) }
{
    for item in &items.items {
        if !is_shallow(item, most) {
            return false;
        }
    }
    true
}

#[cycle(shallow)]
fn are_values_shallow(members: &Members, most: usize) -> bool
    ensures { IsTrue result ↔ (members_depth members.now ≤ most) }
{
    for member in &members.members {
        if !is_shallow(&member.tree, most) {
            return false;
        }
    }
    true
}
