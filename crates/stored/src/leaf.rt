//! A leaf of an object, and the elements of its path.
ghost use Rattle.std.specs.Prelude.{◌≡◌, ◌++◌, IfOk};
ghost use Rattle.jtree.specs.Text.{compact};
ghost use Rattle.jtree.specs.View.{data_of};
ghost use Rattle.stored.specs.Objects.Leaves;
ghost use Rattle.stored.specs.Objects.Leaves.{members_among};

use jtree::{Member, Members, Text, Tree};
use schema::{ListNode, ListType, is_among};
use std::alloc::{AllocError, Global};

/// A leaf of an object.
#[derive(Drop)]
pub struct Leaf {
    /// The elements of its path: `f:` and a name, `k:` and the keys of an item, or `v:` and an item.
    pub elements: Vec<Text>,
}

/// The element of an item of a list: in a map list its keys, and otherwise the item itself.
pub(crate) fn item_element(alloc: Global, list: &ListNode, item: &Tree) -> Result<Text, AllocError>
    ensures { IfOk result (λ t. t ≡ Leaves.item_element list.now.list_type list.now.keys.items (data_of item.now)) }
{
    match (list.list_type, item) {
        (ListType::Map(_), Tree::Object(members)) => {
            let keys = Tree::Object(members_among(alloc, &list.keys, members)?);
            compact_element(alloc, "k:", &keys)
        }
        (ListType::Map(_), _) => compact_element(alloc, "k:", item),
        _ => compact_element(alloc, "v:", item),
    }
}

/// A prefix and the compact JSON text of a tree.
fn compact_element(alloc: Global, prefix: &str, tree: &Tree) -> Result<Text, AllocError>
    ensures { IfOk result (λ t. t ≡ prefix.now ++ compact (data_of tree.now)) }
{
    match tree.to_text(alloc) {
        Ok(text) => text_element(alloc, prefix, text.as_str()),
        Err(_fault) => Err(AllocError),
    }
}

/// A prefix and a text.
pub(crate) fn text_element(alloc: Global, prefix: &str, rest: &str) -> Result<Text, AllocError>
    ensures { IfOk result (λ t. t ≡ prefix.now ++ rest.now) }
{
    let mut text = String::from_str(alloc, prefix)?;
    text.push_str(rest)?;
    Ok(Text { text })
}

/// Copies of the members whose names are among these.
fn members_among(alloc: Global, names: &[Text], members: &Members) -> Result<Members, AllocError>
    ensures { IfOk result (λ m. m ≡ members_among names.now members.now) }
{
    members.reveal_invariant();
    let mut copies = Vec::new(alloc);
    for member in &members.members {
        if is_among(member.name.as_str(), names) {
            copies.push(copy_member(alloc, member)?)?;
        }
    }
    Ok(Members { members: copies })
}

fn copy_member(alloc: Global, member: &Member) -> Result<Member, AllocError>
    ensures { IfOk result (λ m. m ≡ member.now) }
{
    let name = member.name.copy(alloc)?;
    let tree = member.tree.try_clone(alloc)?;
    Ok(Member { name, tree })
}

/// Copies of these texts.
pub(crate) fn copy_texts(alloc: Global, texts: &[Text]) -> Result<Vec<Text>, AllocError>
    ensures { IfOk result (λ v. v.items ≡ texts.now) }
{
    let mut copies = Vec::with_capacity(alloc, texts.len())?;
    for text in texts {
        copies.push(text.copy(alloc)?)?;
    }
    Ok(copies)
}
