//! The last node of a tree, and its text at the end of a text that is already there.
//!
//! It is for those who make trees one after the other that mostly differ in their last node, as an enumeration of samples does: to
//! replace that node, and its text, takes a third of the time that a new tree and its text take.
ghost use Rattle.std.specs.Prelude.{◌≡◌, ◌+◌, ◌-◌, ◌^◌, ◌≤◌, ◌++◌, ◌↔◌};
ghost use Rattle.std.specs.Prelude.{ℕ, List, length, min, true, false, IsTrue, IfOk, OnOk, OnErr, option_map};
ghost use Rattle.jtree.specs.Data.{Data, Items, Members, list, object, IsTree};
ghost use Rattle.jtree.specs.Nodes.{node_count};
ghost use Rattle.jtree.specs.Text.{compact};
ghost use Rattle.jtree.specs.Last.{last_of, last_depth, with_last, with_part, items_with_last, members_with_last};
ghost use Rattle.jtree.specs.PartText.{front_text, part_text};
ghost use Rattle.jtree.specs.View.{data_of, items_of, members_of};
ghost use Rattle.jtree.specs.Overwriting.{Overwrites};
ghost use Rattle.jtree.specs.Internal.LastText.{count, last_part, text_after};

use crate::value::{Member, Tree};
use itoa::Buffer;
use std::alloc::{AllocError, Global};
use std::mem;

impl Tree {
    /// The last node, which is reached by going down by the last item or member while there is one. A scalar, an empty list
    /// and an empty object are their own last node.
    pub fn last(&self) -> &Tree
        ensures { data_of result.now ≡ last_of (data_of self.now) }
    {
        find_last(self).node
    }

    /// Replaces the last node by a tree. Where both are strings, the capacity of the old one is reused. It answers how many steps, each
    /// to the last item or member, lead to that node, at most 2^64 - 1. `AllocError` where an allocation fails, and the tree is then
    /// unchanged.
    pub fn set_last(&mut self, alloc: Global, value: &Tree) -> Result<usize, AllocError>
        ensures ok { OnOk result (data_of self.new ≡ with_last (data_of self.old) (data_of value.now)) }
        ensures depth { IfOk result (λ depth. depth ≡ min (last_depth (data_of self.old)) (2 ^ 64 - 1)) }
        ensures err { OnErr result (data_of self.new ≡ data_of self.old) }
    {
        value.reveal_invariant();
        set_last_node(self, alloc, value, 0)
    }

    /// Overwrites as many bytes of `text` as the text of `before` has, those before the last `after` bytes, by the text of this tree,
    /// and answers whether it did so. `false`, with `text` unchanged, where the two texts differ in length or `text` is too short.
    /// It does not read the bytes that it overwrites. What `scratch` holds is lost; its capacity is reused.
    ///
    /// `AllocError` where an allocation fails, and `text` is then unchanged.
    pub fn overwrite(
        &self,
        before: &Tree,
        after: usize,
        text: &mut Vec<u8>,
        scratch: &mut Vec<u8>,
    ) -> Result<bool, AllocError>
        ensures ok { IfOk result (λ done. Overwrites done after (length (compact (data_of before.now))) (compact (data_of self.now)) text.old.items text.new.items) }
        ensures err { OnErr result (text.new.items ≡ text.old.items) }
    {
        if let (Tree::Int(old), Tree::Int(new)) = (before, self) {
            let mut buffer = Buffer::new();
            let size = buffer.format(*old).len();
            return Ok(overwrite_bytes(text, after, size, buffer.format(*new).as_bytes()));
        }
        let empty = Vec::new(*scratch.allocator());
        let mut room = mem::replace(scratch, empty);
        room.clear();
        let first = before.append_text(room)?;
        let size = first.len();
        let both = self.append_text(first)?;
        let done = overwrite_bytes(text, after, size, &both[size..]);
        *scratch = both;
        Ok(done)
    }

    /// How many steps, each to the last item or member, lead to the last node, at most 2^64 - 1.
    pub fn last_depth(&self) -> usize
        ensures { result ≡ min (last_depth (data_of self.now)) (2 ^ 64 - 1) }
    {
        find_last(self).after
    }

    /// Appends the compact text of this tree from one part to the end. The part is the one that `depth` steps, each to the last
    /// item or member, lead to: its text is appended, and then the brackets that close what is around it. Where there is no such
    /// part, the brackets that close what is around the last node. Where an allocation fails, `out` is dropped.
    pub fn append_part(&self, depth: usize, out: Vec<u8>) -> Result<Vec<u8>, AllocError>
        ensures { IfOk result (λ v. v.items ≡ out.items ++ part_text depth (data_of self.now)) }
    {
        append_part_of(self, depth, out)
    }
}

#[cycle(append_part)]
fn append_part_of(tree: &Tree, depth: usize, out: Vec<u8>) -> Result<Vec<u8>, AllocError>
    ensures { IfOk result (λ v. v.items ≡ out.items ++ part_text depth (data_of tree.now)) }
{
    if depth == 0 {
        return tree.append_text(out);
    }
    let Some(part) = last_part(tree) else {
        return Ok(out);
    };
    let mut out = append_part_of(part, depth - 1, out)?;
    out.push(closing(tree))?;
    Ok(out)
}

/// The bracket that closes a list or an object.
fn closing(tree: &Tree) -> u8
    ensures list { (ds : Items) → data_of tree.now ≡ list ds → result ≡ 93 }
    ensures object { (ms : Members) → data_of tree.now ≡ object ms → result ≡ 125 }
{
    match tree {
        Tree::List(_) => b']',
        _ => b'}',
    }
}

#[cycle(set_last)]
fn set_last_node(
    tree: &mut Tree,
    alloc: Global,
    value: &Tree,
    above: usize,
) -> Result<usize, AllocError>
    requires { IsTree (data_of value.now) }
    ensures ok { OnOk result (data_of tree.new ≡ with_last (data_of tree.old) (data_of value.now)) }
    ensures depth { IfOk result (λ depth. depth ≡ min (above + last_depth (data_of tree.old)) (2 ^ 64 - 1)) }
    ensures err { OnErr result (data_of tree.new ≡ data_of tree.old) }
{
    match tree {
        Tree::List(list) if !list.items.is_empty() => {
            set_last_item(&mut list.items, alloc, value, above)
        }
        Tree::Object(object) if !object.members.is_empty() => {
            set_last_member(&mut object.members, alloc, value, above)
        }
        _ => {
            tree.set(alloc, value)?;
            Ok(above)
        }
    }
}

#[cycle(set_last)]
#[inline(always)]
fn set_last_item(
    items: &mut Vec<Tree>,
    alloc: Global,
    value: &Tree,
    above: usize,
) -> Result<usize, AllocError>
    requires { IsTree (data_of value.now) }
    ensures ok { OnOk result (items_of items.new.items ≡ items_with_last (items_of items.old.items) (data_of value.now)) }
    ensures depth { IfOk result (λ depth. depth ≡ min (above + last_depth (list (items_of items.old.items))) (2 ^ 64 - 1)) }
    ensures err { OnErr result (items_of items.new.items ≡ items_of items.old.items) }
{
    match items.last_mut() {
        Some(item) => set_last_node(item, alloc, value, above.saturating_add(1)),
        None => Ok(above),
    }
}

#[cycle(set_last)]
#[inline(always)]
fn set_last_member(
    members: &mut Vec<Member>,
    alloc: Global,
    value: &Tree,
    above: usize,
) -> Result<usize, AllocError>
    requires { IsTree (data_of value.now) }
    ensures ok { OnOk result (members_of members.new.items ≡ members_with_last (members_of members.old.items) (data_of value.now)) }
    ensures depth { IfOk result (λ depth. depth ≡ min (above + last_depth (object (members_of members.old.items))) (2 ^ 64 - 1)) }
    ensures err { OnErr result (members_of members.new.items ≡ members_of members.old.items) }
{
    match members.last_mut() {
        Some(member) => set_last_node(&mut member.tree, alloc, value, above.saturating_add(1)),
        None => Ok(above),
    }
}

/// The last node of a tree, and how many bytes follow its text in the text of the tree, at most 2^64 - 1.
#[derive(Clone, Copy)]
struct Last<'a> {
    node: &'a Tree,
    after: usize,
}

/// Finds the last node of a tree.
fn find_last(tree: &Tree) -> Last<'_>
    ensures node { data_of result.node.now ≡ last_of (data_of tree.now) }
    ensures after { result.after ≡ count (text_after (data_of tree.now)) }
{
    let mut node = tree;
    let mut after: usize = 0;
    while let Some(part) = last_part(node) {
        node = part;
        after = after.saturating_add(1);
    }
    Last { node, after }
}

/// The last item, or the value of the last member. `None` where there is none.
fn last_part(tree: &Tree) -> Option<&Tree>
    ensures { option_map (λ t. data_of t.now) result ≡ last_part (data_of tree.now) }
{
    match tree {
        Tree::List(list) => list.items.last(),
        Tree::Object(object) => match object.members.last() {
            Some(member) => Some(&member.tree),
            None => None,
        },
        _ => None,
    }
}

/// Overwrites the `size` bytes before the last `after` ones by `new`, where that has as many. Whether it did so.
fn overwrite_bytes(text: &mut Vec<u8>, after: usize, size: usize, new: &[u8]) -> bool
    ensures { Overwrites result after size new.now text.old.items text.new.items }
{
    if size != new.len() {
        return false;
    }
    let Some(end) = text.len().checked_sub(after) else {
        return false;
    };
    let Some(start) = end.checked_sub(size) else {
        return false;
    };
    text[start..end].copy_from_slice(new);
    true
}
