//! From bytes to a tree with all numbers: `json` reads the document, and the tree is made of it.
ghost use Rattle.std.specs.Prelude.{◌≡◌, ◌≢◌, ◌<◌, ◌⊎◌, ◌↔◌, length, Some, None, Err, IfOk, IfErr, OnOk, IsErrOf};
ghost use Rattle.json.specs.Tree.{HasNumbers, ItemsHaveNumbers, MembersHaveNumbers};
ghost use Rattle.json.specs.Value.{value_view, items_view, members_view};
ghost use Rattle.json.specs.declared.error.Error.TheVariants.{OutOfMemory};
ghost use Rattle.jtree.specs.Data.{no_members, AreMembers};
ghost use Rattle.jtree.specs.MemberPlace.{with_member};
ghost use Rattle.jtree.specs.Reads.{most_bytes};
ghost use Rattle.jtree.specs.ReadsAll.{tree_in, items_in, members_in, ReadsAll, IsNoDocumentAll};
ghost use Rattle.jtree.specs.View.{data_of};
ghost use Rattle.jtree.specs.Internal.Entries.{members_of_entries};
ghost use Rattle.jtree.specs.declared.fault.JFault.TheVariants.{NoMemory, NotJson, TooLong};

use crate::fault::JFault;
use crate::integer_text::number_from_text;
use crate::read::{MOST_BYTES, MOST_DEPTH};
use crate::value::{Items, Member, Members, Text, Tree};
use json::{Error, Reader, Scratch, Value};
use std::alloc::{AllocError, Global};
use std::collections::BTreeMap;

/// The tree of the bytes as JSON, with all numbers.
pub(crate) fn tree_from_bytes(alloc: Global, bytes: &[u8]) -> Result<Tree, JFault>
    ensures ok { IfOk result (λ t. ReadsAll bytes.now (data_of t)) }
    ensures too_long { IsErrOf result TooLong ↔ most_bytes < length bytes.now }
    ensures refused { IfErr result (IsNoDocumentAll bytes.now) }
{
    if bytes.len() > MOST_BYTES {
        return Err(JFault::TooLong);
    }
    let Ok(text) = str::from_utf8(bytes) else {
        return Err(JFault::NotJson);
    };
    let mut scratch = Scratch::new(alloc);
    let mut reader = Reader::new(text, &mut scratch)?;
    let document = match Value::read(alloc, &mut reader, MOST_DEPTH) {
        Ok(document) => document,
        Err(error) => return Err(fault_of(error)),
    };
    if reader.next().is_some() {
        return Err(JFault::NotJson);
    }
    read_tree(alloc, &document)
}

fn fault_of(error: Error) -> JFault
    ensures not_json { result ≡ NotJson → error ≢ OutOfMemory }
    ensures either { (result ≡ NotJson) ⊎ (result ≡ NoMemory) }
{
    match error {
        Error::OutOfMemory => JFault::NoMemory,
        _ => JFault::NotJson,
    }
}

#[cycle(read)]
fn read_tree(alloc: Global, value: &Value<'_>) -> Result<Tree, JFault>
    ensures ok { IfOk result (λ t. tree_in (value_view value.now) ≡ Some (data_of t)) }
    ensures not_json { result ≡ Err NotJson → HasNumbers (value_view value.now) → tree_in (value_view value.now) ≡ None }
    ensures err { IfErr result (λ e. (e ≡ NotJson) ⊎ (e ≡ NoMemory)) }
{
    match value {
        Value::Null => Ok(Tree::Null),
        Value::Bool(b) => Ok(Tree::Bool(*b)),
        Value::Number(text) => number_from_text(alloc, *text),
        Value::String(text) => Ok(Tree::Text(Text::from_str(alloc, *text)?)),
        Value::Array(values) => Ok(Tree::List(read_items(alloc, values)?)),
        Value::Object(pairs) => Ok(Tree::Object(read_members(alloc, pairs)?)),
    }
}

#[cycle(read)]
fn read_items(alloc: Global, values: &Vec<Value<'_>>) -> Result<Items, JFault>
    ensures ok { IfOk result (λ ds. items_in (items_view values.now.items) ≡ Some ds) }
    ensures not_json { result ≡ Err NotJson → ItemsHaveNumbers (items_view values.now.items) → items_in (items_view values.now.items) ≡ None }
    ensures err { IfErr result (λ e. (e ≡ NotJson) ⊎ (e ≡ NoMemory)) }
{
    let mut items = Vec::with_capacity(alloc, values.len())?;
    for value in values {
        let tree = read_tree(alloc, value)?;
        tree.reveal_invariant();
        items.push_reserved(tree);
    }
    Ok(Items { items })
}

/// The members go through a map, so that however many there are, and in whatever order, each takes little time.
#[cycle(read)]
fn read_members(alloc: Global, pairs: &Vec<(&str, Value<'_>)>) -> Result<Members, JFault>
    ensures ok { IfOk result (λ ms. members_in (members_view pairs.now.items) no_members ≡ Some ms) }
    ensures not_json { result ≡ Err NotJson → MembersHaveNumbers (members_view pairs.now.items) → members_in (members_view pairs.now.items) no_members ≡ None }
    ensures err { IfErr result (λ e. (e ≡ NotJson) ⊎ (e ≡ NoMemory)) }
{
    let mut map: BTreeMap<Text, Tree> = BTreeMap::new(alloc);
    for (name, value) in pairs {
        let tree = read_tree(alloc, value)?;
        tree.reveal_invariant();
        let name = Text::from_str(alloc, *name)?;
        put_entry(&mut map, name, tree)?;
    }
    Ok(members_from(alloc, map)?)
}

/// Puts a tree under a name, in place of the one that is there.
fn put_entry(map: &mut BTreeMap<Text, Tree>, name: Text, tree: Tree) -> Result<(), AllocError>
    ensures { OnOk result (members_of_entries map.new.entries ≡ with_member name (data_of tree) (members_of_entries map.old.entries)) }
{
    match map.insert(name, tree) {
        Ok(_) => Ok(()),
        Err(_) => Err(AllocError),
    }
}

/// The members of a map.
fn members_from(alloc: Global, map: BTreeMap<Text, Tree>) -> Result<Members, AllocError>
    requires { AreMembers (members_of_entries map.entries) }
    ensures { IfOk result (λ ms. ms ≡ members_of_entries map.entries) }
{
    let mut members = Vec::with_capacity(alloc, map.len())?;
    for (name, tree) in map {
        members.push(Member { name, tree })?;
    }
    Ok(Members { members })
}
