//! From bytes to a tree: `serde_json` reads the value, and the tree is made of it.
ghost use Rattle.std.specs.Prelude.{◌≡◌, ◌≢◌, ◌<◌, ◌⊎◌, ◌↔◌, length, Some, None, Err, IfOk, IfErr, IfSome, OnOk, IsErrOf};
ghost use Rattle.std.specs.Io.KnownBytes.{IsAtEnd};
ghost use Rattle.serde_json.specs.View.{view, items_view, members_view};
ghost use Rattle.jtree.specs.Reads.{tree_of, items_tree, members_tree, most_bytes, IsJson, IsNoJson, Reads, IsNoDocument, HasTaken};
ghost use Rattle.jtree.specs.Failures.{HasFailed};
ghost use Rattle.jtree.specs.View.{data_of};
ghost use Rattle.jtree.specs.declared.fault.JFault.TheVariants.{NotAnInteger, NoMemory, NotJson, TooLong, ReadFailed};

use crate::fault::JFault;
use crate::source::{Source, read_bytes};
use crate::value::{Items, Member, Members, Text, Tree};
use serde_json::{Category, Map, Value};
use std::alloc::Global;

/// The length of the longest document that is read, in bytes.
pub const MOST_BYTES: usize = 1_048_576;

/// The deepest nesting of lists and objects that is read.
pub const MOST_DEPTH: usize = 127;

impl Tree {
    /// The tree that a JSON value is (RFC 8259): members in the order of the bytes of their names, and numbers as
    /// integers of 64 bits.
    ///
    /// `NotAnInteger` where some number of the value is not an integer between -2^63 and 2^63 - 1: `serde_json` holds it as
    /// a larger one or as a float, as it does with `1.0`, `1e2` and `-0`. `NoMemory` where an allocation fails.
    pub fn from_value(alloc: Global, value: &Value) -> Result<Tree, JFault>
        ensures ok { IfOk result (λ t. tree_of (view value.now) ≡ Some (data_of t)) }
        ensures not_an_integer { result ≡ Err NotAnInteger → tree_of (view value.now) ≡ None }
        ensures err { IfErr result (λ e. (e ≡ NotAnInteger) ⊎ (e ≡ NoMemory)) }
    {
        read_tree(alloc, value)
    }

    /// The tree of the bytes as JSON (RFC 8259). Of members with the same name the last one is kept.
    ///
    /// `TooLong` exactly where there are more than `MOST_BYTES` bytes, which is decided first. `NotJson` where the
    /// bytes are not UTF-8 or not JSON, where lists and objects nest more than `MOST_DEPTH` deep, and where a number is beyond the
    /// range of floats, as `1e999`. `NotAnInteger` where some number of the value is not an integer between -2^63 and
    /// 2^63 - 1, as for `from_value`. `NoMemory` where an allocation fails.
    pub fn from_bytes(alloc: Global, bytes: &[u8]) -> Result<Tree, JFault>
        ensures ok { IfOk result (λ t. Reads bytes.now (data_of t)) }
        ensures too_long { IsErrOf result TooLong ↔ most_bytes < length bytes.now }
        ensures refused { IfErr result (IsNoDocument bytes.now) }
    {
        if bytes.len() > MOST_BYTES {
            return Err(JFault::TooLong);
        }
        let value = read_value(alloc, bytes)?;
        Tree::from_value(alloc, &value)
    }

    /// The tree of all bytes up to the end of input, as `from_bytes` answers it, in whatever pieces they come.
    ///
    /// `ReadFailed` exactly where the source fails, even after the last byte. Of a document that is too long it takes
    /// `MOST_BYTES + 1` bytes; whatever it answers, it has taken a beginning of the bytes.
    pub fn from_reader<R: Source>(alloc: Global, source: &mut R) -> Result<Tree, JFault>
        ensures ok { IfOk result (λ t. IfSome (R.remaining source.old) (λ bytes. Reads bytes (data_of t))) }
        ensures refused { IfErr result (λ e. e ≢ ReadFailed → IfSome (R.remaining source.old) (λ bytes. IsNoDocument bytes e)) }
        ensures end { OnOk result (IsAtEnd (R.remaining source.new)) }
        ensures taken { HasTaken (R.remaining source.old) (R.remaining source.new) }
        ensures failed { result ≡ Err ReadFailed → HasFailed (R.failures source.old) (R.failures source.new) }
        ensures unfailed { result ≢ Err ReadFailed → R.failures source.new ≡ R.failures source.old }
    {
        let bytes = read_bytes(alloc, source)?;
        Tree::from_bytes(alloc, bytes.as_slice())
    }
}

fn read_value(alloc: Global, bytes: &[u8]) -> Result<Value, JFault>
    ensures ok { IfOk result (λ v. IsJson bytes.now (view v)) }
    ensures not_json { result ≡ Err NotJson → IsNoJson bytes.now }
    ensures err { IfErr result (λ e. (e ≡ NotJson) ⊎ (e ≡ NoMemory)) }
{
    match Value::from_slice(alloc, bytes) {
        Ok(value) => Ok(value),
        Err(error) => match error.classify() {
            Category::Memory => Err(JFault::NoMemory),
            _ => Err(JFault::NotJson),
        },
    }
}

#[cycle(read)]
fn read_tree(alloc: Global, value: &Value) -> Result<Tree, JFault>
    ensures ok { IfOk result (λ t. tree_of (view value.now) ≡ Some (data_of t)) }
    ensures not_an_integer { result ≡ Err NotAnInteger → tree_of (view value.now) ≡ None }
    ensures err { IfErr result (λ e. (e ≡ NotAnInteger) ⊎ (e ≡ NoMemory)) }
{
    match value {
        Value::Null => Ok(Tree::Null),
        Value::Bool(b) => Ok(Tree::Bool(*b)),
        Value::Number(number) => match number.as_i64() {
            Some(n) => Ok(Tree::Int(n)),
            None => Err(JFault::NotAnInteger),
        },
        Value::String(text) => Ok(Tree::Text(Text::from_str(alloc, text.as_str())?)),
        Value::Array(values) => Ok(Tree::List(read_items(alloc, values)?)),
        Value::Object(map) => Ok(Tree::Object(read_members(alloc, map)?)),
    }
}

#[cycle(read)]
fn read_items(alloc: Global, values: &Vec<Value>) -> Result<Items, JFault>
    ensures ok { IfOk result (λ ds. items_tree (items_view values.now.items) ≡ Some ds) }
    ensures not_an_integer { result ≡ Err NotAnInteger
        → items_tree (items_view values.now.items) ≡ None }
    ensures err { IfErr result (λ e. (e ≡ NotAnInteger) ⊎ (e ≡ NoMemory)) }
{
    let mut items = Vec::with_capacity(alloc, values.len())?;
    for value in values {
        let tree = read_tree(alloc, value)?;
        tree.reveal_invariant();
        items.push_reserved(tree);
    }
    Ok(Items { items })
}

#[cycle(read)]
fn read_members(alloc: Global, map: &Map<String, Value>) -> Result<Members, JFault>
    ensures ok { IfOk result (λ ms. members_tree (members_view map.now.entries) ≡ Some ms) }
    ensures not_an_integer { result ≡ Err NotAnInteger
        → members_tree (members_view map.now.entries) ≡ None }
    ensures err { IfErr result (λ e. (e ≡ NotAnInteger) ⊎ (e ≡ NoMemory)) }
{
    let mut members = Vec::with_capacity(alloc, map.len())?;
    for (key, value) in map.iter() {
        let name = Text::from_str(alloc, key.as_str())?;
        let tree = read_tree(alloc, value)?;
        tree.reveal_invariant();
        members.push_reserved(Member { name, tree });
    }
    Ok(Members { members })
}
