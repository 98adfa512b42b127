//! From a tree to its text: the tokens of the tree go to the writer of `json`, without a value of `serde_json` in between.
ghost use Rattle.std.specs.Prelude.{◌≡◌, ◌++◌, OnOk, IfOk, IfErr, IsUtf8, string_bytes};
ghost use Rattle.json.specs.Tree.{json_tokens, items_tokens, members_tokens};
ghost use Rattle.jtree.specs.Data.{Data, IsTree};
ghost use Rattle.jtree.specs.Text.{outline, items_outline, members_outline, compact};
ghost use Rattle.jtree.specs.Reads.{ReadsBack};
ghost use Rattle.jtree.specs.ReadsAll.{ReadsAllBack};
ghost use Rattle.jtree.specs.View.{data_of};
ghost use Rattle.jtree.specs.declared.fault.JFault.TheVariants.{NoMemory};

use crate::fault::JFault;
use crate::value::{Items, Members, Tree};
use json::Writer;
use std::alloc::{AllocError, Global};

impl Tree {
    /// The compact JSON text (RFC 8259): no white space, members by the bytes of their names, integers in decimal, other numbers as
    /// they were written, and in strings the escapes `\"`, `\\`, `\b`, `\t`, `\n`, `\f` and `\r`, `\u00` with two lower-case digits for
    /// the other control characters, and all else as it is.
    ///
    /// Where the tree nests at most `MOST_DEPTH` deep and the text has at most `MOST_BYTES` bytes, it reads back to the same tree: with
    /// `Numbers::All` always, and by default where all numbers are integers. `NoMemory` where an allocation fails.
    pub fn to_text(&self, alloc: Global) -> Result<String, JFault>
        ensures ok { IfOk result (λ s. string_bytes s ≡ compact (data_of self.now)) }
        ensures reads_back { IfOk result (λ s. ReadsBack (data_of self.now) (string_bytes s)) }
        ensures reads_all_back { IfOk result (λ s. ReadsAllBack (data_of self.now) (string_bytes s)) }
        ensures err { IfErr result (λ e. e ≡ NoMemory) }
    {
        let text = self.append_text(Vec::new(alloc))?;
        Ok(String::from_utf8(text).unwrap())
    }

    /// Appends to `out` the text that `to_text` gives. Where an allocation fails, `out` is dropped.
    pub fn append_text(&self, out: Vec<u8>) -> Result<Vec<u8>, AllocError>
        ensures ok { IfOk result (λ v. v.items ≡ out.items ++ compact (data_of self.now)) }
        ensures utf8 { OnOk result (IsUtf8 (compact (data_of self.now))) }
        ensures reads_back { OnOk result (ReadsBack (data_of self.now) (compact (data_of self.now))) }
        ensures reads_all_back { OnOk result (ReadsAllBack (data_of self.now) (compact (data_of self.now))) }
    {
        self.reveal_invariant();
        let mut writer = Writer::new(out);
        write_tree(self, &mut writer)?;
        Ok(writer.into_inner())
    }
}

#[cycle(write)]
fn write_tree(tree: &Tree, out: &mut Writer) -> Result<(), AllocError>
    ensures ok { OnOk result
        (out.new.tokens ≡ out.old.tokens ++ json_tokens (outline (data_of tree.now))) }
    ensures before { out.new.before ≡ out.old.before }
{
    match tree {
        Tree::Null => out.null(),
        Tree::Bool(b) => out.boolean(*b),
        Tree::Int(n) => out.i64(*n),
        Tree::Number(number) => {
            number.reveal_invariant();
            out.number(number.as_str())
        }
        Tree::Text(text) => out.string(text.as_str()),
        Tree::List(items) => {
            out.begin_array()?;
            write_items(items, out)
        }
        Tree::Object(members) => {
            out.begin_object()?;
            write_members(members, out)
        }
    }
}

#[cycle(write)]
fn write_items(items: &Items, out: &mut Writer) -> Result<(), AllocError>
    ensures ok { OnOk result
        (out.new.tokens ≡ out.old.tokens ++ items_tokens (items_outline items.now)) }
    ensures before { out.new.before ≡ out.old.before }
{
    for item in &items.items {
        write_tree(item, out)?;
    }
    out.end_array()
}

#[cycle(write)]
fn write_members(members: &Members, out: &mut Writer) -> Result<(), AllocError>
    ensures ok { OnOk result
        (out.new.tokens
        ≡ out.old.tokens ++ members_tokens (members_outline members.now)) }
    ensures before { out.new.before ≡ out.old.before }
{
    for member in &members.members {
        out.key(member.name.as_str())?;
        write_tree(&member.tree, out)?;
    }
    out.end_object()
}
