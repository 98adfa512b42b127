//! Copies of texts and trees.
ghost use Rattle.std.specs.Prelude.{◌≡◌, IfOk, IfErr, OnOk, OnErr};
ghost use Rattle.jtree.specs.View.{data_of};
ghost use Rattle.jtree.specs.declared.fault.JFault.TheVariants.{NoMemory};

use crate::fault::JFault;
use crate::value::{Items, Member, Members, Text, Tree};
use std::alloc::{AllocError, Global};

impl Text {
    /// A text with these bytes.
    pub fn from_str(alloc: Global, text: &str) -> Result<Text, AllocError>
        ensures { IfOk result (λ t. t ≡ text.now) }
    {
        Ok(Text {
            text: String::from_str(alloc, text)?,
        })
    }

    /// The text itself.
    pub fn as_str(&self) -> &str
        ensures { result.now ≡ self.now }
    {
        self.text.as_str()
    }

    /// An equal text.
    pub fn copy(&self, alloc: Global) -> Result<Text, AllocError>
        ensures { IfOk result (λ t. t ≡ self.now) }
    {
        Text::from_str(alloc, self.as_str())
    }

    /// Makes it this text, within its capacity where that is enough. `AllocError` where an allocation fails, and it is
    /// then unchanged.
    pub fn set(&mut self, text: &str) -> Result<(), AllocError>
        ensures ok { OnOk result (self.new ≡ text.now) }
        ensures err { OnErr result (self.new ≡ self.old) }
    {
        self.text
            .reserve(text.len().saturating_sub(self.text.len()))?;
        self.text.clear();
        self.text.push_str(text).unwrap();
        Ok(())
    }
}

impl Tree {
    /// An equal tree. `NoMemory` where an allocation fails.
    pub fn copy(&self, alloc: Global) -> Result<Tree, JFault>
        ensures ok { IfOk result (λ t. t ≡ self.now) }
        ensures err { IfErr result (λ e. e ≡ NoMemory) }
    {
        Ok(copy_tree(self, alloc)?)
    }

    /// An equal tree, as `copy` makes it. `AllocError` where an allocation fails.
    pub fn try_clone(&self, alloc: Global) -> Result<Tree, AllocError>
        ensures { IfOk result (λ t. t ≡ self.now) }
    {
        copy_tree(self, alloc)
    }

    /// Makes it equal to `value`. Where both are strings, the capacity of the string is reused; else a copy replaces it.
    /// `AllocError` where an allocation fails, and it is then unchanged.
    #[inline(always)]
    pub fn set(&mut self, alloc: Global, value: &Tree) -> Result<(), AllocError>
        ensures ok { OnOk result (data_of self.new ≡ data_of value.now) }
        ensures err { OnErr result (data_of self.new ≡ data_of self.old) }
    {
        match (&mut *self, value) {
            (Tree::Int(number), Tree::Int(value)) => *number = *value,
            (Tree::Text(text), Tree::Text(value)) => text.set(value.as_str())?,
            _ => *self = copy_tree(value, alloc)?,
        }
        Ok(())
    }
}

#[cycle(copy)]
fn copy_tree(tree: &Tree, alloc: Global) -> Result<Tree, AllocError>
    ensures { IfOk result (λ t. t ≡ tree.now) }
{
    match tree {
        Tree::Null => Ok(Tree::Null),
        Tree::Bool(b) => Ok(Tree::Bool(*b)),
        Tree::Int(n) => Ok(Tree::Int(*n)),
        Tree::Number(number) => Ok(Tree::Number(number.copy(alloc)?)),
        Tree::Text(text) => Ok(Tree::Text(text.copy(alloc)?)),
        Tree::List(items) => Ok(Tree::List(copy_items(items, alloc)?)),
        Tree::Object(members) => Ok(Tree::Object(copy_members(members, alloc)?)),
    }
}

#[cycle(copy)]
fn copy_items(items: &Items, alloc: Global) -> Result<Items, AllocError>
    ensures { IfOk result (λ t. t ≡ items.now) }
{
    let mut copies = Vec::with_capacity(alloc, items.items.len())?;
    for item in &items.items {
        copies.push_reserved(copy_tree(item, alloc)?);
    }
    Ok(Items { items: copies })
}

#[cycle(copy)]
fn copy_members(members: &Members, alloc: Global) -> Result<Members, AllocError>
    ensures { IfOk result (λ t. t ≡ members.now) }
{
    let mut copies = Vec::with_capacity(alloc, members.members.len())?;
    for member in &members.members {
        let name = member.name.copy(alloc)?;
        let tree = copy_tree(&member.tree, alloc)?;
        copies.push_reserved(Member { name, tree });
    }
    Ok(Members { members: copies })
}
