//! A whole answer.
ghost use Rattle.std.specs.Prelude.{◌≡◌, None, IfOk, map, string_bytes};
ghost use Rattle.jtree.specs.Data as tree;
ghost use Rattle.jtree.specs.Text.{compact};
ghost use Rattle.jtree.specs.View.{data_of};
ghost use Rattle.jtree.specs.declared.value.Tree.TheVariants.{Text as text_tree};
ghost use Rattle.crdx.specs.Output.Line.{line};
ghost use Rattle.crdx.specs.Program.TextList.{text_list};

use jtree::{Items, Text, Tree};
use std::alloc::{AllocError, Global};

/// A whole answer: the exit status, and the texts for standard output and for standard error.
#[derive(Drop)]
pub(crate) struct Answer {
    pub status: u8,
    pub out: String,
    pub err: String,
}

/// A text as JSON, quoted (RFC 8259).
pub(crate) fn json_text(alloc: Global, text: &str) -> Result<String, AllocError>
    ensures { IfOk result (λ s. string_bytes s ≡ compact (tree.text text.now)) }
{
    json_tree(alloc, &Tree::Text(Text::from_str(alloc, text)?))
}

/// Texts as a JSON list (RFC 8259).
pub(crate) fn json_texts(alloc: Global, texts: &[Text]) -> Result<String, AllocError>
    ensures { IfOk result (λ s. string_bytes s ≡ text_list texts.now) }
{
    let items = text_trees(alloc, texts)?;
    json_tree(alloc, &Tree::List(Items { items }))
}

fn text_trees(alloc: Global, texts: &[Text]) -> Result<Vec<Tree>, AllocError>
    ensures { IfOk result (λ v. v.items ≡ map (λ t. text_tree t) texts.now) }
{
    let mut trees = Vec::new(alloc);
    for text in texts {
        trees.push(Tree::Text(text.copy(alloc)?))?;
    }
    Ok(trees)
}

/// Trees as a JSON list (RFC 8259).
pub(crate) fn json_items(alloc: Global, items: &Items) -> Result<String, AllocError>
    ensures { IfOk result (λ s. string_bytes s ≡ compact (tree.list items.now)) }
{
    let mut copies = Vec::new(alloc);
    for item in &items.items {
        copies.push(item.copy(alloc).map_err(|_| AllocError)?)?;
    }
    json_tree(alloc, &Tree::List(Items { items: copies }))
}

/// A tree as JSON (RFC 8259), on one line.
pub(crate) fn json_tree(alloc: Global, tree: &Tree) -> Result<String, AllocError>
    ensures { IfOk result (λ s. string_bytes s ≡ compact (data_of tree.now)) }
{
    tree.to_text(alloc).map_err(|_| AllocError)
}

/// A tree as a line of JSON.
pub(crate) fn json_line(alloc: Global, tree: &Tree) -> Result<String, AllocError>
    ensures { IfOk result (λ s. string_bytes s ≡ line None (data_of tree.now)) }
{
    let mut text = json_tree(alloc, tree)?;
    text.push_str("\n")?;
    Ok(text)
}
