//! Members of documents, each put where its name belongs.
ghost use Rattle.std.specs.Prelude.{◌≡◌, IfOk, map};
ghost use Rattle.std.specs.List.{fold};
ghost use Rattle.jtree.specs.Data;
ghost use Rattle.jtree.specs.MemberPlace.{with_member};
ghost use Rattle.jtree.specs.View.{data_of};
ghost use Rattle.suggest.specs.View.{trees_of};
ghost use Rattle.suggest.specs.Internal.Parts.{entries_of};
ghost use Rattle.suggest.specs.Suggested.Document.{items_of, with_entry};

use crate::suggestions::Entry;
use jtree::{Items, Members, Text, Tree};
use std::alloc::{AllocError, Global};

/// The members with this one, which takes the place of one of its name.
pub(crate) fn with(
    alloc: Global,
    members: Members,
    name: &str,
    tree: Tree,
) -> Result<Members, AllocError>
    ensures { IfOk result (λ ms. ms ≡ with_member name.now (data_of tree) members) }
{
    let mut members = members;
    members.insert(Text::from_str(alloc, name)?, tree)?;
    Ok(members)
}

/// The members with a list of values for each of these paths.
pub(crate) fn with_lists(
    alloc: Global,
    members: Members,
    entries: &[Entry],
) -> Result<Members, AllocError>
    ensures { IfOk result (λ ms. ms ≡ fold with_entry members (entries_of entries.now)) }
{
    let mut members = members;
    for entry in entries {
        let values = list(alloc, &entry.values)?;
        members = with(alloc, members, entry.path.as_str(), values)?;
    }
    Ok(members)
}

/// A list of copies of these trees.
pub(crate) fn list(alloc: Global, trees: &[Tree]) -> Result<Tree, AllocError>
    ensures { IfOk result (λ t. data_of t ≡ Data.list (items_of (trees_of trees.now))) }
{
    let mut items = Vec::with_capacity(alloc, trees.len())?;
    for tree in trees {
        tree.reveal_invariant();
        items.push(tree.try_clone(alloc)?)?;
    }
    Ok(Tree::List(Items { items }))
}

/// A list of these texts.
pub(crate) fn text_list(alloc: Global, texts: &[Text]) -> Result<Tree, AllocError>
    ensures { IfOk result (λ t. data_of t ≡ Data.list (items_of (map (λ t. Data.text t) texts.now))) }
{
    let mut items = Vec::with_capacity(alloc, texts.len())?;
    for text in texts {
        items.push(Tree::Text(text.copy(alloc)?))?;
    }
    Ok(Tree::List(Items { items }))
}
