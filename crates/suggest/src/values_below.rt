//! What some values have one step below them.
ghost use Rattle.std.specs.Prelude.{◌≡◌, ◌++◌, IfOk, OnOk};
ghost use Rattle.suggest.specs.View.{trees_at};
ghost use Rattle.suggest.specs.Suggested.ValuesBelow;
ghost use Rattle.suggest.specs.Suggested.ValuesBelow.{field_values, items_in, item_values, names_of, members_in, member_values, member_names};
ghost use Rattle.jtree.specs.View.{data_of};

use jtree::{Text, Tree};
use std::alloc::{AllocError, Global};

/// What is under a name in them.
pub(crate) fn values_under<'a>(
    alloc: Global,
    name: &str,
    values: &[&'a Tree],
) -> Result<Vec<&'a Tree>, AllocError>
    ensures { IfOk result (λ ts. trees_at ts.items ≡ field_values name.now (trees_at values.now)) }
{
    let mut below = Vec::new(alloc);
    for value in values {
        if let Some(part) = value.get(name) {
            below.push(part)?;
        }
    }
    Ok(below)
}

/// The items of the lists among them.
pub(crate) fn items_of<'a>(alloc: Global, values: &[&'a Tree]) -> Result<Vec<&'a Tree>, AllocError>
    ensures { IfOk result (λ ts. trees_at ts.items ≡ item_values (trees_at values.now)) }
{
    let mut below = Vec::new(alloc);
    for value in values {
        push_items(value, &mut below)?;
    }
    Ok(below)
}

fn push_items<'a>(value: &'a Tree, below: &mut Vec<&'a Tree>) -> Result<(), AllocError>
    ensures { OnOk result (trees_at below.new.items ≡ trees_at below.old.items ++ items_in (data_of value.now)) }
{
    if let Tree::List(items) = value {
        for item in &items.items {
            below.push(item)?;
        }
    }
    Ok(())
}

/// The values of the members of the objects among them.
pub(crate) fn values_of<'a>(alloc: Global, values: &[&'a Tree]) -> Result<Vec<&'a Tree>, AllocError>
    ensures { IfOk result (λ ts. trees_at ts.items ≡ member_values (trees_at values.now)) }
{
    let mut below = Vec::new(alloc);
    for value in values {
        push_values(value, &mut below)?;
    }
    Ok(below)
}

fn push_values<'a>(value: &'a Tree, below: &mut Vec<&'a Tree>) -> Result<(), AllocError>
    ensures { OnOk result (trees_at below.new.items ≡ trees_at below.old.items ++ ValuesBelow.trees_of (members_in (data_of value.now))) }
{
    if let Tree::Object(members) = value {
        for member in &members.members {
            below.push(&member.tree)?;
        }
    }
    Ok(())
}

/// Adds the names of the members of the objects among them.
pub(crate) fn push_names(
    alloc: Global,
    values: &[&Tree],
    names: &mut Vec<Text>,
) -> Result<(), AllocError>
    ensures { OnOk result (names.new.items ≡ names.old.items ++ member_names (trees_at values.now)) }
{
    for value in values {
        push_names_of(alloc, value, names)?;
    }
    Ok(())
}

fn push_names_of(alloc: Global, value: &Tree, names: &mut Vec<Text>) -> Result<(), AllocError>
    ensures { OnOk result (names.new.items ≡ names.old.items ++ names_of (members_in (data_of value.now))) }
{
    if let Tree::Object(members) = value {
        for member in &members.members {
            names.push(member.name.copy(alloc)?)?;
        }
    }
    Ok(())
}
