//! Values and names in the order in which they come, each once, and no more than so many.
ghost use Rattle.std.specs.Prelude.{◌≡◌, IfOk, OnOk};
ghost use Rattle.jtree.specs.View.{data_of};
ghost use Rattle.plan.specs.Samples.Over;
ghost use Rattle.suggest.specs.View.{trees_of};
ghost use Rattle.suggest.specs.Suggested.Chosen.{with_value, with_name, chosen_values};

use jtree::{Text, Tree};
use schema::is_among;
use std::alloc::{AllocError, Global};

/// The first of these values, each once, no more than `most`.
pub(crate) fn chosen(alloc: Global, most: usize, values: &[Tree]) -> Result<Vec<Tree>, AllocError>
    ensures { IfOk result (λ ts. trees_of ts.items ≡ chosen_values most (trees_of values.now)) }
{
    let mut some = Vec::new(alloc);
    for value in values {
        push_value(alloc, most, &mut some, value)?;
    }
    Ok(some)
}

/// Adds a value, unless it is one of them or there are so many.
fn push_value(
    alloc: Global,
    most: usize,
    values: &mut Vec<Tree>,
    value: &Tree,
) -> Result<(), AllocError>
    ensures { OnOk result (trees_of values.new.items ≡ with_value most (trees_of values.old.items) (data_of value.now)) }
{
    if values.len() < most && !is_in(value, values) {
        values.push(value.try_clone(alloc)?)?;
    }
    Ok(())
}

/// Whether a value is one of these.
fn is_in(value: &Tree, values: &[Tree]) -> bool
    ensures { result ≡ Over.is_in (data_of value.now) (trees_of values.now) }
{
    for other in values {
        if *value == *other {
            return true;
        }
    }
    false
}

/// Adds a name, unless it is one of them or there are so many.
pub(crate) fn push_name(
    alloc: Global,
    most: usize,
    names: &mut Vec<Text>,
    name: &str,
) -> Result<(), AllocError>
    ensures { OnOk result (names.new.items ≡ with_name most names.old.items name.now) }
{
    if names.len() < most && !is_among(name, names) {
        names.push(Text::from_str(alloc, name)?)?;
    }
    Ok(())
}
