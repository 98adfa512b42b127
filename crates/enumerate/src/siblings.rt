//! Which items and keys of a list are used already.
ghost use Rattle.std.specs.Prelude.{◌≡◌, ◌<◌, length, get_or, not, ◌||◌, IfOk, ◌↔◌, IsTrue, ◌==◌};
ghost use Rattle.jtree.specs.View.{data_of};
ghost use Rattle.enumerate.specs.Internal.Candidates.{used_rows, agreeing_if, IsFree, rows_of, has_under, agreeing};

use jtree::{Items, Tree};
use plan::Slot;
use std::alloc::{AllocError, Global};

/// Some items of a list. A struct of its own, since the borrow checker does not cover a slice of references that is itself a variant of
/// an enum.
#[derive(Clone, Copy)]
pub(crate) struct Chosen<'a> {
    pub rows: &'a [&'a Tree],
}

/// Objects that have all keys.
#[derive(Clone, Copy)]
pub(crate) enum Rows<'a> {
    /// All items of a list.
    Listed(&'a [Tree]),
    Chosen(Chosen<'a>),
}

impl<'a> Rows<'a> {
    fn len(&self) -> usize
        ensures { result ≡ length (used_rows self.now) }
    {
        match self {
            Rows::Listed(trees) => trees.len(),
            Rows::Chosen(some) => some.rows.len(),
        }
    }

    pub(crate) fn is_empty(&self) -> bool
        ensures { result ≡ (length (used_rows self.now) == 0) }
    {
        self.len() == 0
    }

    /// The object at a place.
    #[inline(always)]
    fn row(&self, place: usize) -> &'a Tree
        requires { place < length (used_rows self.now) }
        ensures { data_of result.now ≡ get_or (used_rows self.now) place (data_of result.now) }
    {
        let row = match self {
            Rows::Listed(trees) => trees.get(place),
            Rows::Chosen(some) => some.rows.get(place).copied(),
        };
        match row {
            Some(row) => row,
            None => unreachable!(),
        }
    }
}

/// Objects that have all keys, and agree on those that were chosen so far.
#[derive(Clone, Copy)]
pub(crate) struct KeyRows<'a> {
    /// The key to be chosen next.
    pub name: &'a str,
    pub rows: Rows<'a>,
    /// How many tuples of candidates the keys after it have.
    pub later: u64,
}

/// Which candidates are used.
#[derive(Clone, Copy)]
pub(crate) enum Used<'a> {
    /// These are.
    Items(&'a [Tree]),
    /// Those that as many rows have under the key as there are tuples of later keys.
    Key(KeyRows<'a>),
}

impl Used<'_> {
    /// Whether it is known that another key comes after the candidate.
    #[inline(always)]
    pub(crate) fn comes_first(&self) -> bool {
        match self {
            Used::Items(_) => false,
            Used::Key(key) => key.later > 1,
        }
    }
}

/// Whether the object has the value under the name.
#[inline(always)]
fn has_under(name: &str, value: &Tree, row: &Tree) -> bool
    ensures { result ≡ has_under name.now (data_of value.now) (data_of row.now) }
{
    match row.get(name) {
        Some(own) => *own == *value,
        None => false,
    }
}

/// How many of the objects have the value under the name.
#[inline(always)]
fn count_agreeing(name: &str, value: &Tree, rows: &Rows<'_>) -> usize
    ensures { result ≡ length (agreeing name.now (data_of value.now) (used_rows rows.now)) }
{
    let mut count = 0;
    for place in 0..rows.len() {
        if has_under(name, value, rows.row(place)) {
            count += 1;
        }
    }
    count
}

/// Whether the object agrees with a value in the slot: where that is a key, it has it there.
#[inline(always)]
fn agrees(slot: &Slot<'_>, value: &Tree, row: &Tree) -> bool
    ensures { result ≡ (not slot.now.key || has_under slot.now.name.now (data_of value.now) (data_of row.now)) }
{
    !slot.key || has_under(slot.name, value, row)
}

/// The objects that agree so far with a value in the slot: where it is a key, those that have it there.
#[inline(always)]
pub(crate) fn still_used<'a>(
    alloc: Global,
    slot: &Slot<'_>,
    value: &Tree,
    used: &Rows<'a>,
) -> Result<Vec<&'a Tree>, AllocError>
    ensures { IfOk result (λ some. rows_of some.items ≡ agreeing_if slot.now.key slot.now.name.now (data_of value.now) (used_rows used.now)) }
{
    let mut some = Vec::new(alloc);
    for place in 0..used.len() {
        let row = used.row(place);
        if agrees(slot, value, row) {
            some.push(row)?;
        }
    }
    Ok(some)
}

/// Leaves out the objects that have another value under the name, or none.
pub(crate) fn keep_agreeing(name: &str, value: &Tree, rows: &mut Vec<&Tree>)
    ensures { rows_of rows.new.items ≡ agreeing name.now (data_of value.now) (rows_of rows.old.items) }
{
    rows.retain(|row| has_under(name, value, row));
}

/// Whether the candidate is free.
#[inline(always)]
pub(crate) fn is_free(used: &Used<'_>, tree: &Tree) -> bool
    ensures { IsTrue result ↔ IsFree used.now (data_of tree.now) }
{
    match used {
        Used::Items(items) => !items.contains(tree),
        // No more rows agree than there are.
        Used::Key(key) if (key.rows.len() as u64) < key.later => true,
        Used::Key(key) => (count_agreeing(key.name, tree, &key.rows) as u64) < key.later,
    }
}
