//! The names of an object in order, with those that are required and missing.
ghost use Rattle.std.specs.Prelude.{◌≡◌, ◌++◌, ◌∷◌, ◌≤◌, take, drop, None, IfOk, OnOk, IfSome, length};
ghost use Rattle.jtree.specs.View.{data_of};
ghost use Rattle.judge.specs.Keywords.{text_list, texts_of};
ghost use Rattle.judge.specs.Asked.{required as required_of, required_by, schemas_of};
ghost use Rattle.judge.specs.Internal.FaultsByLevel.{slots_of, member_slots, with_slot, with_slots, no_value};

use jtree::{Items, Members, Tree};
use std::alloc::{AllocError, Global};
use std::cmp::Ordering;

/// A name, and the value under it, where it is not missing.
#[derive(Drop)]
pub(crate) struct Slot<'a> {
    pub name: &'a str,
    pub value: Option<&'a Tree>,
}

/// The names of an object, with those that some schemas require and that are missing.
pub(crate) fn slots<'a>(
    alloc: Global,
    schemas: &[&'a Tree],
    members: &'a Members,
) -> Result<Vec<Slot<'a>>, AllocError>
    ensures { IfOk result (λ slots. slots_of slots.items ≡ with_slots (required_of (schemas_of schemas.now)) (member_slots members.now)) }
{
    let mut slots = own_slots(alloc, members)?;
    for schema in schemas {
        add_required(&mut slots, schema)?;
    }
    Ok(slots)
}

fn own_slots<'a>(alloc: Global, members: &'a Members) -> Result<Vec<Slot<'a>>, AllocError>
    ensures { IfOk result (λ slots. slots_of slots.items ≡ member_slots members.now) }
{
    let mut slots = Vec::with_capacity(alloc, members.members.len())?;
    for member in &members.members {
        slots.push(Slot {
            name: member.name.as_str(),
            value: Some(&member.tree),
        })?;
    }
    Ok(slots)
}

fn add_required<'a>(slots: &mut Vec<Slot<'a>>, schema: &'a Tree) -> Result<(), AllocError>
    ensures { OnOk result (slots_of slots.new.items ≡ with_slots (required_by (data_of schema.now)) (slots_of slots.old.items)) }
{
    match schema {
        Tree::Object(keywords) => match keywords.get("required") {
            Some(Tree::List(names)) => add_names(slots, names),
            _ => Ok(()),
        },
        _ => Ok(()),
    }
}

fn add_names<'a>(slots: &mut Vec<Slot<'a>>, names: &'a Items) -> Result<(), AllocError>
    ensures { OnOk result (slots_of slots.new.items ≡ with_slots (texts_of names.now) (slots_of slots.old.items)) }
{
    for name in &names.items {
        add_name(slots, name)?;
    }
    Ok(())
}

fn add_name<'a>(slots: &mut Vec<Slot<'a>>, name: &'a Tree) -> Result<(), AllocError>
    ensures { OnOk result (slots_of slots.new.items ≡ with_slots (text_list (data_of name.now)) (slots_of slots.old.items)) }
{
    match name {
        Tree::Text(name) => add_slot(slots, name.as_str()),
        _ => Ok(()),
    }
}

/// Adds a name in its place, if it is not there.
fn add_slot<'a>(slots: &mut Vec<Slot<'a>>, name: &'a str) -> Result<(), AllocError>
    ensures { OnOk result (slots_of slots.new.items ≡ with_slot name.now (slots_of slots.old.items)) }
{
    match place_of(slots, name) {
        Some(at) => Ok(slots.insert(at, Slot { name, value: None })?),
        None => Ok(()),
    }
}

/// Where a name belongs, if it is not there.
fn place_of(slots: &[Slot<'_>], name: &str) -> Option<usize>
    ensures some { IfSome result (λ at. with_slot name.now (slots_of slots.now) ≡ slots_of (take at slots.now) ++ (no_value name.now ∷ slots_of (drop at slots.now))) }
    ensures none { result ≡ None → with_slot name.now (slots_of slots.now) ≡ slots_of slots.now }
    ensures within { IfSome result (λ at. at ≤ length slots.now) }
{
    for (i, slot) in slots.iter().enumerate() {
        match name.cmp(slot.name) {
            Ordering::Less => return Some(i),
            Ordering::Equal => return None,
            Ordering::Greater => {}
        }
    }
    Some(slots.len())
}
