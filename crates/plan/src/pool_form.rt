//! The form of a pools document, tested member by member in the order of their names.
ghost use Rattle.std.specs.Prelude.{◌≡◌, ◌∷◌, [], OnOk, IfOk, IfErr, option_map, string_bytes};
ghost use Rattle.jtree.specs.Path;
ghost use Rattle.jtree.specs.Pointer;
ghost use Rattle.jtree.specs.View.{data_of};
ghost use Rattle.plan.specs.Pools.Document.{HasFormBy, pool_form, numbers_form, lists};
ghost use Rattle.plan.specs.Pools.Document;
ghost use Rattle.plan.specs.Pools.PoolsFault.{IsPoolsFaultBy};
ghost use Rattle.plan.specs.declared.pool_limits.PoolLimits.{PoolLimits};
ghost use Rattle.plan.specs.Internal.PoolBreak.{test_of, form_of, other_item, below_name, list_break, pool_break};
ghost use Rattle.plan.specs.Internal.PoolBreak;

use crate::fault::PFault;
use jtree::{Items, Members, Tree, push_index, push_name};
use schema::Profile;
use std::alloc::{AllocError, Global};

/// The form of an entry of a list.
#[derive(Clone, Copy)]
pub(crate) enum EntryKind {
    Integer,
    /// An integer or another number.
    Number,
    Text,
    Any,
}

/// The form of a member.
#[derive(Clone, Copy)]
enum PoolForm {
    /// A list of entries.
    Entries(EntryKind),
    /// An object of lists.
    Lists,
    /// No member has this name.
    Unknown,
}

impl PoolForm {
    /// The form of the member of this name.
    fn of_pool(profile: Profile, name: &str) -> PoolForm
        ensures { form_of result ≡ pool_form profile name.now }
    {
        match name {
            "integers" => PoolForm::Entries(EntryKind::Integer),
            "strings" | "names" | "present" => PoolForm::Entries(EntryKind::Text),
            "any" => PoolForm::Entries(EntryKind::Any),
            "paths" | "fixed" => PoolForm::Lists,
            "numbers" => PoolForm::of_numbers(profile),
            _ => PoolForm::Unknown,
        }
    }

    /// The form of the member `numbers`.
    fn of_numbers(profile: Profile) -> PoolForm
        ensures { form_of result ≡ numbers_form profile }
    {
        match profile {
            Profile::Core => PoolForm::Unknown,
            Profile::Cluster => PoolForm::Entries(EntryKind::Number),
        }
    }
}

impl EntryKind {
    pub(crate) fn admits(self, entry: &Tree) -> bool
        ensures { result ≡ test_of self (data_of entry.now) }
    {
        match self {
            EntryKind::Integer => matches!(entry, Tree::Int(_)),
            EntryKind::Number => matches!(entry, Tree::Int(_) | Tree::Number(_)),
            EntryKind::Text => matches!(entry, Tree::Text(_)),
            EntryKind::Any => true,
        }
    }
}

/// Answers `Form` with the pointer of the first place in path order that breaks the form.
pub(crate) fn check_form(alloc: Global, profile: Profile, document: &Tree) -> Result<(), PFault>
    ensures ok { OnOk result (HasFormBy profile (data_of document.now)) }
    ensures err { (limits : PoolLimits) → IfErr result (IsPoolsFaultBy profile limits (data_of document.now)) }
{
    document.reveal_invariant();
    match first_break(alloc, profile, document)? {
        None => Ok(()),
        Some(pointer) => Err(PFault::Form(pointer)),
    }
}

/// The pointer of the first place in path order that breaks the form.
fn first_break(
    alloc: Global,
    profile: Profile,
    document: &Tree,
) -> Result<Option<String>, AllocError>
    ensures { IfOk result (λ o. option_map string_bytes o ≡ option_map Pointer.pointer (PoolBreak.first_break profile (data_of document.now))) }
{
    match document {
        Tree::Object(members) => members_break(alloc, profile, members),
        _ => Ok(Some(String::new(alloc))),
    }
}

fn members_break(
    alloc: Global,
    profile: Profile,
    members: &Members,
) -> Result<Option<String>, AllocError>
    ensures { IfOk result (λ o. option_map string_bytes o ≡ option_map Pointer.pointer (PoolBreak.members_break (PoolBreak.member_break profile) members.now)) }
{
    for member in &members.members {
        if let Some(pointer) = member_break(alloc, profile, member.name.as_str(), &member.tree)? {
            return Ok(Some(pointer));
        }
    }
    Ok(None)
}

fn member_break(
    alloc: Global,
    profile: Profile,
    name: &str,
    tree: &Tree,
) -> Result<Option<String>, AllocError>
    ensures { IfOk result (λ o. option_map string_bytes o ≡ option_map Pointer.pointer (PoolBreak.member_break profile name.now (data_of tree.now))) }
{
    match PoolForm::of_pool(profile, name) {
        PoolForm::Entries(kind) => entries_break(alloc, name, kind, tree),
        PoolForm::Lists => lists_break(alloc, name, tree),
        PoolForm::Unknown => Ok(Some(name_pointer(alloc, name)?)),
    }
}

fn entries_break(
    alloc: Global,
    name: &str,
    kind: EntryKind,
    tree: &Tree,
) -> Result<Option<String>, AllocError>
    ensures { IfOk result (λ o. option_map string_bytes o ≡ option_map Pointer.pointer (below_name name.now (pool_break (Document.entries (test_of kind)) (data_of tree.now)))) }
{
    match tree {
        Tree::List(items) => match first_other(kind, items) {
            None => Ok(None),
            Some(i) => Ok(Some(entry_pointer(alloc, name, i as u64)?)),
        },
        _ => Ok(Some(name_pointer(alloc, name)?)),
    }
}

fn lists_break(alloc: Global, name: &str, tree: &Tree) -> Result<Option<String>, AllocError>
    ensures { IfOk result (λ o. option_map string_bytes o ≡ option_map Pointer.pointer (below_name name.now (pool_break lists (data_of tree.now)))) }
{
    match tree {
        Tree::Object(members) => match first_no_list(members) {
            None => Ok(None),
            Some(key) => Ok(Some(member_pointer(alloc, name, key)?)),
        },
        _ => Ok(Some(name_pointer(alloc, name)?)),
    }
}

fn name_pointer(alloc: Global, name: &str) -> Result<String, AllocError>
    ensures { IfOk result (λ s. string_bytes s ≡ Pointer.pointer (Path.name name.now ∷ [])) }
{
    let mut pointer = String::new(alloc);
    push_name(&mut pointer, name).map_err(|_| AllocError)?;
    Ok(pointer)
}

fn entry_pointer(alloc: Global, name: &str, index: u64) -> Result<String, AllocError>
    ensures { IfOk result (λ s. string_bytes s ≡ Pointer.pointer (Path.name name.now ∷ Path.index index ∷ [])) }
{
    let mut pointer = name_pointer(alloc, name)?;
    push_index(&mut pointer, index).map_err(|_| AllocError)?;
    Ok(pointer)
}

fn member_pointer(alloc: Global, name: &str, key: &str) -> Result<String, AllocError>
    ensures { IfOk result (λ s. string_bytes s ≡ Pointer.pointer (Path.name name.now ∷ Path.name key.now ∷ [])) }
{
    let mut pointer = name_pointer(alloc, name)?;
    push_name(&mut pointer, key).map_err(|_| AllocError)?;
    Ok(pointer)
}

/// The index of the first item of another kind.
fn first_other(kind: EntryKind, items: &Items) -> Option<usize>
    ensures { result ≡ other_item (test_of kind) items.now }
{
    for (i, item) in items.items.iter().enumerate() {
        if !kind.admits(item) {
            return Some(i);
        }
    }
    None
}

/// The name of the first member that is not a list.
fn first_no_list(members: &Members) -> Option<&str>
    ensures { option_map (λ key. Path.name key.now ∷ []) result ≡ PoolBreak.members_break list_break members.now }
{
    for member in &members.members {
        if !matches!(&member.tree, Tree::List(_)) {
            return Some(member.name.as_str());
        }
    }
    None
}
