//! The values that samples may have.
use crate::fault::PFault;
use crate::list_at::{ListAt, put_all};
use crate::path_step::PathStep;
use crate::pool_form::{EntryKind, check_form};
use crate::pool_limits::PoolLimits;
use crate::pool_sizes::oversized_pool;
use jtree::{Member, Members, Text, Tree};
use schema::{Profile, is_among};
use std::alloc::{AllocError, Global};
use std::cmp::Ordering;
use std::marker::Model;

/// The values that samples may hold.
pub struct Pools {
    integers: Vec<i64>,
    /// Integers and other numbers, for places of numbers.
    numbers: Vec<Tree>,
    strings: Vec<Text>,
    names: Vec<Text>,
    any: Vec<Tree>,
    /// Lists, each under the text of a path.
    paths: Members,
    /// Lists of all values that there can be, each under the text of a path.
    fixed: Members,
    /// The texts of the paths that are always there.
    present: Vec<Text>,
}

impl Drop for Pools {
    fn drop(self) {
        let Pools {
            integers: _,
            numbers: _,
            strings: _,
            names: _,
            any: _,
            paths: _,
            fixed: _,
            present: _,
        } = self;
    }
}

impl Model for Pools {
    ghost use Rattle.std.specs.Prelude.{All, map, FitsSigned};
    ghost use Rattle.std.specs.Int.{w64};
    ghost use Rattle.jtree.specs.Data.{IsTree};
    ghost use Rattle.plan.specs.Pools.Pools.{Pools as PoolsData};
    ghost use Rattle.plan.specs.Internal.PoolsCode.{pools_coded};

    ghost Value = { PoolsData };

    ghost coded = { pools_coded };

    ghost use Rattle.jtree.specs.View.{data_of};

    ghost view = { λ a. record { integers = a.integers.items; numbers = map data_of a.numbers.items; strings = a.strings.items; names = a.names.items; any = map data_of a.any.items; paths = a.paths; fixed = a.fixed; present = a.present.items } };

    ghost invariant = { λ a. All (λ z. FitsSigned w64 z) a.integers.items × All IsTree (map data_of a.numbers.items) × All IsTree (map data_of a.any.items) };
}

impl Pools {
    ghost use Rattle.std.specs.Prelude.{◌≡◌, ◌++◌, ◌-◌, All, map, option_map, take, length, FitsSigned, IfOk, IfErr, OnOk, []};
    ghost use Rattle.std.specs.Int.{w64};
    ghost use Rattle.jtree.specs.Data.{IsTree, no_members};
    ghost use Rattle.jtree.specs.View.{data_of};
    ghost use Rattle.plan.specs.Pools.Pools.{standard, AreSmall};
    ghost use Rattle.plan.specs.Pools.Pools as spec;
    ghost use Rattle.plan.specs.Pools.Along;
    ghost use Rattle.plan.specs.Pools.Along.{beginnings, lists_of};
    ghost use Rattle.plan.specs.Pools.PathSteps.{path_of};
    ghost use Rattle.plan.specs.Pools.Document.{HasForm, HasFormBy, pools_of};
    ghost use Rattle.plan.specs.Pools.PoolsFault.{IsPoolsFault, IsPoolsFaultBy};

    /// The pools of a document: an object with any of the members `integers` (a list of integers of 64 bits), `strings`,
    /// `names` and `present` (lists of texts), `any` (a list of trees), and `paths` and `fixed` (objects whose members are lists of
    /// trees, each under the text of a path). Entries stay as written, repeats among them, and a missing member is an
    /// empty pool, or no path.
    ///
    /// `Form` with the pointer (RFC 6901) of the first place in path order that has another form, also where a pool has
    /// too many entries: the document itself where it is not an object, a member of another name, `paths` or `fixed` where it is not
    /// an object, a member of one of these that is not a list, any other member that is not a list, an entry of another kind.
    /// `TooLarge` where the form is right and a pool has more entries than `PoolLimits::STANDARD` allows: more than 64 integers,
    /// strings or trees, more than 32 names, more than 64 paths in `paths`, `fixed` or `present`, or more than 64 trees in the list of
    /// a path, each repeat counted. `NoMemory` where an allocation fails. Never `BadLimit` or `BadPath`, which are faults of a plan.
    pub fn read(alloc: Global, document: &Tree) -> Result<Pools, PFault>
        ensures ok { IfOk result (λ p. p ≡ pools_of (data_of document.now)) }
        ensures form { OnOk result (HasForm (data_of document.now)) }
        ensures small { IfOk result (AreSmall standard) }
        ensures err { IfErr result (IsPoolsFault standard (data_of document.now)) }
    {
        Pools::read_within(alloc, document, PoolLimits::STANDARD)
    }

    /// As [`Pools::read`], with these limits: `TooLarge` where the form is right and a pool has more entries than they allow.
    /// [`oversized_pool`] says which.
    pub fn read_within(alloc: Global, document: &Tree, limits: PoolLimits) -> Result<Pools, PFault>
        ensures ok { IfOk result (λ p. p ≡ pools_of (data_of document.now)) }
        ensures form { OnOk result (HasForm (data_of document.now)) }
        ensures small { IfOk result (AreSmall limits) }
        ensures err { IfErr result (IsPoolsFault limits (data_of document.now)) }
    {
        Pools::read_by(alloc, document, Profile::Core, limits)
    }

    /// As [`Pools::read_within`], for a schema that is judged by this profile: by `Profile::Cluster` the document may also have the
    /// member `numbers`, a list of integers and other numbers, from which places of numbers take their values besides. It may have as
    /// many entries as `integers`.
    pub fn read_by(
        alloc: Global,
        document: &Tree,
        profile: Profile,
        limits: PoolLimits,
    ) -> Result<Pools, PFault>
        ensures ok { IfOk result (λ p. p ≡ pools_of (data_of document.now)) }
        ensures form { OnOk result (HasFormBy profile (data_of document.now)) }
        ensures small { IfOk result (AreSmall limits) }
        ensures err { IfErr result (IsPoolsFaultBy profile limits (data_of document.now)) }
    {
        check_form(alloc, profile, document)?;
        if oversized_pool(document, limits).is_some() {
            return Err(PFault::TooLarge);
        }
        Ok(Pools {
            integers: integers_of(alloc, entries(document, "integers"))?,
            numbers: numbers_of(alloc, entries(document, "numbers"))?,
            strings: texts_of(alloc, entries(document, "strings"))?,
            names: texts_of(alloc, entries(document, "names"))?,
            any: trees_of(alloc, entries(document, "any"))?,
            paths: members_at(alloc, document, "paths")?,
            fixed: members_at(alloc, document, "fixed")?,
            present: texts_of(alloc, entries(document, "present"))?,
        })
    }

    /// Empty pools.
    pub fn new(alloc: Global) -> Pools
        ensures { result ≡ record { integers = []; numbers = []; strings = []; names = []; any = []; paths = no_members; fixed = no_members; present = [] } }
    {
        Pools {
            integers: Vec::new(alloc),
            numbers: Vec::new(alloc),
            strings: Vec::new(alloc),
            names: Vec::new(alloc),
            any: Vec::new(alloc),
            paths: no_members(alloc),
            fixed: no_members(alloc),
            present: Vec::new(alloc),
        }
    }

    /// A copy of these pools with other fixed values and other paths that are always there. `AllocError` where an allocation fails.
    pub fn with_paths(
        &self,
        alloc: Global,
        fixed: Members,
        present: Vec<Text>,
    ) -> Result<Pools, AllocError>
        ensures { IfOk result (λ p. p ≡ spec.with_paths self.now fixed present.items) }
    {
        Ok(Pools {
            integers: integers_from(alloc, self.integers.as_slice())?,
            numbers: trees_of(alloc, &self.numbers)?,
            strings: copies_of(alloc, self.strings())?,
            names: copies_of(alloc, self.names())?,
            any: trees_of(alloc, &self.any)?,
            paths: members_from(alloc, &self.paths)?,
            fixed,
            present,
        })
    }

    /// These pools with such lists of fixed values, and the lists that were there, in the order in which they are put back.
    pub(crate) fn with_lists(
        self,
        alloc: Global,
        lists: Vec<ListAt>,
    ) -> Result<(Pools, Vec<ListAt>), AllocError>
        ensures pools { IfOk result (λ r. r.0 ≡ spec.with_paths self (Along.with_lists (lists_of lists.items) self.fixed) self.present) }
        ensures back { IfOk result (λ r. Along.with_lists (lists_of r.1.items) (Along.with_lists (lists_of lists.items) self.fixed) ≡ self.fixed) }
    {
        let Pools {
            integers,
            numbers,
            strings,
            names,
            any,
            paths,
            fixed,
            present,
        } = self;
        let (fixed, old) = put_all(alloc, fixed, lists)?;
        let pools = Pools {
            integers,
            numbers,
            strings,
            names,
            any,
            paths,
            fixed,
            present,
        };
        Ok((pools, old))
    }

    /// These pools, which ask for the path of the steps and its beginnings too.
    pub(crate) fn asking(self, alloc: Global, steps: &[PathStep]) -> Result<Pools, AllocError>
        ensures { IfOk result (λ p. p ≡ spec.with_paths self self.fixed (self.present ++ beginnings [] (path_of steps.now))) }
    {
        let mut pools = self;
        push_beginnings(alloc, steps, &mut pools.present)?;
        Ok(pools)
    }

    /// These pools without the last ones of the paths that they ask for.
    pub(crate) fn asking_less(self, count: usize) -> Pools
        ensures { result ≡ spec.with_paths self self.fixed (take (length self.present - count) self.present) }
    {
        let mut pools = self;
        let left = pools.present.len().saturating_sub(count);
        pools.present.truncate(left);
        pools
    }

    /// The integers, as the document has them: repeats among them.
    pub fn integers(&self) -> &[i64]
        ensures entries { result.now ≡ self.now.integers }
        ensures fit { All (λ z. FitsSigned w64 z) self.now.integers }
    {
        self.integers.as_slice()
    }

    /// The numbers for places of numbers, integers among them, as the document has them: repeats among them.
    pub fn numbers(&self) -> &[Tree]
        ensures entries { map data_of result.now ≡ self.now.numbers }
        ensures trees { All IsTree self.now.numbers }
    {
        self.numbers.as_slice()
    }

    /// The strings.
    pub fn strings(&self) -> &[Text]
        ensures { result.now ≡ self.now.strings }
    {
        self.strings.as_slice()
    }

    /// The names.
    pub fn names(&self) -> &[Text]
        ensures { result.now ≡ self.now.names }
    {
        self.names.as_slice()
    }

    /// The trees of any kind.
    pub fn any(&self) -> &[Tree]
        ensures entries { map data_of result.now ≡ self.now.any }
        ensures trees { All IsTree self.now.any }
    {
        self.any.as_slice()
    }

    /// The lists by path: each under the text of its path, which need not be that of a declared field.
    pub fn paths(&self) -> &Members
        ensures { result.now ≡ self.now.paths }
    {
        &self.paths
    }

    /// The trees that are listed for the path of this text; `None` where there is no list for it.
    pub fn list_at(&self, path: &str) -> Option<&[Tree]>
        ensures { option_map (λ ts. map data_of ts.now) result ≡ spec.list_at path.now self.now }
    {
        list_under(&self.paths, path)
    }

    /// The lists of all trees that there can be, each under the text of its path, which need not be that of a declared field.
    pub fn fixed(&self) -> &Members
        ensures { result.now ≡ self.now.fixed }
    {
        &self.fixed
    }

    /// The texts of the paths that are always there.
    pub fn present(&self) -> &[Text]
        ensures { result.now ≡ self.now.present }
    {
        self.present.as_slice()
    }

    /// All trees that there can be at the path of this text, where the pools fix them; `None` where they do not.
    pub fn fixed_at(&self, path: &str) -> Option<&[Tree]>
        ensures { option_map (λ ts. map data_of ts.now) result ≡ spec.fixed_at path.now self.now }
    {
        list_under(&self.fixed, path)
    }

    /// Whether the path of this text is always there.
    pub fn is_present(&self, path: &str) -> bool
        ensures { result ≡ spec.is_present path.now self.now }
    {
        is_among(path, &self.present)
    }
}

ghost use Rattle.std.specs.Int.{w64};
ghost use Rattle.std.specs.Prelude.{◌≡◌, ◌++◌, [], All, FitsSigned, IfOk, Some, map, filter, filter_map, option_map, option_and_then};
ghost use Rattle.jtree.specs.Data.{IsTree};
ghost use Rattle.jtree.specs.Data;
ghost use Rattle.jtree.specs.Order.{text_cmp};
ghost use Rattle.jtree.specs.Path.{member_at, under};
ghost use Rattle.jtree.specs.View.{data_of};
ghost use Rattle.plan.specs.Pools.Along.{beginnings};
ghost use Rattle.plan.specs.Pools.PathSteps.{path_of};
ghost use Rattle.plan.specs.Pools.Pools.{entries_in};
ghost use Rattle.plan.specs.Pools.Document.{entries_of, integer_of, is_any_number, text_of, members_of};

/// The list under this name, where there is one.
fn list_under<'a>(lists: &'a Members, name: &str) -> Option<&'a [Tree]>
    ensures { option_map (λ ts. map data_of ts.now) result ≡ option_and_then entries_in (member_at name.now lists.now) }
{
    match value_under(lists, name) {
        Some(Tree::List(items)) => Some(items.items.as_slice()),
        _ => None,
    }
}

/// The value of the member of a name. It is searched for by halves: there may be a path for each leaf, and each leaf looks for its own.
fn value_under<'a>(members: &'a Members, name: &str) -> Option<&'a Tree>
    ensures { option_map (λ t. data_of t.now) result ≡ member_at name.now members.now }
{
    members.reveal_invariant();
    let found = members.members.binary_search_by(
        |member: &Member| -> Ordering
            ensures { result ≡ text_cmp member.now.name name.entry.now }
        { member.name.as_str().cmp(name) },
    );
    match found {
        Ok(place) => Some(&members.members[place].tree),
        Err(_) => None,
    }
}

/// The entries of a pool, none where it is missing.
pub(crate) fn entries<'a>(document: &'a Tree, name: &str) -> &'a [Tree]
    ensures entries { map data_of result.now ≡ entries_of (under (data_of document.now) name.now) }
    ensures trees { All IsTree (map data_of result.now) }
{
    match document.get(name) {
        Some(Tree::List(items)) => items.items.as_slice(),
        _ => &[],
    }
}

fn integers_of(alloc: Global, entries: &[Tree]) -> Result<Vec<i64>, AllocError>
    ensures integers { IfOk result (λ v. v.items ≡ filter_map integer_of (map data_of entries.now)) }
    ensures fit { IfOk result (λ v. All (λ z. FitsSigned w64 z) v.items) }
{
    let mut integers = Vec::new(alloc);
    for entry in entries {
        if let Tree::Int(n) = entry {
            integers.push(*n)?;
        }
    }
    Ok(integers)
}

/// Those that are integers or other numbers.
fn numbers_of(alloc: Global, entries: &[Tree]) -> Result<Vec<Tree>, AllocError>
    ensures { IfOk result (λ v. map data_of v.items ≡ filter is_any_number (map data_of entries.now)) }
{
    let mut numbers = Vec::new(alloc);
    for entry in entries {
        if EntryKind::Number.admits(entry) {
            numbers.push(entry.try_clone(alloc)?)?;
        }
    }
    Ok(numbers)
}

fn texts_of(alloc: Global, entries: &[Tree]) -> Result<Vec<Text>, AllocError>
    ensures { IfOk result (λ v. v.items ≡ filter_map text_of (map data_of entries.now)) }
{
    let mut texts = Vec::new(alloc);
    for entry in entries {
        if let Tree::Text(text) = entry {
            texts.push(text.copy(alloc)?)?;
        }
    }
    Ok(texts)
}

fn integers_from(alloc: Global, integers: &[i64]) -> Result<Vec<i64>, AllocError>
    ensures { IfOk result (λ v. v.items ≡ integers.now) }
{
    let mut copies = Vec::with_capacity(alloc, integers.len())?;
    for number in integers {
        copies.push(*number)?;
    }
    Ok(copies)
}

fn copies_of(alloc: Global, texts: &[Text]) -> Result<Vec<Text>, AllocError>
    ensures { IfOk result (λ v. v.items ≡ texts.now) }
{
    let mut copies = Vec::with_capacity(alloc, texts.len())?;
    for text in texts {
        copies.push(text.copy(alloc)?)?;
    }
    Ok(copies)
}

fn trees_of(alloc: Global, entries: &[Tree]) -> Result<Vec<Tree>, AllocError>
    ensures { IfOk result (λ v. v.items ≡ entries.now) }
{
    let mut trees = Vec::with_capacity(alloc, entries.len())?;
    for entry in entries {
        trees.push(entry.try_clone(alloc)?)?;
    }
    Ok(trees)
}

/// The members of a member of the document, none where it is missing.
fn members_at(alloc: Global, document: &Tree, name: &str) -> Result<Members, AllocError>
    ensures { IfOk result (λ ms. ms ≡ members_of (under (data_of document.now) name.now)) }
{
    match document.get(name) {
        Some(lists) => Ok(members_in(alloc, lists.try_clone(alloc)?)),
        None => Ok(no_members(alloc)),
    }
}

/// The members of an object, and none of a tree that is not an object.
fn members_in(alloc: Global, tree: Tree) -> Members
    ensures { result ≡ members_of (Some (data_of tree)) }
{
    match tree {
        Tree::Object(members) => members,
        _ => no_members(alloc),
    }
}

fn members_from(alloc: Global, members: &Members) -> Result<Members, AllocError>
    ensures { IfOk result (λ ms. ms ≡ members.now) }
{
    let mut copies = Vec::with_capacity(alloc, members.members.len())?;
    for member in &members.members {
        let name = member.name.copy(alloc)?;
        let tree = member.tree.try_clone(alloc)?;
        copies.push(Member { name, tree })?;
    }
    Ok(Members { members: copies })
}

/// Adds the texts of the beginnings of the path.
fn push_beginnings(
    alloc: Global,
    steps: &[PathStep],
    texts: &mut Vec<Text>,
) -> Result<(), AllocError>
    ensures { IfOk result (λ _. texts.new.items ≡ texts.old.items ++ beginnings [] (path_of steps.now)) }
{
    let mut front = String::new(alloc);
    for step in steps {
        front = step.below(alloc, &front)?;
        texts.push(Text::from_str(alloc, &front)?)?;
    }
    Ok(())
}

fn no_members(alloc: Global) -> Members
    ensures { result ≡ Data.no_members }
{
    Members {
        members: Vec::new(alloc),
    }
}
