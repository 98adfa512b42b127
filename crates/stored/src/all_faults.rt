//! All faults of an object, in order.
ghost use Rattle.std.specs.Prelude.{◌≡◌, ◌++◌, ◌∷◌, ◌&&◌, [], not, false, OnOk, IfOk, string_bytes};
ghost use Rattle.jtree.specs.Path;
ghost use Rattle.jtree.specs.Path.{item_at};
ghost use Rattle.jtree.specs.Pointer.{name_token, index_token};
ghost use Rattle.jtree.specs.View.{data_of, members_of};
ghost use Rattle.schema.specs.Nodes.View.{node_of, fields_of};
ghost use Rattle.stored.specs.Objects.Fault as Faults;
ghost use Rattle.stored.specs.Objects.Fault.{Test, fails, F01, F02, F03, F04, F05, F06, F07, F08, F09, F10, F11, F12, F14, are_few, are_many, are_alike, is_null, refuses_null};
ghost use Rattle.stored.specs.Objects.Fault.{has_alike_before};
ghost use Rattle.stored.specs.Objects.AllFaults.{AreReported, AreFaults};
ghost use Rattle.stored.specs.Objects.StrictFaults.{AreStrictFaults};
ghost use Rattle.stored.specs.Internal.FailuresByLevel;
ghost use Rattle.stored.specs.Internal.FailuresByLevel.{progress, noted, added, own, under, joined, found, outcomes, here, at_field, value_parts, item_parts};
ghost use Rattle.stored.specs.Internal.FailuresByLevel.{field_parts, dropped, members_before, first_at, FailsWithin};

use crate::constraints::{
    accepts_scalar, fails_enum, fails_least_length, fails_maximum, fails_minimum,
    fails_most_length, is_above, is_below, meets_junctors, null_fails_enum,
};
use crate::fault::Fault;
use crate::repetition::repeats;
use crate::validity::{items_count, members_count};
use jtree::{Items, Member, Members, Text, Tree};
use schema::{Bounds, Field, ListNode, MapNode, Node, ObjectNode, Sort};
use std::alloc::{AllocError, Global};

/// All faults of an object at a node, as it is (OpenAPI 3.0, Schema Object; apiextensions.k8s.io/v1, nullable and merge
/// markers): each pair of a path and a number once, in path order and then by number. An error where an allocation fails.
/// Work is linear in the object and the nodes, but for the items of a set or a map list that do not ascend, which are sorted.
pub fn faults(alloc: Global, node: &Node, tree: &Tree) -> Result<Vec<Fault>, AllocError>
    ensures { IfOk result (λ found. AreFaults (node_of node.now) (data_of tree.now) found.items) }
{
    all_faults(alloc, node, tree, false)
}

/// The strict faults of an object at a node: its faults, and F15 at each member that pruning drops ("field pruning" of
/// apiextensions.k8s.io/v1), below which nothing is found. They are in the same order, and an error and the work are those of
/// `faults`.
pub fn strict_faults(alloc: Global, node: &Node, tree: &Tree) -> Result<Vec<Fault>, AllocError>
    ensures { IfOk result (λ found. AreStrictFaults (node_of node.now) (data_of tree.now) found.items) }
{
    all_faults(alloc, node, tree, true)
}

/// All faults, where asked the strict ones.
fn all_faults(
    alloc: Global,
    node: &Node,
    tree: &Tree,
    strict: bool,
) -> Result<Vec<Fault>, AllocError>
    ensures { IfOk result (λ found. AreReported (FailsWithin strict (node_of node.now) (data_of tree.now)) found.items) }
{
    node.reveal_invariant();
    tree.reveal_invariant();
    let mut report = Report {
        pointer: String::new(alloc),
        faults: Vec::new(alloc),
    };
    find(&mut report, node, tree, strict, false)?;
    Ok(report.faults)
}

/// How far the walk over an object has come.
#[derive(Drop)]
struct Report {
    /// The pointer of the place (RFC 6901).
    pointer: String,
    /// What is found so far.
    faults: Vec<Fault>,
}

impl Report {
    /// Adds a fault at the place.
    fn add(&mut self, number: u8) -> Result<(), AllocError>
        ensures { OnOk result (progress self.new ≡ noted (progress self.old) (record { path = string_bytes self.old.pointer; number = number } ∷ [])) }
    {
        let path = self.pointer.clone()?;
        self.faults.push(Fault { path, number })?;
        Ok(())
    }

    /// Adds the numbers of the tests that fail at the place.
    fn add_failed(&mut self, tests: &[(u8, bool)]) -> Result<(), AllocError>
        ensures { OnOk result (progress self.new ≡ noted (progress self.old) (FailuresByLevel.failed (string_bytes self.old.pointer) tests.now)) }
    {
        for (number, fails) in tests {
            if *fails {
                self.add(*number)?;
            }
        }
        Ok(())
    }

    /// Adds a fault at a name below the place.
    fn add_below(&mut self, name: &str, number: u8) -> Result<(), AllocError>
        ensures { (t : Test) → Faults.number t ≡ number → OnOk result (progress self.new ≡ added (progress self.old) (under (Path.name name.now) (here t ∷ []))) }
    {
        let mut path = self.pointer.clone()?;
        push_name(&mut path, name)?;
        self.faults.push(Fault { path, number })?;
        Ok(())
    }

    /// Adds that a required name is missing at the place.
    fn add_missing(&mut self, name: &str) -> Result<(), AllocError>
        ensures { OnOk result (progress self.new ≡ added (progress self.old) (under (Path.name name.now) (here F12 ∷ []))) }
    {
        self.add_below(name, 12)
    }

    /// Adds that members are dropped, where any are.
    fn add_dropped(&mut self, members: &[Member], drops: bool) -> Result<(), AllocError>
        ensures { OnOk result (progress self.new ≡ added (progress self.old) (joined (dropped drops (members_of members.now)))) }
    {
        if drops {
            for member in members {
                self.add_below(member.name.as_str(), 15)?;
            }
        }
        Ok(())
    }
}

fn push_name(text: &mut String, name: &str) -> Result<(), AllocError>
    ensures { OnOk result (string_bytes text.new ≡ string_bytes text.old ++ name_token name.now) }
{
    jtree::push_name(text, name).map_err(|_| AllocError)
}

fn push_index(text: &mut String, index: u64) -> Result<(), AllocError>
    ensures { OnOk result (string_bytes text.new ≡ string_bytes text.old ++ index_token index) }
{
    jtree::push_index(text, index).map_err(|_| AllocError)
}

/// Adds all faults of a value, with that it repeats an earlier item where this is so.
#[cycle(find)]
fn find(
    report: &mut Report,
    node: &Node,
    tree: &Tree,
    strict: bool,
    is_repeated: bool,
) -> Result<(), AllocError>
    ensures { OnOk result (progress report.new ≡ added (progress report.old) (found strict is_repeated (node_of node.now) (data_of tree.now))) }
{
    find_own(report, node, tree, is_repeated)?;
    match (&node.sort, tree) {
        (Sort::Object(object), Tree::Object(members)) => {
            find_in_fields(report, object, members, strict)
        }
        (Sort::Map(map), Tree::Object(members)) => find_in_values(report, map, members, strict),
        (Sort::List(list), Tree::List(items)) => find_in_items(report, list, items, strict),
        _ => Ok(()),
    }
}

/// Adds the faults of the value itself.
fn find_own(
    report: &mut Report,
    node: &Node,
    tree: &Tree,
    is_repeated: bool,
) -> Result<(), AllocError>
    ensures { OnOk result (progress report.new ≡ added (progress report.old) (own is_repeated (node_of node.now) (data_of tree.now))) }
{
    report.add_failed(&[
        (1, is_of_other_kind(node, tree)),
        (2, is_forbidden_null(node, tree)),
    ])?;
    report.add_failed(&constraint_tests(node, tree))?;
    report.add_failed(&bound_tests(node, tree))?;
    report.add_failed(&[(13, is_repeated), (14, fails_junctors(node, tree))])?;
    Ok(())
}

/// Whether a value is neither null nor of the node's kind.
fn is_of_other_kind(node: &Node, tree: &Tree) -> bool
    ensures { result ≡ fails F01 (node_of node.now) (data_of tree.now) }
{
    match (&node.sort, tree) {
        (Sort::Open, _) | (_, Tree::Null) => false,
        (Sort::Scalar(scalar), _) => !accepts_scalar(scalar.kind, tree),
        (Sort::Object(_) | Sort::Map(_), Tree::Object(_)) | (Sort::List(_), Tree::List(_)) => false,
        _ => true,
    }
}

/// Whether a value is null where null is not accepted.
fn is_forbidden_null(node: &Node, tree: &Tree) -> bool
    ensures { result ≡ fails F02 (node_of node.now) (data_of tree.now) }
{
    match tree {
        Tree::Null => !node.nullable,
        _ => false,
    }
}

/// Whether a value is null, and `enum` refuses it.
fn is_refused_null(node: &Node, tree: &Tree) -> bool
    ensures { result ≡ (is_null (data_of tree.now) && refuses_null (node_of node.now)) }
{
    match (&node.sort, tree) {
        (Sort::Scalar(scalar), Tree::Null) => null_fails_enum(&scalar.validations.constraints),
        _ => false,
    }
}

/// Which of `enum`, `minimum`, `maximum`, `minLength` and `maxLength` a value fails: a scalar, or null, which `enum` alone may refuse.
fn constraint_tests(node: &Node, tree: &Tree) -> [(u8, bool); 5]
    ensures { result ≡ outcomes (λ t. fails t (node_of node.now) (data_of tree.now)) (F03 ∷ F04 ∷ F05 ∷ F06 ∷ F07 ∷ []) }
{
    let is_refused_null = is_refused_null(node, tree);
    match &node.sort {
        Sort::Scalar(scalar) if accepts_scalar(scalar.kind, tree) => {
            let constraints = &scalar.validations.constraints;
            [
                (3, fails_enum(constraints, tree) || is_refused_null),
                (4, fails_minimum(constraints, tree)),
                (5, fails_maximum(constraints, tree)),
                (6, fails_least_length(constraints, tree)),
                (7, fails_most_length(constraints, tree)),
            ]
        }
        _ => [
            (3, is_refused_null),
            (4, false),
            (5, false),
            (6, false),
            (7, false),
        ],
    }
}

/// Which of `minItems`, `maxItems`, `minProperties` and `maxProperties` a value fails.
fn bound_tests(node: &Node, tree: &Tree) -> [(u8, bool); 4]
    ensures { result ≡ outcomes (λ t. fails t (node_of node.now) (data_of tree.now)) (F08 ∷ F09 ∷ F10 ∷ F11 ∷ []) }
{
    match (&node.sort, tree) {
        (Sort::List(list), Tree::List(items)) => {
            let count = items_count(items) as u64;
            [
                (8, is_below(list.bounds.least, count)),
                (9, is_above(list.bounds.most, count)),
                (10, false),
                (11, false),
            ]
        }
        (Sort::Object(object), Tree::Object(members)) => member_tests(members, object.bounds),
        (Sort::Map(map), Tree::Object(members)) => member_tests(members, map.bounds),
        _ => [(8, false), (9, false), (10, false), (11, false)],
    }
}

fn member_tests(members: &Members, bounds: Bounds) -> [(u8, bool); 4]
    ensures { result ≡ (8, false) ∷ (9, false) ∷ (10, are_few bounds (Faults.members_count members.now)) ∷ (11, are_many bounds (Faults.members_count members.now)) ∷ [] }
{
    let count = members_count(members) as u64;
    [
        (8, false),
        (9, false),
        (10, is_below(bounds.least, count)),
        (11, is_above(bounds.most, count)),
    ]
}

/// Whether a scalar or an object fails its junctors.
fn fails_junctors(node: &Node, tree: &Tree) -> bool
    ensures { result ≡ fails F14 (node_of node.now) (data_of tree.now) }
{
    match (&node.sort, tree) {
        (Sort::Scalar(scalar), _) => {
            accepts_scalar(scalar.kind, tree) && !meets_junctors(&scalar.validations, tree)
        }
        (Sort::Object(object), Tree::Object(_)) => !meets_junctors(&object.junctors, tree),
        _ => false,
    }
}

/// Adds the faults below an object with declared fields, whose members are merged with the fields by name.
#[cycle(find)]
fn find_in_fields(
    report: &mut Report,
    object: &ObjectNode,
    members: &Members,
    strict: bool,
) -> Result<(), AllocError>
    ensures { OnOk result (progress report.new ≡ added (progress report.old) (joined (field_parts strict (strict && not object.now.preserves) object.now.fields members.now))) }
{
    let drops = strict && !object.preserves;
    let mut rest = members.members.as_slice();
    for field in &object.fields.fields {
        let (before, from) = split_before(rest, &field.name);
        report.add_dropped(before, drops)?;
        find_at_field(report, field, from, strict)?;
        rest = members_past(from, &field.name);
    }
    report.add_dropped(rest, drops)
}

/// The members at the beginning whose names come before this one, and the others.
fn split_before<'a>(members: &'a [Member], name: &Text) -> (&'a [Member], &'a [Member])
    ensures before { members_of result.0.now ≡ members_before name.now (members_of members.now) }
    ensures from { members_of result.1.now ≡ FailuresByLevel.members_from name.now (members_of members.now) }
{
    for (i, member) in members.iter().enumerate() {
        if member.name.cmp(name).is_ge() {
            return members.split_at(i);
        }
    }
    (members, &[])
}

/// The members after the first one, where that has this name.
fn members_past<'a>(members: &'a [Member], name: &Text) -> &'a [Member]
    ensures { members_of result.now ≡ FailuresByLevel.members_past name.now (members_of members.now) }
{
    match members {
        [first, rest @ ..] if first.name == *name => rest,
        _ => members,
    }
}

/// Adds the faults of the value of a field, which is the first of these members where it is there.
#[cycle(find)]
fn find_at_field(
    report: &mut Report,
    field: &Field,
    members: &[Member],
    strict: bool,
) -> Result<(), AllocError>
    ensures { OnOk result (progress report.new ≡ added (progress report.old) (under (Path.name field.now.name)
        (at_field field.now.required (λ d. found strict false (node_of field.now.node) d) (first_at field.now.name (members_of members.now))))) }
{
    match members.first() {
        Some(member) if member.name == field.name => {
            find_named(report, &field.node, member, strict)
        }
        _ if field.required => report.add_missing(field.name.as_str()),
        _ => Ok(()),
    }
}

/// Adds the faults of a member.
#[cycle(find)]
fn find_named(
    report: &mut Report,
    node: &Node,
    member: &Member,
    strict: bool,
) -> Result<(), AllocError>
    ensures { OnOk result (progress report.new ≡ added (progress report.old) (under (Path.name member.now.name) (found strict false (node_of node.now) (data_of member.now.tree)))) }
{
    let length = report.pointer.len();
    push_name(&mut report.pointer, member.name.as_str())?;
    find(report, node, &member.tree, strict, false)?;
    report.pointer.truncate(length);
    Ok(())
}

/// Adds the faults below a map.
#[cycle(find)]
fn find_in_values(
    report: &mut Report,
    map: &MapNode,
    members: &Members,
    strict: bool,
) -> Result<(), AllocError>
    ensures { OnOk result (progress report.new ≡ added (progress report.old) (joined (value_parts (λ d. found strict false map.now.value d) members.now))) }
{
    for member in &members.members {
        find_named(report, &map.value.node, member, strict)?;
    }
    Ok(())
}

/// Adds the faults below a list.
#[cycle(find)]
fn find_in_items(
    report: &mut Report,
    list: &ListNode,
    items: &Items,
    strict: bool,
) -> Result<(), AllocError>
    ensures { OnOk result (progress report.new ≡ added (progress report.old)
        (joined (item_parts (λ i d. found strict (has_alike_before (are_alike list.now.list_type list.now.keys.items) i items.now (item_at i items.now)) list.now.item d) 0 items.now))) }
{
    let repeated = repeats(*report.pointer.allocator(), list, items)?;
    for (i, item) in items.items.iter().enumerate() {
        find_item(report, &list.item.node, item, i, strict, repeated[i])?;
    }
    Ok(())
}

/// Adds the faults of an item at an index.
#[cycle(find)]
fn find_item(
    report: &mut Report,
    node: &Node,
    item: &Tree,
    index: usize,
    strict: bool,
    is_repeated: bool,
) -> Result<(), AllocError>
    ensures { OnOk result (progress report.new ≡ added (progress report.old) (under (Path.index index) (found strict is_repeated (node_of node.now) (data_of item.now)))) }
{
    let length = report.pointer.len();
    push_index(&mut report.pointer, index as u64)?;
    find(report, node, item, strict, is_repeated)?;
    report.pointer.truncate(length);
    Ok(())
}
