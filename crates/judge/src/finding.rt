//! All faults of a value by a schema, in order.
ghost use Rattle.std.specs.Prelude.{◌≡◌, ◌++◌, ◌∷◌, [], false, OnOk, IfOk, string_bytes, option_map};
ghost use Rattle.jtree.specs.Path.{name as name_step, index as index_step};
ghost use Rattle.jtree.specs.Pointer.{name_token, index_token};
ghost use Rattle.jtree.specs.View.{data_of};
ghost use Rattle.judge.specs.Keywords.{texts};
ghost use Rattle.judge.specs.Asked.{closure, asked, keyword_closure, branch_closure, item_closure, member_schema as member_schema_of};
ghost use Rattle.judge.specs.Asked.{item_schema as item_schema_of, below as below_of, required, value_at, schemas_of};
ghost use Rattle.judge.specs.Faults.{some_fails, fails_at as fails_at_of, AreFaults};
ghost use Rattle.judge.specs.Internal.FaultsByLevel.{here, failing, found, own as own_of, joined, under, parts, item_parts, with_slots, member_slots};
ghost use Rattle.judge.specs.Internal.FaultsByLevel.{slot_parts, found_under, progress, added};

use crate::asking::{KeywordTests, PlaceTests};
use crate::places::{item_schema, schema_of_member};
use crate::repetition::some_repeats;
use crate::slots::{Slot, slots};
use crate::test::{Test, all_tests};
use jtree::{Items, Members, Tree};
use std::alloc::{AllocError, Global};
use text_tests::{FormatTests, TextTests};

/// A fault of a value.
#[derive(Drop)]
pub struct Fault {
    /// The JSON pointer of its place (RFC 6901). A missing name has a place too.
    pub path: String,
    /// The test that is failed there.
    pub test: Test,
}

/// How far the walk over a value has come.
#[derive(Drop)]
struct Report {
    /// The pointer of the place.
    pointer: String,
    /// What is found so far.
    faults: Vec<Fault>,
}

impl Report {
    /// Adds a fault at the place.
    fn add(&mut self, test: Test) -> Result<(), AllocError>
        ensures { OnOk result (progress self.new ≡ added (progress self.old) (here test ∷ [])) }
    {
        let path = self.pointer.clone()?;
        self.faults.push(Fault { path, test })?;
        Ok(())
    }
}

/// All faults of a value by a schema as it is written (OpenAPI 3.0, Schema Object; apiextensions.k8s.io/v1, JSONSchemaProps): each pair of
/// a path and a test once, in path order and then by number. `Err` where an allocation fails, or a test of a text answers so.
///
/// Null is asked for its type and by `enum`, and nothing else. The branches of `allOf` have their faults at their places; `anyOf`, `oneOf`
/// and `not` give one fault at theirs, and so does the envelope of an embedded resource (k8s.io/apiextensions-apiserver,
/// pkg/apiserver/schema/objectmeta), of whose `metadata` names, labels and annotations are judged. The API server shows fewer: where an object has too many members or too few, nothing else of it, and
/// of a text the first that fails of `maxLength`, `minLength` and `pattern`. The work is linear in the value and its schemas, but for the
/// items of a set or a map list, each of which is compared with those before it.
pub fn faults<T: TextTests + FormatTests>(
    alloc: Global,
    tests: &mut T,
    schema: &Tree,
    value: &Tree,
) -> Result<Vec<Fault>, AllocError>
    ensures { IfOk result (λ found. AreFaults (some_fails (texts T.matches T.is_format T.has_format)) (data_of schema.now) (data_of value.now) found.items) }
{
    let mut asked = KeywordTests { tests };
    faults_by(alloc, &mut asked, schema, value)
}

/// All faults of a value by a schema, where the tests of a place are these: in the order of `faults`, with an error where it gives one and
/// where a test of a place does.
pub fn faults_by<A: PlaceTests>(
    alloc: Global,
    tests: &mut A,
    schema: &Tree,
    value: &Tree,
) -> Result<Vec<Fault>, AllocError>
    ensures { IfOk result (λ found. AreFaults A.asking (data_of schema.now) (data_of value.now) found.items) }
{
    value.reveal_invariant();
    let mut report = Report {
        pointer: String::new(alloc),
        faults: Vec::new(alloc),
    };
    let mut schemas = Vec::new(alloc);
    add_asked(&mut schemas, schema, value)?;
    find(&mut report, tests, schemas.as_slice(), value, false)?;
    Ok(report.faults)
}

/// Adds a schema and the branches of its `allOf`.
#[cycle(schemas)]
fn add_schemas<'s>(schemas: &mut Vec<&'s Tree>, schema: &'s Tree) -> Result<(), AllocError>
    ensures { OnOk result (schemas_of schemas.new.items ≡ schemas_of schemas.old.items ++ closure (data_of schema.now)) }
{
    schemas.push(schema)?;
    match schema {
        Tree::Object(keywords) => add_branches(schemas, keywords),
        _ => Ok(()),
    }
}

#[cycle(schemas)]
fn add_branches<'s>(schemas: &mut Vec<&'s Tree>, keywords: &'s Members) -> Result<(), AllocError>
    ensures { OnOk result (schemas_of schemas.new.items ≡ schemas_of schemas.old.items ++ keyword_closure keywords.now) }
{
    for member in &keywords.members {
        if member.name.as_str() == "allOf" {
            add_list(schemas, &member.tree)?;
        }
    }
    Ok(())
}

#[cycle(schemas)]
fn add_list<'s>(schemas: &mut Vec<&'s Tree>, part: &'s Tree) -> Result<(), AllocError>
    ensures { OnOk result (schemas_of schemas.new.items ≡ schemas_of schemas.old.items ++ branch_closure (data_of part.now)) }
{
    match part {
        Tree::List(items) => add_items(schemas, items),
        _ => Ok(()),
    }
}

#[cycle(schemas)]
fn add_items<'s>(schemas: &mut Vec<&'s Tree>, items: &'s Items) -> Result<(), AllocError>
    ensures { OnOk result (schemas_of schemas.new.items ≡ schemas_of schemas.old.items ++ item_closure items.now) }
{
    for item in &items.items {
        add_schemas(schemas, item)?;
    }
    Ok(())
}

/// Adds the schemas that are asked of a value with a schema.
fn add_asked<'s>(
    schemas: &mut Vec<&'s Tree>,
    schema: &'s Tree,
    value: &Tree,
) -> Result<(), AllocError>
    ensures { OnOk result (schemas_of schemas.new.items ≡ schemas_of schemas.old.items ++ asked (data_of value.now) (data_of schema.now)) }
{
    match value {
        Tree::Null => Ok(schemas.push(schema)?),
        _ => add_schemas(schemas, schema),
    }
}

/// The schemas of a member.
fn member_schemas<'s>(
    alloc: Global,
    schemas: &[&'s Tree],
    name: &str,
    value: &Tree,
) -> Result<Vec<&'s Tree>, AllocError>
    ensures { IfOk result (λ found. schemas_of found.items ≡ below_of (member_schema_of name.now) (data_of value.now) (schemas_of schemas.now)) }
{
    let mut found = Vec::new(alloc);
    for schema in schemas {
        if let Some(part) = schema_of_member(schema, name) {
            add_asked(&mut found, part, value)?;
        }
    }
    Ok(found)
}

/// The schemas of an item.
fn item_schemas<'s>(
    alloc: Global,
    schemas: &[&'s Tree],
    value: &Tree,
) -> Result<Vec<&'s Tree>, AllocError>
    ensures { IfOk result (λ found. schemas_of found.items ≡ below_of item_schema_of (data_of value.now) (schemas_of schemas.now)) }
{
    let mut found = Vec::new(alloc);
    for schema in schemas {
        if let Some(part) = item_schema(schema) {
            add_asked(&mut found, part, value)?;
        }
    }
    Ok(found)
}

/// Whether the place of a value fails a test.
fn fails_at<A: PlaceTests>(
    tests: &mut A,
    schemas: &[&Tree],
    value: &Tree,
    is_repeated: bool,
    test: Test,
) -> Result<bool, AllocError>
    ensures { IfOk result (λ yes. yes ≡ fails_at_of A.asking (value_at (schemas_of schemas.now) is_repeated (data_of value.now)) test) }
{
    match test {
        Test::Required => Ok(false),
        Test::Duplicate => Ok(is_repeated),
        _ => Ok(tests.fails(schemas, value, test)?),
    }
}

/// Adds the tests, of some, that the place of a value fails.
fn find_failing<A: PlaceTests>(
    report: &mut Report,
    tests: &mut A,
    schemas: &[&Tree],
    value: &Tree,
    is_repeated: bool,
    asked: &[Test],
) -> Result<(), AllocError>
    ensures { OnOk result (progress report.new ≡ added (progress report.old) (failing (fails_at_of A.asking (value_at (schemas_of schemas.now) is_repeated (data_of value.now))) asked.now)) }
{
    for test in asked {
        if fails_at(tests, schemas, value, is_repeated, *test)? {
            report.add(*test)?;
        }
    }
    Ok(())
}

fn find_own<A: PlaceTests>(
    report: &mut Report,
    tests: &mut A,
    schemas: &[&Tree],
    value: &Tree,
    is_repeated: bool,
) -> Result<(), AllocError>
    ensures { OnOk result (progress report.new ≡ added (progress report.old) (own_of A.asking (value_at (schemas_of schemas.now) is_repeated (data_of value.now)))) }
{
    find_failing(report, tests, schemas, value, is_repeated, &all_tests())
}

/// Adds all faults of a value.
#[cycle(find)]
fn find<'v, A: PlaceTests>(
    report: &mut Report,
    tests: &mut A,
    schemas: &[&'v Tree],
    value: &'v Tree,
    is_repeated: bool,
) -> Result<(), AllocError>
    ensures { OnOk result (progress report.new ≡ added (progress report.old) (found A.asking (schemas_of schemas.now) is_repeated (data_of value.now))) }
{
    find_own(report, tests, schemas, value, is_repeated)?;
    find_below(report, tests, schemas, value)
}

#[cycle(find)]
fn find_below<'v, A: PlaceTests>(
    report: &mut Report,
    tests: &mut A,
    schemas: &[&'v Tree],
    value: &'v Tree,
) -> Result<(), AllocError>
    ensures { OnOk result (progress report.new ≡ added (progress report.old) (joined (parts A.asking (data_of value.now) (schemas_of schemas.now)))) }
{
    match value {
        Tree::List(items) => find_in_items(report, tests, schemas, items),
        Tree::Object(members) => find_in_members(report, tests, schemas, members),
        _ => Ok(()),
    }
}

#[cycle(find)]
fn find_in_items<'v, A: PlaceTests>(
    report: &mut Report,
    tests: &mut A,
    schemas: &[&'v Tree],
    items: &'v Items,
) -> Result<(), AllocError>
    ensures { OnOk result (progress report.new ≡ added (progress report.old) (joined (item_parts A.asking items.now items.now 0 (schemas_of schemas.now)))) }
{
    for (i, item) in items.items.iter().enumerate() {
        let is_repeated = some_repeats(schemas, &items.items, i);
        find_item(report, tests, schemas, item, i, is_repeated)?;
    }
    Ok(())
}

#[cycle(find)]
fn find_item<'v, A: PlaceTests>(
    report: &mut Report,
    tests: &mut A,
    schemas: &[&'v Tree],
    item: &'v Tree,
    index: usize,
    is_repeated: bool,
) -> Result<(), AllocError>
    ensures { OnOk result (progress report.new ≡ added (progress report.old) (under (index_step index) (found A.asking (below_of item_schema_of (data_of item.now) (schemas_of schemas.now)) is_repeated (data_of item.now)))) }
{
    let below = item_schemas(*report.pointer.allocator(), schemas, item)?;
    let length = report.pointer.len();
    push_index(&mut report.pointer, index as u64)?;
    find(report, tests, below.as_slice(), item, is_repeated)?;
    report.pointer.truncate(length);
    Ok(())
}

#[cycle(find)]
fn find_in_members<'v, A: PlaceTests>(
    report: &mut Report,
    tests: &mut A,
    schemas: &[&'v Tree],
    members: &'v Members,
) -> Result<(), AllocError>
    ensures { OnOk result (progress report.new ≡ added (progress report.old) (joined (slot_parts A.asking (schemas_of schemas.now) (with_slots (required (schemas_of schemas.now)) (member_slots members.now))))) }
{
    let named = slots(*report.pointer.allocator(), schemas, members)?;
    for slot in &named {
        find_slot(report, tests, schemas, slot)?;
    }
    Ok(())
}

/// Adds the faults under a name.
#[cycle(find)]
fn find_slot<'v, A: PlaceTests>(
    report: &mut Report,
    tests: &mut A,
    schemas: &[&'v Tree],
    slot: &Slot<'v>,
) -> Result<(), AllocError>
    ensures { OnOk result (progress report.new ≡ added (progress report.old) (under (name_step slot.now.name.now) (found_under A.asking (schemas_of schemas.now) slot.now.name.now (option_map (λ t. data_of t.now) slot.now.value)))) }
{
    let length = report.pointer.len();
    push_name(&mut report.pointer, slot.name)?;
    find_under(report, tests, schemas, slot)?;
    report.pointer.truncate(length);
    Ok(())
}

/// Adds the faults of the value under a name, or that it is missing.
#[cycle(find)]
fn find_under<'v, A: PlaceTests>(
    report: &mut Report,
    tests: &mut A,
    schemas: &[&'v Tree],
    slot: &Slot<'v>,
) -> Result<(), AllocError>
    ensures { OnOk result (progress report.new ≡ added (progress report.old) (found_under A.asking (schemas_of schemas.now) slot.now.name.now (option_map (λ t. data_of t.now) slot.now.value))) }
{
    match slot.value {
        Some(value) => find_member(report, tests, schemas, slot.name, value),
        None => report.add(Test::Required),
    }
}

#[cycle(find)]
fn find_member<'v, A: PlaceTests>(
    report: &mut Report,
    tests: &mut A,
    schemas: &[&'v Tree],
    name: &'v str,
    value: &'v Tree,
) -> Result<(), AllocError>
    ensures { OnOk result (progress report.new ≡ added (progress report.old) (found A.asking (below_of (member_schema_of name.now) (data_of value.now) (schemas_of schemas.now)) false (data_of value.now))) }
{
    let below = member_schemas(*report.pointer.allocator(), schemas, name, value)?;
    find(report, tests, below.as_slice(), value, false)
}

pub(crate) fn push_name(text: &mut String, name: &str) -> Result<(), AllocError>
    ensures { OnOk result (string_bytes text.new ≡ string_bytes text.old ++ name_token name.now) }
{
    jtree::push_name(text, name).map_err(|_| AllocError)
}

pub(crate) fn push_index(text: &mut String, index: u64) -> Result<(), AllocError>
    ensures { OnOk result (string_bytes text.new ≡ string_bytes text.old ++ index_token index) }
{
    jtree::push_index(text, index).map_err(|_| AllocError)
}
