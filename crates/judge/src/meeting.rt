//! Whether a value meets a schema.
ghost use Rattle.std.specs.Prelude.{◌≡◌, IfOk, Some, option_map, codes};
ghost use Rattle.jtree.specs.Path.{member_at};
ghost use Rattle.jtree.specs.Data.{object};
ghost use Rattle.jtree.specs.View.{data_of, items_of};
ghost use Rattle.judge.specs.Keywords.{texts, passes as passes_test_of, meets_all as meets_all_of, meets_some as meets_some_of, met as met_of};
ghost use Rattle.judge.specs.Keywords.{is_empty as is_empty_of, passes_any as passes_any_of, passes_one as passes_one_of};
ghost use Rattle.judge.specs.Keywords.{passes_not as passes_not_of, passes_junctors as passes_junctors_of};
ghost use Rattle.judge.specs.Asked.{item_schema as item_schema_of};
ghost use Rattle.judge.specs.Meets.{meets as meets_of, branches, branch_list, items_pass as items_pass_of};
ghost use Rattle.judge.specs.Internal.MeetsByName.{passes_each as passes_each_of, passes_at, branches_at, branches_if, junctors_of};
ghost use Rattle.judge.specs.Internal.MeetsByName.{member_passes as member_passes_of, members_at, parts_at, meets_at};

use crate::envelope::passes_envelope;
use crate::numbers::{passes_maximum, passes_minimum, passes_multiple};
use crate::own::{
    has_few_items, has_few_members, has_many_items, has_many_members, is_long, is_short,
    passes_format, passes_pattern, passes_required,
};
use crate::places::member_schema;
use crate::repetition::passes_distinct;
use crate::test::{Test, all_tests};
use crate::types::{passes_enum, passes_null, passes_type};
use jtree::{Items, Member, Members, Tree};
use std::alloc::AllocError;
use text_tests::{FormatTests, TextTests};

/// Whether a value meets a schema.
#[cycle(meeting)]
pub(crate) fn meets<T: TextTests + FormatTests>(
    tests: &mut T,
    schema: &Tree,
    value: &Tree,
) -> Result<bool, AllocError>
    ensures { IfOk result (λ yes. yes ≡ meets_of (texts T.matches T.is_format T.has_format) (data_of schema.now) (data_of value.now)) }
{
    match schema {
        Tree::Object(keywords) => meets_object(tests, keywords, value),
        Tree::Bool(allows) => Ok(*allows),
        _ => Ok(true),
    }
}

#[cycle(meeting)]
fn meets_object<T: TextTests + FormatTests>(
    tests: &mut T,
    schema: &Members,
    value: &Tree,
) -> Result<bool, AllocError>
    ensures { IfOk result (λ yes. yes ≡ meets_at (texts T.matches T.is_format T.has_format) schema.now (data_of value.now)) }
{
    if !passes_each(tests, schema, &all_tests(), value)? {
        return Ok(false);
    }
    if !branches_pass(tests, schema, value)? {
        return Ok(false);
    }
    Ok(parts_pass(tests, schema, value)?)
}

/// Whether a value passes some tests of a schema.
#[cycle(meeting)]
fn passes_each<T: TextTests + FormatTests>(
    tests: &mut T,
    schema: &Members,
    asked: &[Test],
    value: &Tree,
) -> Result<bool, AllocError>
    ensures { IfOk result (λ yes. yes ≡ passes_each_of (texts T.matches T.is_format T.has_format) schema.now asked.now (data_of value.now)) }
{
    for test in asked {
        if !passes(tests, schema, *test, value)? {
            return Ok(false);
        }
    }
    Ok(true)
}

/// Whether a value passes a test of a schema, if it is asked.
#[cycle(meeting)]
pub(crate) fn passes<T: TextTests + FormatTests>(
    tests: &mut T,
    schema: &Members,
    test: Test,
    value: &Tree,
) -> Result<bool, AllocError>
    ensures { IfOk result (λ yes. yes ≡ passes_at (texts T.matches T.is_format T.has_format) schema.now test (data_of value.now)) }
{
    if !test.is_asked(value) {
        return Ok(true);
    }
    Ok(passes_asked(tests, schema, test, value)?)
}

#[cycle(meeting)]
fn passes_asked<T: TextTests + FormatTests>(
    tests: &mut T,
    schema: &Members,
    test: Test,
    value: &Tree,
) -> Result<bool, AllocError>
    ensures { IfOk result (λ yes. yes ≡ passes_test_of (texts T.matches T.is_format T.has_format) schema.now (junctors_of (texts T.matches T.is_format T.has_format) schema.now) test (data_of value.now)) }
{
    match test {
        Test::OfType => Ok(passes_type(tests, schema, value)),
        Test::Null => Ok(passes_null(schema, value)),
        Test::Enum => Ok(passes_enum(schema.get("enum"), value)),
        Test::Minimum => Ok(passes_minimum(schema, value)),
        Test::Maximum => Ok(passes_maximum(schema, value)),
        Test::MinLength => Ok(is_long(schema, value)),
        Test::MaxLength => Ok(is_short(schema, value)),
        Test::MinItems => Ok(has_many_items(schema, value)),
        Test::MaxItems => Ok(has_few_items(schema, value)),
        Test::MinProperties => Ok(has_many_members(schema, value)),
        Test::MaxProperties => Ok(has_few_members(schema, value)),
        Test::Required => Ok(passes_required(schema, value)),
        Test::Duplicate => Ok(passes_distinct(schema, value)),
        Test::Junctor => passes_junctors(tests, schema, value),
        Test::Pattern => passes_pattern(tests, schema.get("pattern"), value),
        Test::Format => passes_format(tests, schema.get("format"), value),
        Test::MultipleOf => Ok(passes_multiple(schema, value)),
        Test::Rule => Ok(true),
        Test::Envelope => Ok(passes_envelope(schema, value)),
    }
}

/// Whether a value passes `anyOf`, `oneOf` and `not`.
#[cycle(meeting)]
fn passes_junctors<T: TextTests + FormatTests>(
    tests: &mut T,
    schema: &Members,
    value: &Tree,
) -> Result<bool, AllocError>
    ensures { IfOk result (λ yes. yes ≡ passes_junctors_of (junctors_of (texts T.matches T.is_format T.has_format) schema.now) (data_of value.now)) }
{
    if !passes_any(tests, schema, value)? {
        return Ok(false);
    }
    if !passes_one(tests, schema, value)? {
        return Ok(false);
    }
    Ok(passes_not(tests, schema, value)?)
}

#[cycle(meeting)]
fn passes_any<T: TextTests + FormatTests>(
    tests: &mut T,
    schema: &Members,
    value: &Tree,
) -> Result<bool, AllocError>
    ensures { IfOk result (λ yes. yes ≡ passes_any_of (junctors_of (texts T.matches T.is_format T.has_format) schema.now).any (data_of value.now)) }
{
    match schema.get("anyOf") {
        Some(Tree::List(branches)) => Ok(meets_any(tests, branches, value)?),
        _ => Ok(true),
    }
}

#[cycle(meeting)]
fn passes_one<T: TextTests + FormatTests>(
    tests: &mut T,
    schema: &Members,
    value: &Tree,
) -> Result<bool, AllocError>
    ensures { IfOk result (λ yes. yes ≡ passes_one_of (junctors_of (texts T.matches T.is_format T.has_format) schema.now).one (data_of value.now)) }
{
    match schema.get("oneOf") {
        Some(Tree::List(branches)) => Ok(meets_one(tests, branches, value)?),
        _ => Ok(true),
    }
}

#[cycle(meeting)]
fn passes_not<T: TextTests + FormatTests>(
    tests: &mut T,
    schema: &Members,
    value: &Tree,
) -> Result<bool, AllocError>
    ensures { IfOk result (λ yes. yes ≡ passes_not_of (junctors_of (texts T.matches T.is_format T.has_format) schema.now).none (data_of value.now)) }
{
    match schema.get("not") {
        Some(branch) => Ok(!meets(tests, branch, value)?),
        None => Ok(true),
    }
}

/// Whether a value that is not null meets all branches of `allOf`.
#[cycle(meeting)]
fn branches_pass<T: TextTests + FormatTests>(
    tests: &mut T,
    schema: &Members,
    value: &Tree,
) -> Result<bool, AllocError>
    ensures { IfOk result (λ yes. yes ≡ branches_at (texts T.matches T.is_format T.has_format) schema.now (data_of value.now)) }
{
    match value {
        Tree::Null => Ok(true),
        _ => Ok(meets_all(tests, schema, value)?),
    }
}

#[cycle(meeting)]
fn meets_all<T: TextTests + FormatTests>(
    tests: &mut T,
    schema: &Members,
    value: &Tree,
) -> Result<bool, AllocError>
    ensures { IfOk result (λ yes. yes ≡ meets_all_of (branches_if (texts T.matches T.is_format T.has_format) (member_at (codes "allOf") schema.now)) (data_of value.now)) }
{
    match schema.get("allOf") {
        Some(Tree::List(branches)) => Ok(all_hold(tests, branches, value)?),
        _ => Ok(true),
    }
}

/// Whether the parts of a value meet their schemas.
#[cycle(meeting)]
fn parts_pass<T: TextTests + FormatTests>(
    tests: &mut T,
    schema: &Members,
    value: &Tree,
) -> Result<bool, AllocError>
    ensures { IfOk result (λ yes. yes ≡ parts_at (texts T.matches T.is_format T.has_format) schema.now (data_of value.now)) }
{
    match value {
        Tree::Object(members) => members_pass(tests, schema, members),
        Tree::List(items) => items_pass(tests, schema, items),
        _ => Ok(true),
    }
}

#[cycle(meeting)]
fn members_pass<T: TextTests + FormatTests>(
    tests: &mut T,
    schema: &Members,
    members: &Members,
) -> Result<bool, AllocError>
    ensures { IfOk result (λ yes. yes ≡ members_at (texts T.matches T.is_format T.has_format) schema.now members.now) }
{
    for member in &members.members {
        if !member_passes(tests, schema, member)? {
            return Ok(false);
        }
    }
    Ok(true)
}

#[cycle(meeting)]
fn member_passes<T: TextTests + FormatTests>(
    tests: &mut T,
    schema: &Members,
    member: &Member,
) -> Result<bool, AllocError>
    ensures { IfOk result (λ yes. yes ≡ member_passes_of (texts T.matches T.is_format T.has_format) schema.now member.now.name (data_of member.now.tree)) }
{
    match member_schema(schema, member.name.as_str()) {
        Some(part) => Ok(meets(tests, part, &member.tree)?),
        None => Ok(true),
    }
}

#[cycle(meeting)]
fn items_pass<T: TextTests + FormatTests>(
    tests: &mut T,
    schema: &Members,
    items: &Items,
) -> Result<bool, AllocError>
    ensures { IfOk result (λ yes. yes ≡ items_pass_of (option_map (meets_of (texts T.matches T.is_format T.has_format)) (item_schema_of (object schema.now))) items.now) }
{
    match schema.get("items") {
        Some(part) => Ok(all_meet(tests, part, items)?),
        None => Ok(true),
    }
}

/// Whether each item meets a schema.
#[cycle(meeting)]
fn all_meet<T: TextTests + FormatTests>(
    tests: &mut T,
    part: &Tree,
    items: &Items,
) -> Result<bool, AllocError>
    ensures { IfOk result (λ yes. yes ≡ items_pass_of (Some (meets_of (texts T.matches T.is_format T.has_format) (data_of part.now))) items.now) }
{
    for item in &items.items {
        if !meets(tests, part, item)? {
            return Ok(false);
        }
    }
    Ok(true)
}

/// Whether a value meets all branches.
#[cycle(meeting)]
fn all_hold<T: TextTests + FormatTests>(
    tests: &mut T,
    branches: &Items,
    value: &Tree,
) -> Result<bool, AllocError>
    ensures { IfOk result (λ yes. yes ≡ meets_all_of (branch_list (texts T.matches T.is_format T.has_format) branches.now) (data_of value.now)) }
{
    for branch in &branches.items {
        if !meets(tests, branch, value)? {
            return Ok(false);
        }
    }
    Ok(true)
}

/// Whether a value meets one of the branches, if there are any.
#[cycle(meeting)]
fn meets_any<T: TextTests + FormatTests>(
    tests: &mut T,
    branches: &Items,
    value: &Tree,
) -> Result<bool, AllocError>
    ensures { IfOk result (λ yes. yes ≡ passes_any_of (branch_list (texts T.matches T.is_format T.has_format) branches.now) (data_of value.now)) }
{
    if is_empty(branches) {
        return Ok(true);
    }
    Ok(any_holds(tests, branches, value)?)
}

/// Whether a value meets exactly one of the branches, if there are any.
#[cycle(meeting)]
fn meets_one<T: TextTests + FormatTests>(
    tests: &mut T,
    branches: &Items,
    value: &Tree,
) -> Result<bool, AllocError>
    ensures { IfOk result (λ yes. yes ≡ passes_one_of (branch_list (texts T.matches T.is_format T.has_format) branches.now) (data_of value.now)) }
{
    if is_empty(branches) {
        return Ok(true);
    }
    Ok(holding(tests, branches, value)? == 1)
}

fn is_empty(branches: &Items) -> bool
    ensures { (m : _) → result ≡ is_empty_of (branch_list m branches.now) }
{
    match branches.items.as_slice() {
        [] => true,
        _ => false,
    }
}

#[cycle(meeting)]
fn any_holds<T: TextTests + FormatTests>(
    tests: &mut T,
    branches: &Items,
    value: &Tree,
) -> Result<bool, AllocError>
    ensures { IfOk result (λ yes. yes ≡ meets_some_of (branch_list (texts T.matches T.is_format T.has_format) branches.now) (data_of value.now)) }
{
    for branch in &branches.items {
        if meets(tests, branch, value)? {
            return Ok(true);
        }
    }
    Ok(false)
}

#[cycle(meeting)]
fn holding<T: TextTests + FormatTests>(
    tests: &mut T,
    branches: &Items,
    value: &Tree,
) -> Result<usize, AllocError>
    ensures { IfOk result (λ count. count ≡ met_of (branch_list (texts T.matches T.is_format T.has_format) branches.now) (data_of value.now)) }
{
    let mut count = 0;
    for branch in &branches.items {
        if meets(tests, branch, value)? {
            count += 1;
        }
    }
    Ok(count)
}
