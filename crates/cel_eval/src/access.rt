//! Fields and items.
ghost use Rattle.std.specs.Prelude.{◌≡◌, ◌<ℤ◌, pos, Some, None, IfOk, MatchResult, MatchOption};
ghost use Rattle.std.specs.Option.{is_some};
ghost use Rattle.cel_value.specs.Data.{list, integer};
ghost use Rattle.cel_value.specs.Map.{key_of};
ghost use Rattle.cel_value.specs.View.{value_of};
ghost use Rattle.cel_eval.specs.Outcome.{bind, value, error};
ghost use Rattle.cel_eval.specs.Operators.{field as field_is, has_field, indexed, under};
ghost use Rattle.cel_eval.specs.View.{outcome_of};

use crate::answer::{Answer, failed, verdict};
use crate::stop::{Fault, Stop};
use cel_ast::Text;
use cel_value::{BorrowedKey, Entries, Value, Values};
use std::alloc::{AllocError, Global};

/// `whole.name`
pub(crate) fn field<'a>(
    alloc: Global,
    whole: Answer<'a>,
    name: &Text,
) -> Result<Answer<'a>, AllocError>
    ensures { IfOk result (λ a. outcome_of a ≡ bind (outcome_of whole.entry) (field_is name.now)) }
{
    match whole {
        Answer::Lent(value) => Ok(match member(value, name) {
            Ok(part) => Answer::Lent(part),
            Err(fault) => failed(fault),
        }),
        Answer::Made(value) => Ok(match member(&value, name) {
            Ok(part) => Answer::Made(part.copy(alloc)?),
            Err(fault) => failed(fault),
        }),
        Answer::Stopped(stop) => Ok(Answer::Stopped(stop)),
    }
}

fn member<'a>(whole: &'a Value, name: &Text) -> Result<&'a Value, Fault>
    ensures { MatchResult result (λ v. field_is name.now (value_of whole.now) ≡ value (value_of v.now)) (λ e. field_is name.now (value_of whole.now) ≡ error e) }
{
    match whole {
        Value::Map(entries) => match entries.get(BorrowedKey::String(name)) {
            Some(part) => Ok(part),
            None => Err(Fault::NoSuchKey),
        },
        _ => Err(Fault::NoOverload),
    }
}

/// `has(whole.name)`
pub(crate) fn presence<'a>(whole: &Answer<'_>, name: &Text) -> Answer<'a>
    ensures { outcome_of result ≡ bind (outcome_of whole.now) (has_field name.now) }
{
    match whole.value() {
        Ok(Value::Map(entries)) => verdict(entries.get(BorrowedKey::String(name)).is_some()),
        Ok(_) => failed(Fault::NoOverload),
        Err(stop) => Answer::Stopped(stop),
    }
}

/// `whole[key]`
pub(crate) fn index<'a>(
    alloc: Global,
    whole: Answer<'a>,
    key: &Value,
) -> Result<Answer<'a>, AllocError>
    ensures { IfOk result (λ a. outcome_of a ≡ bind (outcome_of whole.entry) (λ v. indexed v (value_of key.now))) }
{
    match whole {
        Answer::Lent(value) => Ok(match part_at(value, key) {
            Ok(part) => Answer::Lent(part),
            Err(fault) => failed(fault),
        }),
        Answer::Made(value) => Ok(match part_at(&value, key) {
            Ok(part) => Answer::Made(part.copy(alloc)?),
            Err(fault) => failed(fault),
        }),
        Answer::Stopped(stop) => Ok(Answer::Stopped(stop)),
    }
}

/// The item at an index, or the value under a key.
fn part_at<'a>(whole: &'a Value, key: &Value) -> Result<&'a Value, Fault>
    ensures { MatchResult result (λ v. indexed (value_of whole.now) (value_of key.now) ≡ value (value_of v.now)) (λ e. indexed (value_of whole.now) (value_of key.now) ≡ error e) }
{
    match whole {
        Value::List(values) => match key {
            Value::Int(index) => item_at(values, *index),
            _ => Err(Fault::NoOverload),
        },
        Value::Map(entries) => match value_under(entries, key) {
            Some(part) => Ok(part),
            None => Err(Fault::NoSuchKey),
        },
        _ => Err(Fault::NoOverload),
    }
}

/// The value under a key.
pub(crate) fn value_under<'a>(entries: &'a Entries, key: &Value) -> Option<&'a Value>
    ensures { MatchOption result (under (key_of (value_of key.now)) entries.now ≡ None) (λ v. under (key_of (value_of key.now)) entries.now ≡ Some (value_of v.now)) }
{
    match BorrowedKey::of(key) {
        Some(key) => entries.get(key),
        None => None,
    }
}

fn item_at(values: &Values, index: i64) -> Result<&Value, Fault>
    ensures { MatchResult result (λ v. indexed (list values.now) (integer index) ≡ value (value_of v.now)) (λ e. indexed (list values.now) (integer index) ≡ error e) }
{
    match place_of(index) {
        Some(place) => match values.values.get(place) {
            Some(item) => Ok(item),
            None => Err(Fault::IndexOutOfRange),
        },
        None => Err(Fault::IndexOutOfRange),
    }
}

/// An index that is not negative.
fn place_of(index: i64) -> Option<usize>
    ensures { MatchOption result (index <ℤ pos 0) (λ n. index ≡ pos n) }
{
    match usize::try_from(index) {
        Ok(place) => Some(place),
        Err(_) => None,
    }
}
