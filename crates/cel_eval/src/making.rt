//! Literals, and lists and maps that are made.
ghost use Rattle.std.specs.Prelude.{◌≡◌, IfOk};
ghost use Rattle.std.specs.Option.{is_some};
ghost use Rattle.cel_ast.specs.View.{constant_of};
ghost use Rattle.cel_value.specs.Same.{value_at};
ghost use Rattle.cel_value.specs.View.{borrowed_of, entries_of, key_of};
ghost use Rattle.cel_eval.specs.Making.{constant_value, as_key, made_map, are_distinct as spec_are_distinct};
ghost use Rattle.cel_eval.specs.Ranges.{listed, keys};
ghost use Rattle.cel_eval.specs.Internal.Views.{key_found};
ghost use Rattle.cel_eval.specs.View.{outcome_of};

use crate::answer::{Answer, not_judged};
use crate::stop::{Reason, Stop};
use cel_ast::Literal;
use cel_value::{BorrowedKey, Entries, Entry, Key, Value, Values, texts};
use std::alloc::{AllocError, Global};

/// What a literal stands for.
pub(crate) fn constant<'a>(alloc: Global, literal: &Literal) -> Result<Answer<'a>, AllocError>
    ensures { IfOk result (λ a. outcome_of a ≡ constant_value (constant_of literal.now)) }
{
    match literal {
        Literal::Null => Ok(Answer::Made(Value::Null)),
        Literal::Bool(b) => Ok(Answer::Made(Value::Bool(*b))),
        Literal::Int(n) => Ok(Answer::Made(Value::Int(*n))),
        Literal::String(text) => Ok(Answer::Made(Value::String(texts::copy(alloc, text)?))),
        Literal::Uint(_) => Ok(not_judged(Reason::Unsigned)),
        Literal::Double(_) => Ok(not_judged(Reason::Double)),
        Literal::Bytes => Ok(not_judged(Reason::Bytes)),
    }
}

/// A list of these items.
pub(crate) fn list_of<'a>(found: Result<Values, Stop>) -> Answer<'a>
    ensures { outcome_of result ≡ listed found }
{
    match found {
        Ok(values) => Answer::Made(Value::List(values)),
        Err(stop) => Answer::Stopped(stop),
    }
}

/// A map of these entries.
pub(crate) fn map_of<'a>(found: Result<Entries, Stop>) -> Answer<'a>
    ensures { outcome_of result ≡ made_map found }
{
    match found {
        Ok(entries) => {
            if are_distinct(&entries.entries) {
                Answer::Made(Value::Map(entries))
            } else {
                not_judged(Reason::RepeatedKey)
            }
        }
        Err(stop) => Answer::Stopped(stop),
    }
}

/// Whether no two entries have the same key.
fn are_distinct(entries: &[Entry]) -> bool
    ensures { result ≡ spec_are_distinct (entries_of entries.now) }
{
    for i in 0..entries.len() {
        if has_key(&entries[i + 1..], entries[i].key.borrowed()) {
            return false;
        }
    }
    true
}

/// Whether an entry has the key.
fn has_key(entries: &[Entry], key: BorrowedKey<'_>) -> bool
    ensures { result ≡ is_some (value_at (borrowed_of key.entry) (entries_of entries.now)) }
{
    for entry in entries {
        if key.is(&entry.key) {
            return true;
        }
    }
    false
}

/// A value as a key.
pub(crate) fn key_from(alloc: Global, answer: &Answer<'_>) -> Result<Result<Key, Stop>, AllocError>
    ensures { IfOk result (λ r. key_found r ≡ as_key (outcome_of answer.now)) }
{
    match answer.value() {
        Ok(value) => match BorrowedKey::of(value) {
            Some(key) => Ok(Ok(key.copy(alloc)?)),
            None => Ok(Err(Stop::NotJudged(Reason::KeyType))),
        },
        Err(stop) => Ok(Err(stop)),
    }
}

/// The keys of a map, as values.
pub(crate) fn keys_of(alloc: Global, entries: &Entries) -> Result<Values, AllocError>
    ensures { IfOk result (λ vs. vs ≡ keys entries.now) }
{
    let mut values = Vec::new(alloc);
    for entry in &entries.entries {
        values.push(entry.key.value(alloc)?)?;
    }
    Ok(Values { values })
}
