//! Values that are equal.
ghost use Rattle.std.specs.Prelude.{◌≡◌, ◌&&◌, nat_eq};
ghost use Rattle.cel_value.specs.Same.{same, same_values, has_entries, is_there, value_at, entries_count};
ghost use Rattle.cel_value.specs.View.{key_of, value_of, values_of, entries_of};

use crate::texts;
use crate::value::{Entries, Entry, Value};

impl Value {
    /// `self == other`. Values of different types are not equal, and an entry of a map counts by its key, wherever it stands.
    #[cycle(same)]
    pub fn is_same(&self, other: &Value) -> bool
        ensures { result ≡ same (value_of self.now) (value_of other.now) }
    {
        match (self, other) {
            (Value::Null, Value::Null) => true,
            (Value::Bool(a), Value::Bool(b)) => a == b,
            (Value::Int(a), Value::Int(b)) => a == b,
            (Value::String(a), Value::String(b)) => texts::is_same(a, b),
            (Value::List(a), Value::List(b)) => are_same(&a.values, &b.values),
            (Value::Map(a), Value::Map(b)) => are_same_maps(a, b),
            _ => false,
        }
    }
}

/// Whether the values are equal in order.
#[cycle(same)]
fn are_same(left: &[Value], right: &[Value]) -> bool
    ensures { result ≡ same_values (values_of left.now) (values_of right.now) }
{
    if left.len() != right.len() {
        return false;
    }
    for i in 0..left.len() {
        if !left[i].is_same(&right[i]) {
            return false;
        }
    }
    true
}

/// Whether the maps have the same number of entries, and those of the first are in the second.
#[cycle(same)]
fn are_same_maps(left: &Entries, right: &Entries) -> bool
    ensures { result ≡ (nat_eq (entries_count left.now) (entries_count right.now) && has_entries left.now right.now) }
{
    left.count() == right.count() && are_in(&left.entries, right)
}

/// Whether each of the entries is one of the map.
#[cycle(same)]
fn are_in(entries: &[Entry], map: &Entries) -> bool
    ensures { result ≡ has_entries (entries_of entries.now) map.now }
{
    for i in 0..entries.len() {
        if !is_in(&entries[i], map) {
            return false;
        }
    }
    true
}

/// Whether the map has an equal value under the key.
#[cycle(same)]
fn is_in(entry: &Entry, map: &Entries) -> bool
    ensures { result ≡ is_there (same (value_of entry.now.value)) (value_at (key_of entry.now.key) map.now) }
{
    match map.get(entry.key.borrowed()) {
        Some(value) => entry.value.is_same(value),
        None => false,
    }
}
