//! Keys of maps, and the values under them.
ghost use Rattle.std.specs.Prelude.{◌≡◌, Some, None, option_map, MatchOption, IfOk};
ghost use Rattle.cel_value.specs.Map.{key_of as spec_key_of, value_of_key};
ghost use Rattle.cel_value.specs.Same.{same_key, value_at, entries_count};
ghost use Rattle.cel_value.specs.View.{key_of, borrowed_of, value_of};

use crate::texts;
use crate::value::{Entries, Key, Value};
use cel_ast::Text;
use std::alloc::{AllocError, Global};

/// A key whose text is elsewhere.
#[derive(Clone, Copy)]
pub enum BorrowedKey<'a> {
    Bool(bool),
    Int(i64),
    String(&'a Text),
}

impl<'a> BorrowedKey<'a> {
    /// The value as a key: `None` where it is neither a boolean nor an integer nor a string.
    pub fn of(value: &'a Value) -> Option<BorrowedKey<'a>>
        ensures { option_map borrowed_of result ≡ spec_key_of (value_of value.now) }
    {
        match value {
            Value::Bool(b) => Some(BorrowedKey::Bool(*b)),
            Value::Int(n) => Some(BorrowedKey::Int(*n)),
            Value::String(text) => Some(BorrowedKey::String(text)),
            _ => None,
        }
    }

    /// Whether it is this key.
    pub fn is(&self, key: &Key) -> bool
        ensures { result ≡ same_key (borrowed_of self.now) (key_of key.now) }
    {
        match (self, key) {
            (BorrowedKey::Bool(a), Key::Bool(b)) => a == b,
            (BorrowedKey::Int(a), Key::Int(b)) => a == b,
            (BorrowedKey::String(a), Key::String(b)) => texts::is_same(a, b),
            _ => false,
        }
    }

    /// A key that owns its text. `AllocError` where an allocation fails.
    pub fn copy(&self, alloc: Global) -> Result<Key, AllocError>
        ensures { IfOk result (λ k. key_of k ≡ borrowed_of self.now) }
    {
        match self {
            BorrowedKey::Bool(b) => Ok(Key::Bool(*b)),
            BorrowedKey::Int(n) => Ok(Key::Int(*n)),
            BorrowedKey::String(text) => Ok(Key::String(texts::copy(alloc, text)?)),
        }
    }
}

impl Key {
    /// The key, with its text where it is.
    pub fn borrowed(&self) -> BorrowedKey<'_>
        ensures { borrowed_of result ≡ key_of self.now }
    {
        match self {
            Key::Bool(b) => BorrowedKey::Bool(*b),
            Key::Int(n) => BorrowedKey::Int(*n),
            Key::String(text) => BorrowedKey::String(text),
        }
    }

    /// The key as a value. `AllocError` where an allocation fails.
    pub fn value(&self, alloc: Global) -> Result<Value, AllocError>
        ensures { IfOk result (λ v. value_of v ≡ value_of_key (key_of self.now)) }
    {
        match self {
            Key::Bool(b) => Ok(Value::Bool(*b)),
            Key::Int(n) => Ok(Value::Int(*n)),
            Key::String(text) => Ok(Value::String(texts::copy(alloc, text)?)),
        }
    }
}

impl Entries {
    /// How many entries there are.
    pub fn count(&self) -> usize
        ensures { result ≡ entries_count self.now }
    {
        self.entries.as_slice().len()
    }

    /// The value of the first entry with the key, if there is one.
    pub fn get(&self, key: BorrowedKey<'_>) -> Option<&Value>
        ensures { MatchOption result (value_at (borrowed_of key.entry) self.now ≡ None) (λ v. value_at (borrowed_of key.entry) self.now ≡ Some (value_of v.now)) }
    {
        for entry in &self.entries {
            if key.is(&entry.key) {
                return Some(&entry.value);
            }
        }
        None
    }
}
