//! Copies of values.
ghost use Rattle.std.specs.Prelude.{◌≡◌, IfOk};

use crate::texts;
use crate::value::{Entries, Entry, Key, Value, Values};
use std::alloc::{AllocError, Global};

impl Value {
    /// An equal value. `AllocError` where an allocation fails.
    #[cycle(copy)]
    pub fn copy(&self, alloc: Global) -> Result<Value, AllocError>
        ensures { IfOk result (λ v. v ≡ self.now) }
    {
        match self {
            Value::Null => Ok(Value::Null),
            Value::Bool(b) => Ok(Value::Bool(*b)),
            Value::Int(n) => Ok(Value::Int(*n)),
            Value::String(text) => Ok(Value::String(texts::copy(alloc, text)?)),
            Value::List(values) => Ok(Value::List(copy_values(values, alloc)?)),
            Value::Map(entries) => Ok(Value::Map(copy_entries(entries, alloc)?)),
        }
    }
}

#[cycle(copy)]
fn copy_values(values: &Values, alloc: Global) -> Result<Values, AllocError>
    ensures { IfOk result (λ vs. vs ≡ values.now) }
{
    let mut copies = Vec::with_capacity(alloc, values.values.len())?;
    for value in &values.values {
        copies.push_reserved(value.copy(alloc)?);
    }
    Ok(Values { values: copies })
}

#[cycle(copy)]
fn copy_entries(entries: &Entries, alloc: Global) -> Result<Entries, AllocError>
    ensures { IfOk result (λ es. es ≡ entries.now) }
{
    let mut copies = Vec::with_capacity(alloc, entries.entries.len())?;
    for entry in &entries.entries {
        let key = copy_key(&entry.key, alloc)?;
        let value = entry.value.copy(alloc)?;
        copies.push_reserved(Entry { key, value });
    }
    Ok(Entries { entries: copies })
}

fn copy_key(key: &Key, alloc: Global) -> Result<Key, AllocError>
    ensures { IfOk result (λ k. k ≡ key.now) }
{
    match key {
        Key::Bool(b) => Ok(Key::Bool(*b)),
        Key::Int(n) => Ok(Key::Int(*n)),
        Key::String(text) => Ok(Key::String(texts::copy(alloc, text)?)),
    }
}
