//! Values.
use cel_ast::Text;
use std::marker::Model;

/// A value.
#[cycle(value)]
#[derive(Drop)]
pub enum Value {
    Null,
    Bool(bool),
    Int(i64),
    String(Text),
    List(Values),
    Map(Entries),
}

/// Values in order.
#[cycle(value)]
#[derive(Drop)]
pub struct Values {
    pub values: Vec<Value>,
}

/// The entries of a map, in the order in which macros visit them. Where two have the same key, the first counts.
#[cycle(value)]
#[derive(Drop)]
pub struct Entries {
    pub entries: Vec<Entry>,
}

/// An entry of a map.
#[cycle(value)]
#[derive(Drop)]
pub struct Entry {
    pub key: Key,
    pub value: Value,
}

/// The key of an entry.
#[derive(Drop)]
pub enum Key {
    Bool(bool),
    Int(i64),
    String(Text),
}

impl Model for Values {
    ghost use Rattle.cel_value.specs.Data;
    ghost use Rattle.cel_value.specs.Data.{values_depth};
    ghost use Rattle.cel_value.specs.Internal.Code.{coded_values};

    ghost Value = { Data.Values };

    ghost coded = { coded_values };

    ghost use Rattle.cel_value.specs.View.{values_of};

    ghost view = { λ a. values_of a.values.items };

    ghost size = { values_depth };

    ghost use Rattle.cel_value.specs.Internal.Measures.{values_decrease};

    ghost size_decreases = { λ a h. values_decrease a.values.items };
}

impl Model for Entries {
    ghost use Rattle.cel_value.specs.Data;
    ghost use Rattle.cel_value.specs.Data.{entries_depth};
    ghost use Rattle.cel_value.specs.Internal.Code.{coded_entries};

    ghost Value = { Data.Entries };

    ghost coded = { coded_entries };

    ghost use Rattle.cel_value.specs.View.{entries_of};

    ghost view = { λ a. entries_of a.entries.items };

    ghost size = { entries_depth };

    ghost use Rattle.cel_value.specs.Internal.Measures.{entries_decrease};

    ghost size_decreases = { λ a h. entries_decrease a.entries.items };
}
