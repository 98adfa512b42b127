//! `check` on the markers of lists and maps (V10 to V13): what breaks a rule, beside what does not.
use crate::support::harness::{CHECKED, FieldRow};
use crate::support::rows::try_tables;
use std::test::Fail;

static LIST_TYPES: &str = r#"
7 rows: name | field | out
a list type | {"type":"array","items":{"type":"string"},"x-kubernetes-list-type":"atomic"} | structural
a list type of a text | {"type":"string","x-kubernetes-list-type":"atomic"} | V10 "/properties/x"
a list type of an object | {"type":"object","x-kubernetes-list-type":"set"} | V10 "/properties/x"
a list type of any value | {"x-kubernetes-preserve-unknown-fields":true,"x-kubernetes-list-type":"atomic"} | V10 "/properties/x"
a list type without a type | {"x-kubernetes-list-type":"atomic"} | V01 "/properties/x"
    > V10 "/properties/x"
another list type | {"type":"array","items":{"type":"string"},"x-kubernetes-list-type":"list"} | V10 "/properties/x"
an empty list type | {"type":"array","items":{"type":"string"},"x-kubernetes-list-type":""} | V10 "/properties/x"
"#;

// Keys where there is no map list.
static KEYS_ELSEWHERE: &str = r#"
7 rows: name | field | out
another list type with keys | {"type":"array","items":{"type":"string"},"x-kubernetes-list-type":"Map","x-kubernetes-list-map-keys":["k"]}
    | V10 "/properties/x"
    > V11 "/properties/x"
an object of list type map with keys | {"type":"object","x-kubernetes-list-type":"map","x-kubernetes-list-map-keys":["k"]} | V10 "/properties/x"
keys without a list type | {"type":"array","items":{"type":"string"},"x-kubernetes-list-map-keys":["k"]} | V11 "/properties/x"
keys of an atomic list | {"type":"array","items":{"type":"string"},"x-kubernetes-list-type":"atomic","x-kubernetes-list-map-keys":["k"]}
    | V11 "/properties/x"
keys of a set | {"type":"array","items":{"type":"string"},"x-kubernetes-list-type":"set","x-kubernetes-list-map-keys":["k"]} | V11 "/properties/x"
no keys of a set | {"type":"array","items":{"type":"string"},"x-kubernetes-list-type":"set","x-kubernetes-list-map-keys":[]} | V11 "/properties/x"
keys of an object | {"type":"object","x-kubernetes-list-map-keys":["k"]} | V11 "/properties/x"
"#;

static MAP_LISTS: &str = r#"
8 rows: name | field | out
a map list
    | {"type":"array","x-kubernetes-list-map-keys":["k"],"x-kubernetes-list-type":"map",
    "items":{"type":"object","properties":{"k":{"type":"string"}},"required":["k"]}} | structural
a map list without keys
    | {"type":"array","x-kubernetes-list-type":"map","items":{"type":"object","properties":{"k":{"type":"string"}},"required":["k"]}}
    | V11 "/properties/x"
a map list of no keys
    | {"type":"array","x-kubernetes-list-map-keys":[],"x-kubernetes-list-type":"map","items":{"type":"object","properties":{"k":{"type":"string"}},
    "required":["k"]}} | V11 "/properties/x"
a key that occurs twice
    | {"type":"array","x-kubernetes-list-map-keys":["k","k"],"x-kubernetes-list-type":"map",
    "items":{"type":"object","properties":{"k":{"type":"string"}},"required":["k"]}} | V11 "/properties/x"
two keys
    | {"type":"array","x-kubernetes-list-map-keys":["l","k"],"x-kubernetes-list-type":"map",
    "items":{"type":"object","properties":{"k":{"type":"string"},"l":{"type":"integer"}},"required":["k","l"]}}
    | structural
two keys, the last not required
    | {"type":"array","x-kubernetes-list-map-keys":["l","k"],"x-kubernetes-list-type":"map",
    "items":{"type":"object","properties":{"k":{"type":"string"},"l":{"type":"integer"}},"required":["l"]}}
    | V11 "/properties/x"
two keys, the last no property
    | {"type":"array","x-kubernetes-list-map-keys":["l","k"],"x-kubernetes-list-type":"map",
    "items":{"type":"object","properties":{"l":{"type":"integer"}},"required":["l"]}} | V11 "/properties/x"
a map list without items | {"type":"array","x-kubernetes-list-map-keys":["k"],"x-kubernetes-list-type":"map"} | V11 "/properties/x"
    > V17 "/properties/x"
"#;

// Items of map lists.
static ITEMS: &str = r#"
8 rows: name | field | out
a map list of texts | {"type":"array","x-kubernetes-list-map-keys":["k"],"x-kubernetes-list-type":"map","items":{"type":"string"}}
    | V11 "/properties/x"
a map list of any values
    | {"type":"array","x-kubernetes-list-map-keys":["k"],"x-kubernetes-list-type":"map","items":{"x-kubernetes-preserve-unknown-fields":true}}
    | V11 "/properties/x"
a map list of items without a type
    | {"type":"array","x-kubernetes-list-map-keys":["k"],"x-kubernetes-list-type":"map","items":{"properties":{"k":{"type":"string"}},"required":["k"]}}
    | V11 "/properties/x"
    > V01 "/properties/x/items"
a map list of maps
    | {"type":"array","x-kubernetes-list-map-keys":["k"],"x-kubernetes-list-type":"map",
    "items":{"type":"object","additionalProperties":{"type":"string"}}} | V11 "/properties/x"
a map list of maps with properties
    | {"type":"array","x-kubernetes-list-map-keys":["k"],"x-kubernetes-list-type":"map",
    "items":{"type":"object","additionalProperties":{"type":"string"},"properties":{"k":{"type":"string"}},"required":["k"]}}
    | V08 "/properties/x/items"
a map list of objects or null
    | {"type":"array","x-kubernetes-list-map-keys":["k"],"x-kubernetes-list-type":"map",
    "items":{"type":"object","nullable":true,"properties":{"k":{"type":"string"}},"required":["k"]}}
    | V11 "/properties/x"
a map list of objects and no null
    | {"type":"array","x-kubernetes-list-map-keys":["k"],"x-kubernetes-list-type":"map",
    "items":{"type":"object","nullable":false,"properties":{"k":{"type":"string"}},"required":["k"]}}
    | structural
a map list of objects with other fields
    | {"type":"array","x-kubernetes-list-map-keys":["k"],"x-kubernetes-list-type":"map",
    "items":{"type":"object","x-kubernetes-preserve-unknown-fields":true,"properties":{"k":{"type":"string"}},"required":["k"]}}
    | structural
"#;

// Keys of map lists.
static KEYS: &str = r#"
10 rows: name | field | out
a key that is no property
    | {"type":"array","x-kubernetes-list-map-keys":["k"],"x-kubernetes-list-type":"map",
    "items":{"type":"object","properties":{"l":{"type":"string"}},"required":["l"]}} | V11 "/properties/x"
a key of items without properties | {"type":"array","x-kubernetes-list-map-keys":["k"],"x-kubernetes-list-type":"map","items":{"type":"object"}}
    | V11 "/properties/x"
a key of objects
    | {"type":"array","x-kubernetes-list-map-keys":["k"],"x-kubernetes-list-type":"map",
    "items":{"type":"object","properties":{"k":{"type":"object"}},"required":["k"]}} | V11 "/properties/x"
a key of lists
    | {"type":"array","x-kubernetes-list-map-keys":["k"],"x-kubernetes-list-type":"map",
    "items":{"type":"object","properties":{"k":{"type":"array","items":{"type":"string"}}},"required":["k"]}}
    | V11 "/properties/x"
a key of any values
    | {"type":"array","x-kubernetes-list-map-keys":["k"],"x-kubernetes-list-type":"map",
    "items":{"type":"object","properties":{"k":{"x-kubernetes-preserve-unknown-fields":true}},"required":["k"]}}
    | V11 "/properties/x"
a key without a type
    | {"type":"array","x-kubernetes-list-map-keys":["k"],"x-kubernetes-list-type":"map","items":{"type":"object","properties":{"k":{}},"required":["k"]}}
    | V11 "/properties/x"
    > V01 "/properties/x/items/properties/k"
a key of integers and texts
    | {"type":"array","x-kubernetes-list-map-keys":["k"],"x-kubernetes-list-type":"map",
    "items":{"type":"object","properties":{"k":{"x-kubernetes-int-or-string":true}},"required":["k"]}}
    | structural
a key of booleans
    | {"type":"array","x-kubernetes-list-map-keys":["k"],"x-kubernetes-list-type":"map",
    "items":{"type":"object","properties":{"k":{"type":"boolean","nullable":false}},"required":["k"]}}
    | structural
a key of texts or null
    | {"type":"array","x-kubernetes-list-map-keys":["k"],"x-kubernetes-list-type":"map",
    "items":{"type":"object","properties":{"k":{"type":"string","nullable":true}},"required":["k"]}}
    | V11 "/properties/x"
a key that is not required
    | {"type":"array","x-kubernetes-list-map-keys":["k"],"x-kubernetes-list-type":"map","items":{"type":"object","properties":{"k":{"type":"string"}}}}
    | V11 "/properties/x"
"#;

static SETS: &str = r#"
10 rows: name | field | out
a set | {"type":"array","x-kubernetes-list-type":"set","items":{"type":"string"}} | structural
a set without items | {"type":"array","x-kubernetes-list-type":"set"} | V12 "/properties/x"
    > V17 "/properties/x"
a set of objects | {"type":"array","x-kubernetes-list-type":"set","items":{"type":"object"}} | V12 "/properties/x"
a set of lists | {"type":"array","x-kubernetes-list-type":"set","items":{"type":"array","items":{"type":"string"}}} | V12 "/properties/x"
a set of any values | {"type":"array","x-kubernetes-list-type":"set","items":{"x-kubernetes-preserve-unknown-fields":true}} | V12 "/properties/x"
a set of items without a type | {"type":"array","x-kubernetes-list-type":"set","items":{}} | V12 "/properties/x"
    > V01 "/properties/x/items"
a set of numbers | {"type":"array","x-kubernetes-list-type":"set","items":{"type":"number"}} | V12 "/properties/x"
    > V17 "/properties/x/items"
a set of integers and texts | {"type":"array","x-kubernetes-list-type":"set","items":{"x-kubernetes-int-or-string":true,"nullable":false}}
    | structural
a set of texts or null | {"type":"array","x-kubernetes-list-type":"set","items":{"type":"string","nullable":true}} | V12 "/properties/x"
an atomic list of texts or null | {"type":"array","x-kubernetes-list-type":"atomic","items":{"type":"string","nullable":true}} | structural
"#;

// Whole schemas, in place of those of a field.
static MAP_TYPES: &str = r#"
8 rows: name | schema | out
map types
    | {"type":"object","x-kubernetes-map-type":"granular","properties":{"m":{"type":"object","additionalProperties":{"type":"string"},
    "x-kubernetes-map-type":"atomic"}}} | structural
a map type of a list | {"type":"object","properties":{"x":{"type":"array","items":{"type":"string"},"x-kubernetes-map-type":"atomic"}}}
    | V13 "/properties/x"
a map type of a text | {"type":"object","properties":{"x":{"type":"string","x-kubernetes-map-type":"granular"}}} | V13 "/properties/x"
a map type of any value | {"type":"object","properties":{"x":{"x-kubernetes-preserve-unknown-fields":true,"x-kubernetes-map-type":"atomic"}}}
    | V13 "/properties/x"
a map type without a type | {"type":"object","properties":{"x":{"x-kubernetes-map-type":"atomic"}}} | V01 "/properties/x"
    > V13 "/properties/x"
another map type | {"type":"object","properties":{"x":{"type":"object","x-kubernetes-map-type":"set"}}} | V13 "/properties/x"
an empty map type of a map
    | {"type":"object","properties":{"x":{"type":"object","additionalProperties":{"type":"string"},"x-kubernetes-map-type":""}}} | V13 "/properties/x"
markers in a branch
    | {"type":"object","properties":{"x":{"type":"string","not":{"x-kubernetes-list-type":"list","x-kubernetes-list-map-keys":["k"],
    "x-kubernetes-map-type":"set"}}}} | V16 "/properties/x/not"
"#;

#[test]
fn list_types(rt: HostRuntime) -> Result<(), Fail> {
    try_tables(&rt, rt.alloc(), &FieldRow, &[LIST_TYPES])
}

#[test]
fn keys_elsewhere(rt: HostRuntime) -> Result<(), Fail> {
    try_tables(&rt, rt.alloc(), &FieldRow, &[KEYS_ELSEWHERE])
}

#[test]
fn map_lists(rt: HostRuntime) -> Result<(), Fail> {
    try_tables(&rt, rt.alloc(), &FieldRow, &[MAP_LISTS])
}

#[test]
fn items(rt: HostRuntime) -> Result<(), Fail> {
    try_tables(&rt, rt.alloc(), &FieldRow, &[ITEMS])
}

#[test]
fn keys(rt: HostRuntime) -> Result<(), Fail> {
    try_tables(&rt, rt.alloc(), &FieldRow, &[KEYS])
}

#[test]
fn sets(rt: HostRuntime) -> Result<(), Fail> {
    try_tables(&rt, rt.alloc(), &FieldRow, &[SETS])
}

#[test]
fn map_types(rt: HostRuntime) -> Result<(), Fail> {
    try_tables(&rt, rt.alloc(), &CHECKED, &[MAP_TYPES])
}
