//! Junctors that ask which fields an object has: where they are allowed, and what objects meet them.
use crate::support::harness::{CHECKED, FieldRow, VALIDATED};
use crate::support::rows::try_tables;
use std::test::Fail;

// In this table and the next are schemas of a field.
static FIELDS: &str = r#"
10 rows: name | field | out
anyOf, allOf and not beside each other
    | {"type":"object","properties":{"a":{"type":"boolean"},"b":{"type":"boolean"}},"anyOf":[{"required":["a"]}],"allOf":[{"required":["b"]}],
    "not":{"required":["a","b"]}} | structural
nested junctors
    | {"type":"object","properties":{"a":{"type":"boolean"},"b":{"type":"boolean"}},"allOf":[{"anyOf":[{"required":["a"]},
    {"not":{"oneOf":[{"required":["b"]},{}]}}]}]} | structural
four named fields, some of them often
    | {"type":"object","properties":{"a":{"type":"boolean"},"b":{"type":"boolean"},"c":{"type":"boolean"},"d":{"type":"boolean"},
    "e":{"type":"boolean"}},"oneOf":[{"required":["a","b"]},{"required":["b","a","a"]},{"not":{"required":["d","c"]}}]}
    | structural
five fields named in one branch
    | {"type":"object","properties":{"a":{"type":"boolean"},"b":{"type":"boolean"},"c":{"type":"boolean"},"d":{"type":"boolean"},
    "e":{"type":"boolean"}},"anyOf":[{"required":["a","b","c","d","e"]}]} | V16 "/properties/x"
five fields named in branches of any depth
    | {"type":"object","properties":{"a":{"type":"boolean"},"b":{"type":"boolean"},"c":{"type":"boolean"},"d":{"type":"boolean"},
    "e":{"type":"boolean"}},"allOf":[{"required":["e"],"anyOf":[{"required":["a","b"]}]}],"oneOf":[{"not":{"required":["c"]}}],
    "not":{"required":["d"]}} | V16 "/properties/x"
a name that is not declared | {"type":"object","properties":{"a":{"type":"boolean"}},"anyOf":[{"required":["zz"]}]} | V16 "/properties/x/anyOf/0"
four names that are declared and one that is not
    | {"type":"object","properties":{"a":{"type":"boolean"},"b":{"type":"boolean"},"c":{"type":"boolean"},"d":{"type":"boolean"}},
    "anyOf":[{"required":["a","b"]},{"required":["c","d"]},{"not":{"required":["a","zz"]}}]}
    | V16 "/properties/x"
    > V16 "/properties/x/anyOf/2/not"
a name that is not declared where others are kept
    | {"type":"object","x-kubernetes-preserve-unknown-fields":true,"properties":{"a":{"type":"boolean"}},"not":{"required":["zz"]}}
    | V16 "/properties/x/not"
a name of the envelope below the root
    | {"type":"object","properties":{"kind":{"type":"string"},"metadata":{"type":"object"}},"not":{"required":["kind","metadata"]}} | structural
branches without keywords, and without names | {"type":"object","oneOf":[{},{"required":[]}]} | structural
"#;

static PLACES: &str = r#"
12 rows: name | field
an object that keeps other fields
    | {"type":"object","x-kubernetes-preserve-unknown-fields":true,"properties":{"a":{"type":"boolean"}},"anyOf":[{"required":["a"]}]}
    > structural
the items of a list | {"type":"array","items":{"type":"object","properties":{"a":{"type":"boolean"}},"anyOf":[{"required":["a"]}]}}
    > structural
the values of a map | {"type":"object","additionalProperties":{"type":"object","properties":{"a":{"type":"boolean"}},"anyOf":[{"required":["a"]}]}}
    > structural
a branch of a map | {"type":"object","additionalProperties":{"type":"boolean"},"anyOf":[{"required":["a"]}]}
    > V16 "/properties/x"
    > V16 "/properties/x/anyOf/0"
a branch of a list | {"type":"array","items":{"type":"object","properties":{"a":{"type":"boolean"}}},"allOf":[{"required":["a"]}]}
    > V16 "/properties/x"
    > V16 "/properties/x/allOf/0"
a branch of a text | {"type":"string","not":{"required":[]}}
    > V16 "/properties/x/not"
a branch of any value | {"x-kubernetes-preserve-unknown-fields":true,"oneOf":[{"required":[]}]}
    > V16 "/properties/x"
    > V16 "/properties/x/oneOf/0"
other keywords of branches
    | {"type":"object","properties":{"a":{"type":"boolean"}},"allOf":[{"minProperties":1},{"maxProperties":1},{"enum":[1]},{"minimum":1},
    {"maxLength":1},{"title":""},{"x-kubernetes-map-type":"atomic"},{"uniqueItems":false},{"format":""}]}
    > V16 "/properties/x/allOf/0"
    > V16 "/properties/x/allOf/1"
    > V16 "/properties/x/allOf/2"
    > V16 "/properties/x/allOf/3"
    > V16 "/properties/x/allOf/4"
    > V16 "/properties/x/allOf/5"
    > V16 "/properties/x/allOf/6"
    > V16 "/properties/x/allOf/7"
    > V16 "/properties/x/allOf/8"
keywords of which other rules speak | {"type":"object","allOf":[{"description":""},{"nullable":true},{"id":""},{"type":"object"}]}
    > V03 "/properties/x/allOf/0"
    > V03 "/properties/x/allOf/1"
    > V05 "/properties/x/allOf/2"
    > V03 "/properties/x/allOf/3"
properties in a branch | {"type":"object","properties":{"a":{"type":"integer"}},"allOf":[{"required":["a"],"properties":{"a":{"minimum":1}}}]}
    > V16 "/properties/x/allOf/0"
names below properties of a branch
    | {"type":"object","properties":{"o":{"type":"object","properties":{"a":{"type":"boolean"}}}},"not":{"properties":{"o":{"required":["a"]}}}}
    > V16 "/properties/x/not"
a branch at a field that is declared in a branch alone
    | {"type":"object","properties":{"a":{"type":"boolean"}},"not":{"properties":{"b":{"required":["a"]}}}}
    > V16 "/properties/x/not"
    > V02 "/properties/x/not/properties/b"
    > V16 "/properties/x/not/properties/b"
"#;

// Whole schemas.
static ROOTS: &str = r#"
8 rows: name | schema | out
a junctor at the root | @ONE_OF_TWO_AT_THE_ROOT | structural
metadata named at the root
    | {"type":"object","properties":{"a":{"type":"boolean"},"metadata":{"type":"object"}},"anyOf":[{"required":["a"]},{"required":["metadata"]}]}
    | V16 "/anyOf/1"
apiVersion and kind named at the root
    | {"type":"object","properties":{"apiVersion":{"type":"string"},"kind":{"type":"string"}},
    "not":{"anyOf":[{"required":["apiVersion"]},{"required":["kind"]}]}} | V16 "/not/anyOf/0"
    > V16 "/not/anyOf/1"
five fields named at the root
    | {"type":"object","properties":{"a":{"type":"boolean"},"b":{"type":"boolean"},"c":{"type":"boolean"},"d":{"type":"boolean"},
    "e":{"type":"boolean"}},"not":{"required":["a","b","c","d","e"]}} | V16 ""
a default that meets its junctor
    | {"type":"object","properties":{"x":{"type":"object","default":{"a":true},"properties":{"a":{"type":"boolean"},"b":{"type":"boolean"}},
    "oneOf":[{"required":["a"]},{"required":["b"]}]}}} | structural
a default that fails its junctor
    | {"type":"object","properties":{"x":{"type":"object","default":{"a":true,"b":true},"properties":{"a":{"type":"boolean"},"b":{"type":"boolean"}},
    "oneOf":[{"required":["a"]},{"required":["b"]}]}}} | V14 "/properties/x"
a default that fails its junctor by a default below it
    | {"type":"object","properties":{"x":{"type":"object","default":{"a":true},"properties":{"a":{"type":"boolean"},
    "b":{"type":"boolean","default":false}},"oneOf":[{"required":["a"]},{"required":["b"]}]}}}
    | V14 "/properties/x"
a default that meets its junctor by a default below it
    | {"type":"object","properties":{"x":{"type":"object","default":{},"properties":{"a":{"type":"boolean"},"b":{"type":"boolean","default":false}},
    "oneOf":[{"required":["a"]},{"required":["b"]}]}}} | structural
"#;

static OBJECTS: &str = r#"
14 rows: name | schema | object | out
both of two fields | @ONE_OF_TWO | {"o":{"a":true,"b":true}} | F14 "/o"
neither of two fields | @ONE_OF_TWO | {"o":{}} | F14 "/o"
one of two fields, and another | @ONE_OF_TWO | {"o":{"b":true,"c":false}} | valid
no object | @ONE_OF_TWO | {} | valid
a field that is null
    | {"type":"object","properties":{"o":{"type":"object","anyOf":[{"required":["a"]}],
    "properties":{"a":{"type":"boolean","nullable":true},"b":{"type":"boolean"}}}}} | {"o":{"a":null}} | valid
a null where junctors are asked
    | {"type":"object","properties":{"o":{"type":"object","nullable":true,"oneOf":[{"required":["a"]},{"required":["b"]}],
    "properties":{"a":{"type":"boolean"},"b":{"type":"boolean"}}}}} | {"o":null} | valid
members that are not declared
    | {"type":"object","properties":{"o":{"type":"object","x-kubernetes-preserve-unknown-fields":true,"maxProperties":2,
    "oneOf":[{"required":["a"]},{"required":["b"]}],"properties":{"a":{"type":"boolean"},"b":{"type":"boolean"}}}}}
    | {"o":{"zz":1}} | F14 "/o"
members that are not declared beside one that is named
    | {"type":"object","properties":{"o":{"type":"object","x-kubernetes-preserve-unknown-fields":true,"oneOf":[{"required":["a"]},{"required":["b"]}],
    "properties":{"a":{"type":"boolean"},"b":{"type":"boolean"}}}}} | {"o":{"a":true,"zz":1}} | valid
two branches of which one asks for more
    | {"type":"object","properties":{"o":{"type":"object","oneOf":[{"required":["a"]},{"required":["a","b"]}],
    "properties":{"a":{"type":"boolean"},"b":{"type":"boolean"}}}}} | {"o":{"a":true,"b":true}} | F14 "/o"
junctors three deep
    | {"type":"object","properties":{"l":{"type":"array","items":{"type":"object","properties":{"a":{"type":"boolean"},"b":{"type":"boolean"}},
    "allOf":[{"anyOf":[{"required":["a"]},{"not":{"required":["b"]}}]}]}}}}
    | {"l":[{},{"a":true},{"b":true},{"a":true,"b":true}]} | F14 "/l/2"
a junctor beside bounds and a required field
    | {"type":"object","properties":{"o":{"type":"object","required":["b"],"minProperties":1,"not":{"required":[]},
    "properties":{"a":{"type":"boolean"},"b":{"type":"boolean"}}}}} | {"o":{}} | F10 "/o"
    > F14 "/o"
    > F12 "/o/b"
a junctor at the root | @ONE_OF_TWO_AT_THE_ROOT | {"a":true,"b":true} | F14 ""
the envelope and a junctor at the root | @ONE_OF_TWO_AT_THE_ROOT | {"apiVersion":"example.com/v1","kind":"Widget","metadata":{"name":"w"},"a":true}
    | valid
a value of another kind | @ONE_OF_TWO | {"o":[]} | F01 "/o"
"#;

#[test]
fn fields(rt: HostRuntime) -> Result<(), Fail> {
    try_tables(&rt, rt.alloc(), &FieldRow, &[FIELDS, PLACES])
}

#[test]
fn roots(rt: HostRuntime) -> Result<(), Fail> {
    try_tables(&rt, rt.alloc(), &CHECKED, &[ROOTS])
}

#[test]
fn objects(rt: HostRuntime) -> Result<(), Fail> {
    try_tables(&rt, rt.alloc(), &VALIDATED, &[OBJECTS])
}
