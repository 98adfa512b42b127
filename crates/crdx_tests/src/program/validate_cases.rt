//! `validate`: all faults of an object, or that it is valid.
use crate::support::harness::{VALIDATED, ValidatedRow};
use crate::support::rows::try_tables;
use std::test::Fail;

// What the tables name.
static NAMED: &str = r#"
// A map of objects of an integer.
@MAP_OF_OBJECTS
    | {"type":"object","properties":{"m":{"type":"object","additionalProperties":{"type":"object","properties":{"a":{"type":"integer"}}}}}}
"#;

static VALUES: &str = r#"
11 rows: name | schema | object
exactly one branch | {"type":"object","properties":{"l":{"type":"array","items":{"type":"integer","oneOf":[{"minimum":1},{"maximum":3}]}}}}
    | {"l":[0,1,2,3,4]}
    > F14 "/l/1"
    > F14 "/l/2"
    > F14 "/l/3"
both branches | @ONE_BOUND | {"n":2}
    > F14 "/n"
no member | @ONE_BOUND | {}
    > F12 "/n"
lengths in characters, and a text that is left out
    | {"type":"object","properties":{"l":{"type":"array","items":{"type":"string","minLength":2,"not":{"enum":["ab"]}}}}} | {"l":["a","ab","é","éé"]}
    > F06 "/l/0"
    > F14 "/l/1"
    > F06 "/l/2"
a longest text | {"type":"object","properties":{"l":{"type":"array","items":{"type":"string","maxLength":2}}}} | {"l":["éé","abc"]}
    > F07 "/l/1"
exclusive bounds
    | {"type":"object","properties":{"l":{"type":"array","items":{"type":"integer","minimum":3,"exclusiveMinimum":true,"maximum":5,
    "exclusiveMaximum":true}}}} | {"l":[3,4,5]}
    > F04 "/l/0"
    > F05 "/l/2"
a null with an enum | {"type":"object","properties":{"l":{"type":"array","items":{"type":"string","nullable":true,"enum":["x"]}}}}
    | {"l":[null,"x","y"]}
    > F03 "/l/2"
all that is asked of an integer | {"type":"object","properties":{"i":{"type":"integer","enum":[5],"minimum":2,"maximum":0,"not":{}}}} | {"i":1}
    > F03 "/i"
    > F04 "/i"
    > F05 "/i"
    > F14 "/i"
junctors three deep
    | {"type":"object","properties":{"l":{"type":"array","items":{"type":"integer","allOf":[{"anyOf":[{"not":{"minimum":5}},{"enum":[7]}]}]}}}}
    | {"l":[4,5,6,7,8]}
    > F14 "/l/1"
    > F14 "/l/2"
    > F14 "/l/4"
a branch without keywords | {"type":"object","properties":{"l":{"type":"array","items":{"type":"string","oneOf":[{},{"minLength":2}]}}}}
    | {"l":["","ab"]}
    > F14 "/l/1"
the int-or-string pattern, and a bound after it
    | {"type":"object","properties":{"l":{"type":"array","items":{"x-kubernetes-int-or-string":true,"anyOf":[{"type":"integer"},{"type":"string"}]}},
    "m":{"type":"array","items":{"x-kubernetes-int-or-string":true,"allOf":[{"anyOf":[{"type":"integer"},{"type":"string"}]},{"minimum":1}]}}}}
    | {"l":[1,"1",true],"m":[0,1,"0"]}
    > F01 "/l/2"
    > F14 "/m/0"
"#;

// Values of other kinds, and numbers of items and members.
static KINDS: &str = r#"
8 rows: name | schema | object | out
values of other kinds
    | {"type":"object","properties":{"b":{"type":"boolean"},"i":{"type":"integer"},"l":{"type":"array","minItems":1,"items":{"type":"integer"}},
    "m":{"type":"object","minProperties":1,"additionalProperties":{"type":"integer"}},
    "o":{"type":"object","required":["a"],"properties":{"a":{"type":"integer"}}},"p":{"x-kubernetes-int-or-string":true},
    "s":{"type":"string","minLength":9}}} | {"b":0,"i":"0","l":{},"m":[],"o":"","p":false,"s":[null]}
    | F01 "/b"
    > F01 "/i"
    > F01 "/l"
    > F01 "/m"
    > F01 "/o"
    > F01 "/p"
    > F01 "/s"
nulls
    | {"type":"object","properties":{"a":{"type":"integer"},"l":{"type":"array","items":{"type":"string"}},
    "m":{"type":"object","additionalProperties":{"type":"string"}},"n":{"type":"object","nullable":true,"required":["a"],
    "properties":{"a":{"type":"integer"}}},"o":{"type":"object","properties":{"b":{"x-kubernetes-int-or-string":true}}},
    "x":{"x-kubernetes-preserve-unknown-fields":true},"y":{"x-kubernetes-preserve-unknown-fields":true,"nullable":true}}}
    | {"a":null,"l":[null],"m":{"k":null},"n":null,"o":{"b":null},"x":null,"y":null,"z":null} | F02 "/a"
    > F02 "/l/0"
    > F02 "/m/k"
    > F02 "/o/b"
    > F02 "/x"
a null in place of the object | {"type":"object","properties":{"m":{"type":"array","items":{"type":"string"}}}} | null | F02 ""
a list in place of the object | {"type":"object","required":["m"],"properties":{"m":{"type":"array","items":{"type":"string"}}}} | [] | F01 ""
a null in place of a list | {"type":"object","properties":{"m":{"type":"array","items":{"type":"string"}}}} | {"m":null} | F02 "/m"
numbers of items | {"type":"object","properties":{"l":{"type":"array","items":{"type":"array","minItems":1,"maxItems":2,"items":{"type":"integer"}}}}}
    | {"l":[[],[1],[1,1],[1,2,3]]} | F08 "/l/0"
    > F09 "/l/3"
too few members | @TRUTHS | {"o":{"a":true}} | F10 "/o"
too many members, one of them not declared
    | {"type":"object","properties":{"l":{"type":"array","items":{"type":"object","maxProperties":1,"properties":{"a":{"type":"integer"}}}}}}
    | {"l":[{"a":1},{"a":1,"z":null}]} | F11 "/l/1"
"#;

// Sets, map lists, members and the envelope.
static ITEMS_AND_MEMBERS: &str = r#"
9 rows: name | schema | object | out
sets | {"type":"object","properties":{"l":{"type":"array","items":{"type":"array","x-kubernetes-list-type":"set","items":{"type":"integer"}}}}}
    | {"l":[[1,2],[1,1],[],[2,1,2,2]]} | F13 "/l/1/1"
    > F13 "/l/3/2"
    > F13 "/l/3/3"
an atomic list, and a set of an integer and a text
    | {"type":"object","properties":{"a":{"type":"array","items":{"type":"integer"}},"s":{"type":"array","x-kubernetes-list-type":"set",
    "items":{"x-kubernetes-int-or-string":true}}}} | {"a":[1,1],"s":[1,"1"]} | valid
two keys of a map list
    | {"type":"object","properties":{"l":{"type":"array","items":{"type":"array","x-kubernetes-list-type":"map",
    "x-kubernetes-list-map-keys":["host","port"],"items":{"type":"object","required":["host","port"],
    "properties":{"host":{"type":"string"},"port":{"type":"integer"}}}}}}}
    | {"l":[[{"host":"x","port":0},{"host":"x","port":1}],[{"host":"x","port":0},{"host":"x","port":0}]]} | F13 "/l/1/1"
items of a map list
    | {"type":"object","properties":{"m":{"type":"array","x-kubernetes-list-type":"map","x-kubernetes-list-map-keys":["k"],
    "items":{"type":"object","required":["k"],"properties":{"k":{"type":"string"},"v":{"type":"integer"}}}}}}
    | {"m":[{"k":"a"},{"k":"a","v":"q"},{"v":1}]} | F13 "/m/1"
    > F01 "/m/1/v"
    > F12 "/m/2/k"
members that are not declared | @MAP_OF_OBJECTS | {"m":{"p":{"a":1,"z":null}},"z":{"a":""}} | valid
an absent member that has a default | {"type":"object","required":["f"],"properties":{"f":{"type":"integer","default":7}}} | {} | F12 "/f"
the envelope alone | {"type":"object","required":["apiVersion","kind","metadata","spec"],"properties":{"spec":{"type":"object"}}}
    | {"apiVersion":"v1","kind":"Widget","metadata":{"name":"w"}} | F12 "/spec"
an envelope of other values, without its kind
    | {"type":"object","required":["kind"],"properties":{"apiVersion":{"type":"string","minLength":9},"kind":{"type":"string"},
    "metadata":{"type":"object","properties":{"name":{"type":"string"}}}}} | {"apiVersion":null,"metadata":7}
    | valid
paths in order, and names with a slash, a quote and a tilde
    | {"type":"object","properties":{"a":{"type":"object","properties":{"b":{"type":"integer"}}},"a-b":{"type":"integer"},"x/\"~":{"type":"integer"}}}
    | {"a":{"b":""},"a-b":"","x/\"~":""} | F01 "/a/b"
    > F01 "/a-b"
    > F01 "/x~1\"~0"
"#;

// With `--strict`.
static STRICT: &str = r#"
4 rows: name | schema | object
a misspelled field | {"type":"object","properties":{"spec":{"type":"object","required":["replicas"],"properties":{"replicas":{"type":"integer"}}}}}
    | {"spec":{"replcas":3}}
    > F15 "/spec/replcas"
    > F12 "/spec/replicas"
a member that is not declared below a map, and one of the body | @MAP_OF_OBJECTS | {"m":{"p":{"a":"","z":null}},"z":{"a":""}}
    > F01 "/m/p/a"
    > F15 "/m/p/z"
    > F15 "/z"
the envelope | {"type":"object","properties":{"spec":{"type":"object","properties":{"apiVersion":{"type":"string"}}}}}
    | {"apiVersion":"v1","kind":"Widget","metadata":{"name":"w"},"spec":{"kind":""}}
    > F15 "/spec/kind"
an absent default and members that are kept
    | {"type":"object","properties":{"f":{"type":"integer","default":7},"o":{"type":"object","x-kubernetes-preserve-unknown-fields":true,
    "properties":{"a":{"type":"integer"}}}}} | {"kind":7,"o":{"b":1}}
    > valid
"#;

#[test]
fn values(rt: HostRuntime) -> Result<(), Fail> {
    try_tables(&rt, rt.alloc(), &VALIDATED, &[VALUES])
}

#[test]
fn kinds(rt: HostRuntime) -> Result<(), Fail> {
    try_tables(&rt, rt.alloc(), &VALIDATED, &[KINDS])
}

#[test]
fn strict(rt: HostRuntime) -> Result<(), Fail> {
    try_tables(
        &rt,
        rt.alloc(),
        &ValidatedRow {
            command: "crdx validate --strict crd.json v1",
        },
        &[NAMED, STRICT],
    )
}

#[test]
fn items_and_members(rt: HostRuntime) -> Result<(), Fail> {
    try_tables(&rt, rt.alloc(), &VALIDATED, &[NAMED, ITEMS_AND_MEMBERS])
}
