//! `leaves`: the leaves of an object that is as it is stored, and objects that are not.
use crate::support::harness::{SchemaRun, try_schema_run};
use crate::support::report::Report;
use crate::support::rows::{Kind, Row, try_tables};
use std::alloc::Global;
use std::test::Fail;

const COMMAND: &str = "crdx leaves crd.json v1";

// What the tables name.
static NAMED: &str = r#"
@SPEC
    | {"type":"object","properties":{"spec":{"type":"object","properties":{"args":{"type":"array","items":{"type":"string"}},
    "ports":{"type":"array","x-kubernetes-list-type":"map","x-kubernetes-list-map-keys":["port"],
    "items":{"type":"object","required":["port"],"properties":{"name":{"type":"string"},"port":{"type":"integer"}}}},
    "sel":{"type":"object","additionalProperties":{"type":"string"}},"tags":{"type":"array","x-kubernetes-list-type":"set",
    "items":{"type":"string"}}}}}}
// Two keys, one of which has a default.
@TWO_KEYS
    | {"type":"object","properties":{"m":{"type":"array","x-kubernetes-list-type":"map","x-kubernetes-list-map-keys":["protocol","port"],
    "items":{"type":"object","required":["port"],"properties":{"name":{"type":"string"},"port":{"type":"integer"},
    "protocol":{"type":"string","default":"TCP"}}}}}}
// Granular and atomic objects and maps, and lists of each type.
@MARKERS
    | {"type":"object","properties":{"ao":{"type":"object","x-kubernetes-map-type":"atomic","properties":{"x":{"type":"integer"}}},
    "go":{"type":"object","x-kubernetes-map-type":"granular","properties":{"x":{"type":"integer"}}},
    "am":{"type":"object","x-kubernetes-map-type":"atomic","additionalProperties":{"type":"integer"}},
    "gm":{"type":"object","additionalProperties":{"type":"object","properties":{"x":{"type":"integer"}}}},
    "al":{"type":"array","x-kubernetes-list-type":"atomic","items":{"type":"object","properties":{"x":{"type":"integer"}}}},
    "s":{"type":"array","x-kubernetes-list-type":"set","items":{"x-kubernetes-int-or-string":true}},
    "m":{"type":"array","x-kubernetes-list-type":"map","x-kubernetes-list-map-keys":["k"],
    "items":{"type":"object","x-kubernetes-map-type":"atomic","required":["k"],"properties":{"k":{"type":"boolean"},"v":{"type":"integer"}}}}}}
// Each sort of node, and nulls are accepted.
@NULLABLE
    | {"type":"object","properties":{"a":{"type":"integer","nullable":true},"b":{"type":"object","nullable":true,
    "properties":{"x":{"type":"integer","nullable":true}}},"c":{"type":"object","nullable":true,
    "additionalProperties":{"type":"integer","nullable":true}},"d":{"type":"array","nullable":true,"items":{"type":"integer","nullable":true}},
    "e":{"type":"array","nullable":true,"x-kubernetes-list-type":"set","items":{"type":"integer"}},
    "f":{"type":"array","nullable":true,"x-kubernetes-list-type":"map","x-kubernetes-list-map-keys":["k"],
    "items":{"type":"object","required":["k"],"properties":{"k":{"type":"integer"},"v":{"type":"integer","nullable":true}}}},
    "g":{"x-kubernetes-preserve-unknown-fields":true,"nullable":true}}}
@PRESERVING
    | {"type":"object","x-kubernetes-preserve-unknown-fields":true,"properties":{"m":{"type":"object","x-kubernetes-preserve-unknown-fields":true,
    "properties":{"d":{"type":"object","properties":{"x":{"type":"integer"}}}}},"o":{"x-kubernetes-preserve-unknown-fields":true}}}
"#;

static LEAVES: &str = r#"
9 rows: name | schema | object
a list, a map list, an empty map and a set | @SPEC | {"spec":{"args":["x","y"],"ports":[{"name":"w","port":80}],"sel":{},"tags":["t"]}}
    > ["f:spec","f:args"]
    > ["f:spec","f:ports","k:{\"port\":80}","f:name"]
    > ["f:spec","f:ports","k:{\"port\":80}","f:port"]
    > ["f:spec","f:sel"]
    > ["f:spec","f:tags","v:\"t\""]
an empty body, with an envelope | @SPEC | {"kind":"K"}
    > []
an empty body | @SPEC | {}
    > []
the envelope is no leaf | @SPEC | {"apiVersion":"v1","kind":"K","metadata":{"name":"n"},"spec":{"sel":{"b":"","a":"x"}}}
    > ["f:spec","f:sel","f:a"]
    > ["f:spec","f:sel","f:b"]
a set of integers and texts, in its own order | @MARKERS | {"s":[2,"1",1]}
    > ["f:s","v:2"]
    > ["f:s","v:\"1\""]
    > ["f:s","v:1"]
atomic beside granular | @MARKERS
    | {"al":[{"x":1},{}],"am":{"a":1},"ao":{"x":1},"gm":{"a":{"x":1},"b":{}},"go":{"x":1},"m":[{"k":true,"v":1},{"k":false}]}
    > ["f:al"]
    > ["f:am"]
    > ["f:ao"]
    > ["f:gm","f:a","f:x"]
    > ["f:gm","f:b"]
    > ["f:go","f:x"]
    > ["f:m","k:{\"k\":true}"]
    > ["f:m","k:{\"k\":false}"]
all that can be empty | @MARKERS | {"al":[],"am":{},"ao":{},"gm":{},"go":{},"m":[],"s":[]}
    > ["f:al"]
    > ["f:am"]
    > ["f:ao"]
    > ["f:gm"]
    > ["f:go"]
    > ["f:m"]
    > ["f:s"]
items in their own order, keys by name | @TWO_KEYS
    | {"m":[{"port":2,"protocol":"TCP"},{"name":"n","port":1,"protocol":"TCP"},{"port":1,"protocol":"UDP"}]}
    > ["f:m","k:{\"port\":2,\"protocol\":\"TCP\"}","f:port"]
    > ["f:m","k:{\"port\":2,\"protocol\":\"TCP\"}","f:protocol"]
    > ["f:m","k:{\"port\":1,\"protocol\":\"TCP\"}","f:name"]
    > ["f:m","k:{\"port\":1,\"protocol\":\"TCP\"}","f:port"]
    > ["f:m","k:{\"port\":1,\"protocol\":\"TCP\"}","f:protocol"]
    > ["f:m","k:{\"port\":1,\"protocol\":\"UDP\"}","f:port"]
    > ["f:m","k:{\"port\":1,\"protocol\":\"UDP\"}","f:protocol"]
texts that are escaped, once in an element and once more in the line | @MAP_LIST | {"m":[{"k":"a\"\n"}]}
    > ["f:m","k:{\"k\":\"a\\\"\\n\"}","f:k"]
"#;

static OPEN_LEAVES_AND_NULLS: &str = r#"
6 rows: name | schema | object
members that are not declared, and the value of an open node | @PRESERVING
    | {"a":[{"b":1}],"m":{"c":{"q":[1,{"r":null}]},"d":{"x":1},"e\"":null},"o":{"z":[1]},"p":{}}
    > ["f:a"]
    > ["f:m","f:c"]
    > ["f:m","f:d","f:x"]
    > ["f:m","f:e\""]
    > ["f:o"]
    > ["f:p"]
an open value that is empty, and an object that only preserves | @PRESERVING | {"m":{},"o":{}}
    > ["f:m"]
    > ["f:o"]
a null at each sort of node | @NULLABLE | {"a":null,"b":null,"c":null,"d":null,"e":null,"f":null,"g":null}
    > ["f:a"]
    > ["f:b"]
    > ["f:c"]
    > ["f:d"]
    > ["f:e"]
    > ["f:f"]
    > ["f:g"]
nulls below each sort of node | @NULLABLE | {"b":{"x":null},"c":{"k":null},"d":[null],"f":[{"k":1,"v":null}],"g":[null]}
    > ["f:b","f:x"]
    > ["f:c","f:k"]
    > ["f:d"]
    > ["f:f","k:{\"k\":1}","f:k"]
    > ["f:f","k:{\"k\":1}","f:v"]
    > ["f:g"]
names with letters of elements
    | {"type":"object","properties":{"f:a":{"type":"object","additionalProperties":{"type":"boolean"}},"":{"type":"boolean"}}}
    | {"":true,"f:a":{"":true,"k:{}":false}}
    > ["f:"]
    > ["f:f:a","f:"]
    > ["f:f:a","f:k:{}"]
an atomic map list item inside of a map, and a set inside of a map list
    | {"type":"object","properties":{"x":{"type":"object","additionalProperties":{"type":"array","x-kubernetes-list-type":"map",
    "x-kubernetes-list-map-keys":["k"],"items":{"type":"object","required":["k"],"properties":{"k":{"type":"integer"},
    "s":{"type":"array","x-kubernetes-list-type":"set","items":{"type":"boolean"}}}}}}}}
    | {"x":{"y":[{"k":-1,"s":[true,false]}]}}
    > ["f:x","f:y","k:{\"k\":-1}","f:k"]
    > ["f:x","f:y","k:{\"k\":-1}","f:s","v:true"]
    > ["f:x","f:y","k:{\"k\":-1}","f:s","v:false"]
"#;

static OTHERS: &str = r#"
9 rows: name | schema | object
a member that is pruned | @SPEC | {"spec":{"z":1}}
a key whose default is not there | @TWO_KEYS | {"m":[{"port":2}]}
a null that is dropped | @SPEC | {"spec":null}
a value of another kind | @SPEC | {"spec":1}
items that repeat one another | @SPEC | {"spec":{"tags":["t","t"]}}
items with equal keys | @SPEC | {"spec":{"ports":[{"port":1},{"name":"x","port":1}]}}
a key that is absent | @MAP_LIST | {"m":[{"v":1}]}
a body that is a list | @SPEC | []
a body that is null | @SPEC | null
"#;

/// An object by a schema, and its leaves.
struct ObjectLeaves;

impl Kind for ObjectLeaves {
    fn attempt(&self, report: &mut Report, alloc: Global, row: &Row) -> Result<(), Fail> {
        let run = SchemaRun {
            command: COMMAND,
            schema: row.text("schema"),
            second: row.text("object"),
            out: row.out(),
            err: "",
            status: 0,
        };
        try_schema_run(report, alloc, &run)
    }
}

#[test]
fn leaves(rt: HostRuntime) -> Result<(), Fail> {
    try_tables(
        &rt,
        rt.alloc(),
        &ObjectLeaves,
        &[NAMED, LEAVES, OPEN_LEAVES_AND_NULLS],
    )
}

/// An object that is not as it is stored by a schema.
struct NotStored;

impl Kind for NotStored {
    fn attempt(&self, report: &mut Report, alloc: Global, row: &Row) -> Result<(), Fail> {
        let run = SchemaRun {
            command: COMMAND,
            schema: row.text("schema"),
            second: row.text("object"),
            out: "",
            err: "crdx: object: L1\n",
            status: 1,
        };
        try_schema_run(report, alloc, &run)
    }
}

#[test]
fn objects_that_are_not_stored(rt: HostRuntime) -> Result<(), Fail> {
    try_tables(&rt, rt.alloc(), &NotStored, &[NAMED, OTHERS])
}
