//! `cover` at objects with two fields: one is in a sample with the other only where something asks for it.
use crate::support::harness::SchemaRunRow;
use crate::support::rows::try_tables;
use std::test::Fail;

// What the tables name.
static NAMED: &str = r#"
// What samples have with `b`, which is always there: `a`, what is below it, and what is below `b`.
@WITH_THE_OTHER
    > {"o":{"b":{}}}
    > {"o":{"a":{},"b":{}}}
    > {"o":{"a":{"x":false},"b":{}}}
    > {"o":{"b":{"y":false}}}
"#;

static ROWS: &str = r#"
10 rows: name | command | schema | second | status
two fields for which nothing asks | crdx cover crd.json v1
    | {"type":"object","properties":{"o":{"type":"object","properties":{"a":{"type":"object","properties":{"x":{"type":"boolean"}}},
    "b":{"type":"object","properties":{"y":{"type":"boolean"}}}}}}} | {} | 0
    > {"o":{}}
    > {"o":{"a":{}}}
    > {"o":{"a":{"x":false}}}
    > {"o":{"b":{}}}
    > {"o":{"b":{"y":false}}}
    ! crdx: all paths are in some sample
at least two members | crdx cover crd.json v1
    | {"type":"object","properties":{"o":{"type":"object","minProperties":2,"properties":{"a":{"type":"object","properties":{"x":{"type":"boolean"}}},
    "b":{"type":"object","properties":{"y":{"type":"boolean"}}}}}}} | {} | 0
    > {"o":{"a":{},"b":{}}}
    > {"o":{"a":{"x":false},"b":{}}}
    > {"o":{"a":{},"b":{"y":false}}}
    ! crdx: all paths are in some sample
a required field | crdx cover crd.json v1
    | {"type":"object","properties":{"o":{"type":"object","required":["b"],"properties":{"a":{"type":"object","properties":{"x":{"type":"boolean"}}},
    "b":{"type":"object","properties":{"y":{"type":"boolean"}}}}}}} | {} | 0
    > @WITH_THE_OTHER
    ! crdx: all paths are in some sample
a field with a default | crdx cover crd.json v1
    | {"type":"object","properties":{"o":{"type":"object","properties":{"a":{"type":"object","properties":{"x":{"type":"boolean"}}},
    "b":{"type":"object","default":{},"properties":{"y":{"type":"boolean"}}}}}}} | {} | 0
    > @WITH_THE_OTHER
    ! crdx: all paths are in some sample
a field that a junctor asks for | crdx cover crd.json v1
    | {"type":"object","properties":{"o":{"type":"object","allOf":[{"required":["b"]}],
    "properties":{"a":{"type":"object","properties":{"x":{"type":"boolean"}}},"b":{"type":"object","properties":{"y":{"type":"boolean"}}}}}}}
    | {} | 0
    > @WITH_THE_OTHER
    ! crdx: all paths are in some sample
a field that the pools ask for | crdx cover crd.json v1 --pools pools.json
    | {"type":"object","properties":{"o":{"type":"object","properties":{"a":{"type":"object","properties":{"x":{"type":"boolean"}}},
    "b":{"type":"object","properties":{"y":{"type":"boolean"}}}}}}} | {"present":["/o/b"]} | 0
    > @WITH_THE_OTHER
    ! crdx: all paths are in some sample
fixed values with both fields | crdx cover crd.json v1 --pools pools.json
    | {"type":"object","properties":{"o":{"type":"object","properties":{"a":{"type":"object","properties":{"x":{"type":"boolean"}}},
    "b":{"type":"object","properties":{"y":{"type":"boolean"}}}}}}}
    | {"fixed":{"/o":[{"a":{"x":true},"b":{}}]}} | 0
    > {"o":{"a":{"x":true},"b":{}}}
    ! crdx: 1 path is in no sample of at most 127 nodes
each of two items of a list | crdx cover crd.json v1
    | {"type":"object","properties":{"l":{"type":"array","minItems":2,"items":{"type":"object",
    "properties":{"a":{"type":"object","properties":{"x":{"type":"boolean"}}},"b":{"type":"object","properties":{"y":{"type":"boolean"}}}}}}}}
    | {} | 0
    > {"l":[{},{}]}
    > {"l":[{"a":{}},{"a":{}}]}
    > {"l":[{"a":{"x":false}},{"a":{"x":false}}]}
    > {"l":[{"b":{}},{"b":{}}]}
    > {"l":[{"b":{"y":false}},{"b":{"y":false}}]}
    ! crdx: all paths are in some sample
each of two items of a map list | crdx cover crd.json v1
    | {"type":"object","properties":{"l":{"type":"array","minItems":2,"x-kubernetes-list-type":"map","x-kubernetes-list-map-keys":["k"],
    "items":{"type":"object","required":["k"],"properties":{"a":{"type":"object","properties":{"x":{"type":"boolean"}}},
    "b":{"type":"object","properties":{"y":{"type":"boolean"}}},"k":{"type":"boolean"}}}}}} | {} | 0
    > {"l":[{"k":false},{"k":true}]}
    > {"l":[{"a":{},"k":false},{"a":{},"k":true}]}
    > {"l":[{"a":{"x":false},"k":false},{"a":{"x":false},"k":true}]}
    > {"l":[{"b":{},"k":false},{"b":{},"k":true}]}
    > {"l":[{"b":{"y":false},"k":false},{"b":{"y":false},"k":true}]}
    ! crdx: all paths are in some sample
each of two values of a map | crdx cover crd.json v1 --pools pools.json
    | {"type":"object","properties":{"m":{"type":"object","minProperties":2,"additionalProperties":{"type":"object",
    "properties":{"a":{"type":"object","properties":{"x":{"type":"boolean"}}},"b":{"type":"object","properties":{"y":{"type":"boolean"}}}}}}}}
    | {"names":["j","k"]} | 0
    > {"m":{"j":{},"k":{}}}
    > {"m":{"j":{"a":{}},"k":{"a":{}}}}
    > {"m":{"j":{"a":{"x":false}},"k":{"a":{"x":false}}}}
    > {"m":{"j":{"b":{}},"k":{"b":{}}}}
    > {"m":{"j":{"b":{"y":false}},"k":{"b":{"y":false}}}}
    ! crdx: all paths are in some sample
"#;

#[test]
fn covers_beside(rt: HostRuntime) -> Result<(), Fail> {
    try_tables(&rt, rt.alloc(), &SchemaRunRow, &[NAMED, ROWS])
}
