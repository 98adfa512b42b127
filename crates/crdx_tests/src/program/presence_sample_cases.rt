//! `sample` with junctors that ask which fields an object has.
use crate::support::harness::SchemaRunRow;
use crate::support::rows::try_tables;
use std::test::Fail;

// All samples, made by hand.
static JUNCTORS: &str = r#"
6 rows: name | command | schema | second | status
one of two fields, of three nodes | crdx sample crd.json v1 --pools pools.json --limit 3 | @ONE_OF_TWO | {} | 0
    > {}
    > {"o":{"b":false}}
    > {"o":{"b":true}}
    > {"o":{"a":false}}
    > {"o":{"a":true}}
    ! crdx: end
one of two fields, of four nodes | crdx sample crd.json v1 --pools pools.json --limit 4 | @ONE_OF_TWO | {} | 0
    > {}
    > {"o":{"b":false}}
    > {"o":{"b":true}}
    > {"o":{"a":false}}
    > {"o":{"a":true}}
    > {"o":{"b":false,"c":false}}
    > {"o":{"b":false,"c":true}}
    > {"o":{"b":true,"c":false}}
    > {"o":{"b":true,"c":true}}
    > {"o":{"a":false,"c":false}}
    > {"o":{"a":false,"c":true}}
    > {"o":{"a":true,"c":false}}
    > {"o":{"a":true,"c":true}}
    ! crdx: end
not both fields | crdx sample crd.json v1 --pools pools.json --limit 4
    | {"type":"object","properties":{"o":{"type":"object","not":{"required":["a","b"]},"properties":{"a":{"type":"boolean"},"b":{"type":"boolean"}}}}}
    | {} | 0
    > {}
    > {"o":{}}
    > {"o":{"b":false}}
    > {"o":{"b":true}}
    > {"o":{"a":false}}
    > {"o":{"a":true}}
    ! crdx: end
one of two fields at least | crdx sample crd.json v1 --pools pools.json --limit 4
    | {"type":"object","properties":{"o":{"type":"object","anyOf":[{"required":["a"]},{"required":["b"]}],
    "properties":{"a":{"type":"boolean"},"b":{"type":"boolean"}}}}} | {} | 0
    > {}
    > {"o":{"b":false}}
    > {"o":{"b":true}}
    > {"o":{"a":false}}
    > {"o":{"a":true}}
    > {"o":{"a":false,"b":false}}
    > {"o":{"a":false,"b":true}}
    > {"o":{"a":true,"b":false}}
    > {"o":{"a":true,"b":true}}
    ! crdx: end
all fields | crdx sample crd.json v1 --pools pools.json --limit 4
    | {"type":"object","properties":{"o":{"type":"object","allOf":[{"required":["a"]},{"required":["b"]}],
    "properties":{"a":{"type":"boolean"},"b":{"type":"boolean"}}}}} | {} | 0
    > {}
    > {"o":{"a":false,"b":false}}
    > {"o":{"a":false,"b":true}}
    > {"o":{"a":true,"b":false}}
    > {"o":{"a":true,"b":true}}
    ! crdx: end
nested junctors | crdx sample crd.json v1 --pools pools.json --limit 4
    | {"type":"object","properties":{"o":{"type":"object","allOf":[{"anyOf":[{"required":["a"]},{"not":{"required":["b"]}}]}],
    "properties":{"a":{"type":"boolean"},"b":{"type":"boolean"}}}}} | {} | 0
    > {}
    > {"o":{}}
    > {"o":{"a":false}}
    > {"o":{"a":true}}
    > {"o":{"a":false,"b":false}}
    > {"o":{"a":false,"b":true}}
    > {"o":{"a":true,"b":false}}
    > {"o":{"a":true,"b":true}}
    ! crdx: end
"#;

static PLACES: &str = r#"
5 rows: name | command | schema | second | status
a junctor at the root | crdx sample crd.json v1 --pools pools.json --limit 3 | @ONE_OF_TWO_AT_THE_ROOT | {} | 0
    > {"b":false}
    > {"b":true}
    > {"a":false}
    > {"a":true}
    ! crdx: end
the items of a map list, whose key is named | crdx sample crd.json v1 --pools pools.json --limit 6
    | {"type":"object","properties":{"m":{"type":"array","x-kubernetes-list-type":"map","x-kubernetes-list-map-keys":["k"],
    "items":{"type":"object","required":["k"],"oneOf":[{"required":["k","v"]},{"required":["w"]}],
    "properties":{"k":{"type":"string"},"v":{"type":"boolean"},"w":{"type":"boolean"}}}}}} | {"strings":["s"]}
    | 0
    > {}
    > {"m":[]}
    > {"m":[{"k":"s","w":false}]}
    > {"m":[{"k":"s","w":true}]}
    > {"m":[{"k":"s","v":false}]}
    > {"m":[{"k":"s","v":true}]}
    ! crdx: end
below a default | crdx sample crd.json v1 --pools pools.json --limit 4
    | {"type":"object","properties":{"o":{"type":"object","default":{"a":true},"oneOf":[{"required":["a"]},{"required":["b"]}],
    "properties":{"a":{"type":"boolean"},"b":{"type":"boolean"}}}}} | {} | 0
    > {"o":{"b":false}}
    > {"o":{"b":true}}
    > {"o":{"a":false}}
    > {"o":{"a":true}}
    ! crdx: end
a named field with a default | crdx sample crd.json v1 --pools pools.json --limit 4
    | {"type":"object","properties":{"o":{"type":"object","oneOf":[{"required":["a"]},{"required":["b"]}],
    "properties":{"a":{"type":"boolean","default":true},"b":{"type":"boolean"}}}}} | {} | 0
    > {}
    > {"o":{"a":false}}
    > {"o":{"a":true}}
    ! crdx: end
an object that keeps other fields | crdx sample crd.json v1 --pools pools.json --limit 4
    | {"type":"object","properties":{"o":{"type":"object","x-kubernetes-preserve-unknown-fields":true,"oneOf":[{"required":["a"]},{"required":["b"]}],
    "properties":{"a":{"type":"boolean"},"b":{"type":"boolean"}}}}} | {"names":["zz"],"any":[1]} | 0
    > {}
    > {"o":{"b":false}}
    > {"o":{"b":true}}
    > {"o":{"a":false}}
    > {"o":{"a":true}}
    ! crdx: end
"#;

static BOUNDS_AND_DEPTH: &str = r#"
6 rows: name | command | schema | second | status
at least two members | crdx sample crd.json v1 --pools pools.json --limit 4
    | {"type":"object","properties":{"o":{"type":"object","minProperties":2,"oneOf":[{"required":["a"]},{"required":["b"]}],
    "properties":{"a":{"type":"boolean"},"b":{"type":"boolean"},"c":{"type":"boolean"}}}}} | {} | 0
    > {}
    > {"o":{"b":false,"c":false}}
    > {"o":{"b":false,"c":true}}
    > {"o":{"b":true,"c":false}}
    > {"o":{"b":true,"c":true}}
    > {"o":{"a":false,"c":false}}
    > {"o":{"a":false,"c":true}}
    > {"o":{"a":true,"c":false}}
    > {"o":{"a":true,"c":true}}
    ! crdx: end
at most one member | crdx sample crd.json v1 --pools pools.json --limit 5
    | {"type":"object","properties":{"o":{"type":"object","maxProperties":1,"anyOf":[{"required":["a"]},{"required":["b"]}],
    "properties":{"a":{"type":"boolean"},"b":{"type":"boolean"},"c":{"type":"boolean"}}}}} | {} | 0
    > {}
    > {"o":{"b":false}}
    > {"o":{"b":true}}
    > {"o":{"a":false}}
    > {"o":{"a":true}}
    ! crdx: end
one of four fields | crdx sample crd.json v1 --pools pools.json --limit 4
    | {"type":"object","properties":{"o":{"type":"object","oneOf":[{"required":["c"]},{"required":["d"]},{"required":["a"]},{"required":["b"]}],
    "properties":{"a":{"type":"boolean"},"b":{"type":"boolean"},"c":{"type":"boolean"},"d":{"type":"boolean"}}}}}
    | {} | 0
    > {}
    > {"o":{"d":false}}
    > {"o":{"d":true}}
    > {"o":{"c":false}}
    > {"o":{"c":true}}
    > {"o":{"b":false}}
    > {"o":{"b":true}}
    > {"o":{"a":false}}
    > {"o":{"a":true}}
    ! crdx: end
a junctor that nothing meets | crdx sample crd.json v1 --pools pools.json --limit 4
    | {"type":"object","properties":{"o":{"type":"object","allOf":[{"required":["a"]},{"not":{"required":["a"]}}],
    "properties":{"a":{"type":"boolean"},"b":{"type":"boolean"}}}}} | {} | 0
    > {}
    ! crdx: end
a required object whose junctor nothing meets | crdx sample crd.json v1 --pools pools.json --limit 4
    | {"type":"object","properties":{"o":{"type":"object","allOf":[{"required":["a"]},{"not":{"required":["a"]}}],
    "properties":{"a":{"type":"boolean"},"b":{"type":"boolean"}}}},"required":["o"]} | {} | 0
    ! crdx: end
junctors inside of each other | crdx sample crd.json v1 --pools pools.json --limit 4
    | {"type":"object","oneOf":[{"required":["o"]},{"required":["p"]}],"properties":{"o":{"type":"object","not":{"required":["a"]},
    "properties":{"a":{"type":"boolean"},"b":{"type":"boolean"}}},"p":{"type":"boolean"}}} | {} | 0
    > {"p":false}
    > {"p":true}
    > {"o":{}}
    > {"o":{"b":false}}
    > {"o":{"b":true}}
    ! crdx: end
"#;

#[test]
fn samples(rt: HostRuntime) -> Result<(), Fail> {
    try_tables(
        &rt,
        rt.alloc(),
        &SchemaRunRow,
        &[JUNCTORS, PLACES, BOUNDS_AND_DEPTH],
    )
}
